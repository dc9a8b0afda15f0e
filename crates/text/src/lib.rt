// Reading and writing over plain bytes: numbers, parts of texts, UTF-8 and the bracket count.
//
//   bytes      little-endian numbers in a slice, read and written
//   parts      equality, order and copies of parts of texts
//   encoding   whether bytes are UTF-8, and how many scalar values a text has
//   placed     whether a long text is UTF-8, many bytes at once
//   blocks     the tests of long texts, by the lengths of their characters beyond ASCII
//   brackets   the bracket count of a query

#![tactic(auto)]

mod blocks;
pub mod brackets;
pub mod bytes;
pub mod encoding;
pub mod parts;
mod placed;
