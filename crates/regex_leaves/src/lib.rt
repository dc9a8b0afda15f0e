// The parts of an expression that do not nest, read from its characters: escapes, the items of a class, quantifiers; and one word put in before others.
//
//   chars      classes of characters, an escape, a character
//   items      the items of a class
//   counts     quantifiers
//   words      the words that are written

#![tactic(auto)]

pub mod chars;
pub mod counts;
pub mod items;
pub mod words;
