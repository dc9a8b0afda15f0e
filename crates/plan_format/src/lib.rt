// The format of a plan: a byte of kind for each item, the lengths of the bodies that kinds have, and the bytes that stand in them for operators and constants.
// Each stands here once, for all that read and write plans.
//
//   kinds       the kinds of items
//   operators   the body of compare
//   words       the body of a constant
//   lengths     how long bodies and items are
//   heads       the first four bytes of a child segment of one selector, as a number
//   written     that all of them are what the definition writes

#![tactic(auto)]

pub mod heads;
pub mod kinds;
pub mod lengths;
pub mod operators;
pub mod words;
mod written;
