// Lines of an input, one after the other, and the words of an answer on standard output. No contract can say what is read or written.
//
//     input     lines of an input, or all of it
//     output    the words of an answer
//     rooms     room for what is read

#![tactic(auto)]

pub mod input;
pub mod output;
pub mod rooms;
