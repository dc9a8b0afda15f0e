// The reader of expressions: characters in, code out.
//
//   steps      where the reader stands
//   classes    a class
//   atoms      what stands between the groups: characters, ".", classes, and the repeat of what was written
//   nested     alternatives, branches, pieces and groups, and the whole expression

#![tactic(auto)]

pub mod atoms;
pub mod classes;
pub mod nested;
pub mod steps;
