// What may follow a tree, the numbers that are told of trees, and the parts of rules that a function reads by itself. This crate has no code: see specs/.

#![tactic(auto)]
