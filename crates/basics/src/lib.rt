// What it means that a function reads a rule of the grammar, both ways; and laws of tests and of lists that many crates use. This crate has no code: see specs/.

#![tactic(auto)]
