// What compile writes for a tree of the grammar, well typed or not, and the laws that tie it to the definition. This crate has no code: see specs/.

#![tactic(auto)]
