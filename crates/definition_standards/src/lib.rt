// Where this engine means what RFC 9535 means: which slices are standard. This crate has no code: see specs/.

#![tactic(auto)]
