// The laws of reading, rule by rule: what was read of the parts gives what was read of the whole, both ways. This crate has no code: see specs/.

#![tactic(auto)]
