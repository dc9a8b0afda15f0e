// Laws of UTF-8 as the definition has it. This crate has no code: see specs/.

#![tactic(auto)]
