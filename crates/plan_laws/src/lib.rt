// Laws of plans as the definition has them: a plan and a pool spell one query form at most. This crate has no code: see specs/.

#![tactic(auto)]
