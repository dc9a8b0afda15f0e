// Laws of evaluation that the proofs of evaluation cite: emission into places, loops over children, the bytes of a plan, and a filter's code as operations on a stack of values.
// This crate has no code: see specs/.

#![tactic(auto)]
