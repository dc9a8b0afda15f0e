// What a query means, said from RFC 9535 and document 01. This crate has no code: see specs/.

#![tactic(auto)]
