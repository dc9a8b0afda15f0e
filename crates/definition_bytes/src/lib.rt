// Laws of the definition's lists of bytes: little-endian numbers, two's complement, parts, and when two are the same. This crate has no code: see specs/.

#![tactic(auto)]
