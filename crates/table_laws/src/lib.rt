// Laws about the definition's table of values: child counts, parents, the least wrong node, and what an accepted table gives its readers.
// This crate has no code: see specs/.

#![tactic(auto)]
