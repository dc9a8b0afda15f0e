// Laws of the Normalized Path of a node: it is a query that selects that node alone, no other node of the table has it, and it is the one text of RFC 9535's section 2.7 for its steps. This crate has no code: see specs/.

#![tactic(auto)]
