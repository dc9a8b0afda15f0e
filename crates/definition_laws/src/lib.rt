// Laws about the definition as a whole: a query is spelled in UTF-8, and selects only nodes of the table; 64 levels hold every table's tree;
// what stands in for a part without a form is in no form; every query form is the form of some tree. This crate has no code: see specs/.

#![tactic(auto)]
