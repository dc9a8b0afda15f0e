// Computed examples of expressions: the rows that hold the definition of match and search to answers. No code.

#![tactic(auto)]
