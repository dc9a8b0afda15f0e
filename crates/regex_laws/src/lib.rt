// An expression is read from its characters exactly if a tree of the grammar spells them, and it is the meaning of that tree. No code.

#![tactic(auto)]
