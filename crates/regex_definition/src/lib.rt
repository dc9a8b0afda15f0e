// Expressions of RFC 9485 (I-Regexp), the part that document 02, W4, names: how one is spelled and the texts that it describes. No code.

#![tactic(auto)]
