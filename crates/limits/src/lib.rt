// Numbers of the rules that the code of several layers needs, each once. `Limits` of the definition has them too, and the contract of
// each function that uses one ties the two.

#![tactic(auto)]

// 2^53-1: the largest index, bound, step and count. Every whole number up to it is a float.
pub const MAX_INT: u64 = 9007199254740991;
