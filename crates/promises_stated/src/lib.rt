// What is promised of the public operations, over the definition alone: the types (specs/Promises.antt), when each operation refuses (specs/Refusals.antt) and the theorems (specs/Demands.antt, and proofs/Demands.antt for those that rest on others); the other files are the laws behind them, and Refused.antt has a small input for each refusal number. This crate has no code: the crate `promises` holds the operations to it.

#![tactic(auto)]
