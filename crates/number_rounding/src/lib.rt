// What "the float nearest to N times ten to E, ties to even" says over whole numbers, and that the definition's rounding gives that float and no other.
// This crate has no code: see specs/, and proofs/ for the theorems that rest on others of it.
//
// Near      the statement
// Round     the library's rounding meets it (concluded in proofs/Round)
// Unique    only one float meets it (concluded in proofs/Unique)
// Decimal   both, for the numbers of float literals

#![tactic(auto)]
