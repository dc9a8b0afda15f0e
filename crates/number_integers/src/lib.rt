// Small laws on tests and whole numbers that several crates use. This crate has no code: see specs/.
//
// Signed    a whole number by its sign and its magnitude
// Compare   what a comparison of natural numbers says
// Tests     what a test made of two says

#![tactic(auto)]
