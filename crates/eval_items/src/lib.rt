// The leaves of a plan's run: what an item of a plan says by itself, with no query evaluated.
//
//   leaves   literals, names, indices, slices, and the operations of a filter's code on values
//   plans    where the items of a plan end
//   regexes  match and search of two values

#![tactic(auto)]

use eval_values::Operand;

pub mod leaves;
pub mod plans;
pub mod regexes;

// What a filter's code has at hand: an answer, the last two values, and the place in the plan.
#[derive(Clone, Copy)]
pub struct Regs {
    pub acc: bool,
    pub x: Operand,
    pub y: Operand,
    pub q: usize,
}
