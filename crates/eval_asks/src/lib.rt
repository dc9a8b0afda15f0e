// What the functions of evaluation and its shortcuts are lent, ask and give: what stands behind their references of one word. What each asks and gives stands in specs/.
//
//   cells   how far a filter has been told of a node

#![tactic(auto)]

pub mod cells;

// What is lent: the plan, its pool, the table and the text.
#[derive(Clone, Copy)]
pub struct Lent<'a> {
    pub plan: &'a [u8],
    pub pool: &'a [u8],
    pub table: &'a [u8],
    pub text: &'a [u8],
}

// The numbers of the evaluation: the node that `$` stands for, how many nodes are counted, and the next place of the list.
#[derive(Clone, Copy)]
pub struct State {
    pub root: usize,
    pub cap: usize,
    pub at: usize,
}
