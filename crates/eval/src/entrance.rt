// Where evaluation begins: a node and the segments of a plan, with what is lent to it. Names and indices at the front are followed first; then the list becomes one word,
// and a child segment of one filter, slice or wildcard is applied at once.
ghost use Rattle.std.specs.Prelude.{length};
ghost use Rattle.eval_asks.specs.Asks.{Begins, AskSegments, DoneSegments, AskEnter, Entered};

use crate::{each_child, each_place, eval_filter, evaluate_segment};
use eval_asks::{Lent, State};
use plan_format::heads::{FILTER_HEAD, SLICE_HEAD, WILDCARD_HEAD};
use plan_format::kinds::{CHILD, END};
use table::records;
use text::bytes;

// From one node, what the segments at pc select: the next place of the list. Where names and indices lead to the end of the query, no further call is needed.
pub fn evaluate<'a>(
    plan: &'a [u8],
    pool: &'a [u8],
    table: &'a [u8],
    text: &'a [u8],
    root: usize,
    node: usize,
    pc: usize,
    list: &mut [u32],
    at: usize,
    cap: usize,
) -> usize
    requires begins { Begins plan.now pool.now table.now text.now root node (length list.old) at cap }
    requires ask_segments { AskSegments plan.now pool.now pc }
    ensures { DoneSegments cap plan.now pool.now table.now text.now root node pc list.old at list.new result }
{
    let r = eval_front::front(plan, pool, table, text, node, pc);
    let Ok(m) = r.node else {
        return at;
    };
    let q = r.pc;
    if plan[q] == END {
        return eval_front::push(list, at, m, cap);
    }
    let lent = Lent {
        plan,
        pool,
        table,
        text,
    };
    let mut state = State { root, cap, at };
    enter(&lent, &mut state, list, m, q);
    state.at
}

// The list, which is lent as one word.
#[derive(Drop)]
struct Places<'a> {
    list: &'a mut [u32],
}

// The entrance: the list becomes one word.
fn enter(lent: &Lent, state: &mut State, list: &mut [u32], node: usize, pc: usize)
    requires { AskEnter lent.now node pc state.old list.old }
    ensures { Entered lent.now node pc state.old list.entry state.new list.exit }
{
    let mut places = Places { list };
    let held = &mut places;
    first(lent, state, &mut held.list, node, pc);
}

// The same with the list as one word. A child segment of one filter, slice or wildcard is applied at once.
fn first(lent: &Lent, state: &mut State, list: &mut &mut [u32], node: usize, pc: usize)
    requires { AskEnter lent.now node pc state.old list.old.now }
    ensures { Entered lent.now node pc state.old list.old state.new list.new }
{
    let plan = lent.plan;
    if plan[pc] != CHILD {
        evaluate_segment(lent, state, list, node, pc);
        return;
    }
    let head = bytes::word32(plan, pc);
    let p = pc + 3;
    if head == FILTER_HEAD {
        let rest = p + 3 + bytes::word16(plan, p + 1);
        if !eval_shortcuts::keep_children(lent, state, list, node, p, rest) {
            eval_filter(lent, state, list, node, p, rest);
        }
        return;
    }
    if head == SLICE_HEAD {
        each_place(lent, state, list, node, p, pc + 29);
        return;
    }
    if head == WILDCARD_HEAD {
        let table = lent.table;
        let i = records::first_child(table, node) as usize;
        let n = records::child_count(table, node) as usize;
        let j = eval_shortcuts::ahead(lent, state, list, i, i + n, pc + 4);
        each_child(lent, state, list, j, i + n, pc + 4);
        return;
    }
    evaluate_segment(lent, state, list, node, pc);
}
