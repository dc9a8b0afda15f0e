// Evaluation: what the segments of a plan select of a table, depth first over plan items and child ranges, with no list between segments. A level of the table is a
// call, and a query in a filter's code is a call of the same evaluation. It stops as soon as it has passed its cap. A selection has as many places as its cap; a query
// in a filter has one place, for its first node.
//
// What is lent, the numbers of the evaluation and the list stand behind one reference each, so that a call hands on few words and one that comes last takes the place
// of its caller's frame. What is faster than the general way stands in `eval_shortcuts`, whose functions do what is asked or leave it.
//
//   answers    what is asked of a query in a filter's code
//   descents   the next child that a descent goes to
//   entrance   where evaluation begins
//   rows       the nodes of a range with a filter that meets match or search

#![tactic(auto)]

ghost use Rattle.std.specs.Prelude.{◌≤◌};
ghost use Rattle.eval_filters.specs.Queries.{Within};
ghost use Rattle.eval_filters.specs.Tests.{AskRest};
ghost use Rattle.eval_filters.specs.Turns.{AskTurn};
ghost use Rattle.eval_asks.specs.Lent.{plan_of, pool_of, table_of, text_of};
ghost use Rattle.eval_asks.specs.Asks.{Asked, Steady, AskSegment, DoneSegment, AskSelectors, DoneSelectors, AskDescent, DoneDescent, AskSelector, DoneSelector, AskKind, AskEach, DoneEach, AskNext, DoneNext, AskQuery, DoneQuery};
ghost use Rattle.eval.specs.Loops.{DoneSaid, DoneTested};

use eval_asks::{Lent, State};
use eval_filters::Told;
use eval_items::{Regs, leaves, plans};
use eval_values::Operand;
use plan_format::heads::WILDCARD_HEAD;
use plan_format::kinds::{CHILD, CURRENT, END, INDEX, SLICE, WILDCARD};
use table::records;
use text::bytes;

mod answers;
mod descents;
pub mod entrance;
mod rows;

// What a filter says of a node: the answer in front of q. At the end of the code it is the filter's; else a call of match or search stands there. `deep` says whether a
// query was evaluated for it.
#[derive(Clone, Copy)]
struct Said {
    acc: bool,
    q: usize,
    deep: bool,
}

// The next node that a filter keeps; where `call`, the next that goes by cells with those behind it. `seen` says whether those behind it should.
// Its node is the end of the range where there is none: the loop over the nodes ends there, so that an Option is no plainer.
#[derive(Clone, Copy)]
struct Next {
    node: usize,
    call: bool,
    seen: bool,
}

// One node with the segments at pc.
#[cycle(evaluation)]
fn evaluate_segment(lent: &Lent, state: &mut State, list: &mut &mut [u32], node: usize, pc: usize)
    requires asked { Asked lent.now state.old list.old.now }
    requires ask_segment { AskSegment lent.now node pc }
    ensures steady { Steady state.old list.old state.new list.new }
    ensures done_segment { DoneSegment lent.now node pc state.old list.old.now state.new list.new.now }
{
    let plan = lent.plan;
    let r = eval_front::reach(plan, lent.pool, lent.table, lent.text, node, pc);
    let Ok(m) = r.node else {
        return;
    };
    let q = r.pc;
    let k = plan[q];
    if k == END {
        let at = state.at;
        let next = eval_front::push(*list, at, m, state.cap);
        state.at = next;
        return;
    }
    if k == CHILD {
        apply_selectors(lent, state, list, m, q);
        return;
    }
    if eval_shortcuts::has_flats(lent, q) {
        descend_flats(lent, state, list, m, q);
        return;
    }
    recursive_descent(lent, state, list, m, q);
}

// The descendant segment at pc on a node: "the node, then each child's descent, in table order".
#[cycle(evaluation)]
fn recursive_descent(lent: &Lent, state: &mut State, list: &mut &mut [u32], node: usize, pc: usize)
    requires asked { Asked lent.now state.old list.old.now }
    requires ask_descent { AskDescent lent.now node pc }
    ensures steady { Steady state.old list.old state.new list.new }
    ensures done_descent { DoneDescent lent.now node pc state.old list.old.now state.new list.new.now }
{
    apply_selectors(lent, state, list, node, pc);
    let table = lent.table;
    let first = records::first_child(table, node) as usize;
    let count = records::child_count(table, node) as usize;
    let e = first + count;
    // The steps differ, so that `for` is no plainer.
    let mut j = descents::skip_scalars(lent, state, list, first, e, pc);
    while j < e {
        recursive_descent(lent, state, list, j, pc);
        j = descents::skip_scalars(lent, state, list, j + 1, e, pc);
    }
}

// The same where `pass_flats` may pass some of the children. It is a function of its own, since the stack that a level of the table takes is promised (docs/DECISIONS.md, 142).
#[cycle(evaluation)]
fn descend_flats(lent: &Lent, state: &mut State, list: &mut &mut [u32], node: usize, pc: usize)
    requires asked { Asked lent.now state.old list.old.now }
    requires ask_descent { AskDescent lent.now node pc }
    ensures steady { Steady state.old list.old state.new list.new }
    ensures done_descent { DoneDescent lent.now node pc state.old list.old.now state.new list.new.now }
{
    apply_selectors(lent, state, list, node, pc);
    let table = lent.table;
    let first = records::first_child(table, node) as usize;
    let count = records::child_count(table, node) as usize;
    let e = first + count;
    // The steps differ, so that `for` is no plainer.
    let mut j = descents::skip_flats(lent, state, list, first, e, pc);
    while j < e {
        descend_flats(lent, state, list, j, pc);
        j = descents::skip_flats(lent, state, list, j + 1, e, pc);
    }
}

// The selectors of the segment at pc on a node, one after the other.
#[cycle(evaluation)]
fn apply_selectors(lent: &Lent, state: &mut State, list: &mut &mut [u32], node: usize, pc: usize)
    requires asked { Asked lent.now state.old list.old.now }
    requires ask_selectors { AskSelectors lent.now node pc }
    ensures steady { Steady state.old list.old state.new list.new }
    ensures done_selectors { DoneSelectors lent.now node pc state.old list.old.now state.new list.new.now }
{
    let plan = lent.plan;
    let mut m = bytes::word16(plan, pc + 1);
    let mut p = pc + 3;
    let rest = plans::skip_selectors(plan, p, m);
    while 1 < m {
        apply_selector(lent, state, list, node, p, rest);
        if state.cap < state.at {
            return;
        }
        p = plans::next_selector(lent.plan, p);
        m -= 1;
    }
    apply_selector(lent, state, list, node, p, rest);
}

// The selector at p on a node, each selected node with the segments at rest.
#[cycle(evaluation)]
fn apply_selector(
    lent: &Lent,
    state: &mut State,
    list: &mut &mut [u32],
    node: usize,
    p: usize,
    rest: usize,
)
    requires asked { Asked lent.now state.old list.old.now }
    requires ask_selector { AskSelector lent.now node p rest }
    ensures steady { Steady state.old list.old state.new list.new }
    ensures done_selector { DoneSelector lent.now node p rest state.old list.old.now state.new list.new.now }
{
    let plan = lent.plan;
    let k = plan[p];
    if k <= INDEX {
        let found = leaves::select_one(plan, lent.pool, lent.table, lent.text, p, node);
        let Some(m) = found else {
            return;
        };
        if plan[rest] == END {
            let at = state.at;
            let next = eval_front::push(*list, at, m, state.cap);
            state.at = next;
            return;
        }
        evaluate_segment(lent, state, list, m, rest);
        return;
    }
    if k == SLICE {
        each_place(lent, state, list, node, p, rest);
        return;
    }
    if k == WILDCARD {
        let table = lent.table;
        let i = records::first_child(table, node) as usize;
        let n = records::child_count(table, node) as usize;
        each_child(lent, state, list, i, i + n, rest);
        return;
    }
    if !eval_shortcuts::keep_children(lent, state, list, node, p, rest) {
        eval_filter(lent, state, list, node, p, rest);
    }
}

// The elements of a node at the places of the slice at p, each with the segments at rest.
#[cycle(evaluation)]
fn each_place(
    lent: &Lent,
    state: &mut State,
    list: &mut &mut [u32],
    node: usize,
    p: usize,
    rest: usize,
)
    requires asked { Asked lent.now state.old list.old.now }
    requires ask_selector { AskSelector lent.now node p rest }
    requires ask_kind { AskKind lent.now p 7 }
    ensures steady { Steady state.old list.old state.new list.new }
    ensures done_selector { DoneSelector lent.now node p rest state.old list.old.now state.new list.new.now }
{
    let plan = lent.plan;
    let table = lent.table;
    let from = records::first_child(table, node) as usize;
    let s = leaves::slice_at(plan, table, p, node);
    let mut w = eval_front::placed(table, from, s);
    if plan[rest] == END {
        let at = state.at;
        let next = eval_front::push_places(*list, w, at, state.cap);
        state.at = next;
        return;
    }
    // The steps are those of the walk, so that `for` is no plainer.
    while 0 < w.left {
        if state.cap < state.at {
            return;
        }
        evaluate_segment(lent, state, list, w.at, rest);
        w = eval_front::further(w);
    }
}

// The nodes from i up to e, each with the segments at rest. Where a wildcard alone follows, it calls itself with the children of each.
#[cycle(evaluation)]
fn each_child(
    lent: &Lent,
    state: &mut State,
    list: &mut &mut [u32],
    i: usize,
    e: usize,
    rest: usize,
)
    requires asked { Asked lent.now state.old list.old.now }
    requires ask_each { AskEach lent.now i e rest }
    ensures steady { Steady state.old list.old state.new list.new }
    ensures done_each { DoneEach lent.now i e rest state.old list.old.now state.new list.new.now }
{
    if e <= i {
        return;
    }
    let plan = lent.plan;
    if plan[rest] == END {
        let at = state.at;
        let next = eval_front::push_each(*list, i, e, at, state.cap);
        state.at = next;
        return;
    }
    let head = bytes::word32(plan, rest);
    for j in i..e {
        if state.cap < state.at {
            return;
        }
        if head == WILDCARD_HEAD {
            let table = lent.table;
            let first = records::first_child(table, j) as usize;
            let n = records::child_count(table, j) as usize;
            each_child(lent, state, list, first, first + n, rest + 4);
            continue;
        }
        evaluate_segment(lent, state, list, j, rest);
    }
}

// The children of a node for which the filter at p holds, each with the segments at rest. From the first on that meets match or search they go by cells.
#[cycle(evaluation)]
fn eval_filter(
    lent: &Lent,
    state: &mut State,
    list: &mut &mut [u32],
    node: usize,
    p: usize,
    rest: usize,
)
    requires asked { Asked lent.now state.old list.old.now }
    requires ask_selector { AskSelector lent.now node p rest }
    requires ask_kind { AskKind lent.now p 9 }
    ensures steady { Steady state.old list.old state.new list.new }
    ensures done_selector { DoneSelector lent.now node p rest state.old list.old.now state.new list.new.now }
{
    let z = p + 3 + bytes::word16(lent.plan, p + 1);
    let table = lent.table;
    let i = records::first_child(table, node) as usize;
    let n = records::child_count(table, node) as usize;
    let e = i + n;
    let k = eval_shortcuts::keep_joined(lent, state, list, i, e, p + 3, z, rest);
    let mut v = next_kept(lent, state.root, k, e, p + 3, z);
    // The steps differ, so that `for` is no plainer.
    while v.node < e {
        let j = v.node;
        if v.call {
            rows::keep(lent, state, list, j, e, p + 3, z, rest);
            return;
        }
        evaluate_segment(lent, state, list, j, rest);
        if state.cap < state.at {
            return;
        }
        if v.seen {
            v = Next {
                node: j + 1,
                call: true,
                seen: false,
            };
        } else {
            v = next_kept(lent, state.root, j + 1, e, p + 3, z);
        }
    }
}

// The first node from i on for which the test from p up to z holds, or that meets a call of match or search, or e. A node for which a query was evaluated in front of the
// call is told to its end, so that nothing is evaluated twice, and those behind it go by cells.
#[cycle(evaluation)]
fn next_kept(lent: &Lent, root: usize, i: usize, e: usize, p: usize, z: usize) -> Next
    requires { AskNext lent.now root i e p z }
    ensures { DoneNext lent.now root i e p z result.node result.call }
{
    for j in i..e {
        let s = eval_filter_expr(lent, root, j, false, p, z, true);
        if s.q < z {
            if !s.deep {
                return Next {
                    node: j,
                    call: true,
                    seen: false,
                };
            }
            let r = eval_filter_expr(lent, root, j, s.acc, s.q, z, false);
            if r.acc {
                return Next {
                    node: j,
                    call: false,
                    seen: true,
                };
            }
            return Next {
                node: j + 1,
                call: true,
                seen: false,
            };
        }
        if s.acc {
            return Next {
                node: j,
                call: false,
                seen: false,
            };
        }
    }
    Next {
        node: i.max(e),
        call: false,
        seen: false,
    }
}

// What a test's code from p up to e, with an answer before it, says of a node. A part that is not told without registers goes by them, but for a call of match or search,
// at which it ends where `stop`.
#[cycle(evaluation)]
fn eval_filter_expr(
    lent: &Lent,
    root: usize,
    node: usize,
    acc: bool,
    p: usize,
    e: usize,
    stop: bool,
) -> Said
    requires within { Within (plan_of lent.now) (pool_of lent.now) (table_of lent.now) (text_of lent.now) root node }
    requires ask_rest { AskRest (plan_of lent.now) (pool_of lent.now) (table_of lent.now) (text_of lent.now) root node «acc» p e }
    ensures { DoneSaid (plan_of lent.now) (pool_of lent.now) (table_of lent.now) (text_of lent.now) root node «acc» p e «stop» result }
{
    // The steps differ, so that `for` is no plainer.
    let mut b = acc;
    let mut q = p;
    let mut deep = false;
    while q < e {
        let t = eval_filters::plain_turn(
            lent.plan, lent.pool, lent.table, lent.text, root, node, b, q, e,
        );
        if t.some {
            b = t.acc;
            q = t.q;
        } else {
            if stop {
                if eval_shortcuts::is_call(lent, root, node, q, e) {
                    return Said { acc: b, q, deep };
                }
            }
            let r = eval_test(lent, root, node, b, q, e);
            b = r.acc;
            q = r.q;
            deep = true;
        }
    }
    Said { acc: b, q: e, deep }
}

// The answer of a test's code from p on, with an answer before it, by registers, up to where nothing stands in them, and the place behind; the code ends at e.
#[cycle(evaluation)]
fn eval_test(lent: &Lent, root: usize, node: usize, acc: bool, p: usize, e: usize) -> Told
    requires within { Within (plan_of lent.now) (pool_of lent.now) (table_of lent.now) (text_of lent.now) root node }
    requires ask_turn { AskTurn (plan_of lent.now) (pool_of lent.now) (table_of lent.now) (text_of lent.now) root node «acc» p e }
    ensures { DoneTested (plan_of lent.now) (pool_of lent.now) (table_of lent.now) (text_of lent.now) root node «acc» p e result }
{
    // The steps differ, so that `for` is no plainer.
    let mut s = Regs {
        acc,
        x: Operand::Nothing,
        y: Operand::Nothing,
        q: p,
    };
    while s.q < e {
        if answers::is_clear(s, p) {
            return Told {
                acc: s.acc,
                q: s.q,
                some: true,
            };
        }
        let q = s.q;
        let plan = lent.plan;
        if plan[q] <= CURRENT {
            s = eval_query(lent, root, node, s);
        } else {
            s = leaves::plain_expr(plan, lent.pool, lent.table, lent.text, s);
        }
    }
    Told {
        acc: s.acc,
        q: e,
        some: true,
    }
}

// The query in a filter's code at s.q, with what is asked of it: "a query inside it is evaluated by the same rules". Where names and indices lead to its end, or
// to nothing, no call is needed.
#[cycle(evaluation)]
fn eval_query(lent: &Lent, root: usize, node: usize, s: Regs) -> Regs
    requires within { Within (plan_of lent.now) (pool_of lent.now) (table_of lent.now) (text_of lent.now) root node }
    requires ask_query { AskQuery (plan_of lent.now) (pool_of lent.now) (table_of lent.now) (text_of lent.now) root node s }
    ensures { DoneQuery (plan_of lent.now) (pool_of lent.now) (table_of lent.now) (text_of lent.now) root node s result }
{
    let plan = lent.plan;
    let table = lent.table;
    let text = lent.text;
    let q = s.q;
    let from = leaves::begins(plan[q], root, node);
    let r = eval_front::reach(plan, lent.pool, table, text, from, q + 1);
    let pc = r.pc;
    let z = plans::past_query(plan, pc);
    let mode = plan[z];
    let Ok(m) = r.node else {
        return answers::to_registers(table, text, s, mode, z, 0, 0);
    };
    if plan[pc] == END {
        return answers::to_registers(table, text, s, mode, z, 1, m);
    }
    let cap = leaves::cap_of(mode);
    let mut state = State {
        root: from,
        cap,
        at: 0,
    };
    let mut one = [0u32; 1];
    let mut places = &mut one[0..];
    evaluate_segment(lent, &mut state, &mut places, m, pc);
    let n = state.at;
    let head = places[0];
    answers::to_registers(table, text, s, mode, z, n, head as usize)
}
