// One node of a range with a whole filter, and all of them in turn.
ghost use Rattle.std.specs.Prelude.{◌≡◌, true, false, ◌<◌, length};
ghost use Rattle.eval_filters.specs.Queries.{Within};
ghost use Rattle.eval_filters.specs.Tests.{AskRest};
ghost use Rattle.eval_asks.specs.Cells.{answer_of, place_of};
ghost use Rattle.eval_rows.specs.Known.{Knows, Held};
ghost use Rattle.eval_rows.specs.Rows.{DoneAnswer};
ghost use Rattle.eval_rows.specs.Columns.{AskPass, DonePass, DoneStands};

use crate::calls::Call;
use crate::turns;
use crate::turns::Known;
use eval_asks::cells;
use eval_filters::kept;

// What a filter is asked with: the node that `$` stands for, the end of the range, its code from p up to z, what follows by its number and its place, and how many
// nodes are counted. Where `cells`, nothing is pushed: the list has a cell for each node (`columns`).
#[derive(Clone, Copy)]
pub struct Filter {
    pub root: usize,
    pub e: usize,
    pub p: usize,
    pub z: usize,
    pub tail: usize,
    pub rest: usize,
    pub cap: usize,
    pub cells: bool,
}

// How far the filter is told of a node: the answer in front of q. At the end of the code it is the filter's; else the test at q is not told.
#[derive(Clone, Copy)]
pub struct Answer {
    pub acc: bool,
    pub q: usize,
}

// How far the nodes in turn came: those before i are done, and `at` is the next place of the list. Where the test at q is not told of node i, it is left with those
// behind it; where there is no such test, none is left.
#[derive(Clone, Copy)]
pub struct Passed {
    pub i: usize,
    pub at: usize,
    pub q: Option<usize>,
}

// How far the filter, whose code ends at z, is told of a node with a cell, by what is known of the expression of the call. A cell that is not at the place `first` is
// left as it is. The other rooms are those of `turns`.
fn asked(
    plan: &[u8],
    pool: &[u8],
    table: &[u8],
    text: &[u8],
    root: usize,
    node: usize,
    c: u32,
    first: usize,
    z: usize,
    g: Call,
    known: Known,
    code: &[u32],
    edges: &mut [u8],
    sets: &mut [u8],
    marks: &mut [u8],
) -> Answer
    requires within { Within plan.now pool.now table.now text.now root node × AskRest plan.now pool.now table.now text.now root node (answer_of c) (place_of c) z }
    requires knows { Knows plan.now pool.now code.now z g known × Held code.now edges.old sets.old known }
    ensures done_answer { DoneAnswer plan.now pool.now table.now text.now root node c z result }
    ensures held { Held code.now edges.new sets.new known }
{
    let mut acc = cells::answer(c);
    let mut q = cells::place(c);
    if q != first {
        return Answer { acc, q };
    }
    // The steps differ, so that `for` is no plainer.
    while q < z {
        if q == g.at {
            acc = turns::called(
                plan, pool, table, text, root, node, z, g, known, code, edges, sets, marks,
            );
            q = g.end + 7;
        } else {
            let t = eval_filters::plain_turn(plan, pool, table, text, root, node, acc, q, z);
            if !t.some {
                return Answer { acc, q };
            }
            acc = t.acc;
            q = t.q;
        }
    }
    Answer { acc, q: z }
}

// The cell of a node: the one at place k, or one of which nothing is told where there are none.
fn stands(in_cells: bool, p: usize, list: &[u32], k: usize) -> u32
    requires { (p < 65536) × (in_cells ≡ true → k < length list.now) }
    ensures { DoneStands in_cells p list.now k result }
{
    if in_cells {
        return list[k];
    }
    p as u32
}

// The nodes from i on that the filter keeps, with what follows, up to the first of which a test is not told. Where the filter has cells, nothing is pushed: each that
// stands at the call goes on as far as it is told.
pub fn keep(
    plan: &[u8],
    pool: &[u8],
    table: &[u8],
    text: &[u8],
    f: Filter,
    i: usize,
    g: Call,
    known: Known,
    code: &[u32],
    edges: &mut [u8],
    sets: &mut [u8],
    marks: &mut [u8],
    list: &mut [u32],
    at: usize,
) -> Passed
    requires ask_pass { AskPass plan.now pool.now table.now text.now f i list.old at }
    requires knows { Knows plan.now pool.now code.now f.z g known × Held code.now edges.old sets.old known }
    ensures { DonePass plan.now pool.now table.now text.now f i list.old at list.new result }
{
    let root = f.root;
    let e = f.e;
    let p = f.p;
    let z = f.z;
    let cap = f.cap;
    let tail = f.tail;
    let rest = f.rest;
    let in_cells = f.cells;
    let first = if in_cells { g.at } else { p };
    let mut a = at;
    let mut near = 0;
    for j in i..e {
        if cap < a {
            return Passed {
                i: j,
                at: a,
                q: None,
            };
        }
        let c = stands(in_cells, p, list, j - i);
        let b = asked(
            plan, pool, table, text, root, j, c, first, z, g, known, code, edges, sets, marks,
        );
        if in_cells {
            list[j - i] = cells::cell(b.acc, b.q);
            continue;
        }
        if b.q < z {
            return Passed {
                i: j,
                at: a,
                q: Some(b.q),
            };
        }
        if !b.acc {
            continue;
        }
        let v = kept::push_tail(plan, pool, table, text, tail, j, rest, near, list, a, cap);
        a = v.at;
        near = v.near;
    }
    Passed {
        i: i.max(e),
        at: a,
        q: None,
    }
}
