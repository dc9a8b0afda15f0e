// The parts of evaluation that need no call of it: a node's number into a list; the segments of one name or index at the front of a query; one node with a query, up
// to what needs more; the places of a slice as nodes; the next list or map of a range.

#![tactic(auto)]

ghost use Rattle.std.specs.Prelude.{◌≡◌, ◌-◌, ◌<◌, length};
ghost use Rattle.definition.specs.Limits.{max_nodes};
ghost use Rattle.slices.specs.Walks.{Inside, walked};
ghost use Rattle.eval_laws.specs.States.{st, push as pushed, emit};
ghost use Rattle.eval_front.specs.Visits.{AskPush, AskReach, DoneReach, AskVisit, DoneVisit, AskPlaced, DonePlaced, AskNumbers, numbers_from, AskWalked, AskContainer, DoneContainer, Further};

use eval_items::leaves;
use plan_format::heads::{INDEX_HEAD, NAME_HEAD};
use plan_format::kinds::END;
use slices::Walk;
use table::records;
use table::records::KIND_LIST;
use text::bytes;

// Where the segments of one name or index at the front of a query lead: `Ok` with the node, and the place of what follows; or `Err` with the last node that was reached,
// of which no such member or element is found, and the place of the segment that finds none.
#[derive(Clone, Copy)]
pub struct Reached {
    pub node: Result<usize, usize>,
    pub pc: usize,
}

// A node where more of a query is to be done, and the place in the plan where it goes on.
#[derive(Clone, Copy)]
pub struct More {
    pub node: usize,
    pub pc: usize,
}

// The node's number into the next place, if there is one. Once the cap is passed nothing changes.
pub fn push(list: &mut [u32], at: usize, node: usize, cap: usize) -> usize
    requires { AskPush (length list.old) at node cap }
    ensures { st cap list.new result ≡ pushed node (st cap list.old at) }
{
    if cap < at {
        return at;
    }
    if at < list.len() {
        list[at] = node as u32;
        return at + 1;
    }
    at + 1
}

// The numbers from i up to e, one after the other.
pub fn push_each(list: &mut [u32], i: usize, e: usize, at: usize, cap: usize) -> usize
    requires { AskNumbers (length list.old) e at cap }
    ensures { st cap list.new result ≡ emit (numbers_from i (e - i)) (st cap list.old at) }
{
    let mut a = at;
    for j in i..e {
        a = push(list, a, j, cap);
    }
    a
}

// From a node along the segments of one name or index at pc. The first four bytes of such a segment are read as one number.
pub fn reach(plan: &[u8], pool: &[u8], table: &[u8], text: &[u8], node: usize, pc: usize) -> Reached
    requires { AskReach plan.now pool.now table.now text.now node pc }
    ensures { DoneReach plan.now pool.now table.now text.now node pc result }
{
    let mut m = node;
    let mut q = pc;
    // A loop over q: a segment is 8 or 12 bytes long, so `for` says no step.
    while q + 8 <= plan.len() {
        let head = bytes::word32(plan, q);
        if head == NAME_HEAD {
            let a = bytes::word16(plan, q + 4);
            let n = bytes::word16(plan, q + 6);
            let found = leaves::named(plan, pool, table, text, q + 3, a, n, m);
            let Some(k) = found else {
                return Reached {
                    node: Err(m),
                    pc: q,
                };
            };
            m = k;
            q += 8;
        } else {
            if head != INDEX_HEAD {
                return Reached { node: Ok(m), pc: q };
            }
            let found = leaves::get_by_index(plan, pool, table, text, q + 3, m);
            let Some(k) = found else {
                return Reached {
                    node: Err(m),
                    pc: q,
                };
            };
            m = k;
            q += 12;
        }
    }
    Reached { node: Ok(m), pc: q }
}

// The same where a selection begins, called only there. There are two because a compiler puts a function into its caller where it has one only.
pub fn front(plan: &[u8], pool: &[u8], table: &[u8], text: &[u8], node: usize, pc: usize) -> Reached
    requires { AskReach plan.now pool.now table.now text.now node pc }
    ensures { DoneReach plan.now pool.now table.now text.now node pc result }
{
    let mut m = node;
    let mut rest = pc;
    // A loop over rest: a segment is 8 or 12 bytes long, so `for` says no step.
    while rest + 8 <= plan.len() {
        let head = bytes::word32(plan, rest);
        if head == NAME_HEAD {
            let a = bytes::word16(plan, rest + 4);
            let n = bytes::word16(plan, rest + 6);
            let found = leaves::first_named(plan, pool, table, text, rest + 3, a, n, m);
            let Some(k) = found else {
                return Reached {
                    node: Err(m),
                    pc: rest,
                };
            };
            m = k;
            rest += 8;
        } else {
            if head != INDEX_HEAD {
                return Reached {
                    node: Ok(m),
                    pc: rest,
                };
            }
            let found = leaves::get_by_index(plan, pool, table, text, rest + 3, m);
            let Some(k) = found else {
                return Reached {
                    node: Err(m),
                    pc: rest,
                };
            };
            m = k;
            rest += 12;
        }
    }
    Reached {
        node: Ok(m),
        pc: rest,
    }
}

// One node with the query at rest: pushed, or nothing, which gives the next place of the list; or what is left, with the list as it was.
pub fn visit(
    plan: &[u8],
    pool: &[u8],
    table: &[u8],
    text: &[u8],
    node: usize,
    rest: usize,
    list: &mut [u32],
    at: usize,
    cap: usize,
) -> Result<usize, More>
    requires { AskVisit plan.now pool.now table.now text.now node rest (length list.old) at cap }
    ensures { DoneVisit plan.now pool.now table.now text.now node rest cap list.old at list.new result }
{
    let r = reach(plan, pool, table, text, node, rest);
    let pc = r.pc;
    let Ok(m) = r.node else {
        return Ok(at);
    };
    if plan[pc] != END {
        return Err(More { node: m, pc });
    }
    let a = push(list, at, m, cap);
    Ok(a)
}

// A walk without its first place, with the same step in the same direction. Where none is left it stands at 0, so that the place is always small.
pub fn further(w: Walk) -> Walk
    requires { (0 < w.left) × Inside max_nodes w }
    ensures { Further w result }
{
    let step = w.step;
    let down = w.down;
    let n = slices::next_place(w);
    let left = n.left;
    if left == 0 {
        return Walk {
            at: 0,
            left,
            step,
            down,
        };
    }
    Walk {
        at: n.at,
        left,
        step,
        down,
    }
}

// The places of a walk, one after the other.
pub fn push_places(list: &mut [u32], walk: Walk, at: usize, cap: usize) -> usize
    requires { AskWalked (length list.old) walk at cap }
    ensures { st cap list.new result ≡ emit (walked walk) (st cap list.old at) }
{
    let mut a = at;
    let mut w = walk;
    // A loop over a walk: its places go down or up by a step of its own, which `for` over a range does not say.
    while 0 < w.left {
        a = push(list, a, w.at, cap);
        w = further(w);
    }
    a
}

// The places of a walk in a range of children, as nodes. The step of a single place says nothing and is left out, so that every number is small.
pub fn placed(table: &[u8], first: usize, walk: Walk) -> Walk
    requires { AskPlaced table.now first walk }
    ensures { DonePlaced table.now first walk result }
{
    let left = walk.left;
    let down = walk.down;
    if left == 0 {
        return Walk {
            at: 0,
            left,
            step: 0,
            down,
        };
    }
    let at = first + walk.at;
    if left == 1 {
        return Walk {
            at,
            left,
            step: 0,
            down,
        };
    }
    Walk {
        at,
        left,
        step: walk.step,
        down,
    }
}

// The first node from i on that is a list or a map, or e: the others have nothing below them.
pub fn next_container(table: &[u8], i: usize, e: usize) -> usize
    requires { AskContainer table.now i e }
    ensures { DoneContainer table.now i e result }
{
    let mut j = i;
    // A loop over j: where the range is empty the answer is i and not e, which `for` would have to say apart.
    while j < e {
        if KIND_LIST <= records::kind(table, j) {
            return j;
        }
        j += 1;
    }
    j
}
