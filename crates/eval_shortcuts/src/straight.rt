// A range of nodes with names and indices behind it: what they lead to is pushed.
ghost use Rattle.std.specs.Prelude.{◌+◌, ◌≤◌, length};
ghost use Rattle.definition.specs.Limits.{max_plan};
ghost use Rattle.eval_shortcuts.specs.Alongs.{AskAlong, DoneAlong};

use plan_format::heads::{INDEX_HEAD, NAME_HEAD};
use text::bytes;

// The first node of a range that is left, and the next place of the list of nodes.
#[derive(Clone, Copy)]
pub struct Passed {
    pub i: usize,
    pub at: usize,
}

// The place of the first segment from rest on that has not one name or index alone. It only says where to look.
pub(crate) fn behind(plan: &[u8], rest: usize) -> usize
    requires { (length plan.now ≤ max_plan) × (rest ≤ length plan.now) }
    ensures { result ≤ length plan.now + 4 }
{
    // The steps differ, so that `for` is no plainer.
    let mut q = rest;
    while q + 8 <= plan.len() {
        let head = bytes::word32(plan, q);
        if head == NAME_HEAD {
            q += 8;
        } else {
            if head != INDEX_HEAD {
                return q;
            }
            q += 12;
        }
    }
    q
}

// Whether names and indices, one at least, lead from rest to the last byte of the plan. It only says which way is the faster one.
pub fn leads(plan: &[u8], rest: usize) -> bool
    requires { (length plan.now ≤ max_plan) × (rest ≤ length plan.now) }
{
    let q = behind(plan, rest);
    q != rest && q + 1 == plan.len()
}

// The nodes from i up to e with the query at rest, up to the first that needs more than names and indices.
pub fn push_along(
    plan: &[u8],
    pool: &[u8],
    table: &[u8],
    text: &[u8],
    i: usize,
    e: usize,
    rest: usize,
    list: &mut [u32],
    at: usize,
    cap: usize,
) -> Passed
    requires { AskAlong plan.now pool.now table.now text.now i e rest (length list.old) at cap }
    ensures { DoneAlong plan.now pool.now table.now text.now i e rest cap list.old at list.new result }
{
    // A loop over j: its contract asks no order of i and e, and where e is before i it is i that is handed back.
    let mut a = at;
    let mut j = i;
    while j < e {
        if cap < a {
            return Passed { i: j, at: a };
        }
        match eval_front::visit(plan, pool, table, text, j, rest, list, a, cap) {
            Ok(next) => a = next,
            Err(_) => return Passed { i: j, at: a },
        }
        j += 1;
    }
    Passed { i: j, at: a }
}
