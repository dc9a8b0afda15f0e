// A call of match or search in a filter's code, with a query of names and indices and a text of the plan.
ghost use Rattle.std.specs.Prelude.{◌≡◌, ◌≤◌, ◌<◌, length, IfSome};
ghost use Rattle.definition.specs.Limits.{max_plan};
ghost use Rattle.eval_rows.specs.Calls.{AskCall, ReadAt, regex_kind};

use crate::paths;
use plan_format::kinds::{CURRENT, MATCH, SEARCH, TEXT};
use text::bytes;

// A place that is in no plan.
const NOWHERE: usize = 65536;

// The places of the call and of its query's end, the expression's place in the pool, and the kind of the call.
#[derive(Clone, Copy)]
pub struct Call {
    pub at: usize,
    pub end: usize,
    pub start: usize,
    pub size: usize,
    pub kind: u8,
}

// A call that no node comes to.
pub fn no_call() -> Call
    ensures { max_plan < result.at }
{
    Call {
        at: NOWHERE,
        end: 0,
        start: 0,
        size: 0,
        kind: 0,
    }
}

// Whether a byte is that of match or search.
fn is_regex(k: u8) -> bool
    ensures { result ≡ regex_kind k }
{
    if k < MATCH {
        return false;
    }
    k <= SEARCH
}

// Whether a call may stand in the code from p up to z: whether a byte is that of match or search, with one that begins a text at the place of its last operand.
pub fn mentions(plan: &[u8], p: usize, z: usize) -> bool
    requires { (z ≤ length plan.now) × (z ≤ max_plan) }
{
    if z < 5 {
        return false;
    }
    for k in p..z - 5 {
        if plan[k] == TEXT && is_regex(plan[k + 5]) {
            return true;
        }
    }
    false
}

// The call at q, in code that ends at z.
pub fn read_call(plan: &[u8], q: usize, z: usize) -> Option<Call>
    requires { AskCall plan.now q z }
    ensures { IfSome result (ReadAt plan.now q z) }
{
    if z < q + 8 {
        return None;
    }
    if CURRENT < plan[q] {
        return None;
    }
    let end = paths::read_path(plan, q + 1)?;
    if z - 7 < end {
        return None;
    }
    let kind = plan[end + 6];
    if plan[end + 1] != TEXT {
        return None;
    }
    if !is_regex(kind) {
        return None;
    }
    Some(Call {
        at: q,
        end,
        start: bytes::word16(plan, end + 2),
        size: bytes::word16(plan, end + 4),
        kind,
    })
}
