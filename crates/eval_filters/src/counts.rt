// The number of all children of a node, compared with an integer, where nothing follows: read from the plan once for all nodes of a range.
ghost use Rattle.std.specs.Prelude.{◌≡◌, length, get_or};
ghost use Rattle.eval_filters.specs.Queries.{Within};
ghost use Rattle.eval_filters.specs.Atoms.{AskCode};
ghost use Rattle.eval_filters.specs.Kept.{AskTest, DoneTest, AskKept};
ghost use Rattle.eval_filters.specs.Keeps.{CountsAt, DoneCounts, DoneRange};

use crate::atoms;
use plan_format::heads::WILDCARD_HEAD;
use plan_format::kinds::{COUNT, CURRENT, END, INTEGER};
use table::records;
use text::bytes;

// Whether the number of children of a node stands so to the integer behind p.
fn count_passes(
    plan: &[u8],
    pool: &[u8],
    table: &[u8],
    text: &[u8],
    root: usize,
    node: usize,
    p: usize,
    z: usize,
    op: u8,
) -> bool
    requires within { Within plan.now pool.now table.now text.now root node }
    requires ask_test { AskTest plan.now pool.now p z }
    requires counts_at { CountsAt plan.now p z op }
    ensures { DoneTest plan.now pool.now table.now text.now root node p z result }
{
    let n = records::child_count(table, node) as i64;
    let b = bytes::int64(plan, p + 1 + 6 + 1);
    crate::compare_ints(op, n, b)
}

// The nodes from i up to e for which that test holds, where nothing follows.
pub fn keep_counts(
    plan: &[u8],
    pool: &[u8],
    table: &[u8],
    text: &[u8],
    root: usize,
    i: usize,
    e: usize,
    p: usize,
    z: usize,
    op: u8,
    rest: usize,
    list: &mut [u32],
    at: usize,
    cap: usize,
) -> usize
    requires ask_kept { AskKept plan.now pool.now table.now text.now root i e rest (length list.old) at cap }
    requires ask_test { AskTest plan.now pool.now p z }
    requires counts_at { CountsAt plan.now p z op × (get_or plan.now rest 0 ≡ 0x0A) }
    ensures { DoneRange plan.now pool.now table.now text.now root i e p z rest cap list.old at list.new result }
{
    let mut a = at;
    for j in i..e {
        if cap < a {
            return a;
        }
        if !count_passes(plan, pool, table, text, root, j, p, z, op) {
            continue;
        }
        a = eval_front::push(list, a, j, cap);
    }
    a
}

// The operator of a test of the number of children from p up to z.
pub fn read_counts(plan: &[u8], p: usize, z: usize) -> Option<u8>
    requires { AskCode plan.now p z }
    ensures { DoneCounts plan.now p z result }
{
    if z < p + 11 {
        return None;
    }
    if plan[p] != CURRENT {
        return None;
    }
    let c = p + 1;
    if bytes::word32(plan, c) != WILDCARD_HEAD {
        return None;
    }
    if plan[c + 4] != END {
        return None;
    }
    if plan[c + 5] != COUNT {
        return None;
    }
    if plan[c + 6] != INTEGER {
        return None;
    }
    let b = atoms::behind_literal(plan, c + 6, z)?;
    if b.next != z {
        return None;
    }
    Some(b.op)
}
