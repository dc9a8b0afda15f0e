// Nodes with no list or map among their children under a descendant segment of one name, index or wildcard that ends its query: there is nothing below them, so
// that what is selected of them is pushed at once, and no call is needed. Under a filter that is one test of a member nothing is selected of them.
ghost use Rattle.std.specs.Prelude.{◌≡◌, true, ◌+◌, length, Some};
ghost use Rattle.definition.specs.Tables.{low_word};
ghost use Rattle.eval_items.specs.Leaves.{AskOne, DoneOne};
ghost use Rattle.eval_shortcuts.specs.Flats.{AskFlat, DoneFlat, AskPlain, DonePlain, AskSelected, DoneSelected, AskFlats, DoneFlats, AskMember, DoneMember, AskSkipped, DoneSkipped, AskStart, DoneStart};

use crate::straight::Passed;
use eval_filters::atoms;
use eval_items::{leaves, plans};
use eval_values::members;
use plan_format::kinds::{END, FILTER, NAME, SLICE, WILDCARD};
use table::records;
use text::bytes;

// Whether no child of the node is a list or a map.
fn is_flat(table: &[u8], node: usize) -> bool
    requires { AskFlat table.now node }
    ensures { DoneFlat table.now node result }
{
    let n = records::child_count(table, node) as usize;
    if n == 0 {
        return true;
    }
    let first = records::first_child(table, node) as usize;
    let e = first + n;
    let i = eval_front::next_container(table, first, e);
    i == e
}

// What is pushed of a node: the next place of the list, and the place among the members at which the next node is looked at first.
#[derive(Clone, Copy)]
struct Pushed {
    at: usize,
    near: usize,
}

// Whether a name stands at p, and the member of a node at place `near` has it: names of one map are different, so that it is the member that is selected.
fn name_near(
    plan: &[u8],
    pool: &[u8],
    table: &[u8],
    text: &[u8],
    p: usize,
    node: usize,
    near: usize,
) -> bool
    requires { AskOne plan.now pool.now table.now text.now p node 5 6 }
    ensures { result ≡ true → DoneOne plan.now pool.now table.now text.now p node (Some (low_word table.now node + near)) }
{
    if plan[p] != NAME {
        return false;
    }
    let start = bytes::word16(plan, p + 1);
    let size = bytes::word16(plan, p + 3);
    members::is_near(table, text, node, near, pool, start, size)
}

// The node that the name or index at p selects of a node; of a name, the member at place `near` is looked at first.
fn select_near(
    plan: &[u8],
    pool: &[u8],
    table: &[u8],
    text: &[u8],
    p: usize,
    node: usize,
    near: usize,
) -> Option<usize>
    requires { AskOne plan.now pool.now table.now text.now p node 5 6 }
    ensures { DoneOne plan.now pool.now table.now text.now p node result }
{
    if name_near(plan, pool, table, text, p, node, near) {
        return Some(records::first_child(table, node) as usize + near);
    }
    leaves::select_one(plan, pool, table, text, p, node)
}

// The name, index or wildcard at p on a node: each selected node is pushed.
fn push_selected(
    plan: &[u8],
    pool: &[u8],
    table: &[u8],
    text: &[u8],
    node: usize,
    p: usize,
    near: usize,
    list: &mut [u32],
    at: usize,
    cap: usize,
) -> Pushed
    requires { AskSelected plan.now pool.now table.now text.now node p (length list.old) at cap }
    ensures { DoneSelected plan.now pool.now table.now text.now node p cap list.old at list.new result.at }
{
    if plan[p] == WILDCARD {
        let n = records::child_count(table, node) as usize;
        if n == 0 {
            return Pushed { at, near };
        }
        let i = records::first_child(table, node) as usize;
        let e = i + n;
        let a = eval_front::push_each(list, i, e, at, cap);
        return Pushed { at: a, near };
    }
    let found = select_near(plan, pool, table, text, p, node, near);
    let Some(m) = found else {
        return Pushed { at, near };
    };
    let there = m - records::first_child(table, node) as usize;
    let a = eval_front::push(list, at, m, cap);
    Pushed { at: a, near: there }
}

// The nodes from i up to e with the selector at p, up to the first that has more below it. Once the cap is passed none is left.
fn flat_each(
    plan: &[u8],
    pool: &[u8],
    table: &[u8],
    text: &[u8],
    i: usize,
    e: usize,
    p: usize,
    list: &mut [u32],
    at: usize,
    cap: usize,
) -> Passed
    requires { AskFlats plan.now pool.now table.now text.now i e p (length list.old) at cap }
    ensures { DoneFlats plan.now pool.now table.now text.now i e p cap list.old at list.new result }
{
    // The steps differ, so that `for` is no plainer.
    let mut a = at;
    let mut j = i;
    let mut near = 0;
    while j < e {
        if cap < a {
            return Passed { i: e, at: a };
        }
        if !is_flat(table, j) {
            return Passed { i: j, at: a };
        }
        let pushed = push_selected(plan, pool, table, text, j, p, near, list, a, cap);
        a = pushed.at;
        near = pushed.near;
        j = eval_front::next_container(table, j + 1, e);
    }
    Passed { i: j, at: a }
}

// Whether the descendant segment at pc is the last of its query and has one selector, a name, an index or a wildcard.
pub fn is_plain(plan: &[u8], pc: usize) -> bool
    requires { AskPlain plan.now pc }
    ensures { DonePlain plan.now pc result }
{
    if bytes::word16(plan, pc + 1) != 1 {
        return false;
    }
    let p = pc + 3;
    let k = plan[p];
    if k == SLICE {
        return false;
    }
    if WILDCARD < k {
        return false;
    }
    let rest = plans::next_selector(plan, p);
    plan[rest] == END
}

// Whether the descendant segment at pc has one selector, a filter that is one test of a member.
pub fn asks_member(plan: &[u8], pc: usize) -> bool
    requires { AskMember plan.now pc }
    ensures { DoneMember plan.now pc result }
{
    if bytes::word16(plan, pc + 1) != 1 {
        return false;
    }
    let p = pc + 3;
    if plan[p] != FILTER {
        return false;
    }
    let z = p + 3 + bytes::word16(plan, p + 1);
    if z <= p + 3 {
        return false;
    }
    let t = atoms::read_atom(plan, p + 3, z);
    if t.form == 0 {
        return false;
    }
    t.next == z
}

// The first node from i on that has a list or a map among its children, or e.
fn skip_flats(table: &[u8], i: usize, e: usize) -> usize
    requires { AskSkipped table.now i e }
    ensures { DoneSkipped table.now i e result }
{
    // The steps differ, so that `for` is no plainer.
    let mut j = i;
    while j < e {
        if !is_flat(table, j) {
            return j;
        }
        j = eval_front::next_container(table, j + 1, e);
    }
    j
}

// The nodes from i up to e with the descendant segment at pc, as far as no call is needed for them.
pub fn flat_start(
    plan: &[u8],
    pool: &[u8],
    table: &[u8],
    text: &[u8],
    i: usize,
    e: usize,
    pc: usize,
    list: &mut [u32],
    at: usize,
    cap: usize,
) -> Passed
    requires { AskStart plan.now pool.now table.now text.now i e pc (length list.old) at cap }
    ensures { DoneStart plan.now pool.now table.now text.now i e pc cap list.old at list.new result }
{
    if e <= i {
        return Passed { i, at };
    }
    if is_plain(plan, pc) {
        let p = pc + 3;
        return flat_each(plan, pool, table, text, i, e, p, list, at, cap);
    }
    if asks_member(plan, pc) {
        return Passed {
            i: skip_flats(table, i, e),
            at,
        };
    }
    Passed { i, at }
}
