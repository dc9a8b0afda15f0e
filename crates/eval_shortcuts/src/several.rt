// A range of nodes with names and indices behind it, one in each segment and several in the last: what they lead to is pushed. The last segment is looked through once
// for the range, and a member is looked for first where the node before had it.
ghost use Rattle.std.specs.Prelude.{◌≡◌, true, ◌+◌, ◌≤◌, ◌<◌, length};
ghost use Rattle.definition.specs.Bytes.{part, same_bytes};
ghost use Rattle.definition.specs.Limits.{max_plan};
ghost use Rattle.definition.specs.Tables.{kind_at, kind_map, key_bytes};
ghost use Rattle.eval_values.specs.Members.{Members};
ghost use Rattle.eval_front.specs.Spans.{Room};
ghost use Rattle.eval_items.specs.Leaves.{AskOne, DoneOne};
ghost use Rattle.eval_shortcuts.specs.Alongs.{AskAlong, DoneAlong};
ghost use Rattle.eval_shortcuts.specs.Picks.{Below, Ends, Picks, DonePut, AskPick, DonePick};

use crate::straight;
use crate::straight::Passed;
use eval_items::leaves;
use eval_values::members;
use plan_format::kinds::{CHILD, END, INDEX, NAME};
use plan_format::lengths;
use table::records;
use table::records::KIND_MAP;
use text::bytes;

// A segment of more names and indices than that is left.
const MOST: usize = 8;

// Whether the n selectors at p are names and indices, and the query ends behind them.
fn ends(plan: &[u8], p: usize, n: usize) -> bool
    requires { (length plan.now ≤ max_plan) × (p ≤ length plan.now) }
    ensures { result ≡ true → Ends plan.now p n }
{
    let mut q = p;
    for _ in 0..n {
        if plan.len() <= q {
            return false;
        }
        let k = plan[q];
        if k == NAME {
            q += lengths::POOLED_ITEM;
            continue;
        }
        if k != INDEX {
            return false;
        }
        q += lengths::NUMBER_ITEM;
    }
    if plan.len() <= q {
        return false;
    }
    plan[q] == END
}

// Whether a child segment of names and indices stands at pc, and the query ends behind it.
fn picks(plan: &[u8], pc: usize) -> bool
    requires { (length plan.now ≤ max_plan) × (pc ≤ length plan.now + 4) }
    ensures { result ≡ true → Picks plan.now pc }
{
    if plan.len() < pc + 8 {
        return false;
    }
    if plan[pc] != CHILD {
        return false;
    }
    let n = bytes::word16(plan, pc + 1);
    if MOST < n {
        return false;
    }
    ends(plan, pc + 3, n)
}

// The place of the last segment from rest on, where those before it have one name or index each and it has several; else 0.
pub fn last(plan: &[u8], rest: usize) -> usize
    requires { (length plan.now ≤ max_plan) × (rest ≤ length plan.now) }
    ensures { (result ≡ 0 → ⊥) → Picks plan.now result }
{
    let pc = straight::behind(plan, rest);
    if picks(plan, pc) {
        return pc;
    }
    0
}

// Whether the member at place `near` of `count` from `first` on has the name that is the n bytes of the pool from a on.
fn is_at(
    pool: &[u8],
    table: &[u8],
    text: &[u8],
    first: usize,
    count: usize,
    near: usize,
    a: usize,
    n: usize,
) -> bool
    requires members { Members table.now text.now first count }
    requires n_in_bounds { a + n ≤ length pool.now }
    ensures { result ≡ true → (near < count) × (true ≡ same_bytes (key_bytes table.now text.now (first + near)) (part pool.now a n)) }
{
    if count <= near {
        return false;
    }
    members::is_named(table, text, first + near, pool, a, n)
}

// The member that the name at p selects of a map, whose `count` members begin at `first`. The one at place `near` is looked at first.
fn member_at(
    plan: &[u8],
    pool: &[u8],
    table: &[u8],
    text: &[u8],
    p: usize,
    node: usize,
    first: usize,
    count: usize,
    near: usize,
) -> Option<usize>
    requires ask_one { AskOne plan.now pool.now table.now text.now p node 5 5 }
    requires below { Below table.now node first count × (kind_at table.now node ≡ kind_map) }
    ensures { DoneOne plan.now pool.now table.now text.now p node result }
{
    let start = bytes::word16(plan, p + 1);
    let size = bytes::word16(plan, p + 3);
    if is_at(pool, table, text, first, count, near, start, size) {
        return Some(first + near);
    }
    if members::is_short(size) {
        return members::find_short(table, text, first, count, pool, start, size);
    }
    members::get_by_key(table, text, first, count, pool, start, size)
}

// What the name at p selects of a map is pushed. Its place is kept in cell m.
fn put_member(
    plan: &[u8],
    pool: &[u8],
    table: &[u8],
    text: &[u8],
    p: usize,
    node: usize,
    first: usize,
    count: usize,
    near: &mut [usize],
    m: usize,
    list: &mut [u32],
    at: usize,
    cap: usize,
) -> usize
    requires ask_one { AskOne plan.now pool.now table.now text.now p node 5 5 }
    requires below { Below table.now node first count × (kind_at table.now node ≡ kind_map) }
    requires room { Room (length list.old) at cap × (m < length near.old) }
    ensures { DonePut plan.now pool.now table.now text.now p node cap list.old at list.new result }
{
    let found = member_at(plan, pool, table, text, p, node, first, count, near[m]);
    let Some(k) = found else {
        return at;
    };
    near[m] = k - first;
    eval_front::push(list, at, k, cap)
}

// What the index at p selects of a node is pushed.
fn put_element(
    plan: &[u8],
    pool: &[u8],
    table: &[u8],
    text: &[u8],
    p: usize,
    node: usize,
    list: &mut [u32],
    at: usize,
    cap: usize,
) -> usize
    requires ask_one { AskOne plan.now pool.now table.now text.now p node 6 6 }
    requires room { Room (length list.old) at cap }
    ensures { DonePut plan.now pool.now table.now text.now p node cap list.old at list.new result }
{
    let found = leaves::get_by_index(plan, pool, table, text, p, node);
    let Some(k) = found else {
        return at;
    };
    eval_front::push(list, at, k, cap)
}

// What the n names and indices at p select of a map is pushed.
fn pick_members(
    plan: &[u8],
    pool: &[u8],
    table: &[u8],
    text: &[u8],
    node: usize,
    p: usize,
    n: usize,
    near: &mut [usize],
    list: &mut [u32],
    at: usize,
    cap: usize,
) -> usize
    requires ask_pick { AskPick plan.now pool.now table.now text.now node p n (length list.old) at cap }
    requires node_value { (kind_at table.now node ≡ kind_map) × (n ≤ length near.old) }
    ensures { DonePick plan.now pool.now table.now text.now node p n cap list.old at list.new result }
{
    let first = records::first_child(table, node) as usize;
    let count = records::child_count(table, node) as usize;
    let mut a = at;
    let mut q = p;
    for m in 0..n {
        if plan[q] == NAME {
            a = put_member(
                plan, pool, table, text, q, node, first, count, near, m, list, a, cap,
            );
            q += lengths::POOLED_ITEM;
            continue;
        }
        q += lengths::NUMBER_ITEM;
    }
    a
}

// What the n names and indices at p select of a node that is no map is pushed.
fn pick_elements(
    plan: &[u8],
    pool: &[u8],
    table: &[u8],
    text: &[u8],
    node: usize,
    p: usize,
    n: usize,
    list: &mut [u32],
    at: usize,
    cap: usize,
) -> usize
    requires ask_pick { AskPick plan.now pool.now table.now text.now node p n (length list.old) at cap }
    requires fact { kind_at table.now node ≡ kind_map → ⊥ }
    ensures { DonePick plan.now pool.now table.now text.now node p n cap list.old at list.new result }
{
    let mut a = at;
    let mut q = p;
    for _ in 0..n {
        if plan[q] == INDEX {
            a = put_element(plan, pool, table, text, q, node, list, a, cap);
            q += lengths::NUMBER_ITEM;
            continue;
        }
        q += lengths::POOLED_ITEM;
    }
    a
}

// What the n names and indices at p select of a node is pushed.
fn pick(
    plan: &[u8],
    pool: &[u8],
    table: &[u8],
    text: &[u8],
    node: usize,
    p: usize,
    n: usize,
    near: &mut [usize],
    list: &mut [u32],
    at: usize,
    cap: usize,
) -> usize
    requires ask_pick { AskPick plan.now pool.now table.now text.now node p n (length list.old) at cap }
    requires n_in_bounds { n ≤ length near.old }
    ensures { DonePick plan.now pool.now table.now text.now node p n cap list.old at list.new result }
{
    if records::kind(table, node) == KIND_MAP {
        return pick_members(plan, pool, table, text, node, p, n, near, list, at, cap);
    }
    pick_elements(plan, pool, table, text, node, p, n, list, at, cap)
}

// The nodes from i up to e with the query at rest, whose last segment stands at pc, up to the first that is led elsewhere.
pub fn push_picked(
    plan: &[u8],
    pool: &[u8],
    table: &[u8],
    text: &[u8],
    i: usize,
    e: usize,
    rest: usize,
    pc: usize,
    list: &mut [u32],
    at: usize,
    cap: usize,
) -> Passed
    requires ask_along { AskAlong plan.now pool.now table.now text.now i e rest (length list.old) at cap }
    requires picks { Picks plan.now pc }
    ensures { DoneAlong plan.now pool.now table.now text.now i e rest cap list.old at list.new result }
{
    let n = bytes::word16(plan, pc + 1);
    let mut near = [0usize; MOST];
    // A loop over j: its contract asks no order of i and e, and where e is before i it is i that is handed back.
    let mut a = at;
    let mut j = i;
    while j < e {
        if cap < a {
            return Passed { i: j, at: a };
        }
        let r = eval_front::reach(plan, pool, table, text, j, rest);
        let Ok(m) = r.node else {
            j += 1;
            continue;
        };
        if r.pc != pc {
            return Passed { i: j, at: a };
        }
        a = pick(
            plan,
            pool,
            table,
            text,
            m,
            pc + 3,
            n,
            &mut near,
            list,
            a,
            cap,
        );
        j += 1;
    }
    Passed { i: j, at: a }
}
