// A range of nodes with a filter of several tests, of which the first is a test of one member, or of one comparison that begins with a literal or with `count`, `value`
// or `length`: one loop over the nodes. Of several tests those of one member are told where they stand, so that no call is needed for them; others without evaluation are
// called.
ghost use Rattle.std.specs.Prelude.{◌+◌, ◌≤◌, ◌<◌, length, IfSome};
ghost use Rattle.eval_filters.specs.Queries.{Within};
ghost use Rattle.eval_filters.specs.Atoms.{AskCode};
ghost use Rattle.eval_filters.specs.Kept.{AskTest};
ghost use Rattle.eval_filters.specs.Tests.{DoneShort};
ghost use Rattle.eval_filters.specs.Values.{AskLeft};
ghost use Rattle.eval_rows.specs.Calls.{AskCall};
ghost use Rattle.eval_rows.specs.Rows.{AskRows, DoneRows};
ghost use Rattle.eval_shortcuts.specs.Joined.{DoneJoined};

use eval_filters::{Told, atoms, kept, values};
use eval_rows::paths;
use eval_rows::rows::{Answer, Filter, Passed};
use plan_format::kinds::{COUNT, CURRENT, VALUE};

// The ways of a filter: several tests of which the first is one of a member, and one comparison of such values.
#[derive(Clone, Copy)]
pub enum Way {
    Joined,
    Alone,
}

// The test at q that no operator stands before, in code that ends at z.
fn test_at(
    plan: &[u8],
    pool: &[u8],
    table: &[u8],
    text: &[u8],
    root: usize,
    node: usize,
    q: usize,
    z: usize,
) -> Told
    requires { AskLeft plan.now pool.now table.now text.now root node q z }
    ensures { DoneShort plan.now pool.now table.now text.now root node q z result }
{
    let t = atoms::read_atom(plan, q, z);
    if t.form == 0 {
        return eval_filters::plain_test(plan, pool, table, text, root, node, q, z);
    }
    let next = t.next;
    let b = atoms::holds_next(plan, pool, table, text, root, node, q, z, t);
    Told {
        acc: b,
        q: next,
        some: true,
    }
}

// What the filter from p up to z says of a node.
fn asked(
    plan: &[u8],
    pool: &[u8],
    table: &[u8],
    text: &[u8],
    root: usize,
    node: usize,
    p: usize,
    z: usize,
) -> Answer
    requires { Within plan.now pool.now table.now text.now root node × AskTest plan.now pool.now p z }
    ensures { DoneJoined plan.now pool.now table.now text.now root node p z result }
{
    // The steps differ, so that `for` is no plainer.
    let mut acc = false;
    let mut q = p;
    while q < z {
        if eval_filters::is_logic(plan[q]) {
            let t = eval_filters::logic_expr(plan, acc, q);
            acc = t.acc;
            q = t.q;
        } else {
            let t = test_at(plan, pool, table, text, root, node, q, z);
            if !t.some {
                return Answer { acc, q };
            }
            acc = t.acc;
            q = t.q;
        }
    }
    Answer { acc, q }
}

// What the filter from p up to z says of a node, where it is one comparison of two values.
fn compared(
    plan: &[u8],
    pool: &[u8],
    table: &[u8],
    text: &[u8],
    root: usize,
    node: usize,
    p: usize,
    z: usize,
) -> Answer
    requires within { Within plan.now pool.now table.now text.now root node × AskTest plan.now pool.now p z }
    requires p_lt_z { p < z }
    ensures { DoneJoined plan.now pool.now table.now text.now root node p z result }
{
    let t = values::value_test(plan, pool, table, text, root, node, p, z);
    let acc = t.acc;
    let q = t.q;
    if t.some {
        if z <= q {
            return Answer { acc, q };
        }
    }
    Answer { acc: false, q: p }
}

// The same for both kinds of filters.
fn told(
    plan: &[u8],
    pool: &[u8],
    table: &[u8],
    text: &[u8],
    root: usize,
    node: usize,
    p: usize,
    z: usize,
    way: Way,
) -> Answer
    requires within { Within plan.now pool.now table.now text.now root node × AskTest plan.now pool.now p z }
    requires p_lt_z { p < z }
    ensures { DoneJoined plan.now pool.now table.now text.now root node p z result }
{
    match way {
        Way::Joined => asked(plan, pool, table, text, root, node, p, z),
        Way::Alone => compared(plan, pool, table, text, root, node, p, z),
    }
}

// Whether the code from p up to z begins with a literal, or with what `count`, `value` or `length` asks of names and indices.
fn begins_value(plan: &[u8], p: usize, z: usize) -> bool
    requires { AskCall plan.now p z × (p + 11 ≤ z) }
{
    if CURRENT < plan[p] {
        return true;
    }
    let Some(end) = paths::read_path(plan, p + 1) else {
        return false;
    };
    if z - 2 < end {
        return false;
    }
    matches!(plan[end + 1], COUNT..=VALUE)
}

// The way of a filter from p up to z, if it is one of these.
pub fn way_of(plan: &[u8], p: usize, z: usize) -> Option<Way>
    requires { AskCode plan.now p z × (p < z → AskCall plan.now p z) }
    ensures { IfSome result (λ w. p < z) }
{
    if z < p + 11 {
        return None;
    }
    let t = atoms::read_atom(plan, p, z);
    if t.form != 0 {
        return Some(Way::Joined);
    }
    if begins_value(plan, p, z) {
        return Some(Way::Alone);
    }
    None
}

// The nodes from i on that the filter keeps, with what follows, up to the first of which a test is not told. The way only says which
// loop is the faster one.
pub fn keep(
    plan: &[u8],
    pool: &[u8],
    table: &[u8],
    text: &[u8],
    f: Filter,
    i: usize,
    way: Way,
    list: &mut [u32],
    at: usize,
) -> Passed
    requires { AskRows plan.now pool.now table.now text.now f i (length list.old) at × (f.p < f.z) }
    ensures { DoneRows plan.now pool.now table.now text.now f i list.old at list.new result }
{
    let root = f.root;
    let e = f.e;
    let p = f.p;
    let z = f.z;
    let cap = f.cap;
    let tail = f.tail;
    let rest = f.rest;
    let mut a = at;
    let mut near = 0;
    for j in i..e {
        if cap < a {
            return Passed {
                i: j,
                at: a,
                q: None,
            };
        }
        let b = told(plan, pool, table, text, root, j, p, z, way);
        if b.q < z {
            return Passed {
                i: j,
                at: a,
                q: Some(b.q),
            };
        }
        if !b.acc {
            continue;
        }
        let v = kept::push_tail(plan, pool, table, text, tail, j, rest, near, list, a, cap);
        a = v.at;
        near = v.near;
    }
    Passed {
        i: i.max(e),
        at: a,
        q: None,
    }
}
