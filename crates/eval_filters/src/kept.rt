// The nodes of a range for which a test holds: a test of one member, with `!` or without, or of two with `&&` or `||` between them, where nothing or one name follows;
// the number of all children compared with an integer, and a node itself compared with a literal, where nothing follows. Such a test is read from the plan once, and
// needs no registers.
ghost use Rattle.std.specs.Prelude.{◌≡◌, ◌+◌, ◌≤◌, ◌<◌, length, get_or, IfSome};
ghost use Rattle.definition.specs.Bytes.{number, part};
ghost use Rattle.definition.specs.Limits.{max_plan};
ghost use Rattle.eval_items.specs.Leaves.{AskOne, DoneOne};
ghost use Rattle.eval_front.specs.Visits.{AskVisit};
ghost use Rattle.eval_filters.specs.Queries.{Within};
ghost use Rattle.eval_filters.specs.Atoms.{AskCode};
ghost use Rattle.eval_filters.specs.Kept.{AskTest, DoneTest, AskKept};
ghost use Rattle.eval_filters.specs.Keeps.{AskTail, TailAt, DonePushed, PairAt, DonePair, DoneJoined, join_kind, DoneRange};
ghost use Rattle.eval_filters.specs.Ways.{FormAt};

use crate::atoms::{Atom, Held};
use crate::itself::Itself;
use crate::{atoms, counts, itself};
use eval_items::{leaves, plans};
use eval_values::members;
use plan_format::kinds::{AND, END, NOT, OR};
use table::records;
use text::bytes;

// A test of one member and, where join is `&&` or `||`, another; where it is `!`, the negation of the first.
#[derive(Clone, Copy)]
pub struct Pair {
    pub left: Atom,
    pub join: u8,
    pub right: Atom,
}

// The place behind a node that is put into the list with what follows, and the place of the member that follows among the node's members.
#[derive(Clone, Copy)]
pub struct Pushed {
    pub at: usize,
    pub near: usize,
}

// What follows a test: 0 for nothing, 1 for one name at the end of the query, 2 for everything else.
pub fn tail_of(plan: &[u8], rest: usize) -> usize
    requires { AskTail plan.now rest }
    ensures { TailAt plan.now rest result }
{
    if plan[rest] == END {
        return 0;
    }
    if atoms::names_member(plan, rest) {
        return 1;
    }
    2
}

// As atoms::named, for the name behind a test. A function with two callers is not put where it is called, so each has its own.
fn tail_named(
    plan: &[u8],
    pool: &[u8],
    table: &[u8],
    text: &[u8],
    p: usize,
    start: usize,
    size: usize,
    node: usize,
    near: usize,
) -> Option<usize>
    requires ask_one { AskOne plan.now pool.now table.now text.now p node 5 5 }
    requires start_value { (start ≡ number (part plan.now (p + 1) 2)) × (size ≡ number (part plan.now (p + 3) 2)) }
    ensures { DoneOne plan.now pool.now table.now text.now p node result }
{
    if members::is_near(table, text, node, near, pool, start, size) {
        return Some(records::first_child(table, node) as usize + near);
    }
    leaves::select_one(plan, pool, table, text, p, node)
}

// A node with what follows, which is looked for at place `near` first.
pub fn push_tail(
    plan: &[u8],
    pool: &[u8],
    table: &[u8],
    text: &[u8],
    tail: usize,
    node: usize,
    rest: usize,
    near: usize,
    list: &mut [u32],
    at: usize,
    cap: usize,
) -> Pushed
    requires ask_visit { AskVisit plan.now pool.now table.now text.now node rest (length list.old) at cap }
    requires tail_at { TailAt plan.now rest tail × (tail ≤ 1) }
    ensures { DonePushed plan.now pool.now table.now text.now node rest cap list.old at list.new result.at }
{
    if tail == 0 {
        let a = eval_front::push(list, at, node, cap);
        return Pushed { at: a, near };
    }
    let p = rest + 3;
    let start = bytes::word16(plan, p + 1);
    let size = bytes::word16(plan, p + 3);
    let found = tail_named(plan, pool, table, text, p, start, size, node, near);
    let Some(m) = found else {
        return Pushed { at, near };
    };
    let there = m - records::first_child(table, node) as usize;
    let a = eval_front::push(list, at, m, cap);
    Pushed { at: a, near: there }
}

// Whether the test from p up to z holds of a node. The member of its first test is looked for at place `near` first, that of a second one from the first
// member on.
fn passes(
    plan: &[u8],
    pool: &[u8],
    table: &[u8],
    text: &[u8],
    root: usize,
    node: usize,
    p: usize,
    z: usize,
    t: Atom,
    join: u8,
    u: Atom,
    near: usize,
) -> Held
    requires within { Within plan.now pool.now table.now text.now root node }
    requires ask_test { AskTest plan.now pool.now p z }
    requires pair_at { PairAt plan.now p z t join u }
    ensures { DoneTest plan.now pool.now table.now text.now root node p z result.acc }
{
    let q = t.next;
    let h = atoms::holds(plan, pool, table, text, root, node, p, z, t, near);
    let b = h.acc;
    let there = h.near;
    if join == 0 {
        return Held {
            acc: b,
            near: there,
        };
    }
    if join == NOT {
        return Held {
            acc: !b,
            near: there,
        };
    }
    if join == AND {
        if b {
            let d = atoms::holds_next(plan, pool, table, text, root, node, q + 3, z, u);
            return Held {
                acc: d,
                near: there,
            };
        }
        return Held {
            acc: false,
            near: there,
        };
    }
    if b {
        return Held {
            acc: true,
            near: there,
        };
    }
    let d = atoms::holds_next(plan, pool, table, text, root, node, q + 3, z, u);
    Held {
        acc: d,
        near: there,
    }
}

// The nodes from i up to e for which that test holds, with what follows. Each node's members are looked for first where those of the node before were found.
fn keep_pair(
    plan: &[u8],
    pool: &[u8],
    table: &[u8],
    text: &[u8],
    root: usize,
    i: usize,
    e: usize,
    p: usize,
    z: usize,
    t: Atom,
    join: u8,
    u: Atom,
    tail: usize,
    rest: usize,
    list: &mut [u32],
    at: usize,
    cap: usize,
) -> usize
    requires ask_kept { AskKept plan.now pool.now table.now text.now root i e rest (length list.old) at cap }
    requires ask_test { AskTest plan.now pool.now p z }
    requires pair_at { PairAt plan.now p z t join u }
    requires tail_at { TailAt plan.now rest tail × (tail ≤ 1) }
    ensures { DoneRange plan.now pool.now table.now text.now root i e p z rest cap list.old at list.new result }
{
    let mut a = at;
    let mut near = 0;
    let mut next = 0;
    for j in i..e {
        if cap < a {
            return a;
        }
        let b = passes(plan, pool, table, text, root, j, p, z, t, join, u, near);
        near = b.near;
        if !b.acc {
            continue;
        }
        let v = push_tail(plan, pool, table, text, tail, j, rest, next, list, a, cap);
        a = v.at;
        next = v.near;
    }
    a
}

// The test from p up to z of one member, or of two.
fn read_pair(plan: &[u8], p: usize, z: usize) -> Option<Pair>
    requires { AskCode plan.now p z }
    ensures { DonePair plan.now p z result }
{
    let left = atoms::read_atom(plan, p, z);
    if left.form == 0 {
        return None;
    }
    let q = left.next;
    if z < q {
        return None;
    }
    if q == z {
        return Some(Pair {
            left,
            join: 0,
            right: left,
        });
    }
    read_joined(plan, left, q, z)
}

// The same where an operator stands at q behind the first test.
fn read_joined(plan: &[u8], left: Atom, q: usize, z: usize) -> Option<Pair>
    requires { AskCode plan.now q z × (q < z) }
    ensures { DoneJoined plan.now left q z result }
{
    let join = plan[q];
    if join == NOT {
        if q + 1 != z {
            return None;
        }
        return Some(Pair {
            left,
            join,
            right: left,
        });
    }
    if !is_join(join) {
        return None;
    }
    if z < q + 3 {
        return None;
    }
    if plans::past_sized(plan, q) != z {
        return None;
    }
    let right = atoms::read_atom(plan, q + 3, z);
    if right.form == 0 {
        return None;
    }
    if right.next != z {
        return None;
    }
    Some(Pair { left, join, right })
}

// Whether a byte is that of `&&` or `||`. Two tests and no range: over `matches!` the check left each case of the clause open.
fn is_join(k: u8) -> bool
    ensures { result ≡ join_kind k }
{
    if k < AND {
        return false;
    }
    k <= OR
}

// A filter that is read once: tests of members with what follows, the number of children by its operator, and a node itself.
#[derive(Clone, Copy)]
pub enum Form {
    Members(Pair, usize),
    Counted(u8),
    Itself(Itself),
}

// The filter from p up to z, at the end of its query, where it tests no member.
fn read_alone(plan: &[u8], p: usize, z: usize, rest: usize) -> Option<Form>
    requires ask_code { AskCode plan.now p z }
    requires rest_value { get_or plan.now rest 0 ≡ 0x0A }
    ensures { IfSome result (FormAt plan.now p z rest) }
{
    if let Some(v) = itself::read_itself(plan, p, z) {
        return Some(Form::Itself(v));
    }
    let op = counts::read_counts(plan, p, z)?;
    Some(Form::Counted(op))
}

// The filter from p up to z with what follows at rest, if it is one of these.
pub fn read_form(plan: &[u8], p: usize, z: usize, rest: usize) -> Option<Form>
    requires ask_code { AskCode plan.now p z }
    requires ask_tail { AskTail plan.now rest }
    ensures { IfSome result (FormAt plan.now p z rest) }
{
    let tail = tail_of(plan, rest);
    let Some(g) = read_pair(plan, p, z) else {
        if tail == 0 {
            return read_alone(plan, p, z, rest);
        }
        return None;
    };
    if tail <= 1 {
        return Some(Form::Members(g, tail));
    }
    None
}

// The nodes from i up to e that such a filter keeps, with what follows.
pub fn keep(
    plan: &[u8],
    pool: &[u8],
    table: &[u8],
    text: &[u8],
    root: usize,
    i: usize,
    e: usize,
    p: usize,
    z: usize,
    g: Form,
    rest: usize,
    list: &mut [u32],
    at: usize,
    cap: usize,
) -> usize
    requires ask_kept { AskKept plan.now pool.now table.now text.now root i e rest (length list.old) at cap }
    requires ask_test { AskTest plan.now pool.now p z }
    requires form_at { FormAt plan.now p z rest g }
    ensures { DoneRange plan.now pool.now table.now text.now root i e p z rest cap list.old at list.new result }
{
    match g {
        Form::Members(pair, tail) => {
            let t = pair.left;
            let u = pair.right;
            let join = pair.join;
            keep_pair(
                plan, pool, table, text, root, i, e, p, z, t, join, u, tail, rest, list, at, cap,
            )
        }
        Form::Counted(op) => counts::keep_counts(
            plan, pool, table, text, root, i, e, p, z, op, rest, list, at, cap,
        ),
        Form::Itself(v) => {
            let form = v.form;
            let op = v.op;
            itself::keep_itself(
                plan, pool, table, text, root, i, e, p, z, form, op, rest, list, at, cap,
            )
        }
    }
}
