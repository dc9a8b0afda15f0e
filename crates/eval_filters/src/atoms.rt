// A test of one member of a node, `@` with one name, or of its comparison with a literal: read from the plan once for all nodes of a range.
ghost use Rattle.std.specs.Prelude.{◌≡◌, ◌+◌, ◌≤◌, false, length, get_or};
ghost use Rattle.definition.specs.Bytes.{number, part};
ghost use Rattle.definition.specs.Limits.{max_plan};
ghost use Rattle.eval_items.specs.Leaves.{AskOne, DoneOne};
ghost use Rattle.eval_filters.specs.Tests.{AskNode, DoneNode, AskShort, DoneShort};
ghost use Rattle.eval_filters.specs.Atoms.{DoneName, AskCode, DoneBehind, DoneAtom, AtomAt, FormAgainst, form_of, size_of, tells};

use eval_items::leaves;
use eval_values::members;
use plan_format::heads::NAME_HEAD;
use plan_format::kinds::{COMPARE, CONSTANT, CURRENT, END, INTEGER, TEST, TEXT};
use plan_format::operators::EQ;
use table::records;
use table::records::{KIND_INTEGER, KIND_TEXT};
use text::bytes;

// The forms of such a test: that the member is there, its comparison with a literal, with an integer, and with a text by ==. 0 stands for no such test.
const HAS: u8 = 1;

const COMPARED: u8 = 2;

const NUMBER: u8 = 3;

const WORDS: u8 = 4;

// The name's place in the pool, the operator, and the place behind the test.
#[derive(Clone, Copy)]
pub struct Atom {
    pub form: u8,
    pub start: usize,
    pub size: usize,
    pub op: u8,
    pub next: usize,
}

// The operator behind a literal, and the place behind that.
#[derive(Clone, Copy)]
pub struct Behind {
    pub op: u8,
    pub next: usize,
}

// What a test says of a node, and the place of its member among the node's members: there the member of the next node is looked for first.
#[derive(Clone, Copy)]
pub struct Held {
    pub acc: bool,
    pub near: usize,
}

// Whether a child segment of one name stands at c, at the end of its query.
pub fn names_member(plan: &[u8], c: usize) -> bool
    requires { (length plan.now ≤ max_plan) × (c ≤ max_plan) }
    ensures { DoneName plan.now c result }
{
    if plan.len() < c + 9 {
        return false;
    }
    if bytes::word32(plan, c) != NAME_HEAD {
        return false;
    }
    plan[c + 8] == END
}

// How many bytes a literal of kind k takes.
fn literal_size(k: u8) -> usize
    ensures { result ≡ size_of k }
{
    if k == CONSTANT {
        return 2;
    }
    if k == TEXT {
        return 5;
    }
    9
}

// The literal at z and the comparison behind it, in code that ends at e.
pub fn behind_literal(plan: &[u8], z: usize, e: usize) -> Option<Behind>
    requires { AskCode plan.now z e }
    ensures { DoneBehind plan.now z e result }
{
    if e <= z {
        return None;
    }
    let k = plan[z];
    if !crate::is_literal(k) {
        return None;
    }
    let w = z + literal_size(k);
    if e < w + 2 {
        return None;
    }
    if plan[w] != COMPARE {
        return None;
    }
    Some(Behind {
        op: plan[w + 1],
        next: w + 2,
    })
}

// The form of a comparison with a literal of kind k by an operator.
pub fn form_of(k: u8, op: u8) -> u8
    ensures { result ≡ form_of k op }
{
    if k == INTEGER {
        return NUMBER;
    }
    if k != TEXT {
        return COMPARED;
    }
    if op == EQ {
        return WORDS;
    }
    COMPARED
}

// The test at q of one member, in code that ends at e.
pub fn read_atom(plan: &[u8], q: usize, e: usize) -> Atom
    requires { AskCode plan.now q e }
    ensures { DoneAtom plan.now q e result }
{
    if e < q + 11 {
        return no_atom();
    }
    if plan[q] != CURRENT {
        return no_atom();
    }
    let c = q + 1;
    if !names_member(plan, c) {
        return no_atom();
    }
    let start = bytes::word16(plan, c + 3 + 1);
    let size = bytes::word16(plan, c + 3 + 3);
    let k = plan[c + 9];
    if k == TEST {
        return Atom {
            form: HAS,
            start,
            size,
            op: 0,
            next: c + 10,
        };
    }
    let Some(b) = behind_literal(plan, c + 9, e) else {
        return no_atom();
    };
    let op = b.op;
    Atom {
        form: form_of(k, op),
        start,
        size,
        op,
        next: b.next,
    }
}

// No test of one member.
fn no_atom() -> Atom
    ensures { result.form ≡ 0 }
{
    Atom {
        form: 0,
        start: 0,
        size: 0,
        op: 0,
        next: 0,
    }
}

// The member of a node whose name is the `size` bytes of the pool from `start` on, as the name at p says: at place `near`, or else where a search finds it. It is
// called from one place, so that a compiler puts it there; kept::tail_named says the same for the name behind a test.
fn named(
    plan: &[u8],
    pool: &[u8],
    table: &[u8],
    text: &[u8],
    p: usize,
    start: usize,
    size: usize,
    node: usize,
    near: usize,
) -> Option<usize>
    requires ask_one { AskOne plan.now pool.now table.now text.now p node 5 5 }
    requires start_value { (start ≡ number (part plan.now (p + 1) 2)) × (size ≡ number (part plan.now (p + 3) 2)) }
    ensures { DoneOne plan.now pool.now table.now text.now p node result }
{
    if members::is_near(table, text, node, near, pool, start, size) {
        return Some(records::first_child(table, node) as usize + near);
    }
    leaves::select_one(plan, pool, table, text, p, node)
}

// The value of node m and the literal at q, by an operator, as the form of the comparison says.
pub fn compare_form(
    plan: &[u8],
    pool: &[u8],
    table: &[u8],
    text: &[u8],
    form: u8,
    op: u8,
    m: usize,
    q: usize,
) -> bool
    requires ask_node { AskNode plan.now pool.now table.now text.now m q }
    requires form_against { FormAgainst (get_or plan.now q 0) op form }
    ensures { DoneNode plan.now pool.now table.now text.now m q op result }
{
    if form == NUMBER {
        if records::kind(table, m) == KIND_INTEGER {
            return crate::compare_integers(plan, pool, table, text, op, m, q);
        }
    }
    if form == WORDS {
        if records::kind(table, m) == KIND_TEXT {
            return crate::same_text(plan, pool, table, text, m, q);
        }
    }
    crate::compare_node(plan, pool, table, text, op, m, q)
}

// What the test at q of one member says of a node. The member is looked for at place `near` first.
pub fn holds(
    plan: &[u8],
    pool: &[u8],
    table: &[u8],
    text: &[u8],
    root: usize,
    node: usize,
    q: usize,
    e: usize,
    t: Atom,
    near: usize,
) -> Held
    requires ask_short { AskShort plan.now pool.now table.now text.now root node q e }
    requires atom_at { AtomAt plan.now q e t }
    ensures { DoneShort plan.now pool.now table.now text.now root node q e (tells result.acc t.next) }
{
    let form = t.form;
    let op = t.op;
    let start = t.start;
    let size = t.size;
    let c = q + 1;
    let found = named(plan, pool, table, text, c + 3, start, size, node, near);
    let Some(m) = found else {
        return Held { acc: false, near };
    };
    let there = m - records::first_child(table, node) as usize;
    if form == HAS {
        return Held {
            acc: true,
            near: there,
        };
    }
    let b = compare_form(plan, pool, table, text, form, op, m, c + 9);
    Held {
        acc: b,
        near: there,
    }
}

// The same of a test that is asked for fewer nodes, so that it may be a call, and looks for the member from the first on.
pub fn holds_next(
    plan: &[u8],
    pool: &[u8],
    table: &[u8],
    text: &[u8],
    root: usize,
    node: usize,
    q: usize,
    e: usize,
    t: Atom,
) -> bool
    requires ask_short { AskShort plan.now pool.now table.now text.now root node q e }
    requires atom_at { AtomAt plan.now q e t }
    ensures { DoneShort plan.now pool.now table.now text.now root node q e (tells result t.next) }
{
    let form = t.form;
    let op = t.op;
    let c = q + 1;
    let found = leaves::select_one(plan, pool, table, text, c + 3, node);
    let Some(m) = found else {
        return false;
    };
    if form == HAS {
        return true;
    }
    crate::compare_node(plan, pool, table, text, op, m, c + 9)
}
