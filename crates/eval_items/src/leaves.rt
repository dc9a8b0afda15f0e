// What an item of a plan says by itself, with no query evaluated: a literal, a name, an index, a slice, and the operations of a filter's code on values.
ghost use Rattle.std.specs.Prelude.{◌≡◌, ◌+◌, ◌≤◌, ◌<◌, length};
ghost use Rattle.definition.specs.Bytes.{part, number};
ghost use Rattle.definition.specs.Tables.{node_count};
ghost use Rattle.table_laws.specs.Accepted.{Accepted};
ghost use Rattle.eval_items.specs.Leaves.{AskValue, DoneValue, constant_of, AskOne, DoneOne, AskSlice, DoneSlice, AskWalk, DoneWalk, AskOp, DoneOp, begins_at, cap_for};

use crate::{Regs, plans, regexes};
use eval_values::{Operand, members, operands};
use plan_format::kinds::{
    AND, COMPARE, CONSTANT, COUNT, FLOAT, INTEGER, LENGTH, NAME, NOT, OR, ROOT, TEST, TEXT, VALUE,
};
use slices::Walk;
use table::records;
use table::records::{KIND_LIST, KIND_MAP};
use text::bytes;

// count stops at 2^53-1, and evaluation stops at one more than its cap.
const COUNT_CAP: usize = 9007199254740990;

// ---- literals

// "13 constant: 1 byte: 0 false, 1 true, 2 null".
fn constant(b: u8) -> Operand
    ensures { result ≡ constant_of b }
{
    if b == 0 {
        return Operand::Bool(false);
    }
    if b == 1 {
        return Operand::Bool(true);
    }
    Operand::Null
}

// The literal at q.
pub fn literal(plan: &[u8], pool: &[u8], q: usize) -> Operand
    requires { AskValue plan.now pool.now q }
    ensures { DoneValue plan.now pool.now q result }
{
    let k = plan[q];
    if k == INTEGER {
        return Operand::Int(bytes::int64(plan, q + 1));
    }
    if k == FLOAT {
        return Operand::Float(bytes::float64(plan, q + 1));
    }
    if k == TEXT {
        let start = bytes::word16(plan, q + 1);
        let size = bytes::word16(plan, q + 3);
        return Operand::Pool(start, size);
    }
    constant(plan[q + 1])
}

// ---- selectors that give one node or none

// The member of a node whose name is the `size` bytes of the pool from `start` on, as the name at p says. Only `eval_front::reach` calls it, so that a
// compiler puts it there; by_name says the same for the others.
pub fn named(
    plan: &[u8],
    pool: &[u8],
    table: &[u8],
    text: &[u8],
    p: usize,
    start: usize,
    size: usize,
    node: usize,
) -> Option<usize>
    requires ask_one { AskOne plan.now pool.now table.now text.now p node 5 5 }
    requires start_value { (start ≡ number (part plan.now (p + 1) 2)) × (size ≡ number (part plan.now (p + 3) 2)) }
    ensures { DoneOne plan.now pool.now table.now text.now p node result }
{
    if records::kind(table, node) != KIND_MAP {
        return None;
    }
    let first = records::first_child(table, node) as usize;
    let count = records::child_count(table, node) as usize;
    if members::is_short(size) {
        return members::find_short(table, text, first, count, pool, start, size);
    }
    members::get_by_key(table, text, first, count, pool, start, size)
}

// The same, called only by `eval_front::front`. There are two because a compiler puts a function into its caller where it has one only; with two it would be called.
pub fn first_named(
    plan: &[u8],
    pool: &[u8],
    table: &[u8],
    text: &[u8],
    p: usize,
    start: usize,
    size: usize,
    node: usize,
) -> Option<usize>
    requires ask_one { AskOne plan.now pool.now table.now text.now p node 5 5 }
    requires start_value { (start ≡ number (part plan.now (p + 1) 2)) × (size ≡ number (part plan.now (p + 3) 2)) }
    ensures { DoneOne plan.now pool.now table.now text.now p node result }
{
    if records::kind(table, node) != KIND_MAP {
        return None;
    }
    let first = records::first_child(table, node) as usize;
    let count = records::child_count(table, node) as usize;
    if members::is_short(size) {
        return members::find_short(table, text, first, count, pool, start, size);
    }
    members::get_by_key(table, text, first, count, pool, start, size)
}

// The member that the name at p selects of a node.
fn by_name(
    plan: &[u8],
    pool: &[u8],
    table: &[u8],
    text: &[u8],
    p: usize,
    node: usize,
) -> Option<usize>
    requires { AskOne plan.now pool.now table.now text.now p node 5 5 }
    ensures { DoneOne plan.now pool.now table.now text.now p node result }
{
    if records::kind(table, node) != KIND_MAP {
        return None;
    }
    let first = records::first_child(table, node) as usize;
    let count = records::child_count(table, node) as usize;
    let start = bytes::word16(plan, p + 1);
    let size = bytes::word16(plan, p + 3);
    if members::is_short(size) {
        return members::find_short(table, text, first, count, pool, start, size);
    }
    members::get_by_key(table, text, first, count, pool, start, size)
}

// The element that the index at p selects of a node.
pub fn get_by_index(
    plan: &[u8],
    pool: &[u8],
    table: &[u8],
    text: &[u8],
    p: usize,
    node: usize,
) -> Option<usize>
    requires { AskOne plan.now pool.now table.now text.now p node 6 6 }
    ensures { DoneOne plan.now pool.now table.now text.now p node result }
{
    if records::kind(table, node) != KIND_LIST {
        return None;
    }
    let first = records::first_child(table, node) as usize;
    let count = records::child_count(table, node) as usize;
    let i = bytes::int64(plan, p + 1);
    let k = slices::index_place(count, i)?;
    Some(first + k)
}

// The node that the name or index at p selects of a node.
pub fn select_one(
    plan: &[u8],
    pool: &[u8],
    table: &[u8],
    text: &[u8],
    p: usize,
    node: usize,
) -> Option<usize>
    requires { AskOne plan.now pool.now table.now text.now p node 5 6 }
    ensures { DoneOne plan.now pool.now table.now text.now p node result }
{
    if plan[p] == NAME {
        return by_name(plan, pool, table, text, p, node);
    }
    get_by_index(plan, pool, table, text, p, node)
}

// ---- slices

// The elements that the slice at p selects of a list of n.
fn slice_of(plan: &[u8], p: usize, n: usize) -> Walk
    requires { AskSlice plan.now p n }
    ensures { DoneSlice plan.now p n result }
{
    let flags = plan[p + 1];
    let has_start = flags % 2 == 1;
    let has_stop = flags / 2 % 2 == 1;
    let has_step = flags / 4 == 1;
    let start = bytes::int64(plan, p + 2);
    let stop = bytes::int64(plan, p + 10);
    let step = bytes::int64(plan, p + 18);
    slices::slice_walk(n, has_start, start, has_stop, stop, has_step, step)
}

// The places that the slice at p selects of a node.
pub fn slice_at(plan: &[u8], table: &[u8], p: usize, node: usize) -> Walk
    requires { AskWalk plan.now table.now p node }
    ensures { DoneWalk plan.now table.now p node result }
{
    if records::kind(table, node) != KIND_LIST {
        return Walk {
            at: 0,
            left: 0,
            step: 0,
            down: false,
        };
    }
    slice_of(plan, p, records::child_count(table, node) as usize)
}

// ---- the operations of a filter's code

// A literal: it is the last value, and the last value before it the one before.
fn literal_expr(plan: &[u8], pool: &[u8], table: &[u8], text: &[u8], s: Regs) -> Regs
    requires { AskOp plan.now pool.now table.now text.now s 0x10 0x13 }
    ensures { DoneOp plan.now pool.now table.now text.now s result }
{
    let acc = s.acc;
    let y = s.y;
    let q = s.q;
    let v = literal(plan, pool, q);
    let z = plans::past_literal(plan, q);
    Regs {
        acc,
        x: y,
        y: v,
        q: z,
    }
}

// A comparison of the last two values.
fn compare_expr(plan: &[u8], pool: &[u8], table: &[u8], text: &[u8], s: Regs) -> Regs
    requires { AskOp plan.now pool.now table.now text.now s 0x14 0x14 }
    ensures { DoneOp plan.now pool.now table.now text.now s result }
{
    let x = s.x;
    let y = s.y;
    let q = s.q;
    let op = plan[q + 1];
    let b = eval_values::compare_values(table, text, pool, op, x, y);
    let z = q + 2;
    Regs {
        acc: b,
        x: Operand::Nothing,
        y: Operand::Nothing,
        q: z,
    }
}

// The test of the last value.
fn truth_expr(plan: &[u8], pool: &[u8], table: &[u8], text: &[u8], s: Regs) -> Regs
    requires { AskOp plan.now pool.now table.now text.now s 0x18 0x18 }
    ensures { DoneOp plan.now pool.now table.now text.now s result }
{
    let y = s.y;
    let q = s.q;
    let b = operands::to_logical(table, y);
    let z = q + 1;
    Regs {
        acc: b,
        x: Operand::Nothing,
        y: Operand::Nothing,
        q: z,
    }
}

// The length of the last value.
fn length_expr(plan: &[u8], pool: &[u8], table: &[u8], text: &[u8], s: Regs) -> Regs
    requires { AskOp plan.now pool.now table.now text.now s 0x1A 0x1A }
    ensures { DoneOp plan.now pool.now table.now text.now s result }
{
    let acc = s.acc;
    let x = s.x;
    let y = s.y;
    let q = s.q;
    let n = operands::length(table, text, pool, y);
    let v = Operand::Int(n as i64);
    let z = q + 1;
    Regs { acc, x, y: v, q: z }
}

// match or search of the last two values.
fn regex_expr(plan: &[u8], pool: &[u8], table: &[u8], text: &[u8], s: Regs) -> Regs
    requires { AskOp plan.now pool.now table.now text.now s 0x1C 0x1D }
    ensures { DoneOp plan.now pool.now table.now text.now s result }
{
    let x = s.x;
    let y = s.y;
    let q = s.q;
    let kind = plan[q];
    let b = regexes::regex_values(kind, text, pool, x, y);
    let z = q + 1;
    Regs {
        acc: b,
        x: Operand::Nothing,
        y: Operand::Nothing,
        q: z,
    }
}

// "After the left operand 16 skips the right one if the left is false, 17 if true, else drops it."
fn right_operand(plan: &[u8], pool: &[u8], table: &[u8], text: &[u8], s: Regs) -> Regs
    requires { AskOp plan.now pool.now table.now text.now s 0x16 0x17 }
    ensures { DoneOp plan.now pool.now table.now text.now s result }
{
    let acc = s.acc;
    let x = s.x;
    let y = s.y;
    let q = s.q;
    let inside = q + 3;
    let behind = plans::past_sized(plan, q);
    if plan[q] == AND {
        if acc {
            return Regs {
                acc,
                x,
                y,
                q: inside,
            };
        }
        return Regs {
            acc,
            x: Operand::Nothing,
            y: Operand::Nothing,
            q: behind,
        };
    }
    if acc {
        return Regs {
            acc,
            x: Operand::Nothing,
            y: Operand::Nothing,
            q: behind,
        };
    }
    Regs {
        acc,
        x,
        y,
        q: inside,
    }
}

// `!`.
fn not_expr(plan: &[u8], pool: &[u8], table: &[u8], text: &[u8], s: Regs) -> Regs
    requires { AskOp plan.now pool.now table.now text.now s 0x15 0x15 }
    ensures { DoneOp plan.now pool.now table.now text.now s result }
{
    let acc = s.acc;
    let x = s.x;
    let y = s.y;
    let q = s.q;
    let b = !acc;
    let z = q + 1;
    Regs { acc: b, x, y, q: z }
}

// An operation that is no query.
pub fn plain_expr(plan: &[u8], pool: &[u8], table: &[u8], text: &[u8], s: Regs) -> Regs
    requires { AskOp plan.now pool.now table.now text.now s 0x03 0xFF }
    ensures { DoneOp plan.now pool.now table.now text.now s result }
{
    let q = s.q;
    let k = plan[q];
    if k <= CONSTANT {
        return literal_expr(plan, pool, table, text, s);
    }
    if k == COMPARE {
        return compare_expr(plan, pool, table, text, s);
    }
    if k == NOT {
        return not_expr(plan, pool, table, text, s);
    }
    if k <= OR {
        return right_operand(plan, pool, table, text, s);
    }
    if k == TEST {
        return truth_expr(plan, pool, table, text, s);
    }
    if k == LENGTH {
        return length_expr(plan, pool, table, text, s);
    }
    regex_expr(plan, pool, table, text, s)
}

// ---- queries in a filter's code

// Where a query begins: 01 at `$`, 02 at `@`.
pub fn begins(k: u8, root: usize, node: usize) -> usize
    ensures { result ≡ begins_at k root node }
{
    if k == ROOT {
        return root;
    }
    node
}

// How many nodes are counted for what is asked of a query: one for a test or a first value, two for `value`, 2^53-1 for `count`. Evaluation counts one more than its cap.
pub fn cap_of(mode: u8) -> usize
    ensures { result ≡ cap_for mode }
{
    if mode == COUNT {
        return COUNT_CAP;
    }
    if mode == VALUE {
        return 1;
    }
    0
}
