// The value of a node and a literal by their kinds, read where they stand: numbers by their order, texts and constants by equality. An operand goes through memory,
// and reading it back at once is slow; what is told here makes none.
ghost use Rattle.std.specs.Prelude.{◌≡◌, ◌+◌, ◌<◌, T, get_or};
ghost use Rattle.std.specs.Float.Ieee.Scale.{finite};
ghost use Rattle.definition.specs.Compare.{Value};
ghost use Rattle.definition.specs.Tables.{node_count, kind_at};
ghost use Rattle.table_laws.specs.Accepted.{Accepted};
ghost use Rattle.eval_values.specs.Alike.{Compares};
ghost use Rattle.eval_values.specs.Means.{OfNode};
ghost use Rattle.eval_values.specs.declared.Operand.TheVariants.{Int, Float};
ghost use Rattle.eval_items.specs.Leaves.{AskValue, DoneValue};
ghost use Rattle.eval_filters.specs.Tests.{AskNode, DoneNode};
ghost use Rattle.eval_filters.specs.Kinds.{constant_is};

use plan_format::kinds::{CONSTANT, FLOAT, INTEGER};
use plan_format::operators::{EQ, LE, NE};
use table::records;
use table::records::{KIND_FALSE, KIND_FLOAT, KIND_INTEGER, KIND_NULL, KIND_TRUE};
use text::bytes;

// The integer of a node.
pub fn node_int(table: &[u8], text: &[u8], m: usize) -> i64
    requires { Accepted table.now text.now × (m < node_count table.now) × (kind_at table.now m ≡ 3) }
    ensures { OfNode table.now text.now m (Int result) }
{
    records::integer(table, m)
}

// The float of a node.
pub fn node_float(table: &[u8], text: &[u8], m: usize) -> f64
    requires { Accepted table.now text.now × (m < node_count table.now) × (kind_at table.now m ≡ 4) }
    ensures { OfNode table.now text.now m (Float result) }
{
    records::float(table, m)
}

// The integer at q.
fn literal_int(plan: &[u8], pool: &[u8], q: usize) -> i64
    requires { AskValue plan.now pool.now q × (get_or plan.now q 0 ≡ 0x10) }
    ensures { DoneValue plan.now pool.now q (Int result) }
{
    bytes::int64(plan, q + 1)
}

// The float at q.
fn literal_float(plan: &[u8], pool: &[u8], q: usize) -> f64
    requires { AskValue plan.now pool.now q × (get_or plan.now q 0 ≡ 0x11) }
    ensures { DoneValue plan.now pool.now q (Float result) }
{
    bytes::float64(plan, q + 1)
}

// Two floats by an operator: 0-5 for == != < <= > >=.
pub fn compare_floats(op: u8, a: f64, b: f64) -> bool
    requires { T (finite a) × T (finite b) }
    ensures { Compares (Value.float a) (Value.float b) op result }
{
    if op <= LE {
        return crate::says(op, number_order::compare_nums(a, b));
    }
    crate::says(op - 2, number_order::compare_nums(b, a))
}

// An integer and a float.
fn compare_mixed(op: u8, a: i64, b: f64) -> bool
    requires { T (finite b) }
    ensures { Compares (Value.integer a) (Value.float b) op result }
{
    if op <= LE {
        return crate::says(op, number_order::compare_i64_num(a, b));
    }
    crate::says(op - 2, number_order::compare_num_i64(b, a))
}

// A float and an integer.
fn compare_turned(op: u8, a: f64, b: i64) -> bool
    requires { T (finite a) }
    ensures { Compares (Value.float a) (Value.integer b) op result }
{
    if op <= LE {
        return crate::says(op, number_order::compare_num_i64(a, b));
    }
    crate::says(op - 2, number_order::compare_i64_num(b, a))
}

// The value of node m and the integer at q; an integer is compared before.
fn with_integer(
    plan: &[u8],
    pool: &[u8],
    table: &[u8],
    text: &[u8],
    op: u8,
    m: usize,
    q: usize,
) -> bool
    requires ask_node { AskNode plan.now pool.now table.now text.now m q }
    requires q_value { (get_or plan.now q 0 ≡ 0x10) × (kind_at table.now m ≡ 3 → ⊥) }
    ensures { DoneNode plan.now pool.now table.now text.now m q op result }
{
    if records::kind(table, m) == KIND_FLOAT {
        let a = node_float(table, text, m);
        let b = literal_int(plan, pool, q);
        return compare_turned(op, a, b);
    }
    op == NE
}

// The value of node m and the float at q.
fn with_float(
    plan: &[u8],
    pool: &[u8],
    table: &[u8],
    text: &[u8],
    op: u8,
    m: usize,
    q: usize,
) -> bool
    requires ask_node { AskNode plan.now pool.now table.now text.now m q }
    requires q_value { get_or plan.now q 0 ≡ 0x11 }
    ensures { DoneNode plan.now pool.now table.now text.now m q op result }
{
    let kind = records::kind(table, m);
    if kind == KIND_FLOAT {
        let a = node_float(table, text, m);
        let b = literal_float(plan, pool, q);
        return compare_floats(op, a, b);
    }
    if kind == KIND_INTEGER {
        let a = node_int(table, text, m);
        let b = literal_float(plan, pool, q);
        return compare_mixed(op, a, b);
    }
    op == NE
}

// Whether a node of a kind has the value of the constant b.
fn is_constant(b: u8, kind: u8) -> bool
    ensures { result ≡ constant_is b kind }
{
    if b == 0 {
        return kind == KIND_FALSE;
    }
    if b == 1 {
        return kind == KIND_TRUE;
    }
    kind == KIND_NULL
}

// Whether the value of node m is the constant at q.
fn same_constant(plan: &[u8], pool: &[u8], table: &[u8], text: &[u8], m: usize, q: usize) -> bool
    requires ask_node { AskNode plan.now pool.now table.now text.now m q }
    requires q_value { get_or plan.now q 0 ≡ 0x13 }
    ensures { DoneNode plan.now pool.now table.now text.now m q 0 result }
{
    let kind = records::kind(table, m);
    is_constant(plan[q + 1], kind)
}

// The value of node m and the literal at q, where they are not two integers.
pub fn by_kinds(
    plan: &[u8],
    pool: &[u8],
    table: &[u8],
    text: &[u8],
    op: u8,
    m: usize,
    q: usize,
) -> bool
    requires ask_node { AskNode plan.now pool.now table.now text.now m q }
    requires fact { get_or plan.now q 0 ≡ 0x10 → kind_at table.now m ≡ 3 → ⊥ }
    ensures { DoneNode plan.now pool.now table.now text.now m q op result }
{
    let k = plan[q];
    if k == INTEGER {
        return with_integer(plan, pool, table, text, op, m, q);
    }
    if k == FLOAT {
        return with_float(plan, pool, table, text, op, m, q);
    }
    if k == CONSTANT {
        if op <= NE {
            let b = same_constant(plan, pool, table, text, m, q);
            if op == EQ {
                return b;
            }
            return !b;
        }
    }
    crate::compare_operands(plan, pool, table, text, op, m, q)
}
