// Operands by themselves: the one that a node is, whether there is one, its length and its truth.
ghost use Rattle.std.specs.Prelude.{◌≡◌, not, ◌<◌, T, eqb, nat_abs};
ghost use Rattle.definition.specs.Tables.{node_count};
ghost use Rattle.table_laws.specs.Accepted.{Accepted};
ghost use Rattle.std.specs.Float.Ieee.Scale.{finite};
ghost use Rattle.definition.specs.Compare.{float_fraction};
ghost use Rattle.eval_values.specs.Means.{OfNode, Inside, Parts, some_of, boolean_is, null_is, is_that, node_in_lem, truth_in, length_in};

use crate::Operand;
use std::cmp::Ordering;
use table::records;
use table::records::{KIND_FALSE, KIND_FLOAT, KIND_INTEGER, KIND_NULL, KIND_TEXT, KIND_TRUE};
use text::encoding;

// The operand that a node is.
pub fn get_value(table: &[u8], text: &[u8], node: usize) -> Operand
    requires { Accepted table.now text.now × (node < node_count table.now) }
    ensures { OfNode table.now text.now node result }
{
    let k = records::kind(table, node);
    if k == KIND_NULL {
        return Operand::Null;
    }
    if k == KIND_FALSE {
        return Operand::Bool(false);
    }
    if k == KIND_TRUE {
        return Operand::Bool(true);
    }
    if k == KIND_INTEGER {
        return Operand::Int(records::integer(table, node));
    }
    if k == KIND_FLOAT {
        return Operand::Float(records::float(table, node));
    }
    if k == KIND_TEXT {
        let start = records::text_start(table, node) as usize;
        let size = records::text_length(table, node) as usize;
        return Operand::Text(start, size);
    }
    Operand::Node(node)
}

// Whether there is a value.
pub fn is_some(x: Operand) -> bool
    ensures { result ≡ some_of x }
{
    !matches!(x, Operand::Nothing)
}

// Whether it is a boolean.
pub fn is_boolean(x: Operand) -> bool
    ensures { result ≡ boolean_is x }
{
    matches!(x, Operand::Bool(_))
}

// Whether it is null.
pub fn is_null(x: Operand) -> bool
    ensures { result ≡ null_is x }
{
    matches!(x, Operand::Null)
}

// Whether it is the boolean b.
pub fn is_bool(b: bool, x: Operand) -> bool
    ensures { result ≡ is_that «b» x }
{
    match x {
        Operand::Bool(d) => b == d,
        _ => false,
    }
}

// The node of a list or a map.
pub fn as_node(x: Operand) -> Option<usize>
    ensures { result ≡ node_in_lem x }
{
    match x {
        Operand::Node(i) => Some(i),
        _ => None,
    }
}

// What `!` before a value function asks: null, an empty text, 0, an empty list or map are false; a boolean is itself.
pub fn to_logical(table: &[u8], x: Operand) -> bool
    requires { Inside table.now x }
    ensures { result ≡ truth_in table.now x }
{
    match x {
        Operand::Nothing => false,
        Operand::Null => false,
        Operand::Bool(b) => b,
        Operand::Int(z) => z != 0,
        Operand::Float(f) => is_nonzero(f),
        Operand::Pool(_, n) => n != 0,
        Operand::Text(_, n) => n != 0,
        Operand::Node(i) => records::child_count(table, i) != 0,
    }
}

// Whether a finite float is neither zero.
fn is_nonzero(f: f64) -> bool
    requires { T (finite f) }
    ensures { result ≡ not (eqb (nat_abs (float_fraction f).num) 0) }
{
    !matches!(number_order::compare_i64_num(0, f), Ordering::Equal)
}

// The length of a text in scalar values, the number of children of a list or a map, 0 of anything else.
pub fn length(table: &[u8], text: &[u8], pool: &[u8], x: Operand) -> usize
    requires { Inside table.now x × Parts text.now pool.now x }
    ensures { result ≡ length_in table.now text.now pool.now x }
{
    match x {
        Operand::Pool(start, size) => encoding::count_scalars(pool, start, size),
        Operand::Text(start, size) => encoding::count_scalars(text, start, size),
        Operand::Node(i) => records::child_count(table, i) as usize,
        _ => 0,
    }
}
