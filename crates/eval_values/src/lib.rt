// The values of a filter: what an operand stands for, and how two of them compare.
//
//   operands   the operand that a node is, whether there is one, its length and its truth
//   ranks      the order of two numbers or two texts
//   members    the member of a map by its name
//
// Equality, down to any depth, and the six operators stand here. In the contracts S is the table, X the text and L the pool.

#![tactic(auto)]

ghost use Rattle.std.specs.Prelude.{◌≡◌, ◌<◌};
ghost use Rattle.definition.specs.Compare.{same, less_or_same};
ghost use Rattle.definition.specs.Tables.{node_count, kind_at, kind_list, kind_map, child_count, node_at};
ghost use Rattle.table_laws.specs.Accepted.{Accepted};
ghost use Rattle.eval_values.specs.Means.{meaning, Fine, Pair};
ghost use Rattle.eval_values.specs.Alike.{Compares, Both, same_at, same_elements_at, same_members_at, differ};

use plan_format::operators::{EQ, GT, LE, LT, NE};
use table::records;
use table::records::KIND_LIST;

pub mod members;
pub mod operands;
pub mod ranks;

// A value in a filter: none, null, a boolean, an integer, a float, a text that is a part of the pool or of the text (its start and its length),
// or the value of a node that is a list or a map.
#[derive(Clone, Copy)]
pub enum Operand {
    Nothing,
    Null,
    Bool(bool),
    Int(i64),
    Float(f64),
    Pool(usize, usize),
    Text(usize, usize),
    Node(usize),
}

// Whether two values are equal. Numbers and texts are told first, at one place, so that a compiler puts their comparison there.
#[cycle(equality)]
pub fn same_values(table: &[u8], text: &[u8], pool: &[u8], x: Operand, y: Operand) -> bool
    requires accepted { Accepted table.now text.now }
    requires pair { Pair table.now text.now pool.now x y }
    ensures { result ≡ same (meaning table.now text.now pool.now x) (meaning table.now text.now pool.now y) }
{
    if ranks::is_ranked(x) {
        return ranks::is_equal(text, pool, x, y);
    }
    match x {
        Operand::Nothing => false,
        Operand::Null => operands::is_null(y),
        Operand::Bool(b) => operands::is_bool(b, y),
        Operand::Int(_) => false,
        Operand::Float(_) => false,
        Operand::Pool(_, _) => false,
        Operand::Text(_, _) => false,
        Operand::Node(i) => match operands::as_node(y) {
            Some(j) => same_nodes(table, text, pool, i, j),
            None => false,
        },
    }
}

// Whether the values of two nodes, lists or maps, are equal.
#[cycle(equality)]
fn same_nodes(table: &[u8], text: &[u8], pool: &[u8], i: usize, j: usize) -> bool
    requires accepted { Accepted table.now text.now }
    requires both { Both table.now i j }
    ensures { result ≡ same_at table.now text.now i j }
{
    let k = records::kind(table, i);
    if k != records::kind(table, j) {
        return false;
    }
    if records::child_count(table, i) != records::child_count(table, j) {
        return false;
    }
    if k == KIND_LIST {
        return same_elements(table, text, pool, i, j);
    }
    same_members(table, text, pool, i, j)
}

// Whether the elements of two lists with one count are equal, one by one.
#[cycle(equality)]
fn same_elements(table: &[u8], text: &[u8], pool: &[u8], i: usize, j: usize) -> bool
    requires accepted { Accepted table.now text.now }
    requires both { Both table.now i j × (child_count table.now i ≡ child_count table.now j) }
    ensures { result ≡ same_elements_at table.now text.now i j }
{
    let a = records::first_child(table, i) as usize;
    let b = records::first_child(table, j) as usize;
    let count = records::child_count(table, i) as usize;
    for k in 0..count {
        let x = operands::get_value(table, text, a + k);
        let y = operands::get_value(table, text, b + k);
        if !same_values(table, text, pool, x, y) {
            return false;
        }
    }
    true
}

// Whether each member of one map has an equal one of its name in another. Maps of one shape have their members in one order: each is looked for first behind the one that was found last.
#[cycle(equality)]
fn same_members(table: &[u8], text: &[u8], pool: &[u8], i: usize, j: usize) -> bool
    requires accepted { Accepted table.now text.now }
    requires both { Both table.now i j × (kind_at table.now i ≡ kind_map) × (kind_at table.now j ≡ kind_map) }
    ensures { result ≡ same_members_at table.now text.now i j }
{
    let a = records::first_child(table, i) as usize;
    let b = records::first_child(table, j) as usize;
    let count = records::child_count(table, i) as usize;
    let many = records::child_count(table, j) as usize;
    let mut near = 0;
    for k in 0..count {
        let found = members::partner(table, text, a + k, j, b, many, near);
        let Some(h) = found else {
            return false;
        };
        let x = operands::get_value(table, text, a + k);
        let y = operands::get_value(table, text, h);
        if !same_values(table, text, pool, x, y) {
            return false;
        }
        near = h - b + 1;
    }
    true
}

// "`<=` and `>=` also hold between equal values of any kind but booleans".
fn less_or_same(table: &[u8], text: &[u8], pool: &[u8], x: Operand, y: Operand) -> bool
    requires accepted { Accepted table.now text.now }
    requires pair { Pair table.now text.now pool.now x y }
    ensures { result ≡ less_or_same (meaning table.now text.now pool.now x) (meaning table.now text.now pool.now y) }
{
    if ranks::is_less(text, pool, x, y) {
        return true;
    }
    if !same_values(table, text, pool, x, y) {
        return false;
    }
    !operands::is_boolean(x)
}

// Whether two values differ; one that is none differs from nothing.
fn not_same(table: &[u8], text: &[u8], pool: &[u8], x: Operand, y: Operand) -> bool
    requires accepted { Accepted table.now text.now }
    requires pair { Pair table.now text.now pool.now x y }
    ensures { result ≡ differ (meaning table.now text.now pool.now x) (meaning table.now text.now pool.now y) }
{
    if !operands::is_some(x) {
        return false;
    }
    if !operands::is_some(y) {
        return false;
    }
    !same_values(table, text, pool, x, y)
}

// Two values by an operator, given as in the plan: 0-5 for == != < <= > >=.
// The operator stays a byte: the clause `Compares` says it by `operator_byte`, and an enum would be read from the byte anew for each comparison.
pub fn compare_values(
    table: &[u8],
    text: &[u8],
    pool: &[u8],
    op: u8,
    x: Operand,
    y: Operand,
) -> bool
    requires accepted { Accepted table.now text.now }
    requires pair { Pair table.now text.now pool.now x y }
    ensures { Compares (meaning table.now text.now pool.now x) (meaning table.now text.now pool.now y) op result }
{
    if op == EQ {
        return same_values(table, text, pool, x, y);
    }
    if op == NE {
        return not_same(table, text, pool, x, y);
    }
    if op == LT {
        return ranks::is_less(text, pool, x, y);
    }
    if op == LE {
        return less_or_same(table, text, pool, x, y);
    }
    if op == GT {
        return ranks::is_less(text, pool, y, x);
    }
    less_or_same(table, text, pool, y, x)
}
