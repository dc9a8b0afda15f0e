// Two queries of names and indices, compared with each other: their nodes by their kinds, without registers.
ghost use Rattle.std.specs.Prelude.{◌≡◌, false, ◌<◌};
ghost use Rattle.definition.specs.Compare.{node_value};
ghost use Rattle.definition.specs.Tables.{node_count, node_at, kind_at};
ghost use Rattle.table_laws.specs.Accepted.{Accepted};
ghost use Rattle.eval_values.specs.Alike.{Compares};
ghost use Rattle.eval_filters.specs.Pairs.{AskNodes, AskFirst, DoneFirst, AskBeside, DoneBeside};

use crate::{Told, kinds};
use eval_items::leaves;
use eval_values::operands;
use plan_format::kinds::COMPARE;
use plan_format::operators::EQ;
use table::records;
use table::records::{KIND_FLOAT, KIND_INTEGER, KIND_TEXT};
use text::parts;

// Whether two nodes have the same text.
fn same_texts(table: &[u8], text: &[u8], m: usize, n: usize) -> bool
    requires ask_nodes { AskNodes table.now text.now m n }
    requires m_value { (kind_at table.now m ≡ 5) × (kind_at table.now n ≡ 5) }
    ensures { Compares (node_value (node_at table.now text.now m)) (node_value (node_at table.now text.now n)) 0 result }
{
    let a = records::text_start(table, m) as usize;
    let p = records::text_length(table, m) as usize;
    let b = records::text_start(table, n) as usize;
    let q = records::text_length(table, n) as usize;
    parts::same_part(text, a, p, text, b, q)
}

// The values of two nodes by an operator, as operands.
fn as_operands(table: &[u8], text: &[u8], pool: &[u8], op: u8, m: usize, n: usize) -> bool
    requires { AskNodes table.now text.now m n }
    ensures { Compares (node_value (node_at table.now text.now m)) (node_value (node_at table.now text.now n)) op result }
{
    let x = operands::get_value(table, text, m);
    let y = operands::get_value(table, text, n);
    eval_values::compare_values(table, text, pool, op, x, y)
}

// The same; two integers, two floats, and the equality of two texts, need no operands.
fn compare_nodes(table: &[u8], text: &[u8], pool: &[u8], op: u8, m: usize, n: usize) -> bool
    requires { AskNodes table.now text.now m n }
    ensures { Compares (node_value (node_at table.now text.now m)) (node_value (node_at table.now text.now n)) op result }
{
    let k = records::kind(table, m);
    if k != records::kind(table, n) {
        return as_operands(table, text, pool, op, m, n);
    }
    if k == KIND_INTEGER {
        let a = kinds::node_int(table, text, m);
        let b = kinds::node_int(table, text, n);
        return crate::compare_ints(op, a, b);
    }
    if k == KIND_FLOAT {
        let a = kinds::node_float(table, text, m);
        let b = kinds::node_float(table, text, n);
        return kinds::compare_floats(op, a, b);
    }
    if k == KIND_TEXT {
        if op == EQ {
            return same_texts(table, text, m, n);
        }
    }
    as_operands(table, text, pool, op, m, n)
}

// The first of n nodes and the first of k others by an operator.
fn compare_first(
    table: &[u8],
    text: &[u8],
    pool: &[u8],
    op: u8,
    n: usize,
    first: usize,
    k: usize,
    other: usize,
) -> bool
    requires { AskFirst table.now text.now n first k other }
    ensures { DoneFirst table.now text.now n first k other op result }
{
    if n == 0 {
        return false;
    }
    if k == 0 {
        return false;
    }
    compare_nodes(table, text, pool, op, first, other)
}

// Nothing is told.
pub fn untold(q: usize) -> Told
    ensures { result.some ≡ false }
{
    Told {
        acc: false,
        q,
        some: false,
    }
}

// The comparison of the first of n nodes with the first node of the query at z: nothing compares with none.
pub fn beside(
    plan: &[u8],
    pool: &[u8],
    table: &[u8],
    text: &[u8],
    root: usize,
    node: usize,
    n: usize,
    first: usize,
    z: usize,
    e: usize,
) -> Told
    requires { AskBeside plan.now pool.now table.now text.now root node n first z e }
    ensures { DoneBeside plan.now pool.now table.now text.now root node n first z e result }
{
    if e <= z {
        return untold(z);
    }
    let from = leaves::begins(plan[z], root, node);
    let Ok(v) = crate::plain_nodes(plan, pool, table, text, from, z) else {
        return untold(z);
    };
    let w = v.z;
    if e <= w {
        return untold(z);
    }
    if plan[w] != COMPARE {
        return untold(z);
    }
    let op = plan[w + 1];
    let b = compare_first(table, text, pool, op, n, first, v.n, v.first);
    Told {
        acc: b,
        q: w + 2,
        some: true,
    }
}
