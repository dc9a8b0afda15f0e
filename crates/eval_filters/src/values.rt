// Comparisons whose operands are values: a literal, the first node of a query of names and indices, `count` or `value` of such a query, and `length` of any of these,
// on either side. Each operand is read where it stands, with no register.
ghost use Rattle.std.specs.Prelude.{◌≡◌, true, false, ◌≤◌, get_or};
ghost use Rattle.table_laws.specs.Accepted.{Accepted};
ghost use Rattle.eval_values.specs.Alike.{Compares};
ghost use Rattle.eval_values.specs.Means.{meaning, Pair};
ghost use Rattle.eval_filters.specs.Tests.{DoneShort};
ghost use Rattle.eval_filters.specs.Values.{AskNodes, OnlyOf, FirstOf, AskFound, DoneFound, AskOperand, DoneOperand, AskLeft};

use crate::{Told, pairs};
use eval_items::{leaves, plans};
use eval_values::{Operand, operands};
use plan_format::kinds::{COMPARE, COUNT, CURRENT, LENGTH, TEST, VALUE};

// A value and the place behind it.
#[derive(Clone, Copy)]
pub struct Valued {
    pub v: Operand,
    pub q: usize,
}

// The value of the only one of n nodes, and null where there is not one.
fn only_value(table: &[u8], text: &[u8], n: usize, first: usize) -> Operand
    requires { AskNodes table.now text.now n first }
    ensures { OnlyOf table.now text.now n first result }
{
    if n == 1 {
        return operands::get_value(table, text, first);
    }
    Operand::Null
}

// The value of the first of n nodes, if there is one.
fn first_value(table: &[u8], text: &[u8], n: usize, first: usize) -> Operand
    requires { AskNodes table.now text.now n first }
    ensures { FirstOf table.now text.now n first result }
{
    if 0 < n {
        return operands::get_value(table, text, first);
    }
    Operand::Nothing
}

// What the byte at z asks of the n nodes of a query, of which the first is given: their number, the value of the only one, or that of the first. It asks for no test.
fn found_value(plan: &[u8], table: &[u8], text: &[u8], n: usize, first: usize, z: usize) -> Valued
    requires ask_nodes { AskNodes table.now text.now n first }
    requires ask_found { AskFound plan.now n z }
    ensures { DoneFound plan.now table.now text.now n first z result }
{
    let mode = plan[z];
    if mode == COUNT {
        let k = n as i64;
        return Valued {
            v: Operand::Int(k),
            q: z + 1,
        };
    }
    if mode == VALUE {
        let v = only_value(table, text, n, first);
        return Valued { v, q: z + 1 };
    }
    let v = first_value(table, text, n, first);
    Valued { v, q: z }
}

// The value of the query at q with what is asked of it, where it is of names and indices; none where it takes evaluation.
fn query_value(
    plan: &[u8],
    pool: &[u8],
    table: &[u8],
    text: &[u8],
    root: usize,
    node: usize,
    q: usize,
    e: usize,
) -> Option<Valued>
    requires ask_operand { AskOperand plan.now pool.now table.now text.now root node q e }
    requires q_bound { get_or plan.now q 0 ≤ 2 }
    ensures { DoneOperand plan.now pool.now table.now text.now root node q e result }
{
    let from = leaves::begins(plan[q], root, node);
    let Ok(w) = crate::plain_nodes(plan, pool, table, text, from, q) else {
        return None;
    };
    let z = w.z;
    if plan[z] == TEST {
        return None;
    }
    Some(found_value(plan, table, text, w.n, w.first, z))
}

// The value at q: a literal, or what is asked of a query.
fn operand(
    plan: &[u8],
    pool: &[u8],
    table: &[u8],
    text: &[u8],
    root: usize,
    node: usize,
    q: usize,
    e: usize,
) -> Option<Valued>
    requires { AskOperand plan.now pool.now table.now text.now root node q e }
    ensures { DoneOperand plan.now pool.now table.now text.now root node q e result }
{
    let k = plan[q];
    if k <= CURRENT {
        return query_value(plan, pool, table, text, root, node, q, e);
    }
    if !crate::is_literal(k) {
        return None;
    }
    let v = leaves::literal(plan, pool, q);
    let z = plans::past_literal(plan, q);
    Some(Valued { v, q: z })
}

// The value at q, or its length where that is asked for behind it.
fn measured(
    plan: &[u8],
    pool: &[u8],
    table: &[u8],
    text: &[u8],
    root: usize,
    node: usize,
    q: usize,
    e: usize,
) -> Option<Valued>
    requires { AskOperand plan.now pool.now table.now text.now root node q e }
    ensures { DoneOperand plan.now pool.now table.now text.now root node q e result }
{
    let a = operand(plan, pool, table, text, root, node, q, e)?;
    let z = a.q;
    if e <= z {
        return Some(a);
    }
    if plan[z] != LENGTH {
        return Some(a);
    }
    let n = operands::length(table, text, pool, a.v);
    let k = n as i64;
    Some(Valued {
        v: Operand::Int(k),
        q: z + 1,
    })
}

// Two values by an operator. Two integers come first, since the slices of a call go through memory.
fn compare_operands(table: &[u8], text: &[u8], pool: &[u8], op: u8, x: Operand, y: Operand) -> bool
    requires accepted { Accepted table.now text.now }
    requires pair { Pair table.now text.now pool.now x y }
    ensures { Compares (meaning table.now text.now pool.now x) (meaning table.now text.now pool.now y) op result }
{
    if let Operand::Int(a) = x {
        if let Operand::Int(b) = y {
            return crate::compare_ints(op, a, b);
        }
    }
    eval_values::compare_values(table, text, pool, op, x, y)
}

// The value at q compared with the value behind it, in code that ends at e.
pub fn value_test(
    plan: &[u8],
    pool: &[u8],
    table: &[u8],
    text: &[u8],
    root: usize,
    node: usize,
    q: usize,
    e: usize,
) -> Told
    requires { AskLeft plan.now pool.now table.now text.now root node q e }
    ensures { DoneShort plan.now pool.now table.now text.now root node q e result }
{
    let Some(a) = measured(plan, pool, table, text, root, node, q, e) else {
        return pairs::untold(q);
    };
    let z = a.q;
    if e <= z {
        return pairs::untold(q);
    }
    let Some(b) = measured(plan, pool, table, text, root, node, z, e) else {
        return pairs::untold(q);
    };
    let w = b.q;
    if e <= w {
        return pairs::untold(q);
    }
    if plan[w] != COMPARE {
        return pairs::untold(q);
    }
    let op = plan[w + 1];
    let x = a.v;
    let y = b.v;
    let t = compare_operands(table, text, pool, op, x, y);
    Told {
        acc: t,
        q: w + 2,
        some: true,
    }
}
