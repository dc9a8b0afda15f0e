// The number of all children of a node that names and indices lead to, compared with a literal: `count(@.*)` and its like.
ghost use Rattle.eval_filters.specs.Tests.{AskShort, DoneShort};
ghost use Rattle.eval_filters.specs.Children.{AskChildren, DoneChildren, AskCount, DoneCount, AskCounted, DoneCounted, AskCounting};

use crate::Told;
use eval_items::{leaves, plans};
use eval_values::Operand;
use plan_format::kinds::{CHILD, COMPARE, COUNT, END, INTEGER, WILDCARD};
use table::records;
use text::bytes;

// Whether `.*` stands at c, at the end of a query whose nodes are counted.
fn counts_children(plan: &[u8], c: usize) -> bool
    requires { AskChildren plan.now c }
    ensures { DoneChildren plan.now c result }
{
    if plan[c] != CHILD {
        return false;
    }
    if bytes::word16(plan, c + 1) != 1 {
        return false;
    }
    if plan[c + 3] != WILDCARD {
        return false;
    }
    if plan[c + 4] != END {
        return false;
    }
    plan[c + 5] == COUNT
}

// The number n and the literal at q, by an operator.
fn compare_count(
    plan: &[u8],
    pool: &[u8],
    table: &[u8],
    text: &[u8],
    op: u8,
    n: usize,
    q: usize,
) -> bool
    requires { AskCount plan.now pool.now table.now text.now n q }
    ensures { DoneCount plan.now pool.now n q op result }
{
    let a = n as i64;
    if plan[q] == INTEGER {
        return crate::compare_ints(op, a, bytes::int64(plan, q + 1));
    }
    let y = leaves::literal(plan, pool, q);
    eval_values::compare_values(table, text, pool, op, Operand::Int(a), y)
}

// The comparison of the number n with what stands at z, where that is a literal.
fn count_against(
    plan: &[u8],
    pool: &[u8],
    table: &[u8],
    text: &[u8],
    n: usize,
    z: usize,
    e: usize,
) -> Told
    requires { AskCounted plan.now pool.now table.now text.now n z e }
    ensures { DoneCounted plan.now pool.now n z e result }
{
    if e <= z {
        return Told {
            acc: false,
            q: z,
            some: false,
        };
    }
    if !crate::is_literal(plan[z]) {
        return Told {
            acc: false,
            q: z,
            some: false,
        };
    }
    let w = plans::past_literal(plan, z);
    if e <= w {
        return Told {
            acc: false,
            q: z,
            some: false,
        };
    }
    if plan[w] != COMPARE {
        return Told {
            acc: false,
            q: z,
            some: false,
        };
    }
    let op = plan[w + 1];
    let b = compare_count(plan, pool, table, text, op, n, z);
    Told {
        acc: b,
        q: w + 2,
        some: true,
    }
}

// The query at q whose nodes are all children of node m, which names and indices lead to, counted and compared with a literal.
pub fn count_test(
    plan: &[u8],
    pool: &[u8],
    table: &[u8],
    text: &[u8],
    root: usize,
    node: usize,
    from: usize,
    q: usize,
    e: usize,
    m: usize,
    c: usize,
) -> Told
    requires ask_short { AskShort plan.now pool.now table.now text.now root node q e }
    requires ask_counting { AskCounting plan.now pool.now table.now text.now root node from q m c }
    ensures { DoneShort plan.now pool.now table.now text.now root node q e result }
{
    if !counts_children(plan, c) {
        return Told {
            acc: false,
            q,
            some: false,
        };
    }
    let n = records::child_count(table, m) as usize;
    count_against(plan, pool, table, text, n, c + 6, e)
}
