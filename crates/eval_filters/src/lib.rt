// What a filter's code says of a node, told without registers: a test of a query of names and indices; the comparison of such a query, of `count` or `value` of it,
// of `length` of any of these or of a literal with another; the number of all children of a node compared with a literal; and the operators between such tests.
// What needs a query evaluated is left to the code's registers.
//
//   kinds      a node and a literal by their kinds
//   children   the number of all children, compared with a literal
//   pairs      two queries of names and indices, compared with each other
//   values     comparisons of other values
//   atoms      a test of one member, read from the plan once
//   counts     the number of children, read so
//   itself     a node itself and a literal, read so
//   kept       the nodes of a range that a filter keeps whose test is read once

#![tactic(auto)]

ghost use Rattle.std.specs.Prelude.{◌≡◌, ◌+◌, get_or};
ghost use Rattle.definition.specs.Compare.{Value};
ghost use Rattle.definition.specs.Tables.{kind_at};
ghost use Rattle.eval_values.specs.Alike.{Compares};
ghost use Rattle.eval_front.specs.Visits.{AskReach};
ghost use Rattle.eval_filters.specs.Numbers.{says_of};
ghost use Rattle.eval_filters.specs.Values.{AskLeft};
ghost use Rattle.eval_filters.specs.Tests.{literal_kind, logic_kind, AskNode, DoneNode, AskAgainst, DoneAgainst, DonePlain, AskShort, DoneShort, AskLogic, DoneLogic};
ghost use Rattle.eval_filters.specs.Turns.{AskTurn, DoneTurn};

use eval_front::More;
use eval_items::{leaves, plans};
use eval_values::operands;
use plan_format::kinds::{AND, COMPARE, CONSTANT, CURRENT, END, INTEGER, NOT, OR, TEST, TEXT};
use plan_format::operators::{EQ, LE, NE};
use std::cmp::Ordering;
use table::records;
use table::records::{KIND_INTEGER, KIND_TEXT};
use text::{bytes, parts};

pub mod atoms;
pub mod children;
pub mod counts;
pub mod itself;
pub mod kept;
pub mod kinds;
pub mod pairs;
pub mod values;

// The answer of a test and the place behind it; `some` is false where it is not told.
#[derive(Clone, Copy)]
pub struct Told {
    pub acc: bool,
    pub q: usize,
    pub some: bool,
}

// How many nodes a query finds, the first of them, and the place behind the query.
#[derive(Clone, Copy)]
pub struct Nodes {
    pub n: usize,
    pub first: usize,
    pub z: usize,
}

// Whether ==, !=, < or <= holds between two numbers in that order.
fn says(op: u8, o: Ordering) -> bool
    ensures { result ≡ says_of op o }
{
    match o {
        Ordering::Less => op != EQ,
        Ordering::Equal => {
            if op == EQ {
                return true;
            }
            op == LE
        }
        Ordering::Greater => op == NE,
    }
}

// Two integers by an operator: 0-5 for == != < <= > >=.
fn compare_ints(op: u8, a: i64, b: i64) -> bool
    ensures { Compares (Value.integer a) (Value.integer b) op result }
{
    if op <= LE {
        return says(op, number_order::compare_i64(a, b));
    }
    says(op - 2, number_order::compare_i64(b, a))
}

// The integer of node m and the integer at q, by an operator.
fn compare_integers(
    plan: &[u8],
    pool: &[u8],
    table: &[u8],
    text: &[u8],
    op: u8,
    m: usize,
    q: usize,
) -> bool
    requires ask_node { AskNode plan.now pool.now table.now text.now m q }
    requires q_value { (get_or plan.now q 0 ≡ 0x10) × (kind_at table.now m ≡ 3) }
    ensures { DoneNode plan.now pool.now table.now text.now m q op result }
{
    let a = records::integer(table, m);
    let b = bytes::int64(plan, q + 1);
    compare_ints(op, a, b)
}

// Whether the text of node m is the text at q.
fn same_text(plan: &[u8], pool: &[u8], table: &[u8], text: &[u8], m: usize, q: usize) -> bool
    requires ask_node { AskNode plan.now pool.now table.now text.now m q }
    requires q_value { (get_or plan.now q 0 ≡ 0x12) × (kind_at table.now m ≡ 5) }
    ensures { DoneNode plan.now pool.now table.now text.now m q 0 result }
{
    let a = records::text_start(table, m) as usize;
    let n = records::text_length(table, m) as usize;
    let b = bytes::word16(plan, q + 1);
    let k = bytes::word16(plan, q + 3);
    parts::same_part(text, a, n, pool, b, k)
}

// The value of node m and the literal at q, by an operator.
fn compare_operands(
    plan: &[u8],
    pool: &[u8],
    table: &[u8],
    text: &[u8],
    op: u8,
    m: usize,
    q: usize,
) -> bool
    requires { AskNode plan.now pool.now table.now text.now m q }
    ensures { DoneNode plan.now pool.now table.now text.now m q op result }
{
    let x = operands::get_value(table, text, m);
    let y = leaves::literal(plan, pool, q);
    eval_values::compare_values(table, text, pool, op, x, y)
}

// The same; two integers, and the equality of two texts, come first.
fn compare_node(
    plan: &[u8],
    pool: &[u8],
    table: &[u8],
    text: &[u8],
    op: u8,
    m: usize,
    q: usize,
) -> bool
    requires { AskNode plan.now pool.now table.now text.now m q }
    ensures { DoneNode plan.now pool.now table.now text.now m q op result }
{
    let k = plan[q];
    let kind = records::kind(table, m);
    if k == INTEGER {
        if kind == KIND_INTEGER {
            return compare_integers(plan, pool, table, text, op, m, q);
        }
    }
    if k == TEXT {
        if kind == KIND_TEXT {
            if op <= NE {
                let b = same_text(plan, pool, table, text, m, q);
                if op == EQ {
                    return b;
                }
                return !b;
            }
        }
    }
    kinds::by_kinds(plan, pool, table, text, op, m, q)
}

// Whether a byte begins a literal.
fn is_literal(k: u8) -> bool
    ensures { result ≡ literal_kind k }
{
    if k < INTEGER {
        return false;
    }
    k <= CONSTANT
}

// The comparison of the first of n nodes with the literal at z: nothing compares with none.
fn against(
    plan: &[u8],
    pool: &[u8],
    table: &[u8],
    text: &[u8],
    n: usize,
    first: usize,
    z: usize,
    e: usize,
) -> Told
    requires { AskAgainst plan.now pool.now table.now text.now n first z e }
    ensures { DoneAgainst plan.now pool.now table.now text.now n first z e result }
{
    if e <= z {
        return Told {
            acc: false,
            q: z,
            some: false,
        };
    }
    let w = plans::past_literal(plan, z);
    if e <= w {
        return Told {
            acc: false,
            q: z,
            some: false,
        };
    }
    if plan[w] != COMPARE {
        return Told {
            acc: false,
            q: z,
            some: false,
        };
    }
    if n == 0 {
        return Told {
            acc: false,
            q: w + 2,
            some: true,
        };
    }
    let op = plan[w + 1];
    let b = compare_node(plan, pool, table, text, op, first, z);
    Told {
        acc: b,
        q: w + 2,
        some: true,
    }
}

// What the query at q finds from a node, where it is of names and indices; or where they lead, where more of it takes evaluation.
fn plain_nodes(
    plan: &[u8],
    pool: &[u8],
    table: &[u8],
    text: &[u8],
    from: usize,
    q: usize,
) -> Result<Nodes, More>
    requires { AskReach plan.now pool.now table.now text.now from (q + 1) }
    ensures { DonePlain plan.now pool.now table.now text.now from q result }
{
    let r = eval_front::reach(plan, pool, table, text, from, q + 1);
    let c = r.pc;
    let Ok(m) = r.node else {
        let z = plans::past_query(plan, c);
        return Ok(Nodes { n: 0, first: 0, z });
    };
    if plan[c] == END {
        return Ok(Nodes {
            n: 1,
            first: m,
            z: c + 1,
        });
    }
    Err(More { node: m, pc: c })
}

// The query at q that is tested, or compared with a literal or with another query, in code that ends at e. Where nothing is told, `acc` says whether values may tell it.
fn short_test(
    plan: &[u8],
    pool: &[u8],
    table: &[u8],
    text: &[u8],
    root: usize,
    node: usize,
    q: usize,
    e: usize,
) -> Told
    requires { AskShort plan.now pool.now table.now text.now root node q e }
    ensures { DoneShort plan.now pool.now table.now text.now root node q e result }
{
    let from = leaves::begins(plan[q], root, node);
    let v = match plain_nodes(plan, pool, table, text, from, q) {
        Ok(v) => v,
        Err(m) => {
            return children::count_test(
                plan, pool, table, text, root, node, from, q, e, m.node, m.pc,
            );
        }
    };
    let n = v.n;
    let z = v.z;
    let mode = plan[z];
    if mode == TEST {
        return Told {
            acc: 0 < n,
            q: z + 1,
            some: true,
        };
    }
    if mode <= CURRENT {
        return pairs::beside(plan, pool, table, text, root, node, n, v.first, z, e);
    }
    if !is_literal(mode) {
        return Told {
            acc: true,
            q,
            some: false,
        };
    }
    against(plan, pool, table, text, n, v.first, z, e)
}

// The test at q that no operator stands before, in code that ends at e.
pub fn plain_test(
    plan: &[u8],
    pool: &[u8],
    table: &[u8],
    text: &[u8],
    root: usize,
    node: usize,
    q: usize,
    e: usize,
) -> Told
    requires { AskLeft plan.now pool.now table.now text.now root node q e }
    ensures { DoneShort plan.now pool.now table.now text.now root node q e result }
{
    if plan[q] <= CURRENT {
        let t = short_test(plan, pool, table, text, root, node, q, e);
        if t.some {
            return t;
        }
        if !t.acc {
            return t;
        }
    }
    values::value_test(plan, pool, table, text, root, node, q, e)
}

// Whether a byte is that of `!`, `&&` or `||`.
pub fn is_logic(k: u8) -> bool
    ensures { result ≡ logic_kind k }
{
    if k < NOT {
        return false;
    }
    k <= OR
}

// `!`, and the right operand of `&&` or `||` entered or skipped.
pub fn logic_expr(plan: &[u8], acc: bool, q: usize) -> Told
    requires { AskLogic plan.now «acc» q }
    ensures { DoneLogic plan.now «acc» q result }
{
    let k = plan[q];
    if k == NOT {
        return Told {
            acc: !acc,
            q: q + 1,
            some: true,
        };
    }
    let inside = q + 3;
    let behind = plans::past_sized(plan, q);
    if k == AND {
        if acc {
            return Told {
                acc,
                q: inside,
                some: true,
            };
        }
        return Told {
            acc,
            q: behind,
            some: true,
        };
    }
    if acc {
        return Told {
            acc,
            q: behind,
            some: true,
        };
    }
    Told {
        acc,
        q: inside,
        some: true,
    }
}

// The operator or test at q, with an answer before it, where it is told without registers.
pub fn plain_turn(
    plan: &[u8],
    pool: &[u8],
    table: &[u8],
    text: &[u8],
    root: usize,
    node: usize,
    acc: bool,
    q: usize,
    e: usize,
) -> Told
    requires { AskTurn plan.now pool.now table.now text.now root node «acc» q e }
    ensures { DoneTurn plan.now pool.now table.now text.now root node «acc» q e result }
{
    if is_logic(plan[q]) {
        return logic_expr(plan, acc, q);
    }
    plain_test(plan, pool, table, text, root, node, q, e)
}
