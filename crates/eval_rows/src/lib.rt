// The nodes of a range that a filter keeps, where its tests need no query evaluated. An expression of match or search that is a text of the plan is read once for all of them, at
// the first node that asks for it. Where there are more calls than one, or a test in front of one needs a query evaluated, or more follows than a name, each node has a cell that says
// how far it is told, and every call is asked of all nodes that stand at it (`fill`).
//
// The rooms for it stand in frames of their own. LLVM would join the functions that hold them into evaluation, which calls itself, and every call of that would have
// the rooms; a function that calls itself it leaves alone. `again` says how often one does, which changes nothing of the answer. There are two sizes of each room,
// since a room is cleared first.
//
//   paths     names and indices that lead to the end of a query
//   calls     such a call in a filter's code
//   turns     one test of a filter's code on a node
//   rows      one node with the whole filter, and all of them in turn
//   columns   how far each of them is told, in a cell
//   coded     all of them where the expression is known

#![tactic(auto)]

pub mod calls;
pub mod coded;
pub mod columns;
pub mod paths;
pub mod rows;
pub mod turns;

ghost use Rattle.std.specs.Prelude.{◌≡◌, false, ◌+◌, ◌*◌, ◌≤◌, ◌<◌, length};
ghost use Rattle.eval_rows.specs.Calls.{CallAt, Spelled};
ghost use Rattle.eval_rows.specs.Columns.{AskPass, DonePass, AskFill};
ghost use Rattle.eval_asks.specs.Cells.{Column};

use calls::Call;
use regex_rooms::reads;
use rows::{Filter, Passed};
use turns::Known;

// An expression of the part has at most so many bytes.
const LONG: usize = 1024;

const SHORT: usize = 128;

// A word for each byte for the characters; eight for each byte and fifteen more for the code, as in `regex_rooms`.
const LONG_CODE: usize = 8207;

const SHORT_CODE: usize = 1039;

// A byte that is no kind of a plan's item.
const NO_KIND: u8 = 255;

// The nodes from i on that the filter keeps, with what follows. The expression is read first, into the rooms.
fn read_in(
    plan: &[u8],
    pool: &[u8],
    table: &[u8],
    text: &[u8],
    f: Filter,
    i: usize,
    g: Call,
    list: &mut [u32],
    at: usize,
    chars: &mut [u32],
    code: &mut [u32],
) -> Passed
    requires ask_pass { AskPass plan.now pool.now table.now text.now f i list.old at }
    requires call_at { CallAt plan.now f.z g × Spelled pool.now g }
    requires size_in_bounds { (g.size ≤ length chars.old) × (8 * g.size + 15 ≤ length code.old) }
    ensures { DonePass plan.now pool.now table.now text.now f i list.old at list.new result }
{
    let b = g.start;
    let n = g.size;
    match reads::read_widened(g.kind, &pool[b..b + n], chars, code) {
        None => coded::outside(plan, pool, table, text, f, i, g, list, at),
        Some(k) => coded::by_code(plan, pool, table, text, f, i, g, &code[..k], list, at),
    }
}

// The same for an expression of at most 128 bytes.
// Two functions that differ in constants: bin/archive keeps the frame of each by its name, so that over const parameters each would stand with its clauses all the same.
fn short(
    plan: &[u8],
    pool: &[u8],
    table: &[u8],
    text: &[u8],
    f: Filter,
    i: usize,
    g: Call,
    list: &mut [u32],
    at: usize,
    again: u8,
) -> Passed
    requires ask_pass { AskPass plan.now pool.now table.now text.now f i list.old at }
    requires call_at { CallAt plan.now f.z g × Spelled pool.now g }
    requires size_bound { g.size ≤ 128 }
    ensures { DonePass plan.now pool.now table.now text.now f i list.old at list.new result }
{
    if 0 < again {
        return short(plan, pool, table, text, f, i, g, list, at, again - 1);
    }
    let mut chars = [0u32; SHORT];
    let mut code = [0u32; SHORT_CODE];
    read_in(
        plan, pool, table, text, f, i, g, list, at, &mut chars, &mut code,
    )
}

// The same for one of more bytes.
fn long(
    plan: &[u8],
    pool: &[u8],
    table: &[u8],
    text: &[u8],
    f: Filter,
    i: usize,
    g: Call,
    list: &mut [u32],
    at: usize,
    again: u8,
) -> Passed
    requires ask_pass { AskPass plan.now pool.now table.now text.now f i list.old at }
    requires call_at { CallAt plan.now f.z g × Spelled pool.now g }
    requires size_bound { g.size ≤ 1024 }
    ensures { DonePass plan.now pool.now table.now text.now f i list.old at list.new result }
{
    if 0 < again {
        return long(plan, pool, table, text, f, i, g, list, at, again - 1);
    }
    let mut chars = [0u32; LONG];
    let mut code = [0u32; LONG_CODE];
    read_in(
        plan, pool, table, text, f, i, g, list, at, &mut chars, &mut code,
    )
}

// The same in rooms as small as they may be. An expression that is too long is outside the part.
fn by_size(
    plan: &[u8],
    pool: &[u8],
    table: &[u8],
    text: &[u8],
    f: Filter,
    i: usize,
    g: Call,
    list: &mut [u32],
    at: usize,
) -> Passed
    requires ask_pass { AskPass plan.now pool.now table.now text.now f i list.old at }
    requires call_at { CallAt plan.now f.z g × Spelled pool.now g }
    ensures { DonePass plan.now pool.now table.now text.now f i list.old at list.new result }
{
    // 0 for both kinds; but LLVM cannot tell.
    let again = g.kind / NO_KIND;
    let n = g.size;
    if n <= SHORT {
        return short(plan, pool, table, text, f, i, g, list, at, again);
    }
    if n <= LONG {
        return long(plan, pool, table, text, f, i, g, list, at, again);
    }
    coded::outside(plan, pool, table, text, f, i, g, list, at)
}

// The nodes from i on that the filter keeps, with what follows, up to the first that needs an expression or evaluation.
fn unread(
    plan: &[u8],
    pool: &[u8],
    table: &[u8],
    text: &[u8],
    f: Filter,
    i: usize,
    list: &mut [u32],
    at: usize,
) -> Passed
    requires { AskPass plan.now pool.now table.now text.now f i list.old at }
    ensures { DonePass plan.now pool.now table.now text.now f i list.old at list.new result }
{
    let code = [0u32; 1];
    let mut edges = [0u8; 1];
    let mut sets = [0u8; 1];
    let mut marks = [0u8; 1];
    rows::keep(
        plan,
        pool,
        table,
        text,
        f,
        i,
        calls::no_call(),
        Known::Unread,
        &code,
        &mut edges,
        &mut sets,
        &mut marks,
        list,
        at,
    )
}

// The nodes from i on that the filter keeps, with what follows, up to the first that needs evaluation or another expression. Up to the first that asks for an expression
// none is needed. A filter with more than one is left.
pub fn keep_rows(
    plan: &[u8],
    pool: &[u8],
    table: &[u8],
    text: &[u8],
    f: Filter,
    i: usize,
    list: &mut [u32],
    at: usize,
) -> Passed
    requires { AskPass plan.now pool.now table.now text.now f i list.old at × (f.cells ≡ false) }
    ensures { DonePass plan.now pool.now table.now text.now f i list.old at list.new result }
{
    let v = unread(plan, pool, table, text, f, i, list, at);
    let Some(q) = v.q else {
        return v;
    };
    let Some(g) = calls::read_call(plan, q, f.z) else {
        return v;
    };
    if calls::mentions(plan, g.end + 7, f.z) {
        return v;
    }
    by_size(plan, pool, table, text, f, v.i, g, list, v.at)
}

// The cells of the nodes from i up to e with the filter from p up to z: from the place `from` of the code on, each call of match or search with a text of the plan is asked
// of all that stand at it. It ends at the first place where something else stands in front of a call, or at z.
pub fn fill(
    plan: &[u8],
    pool: &[u8],
    table: &[u8],
    text: &[u8],
    root: usize,
    i: usize,
    e: usize,
    p: usize,
    z: usize,
    from: usize,
    column: &mut [u32],
) -> usize
    requires ask_fill { AskFill plan.now pool.now table.now text.now root i e p z }
    requires column { Column plan.now pool.now table.now text.now root i e p z column.old }
    ensures column_2 { Column plan.now pool.now table.now text.now root i e p z column.new }
    ensures lower_bound { result < z → from ≤ result }
{
    let f = Filter {
        root,
        e,
        p,
        z,
        tail: 0,
        rest: 0,
        cap: 0,
        cells: true,
    };
    // The steps differ, so that `for` is no plainer.
    let mut q = columns::least(column, e - i, from, z);
    while q < z {
        let Some(g) = calls::read_call(plan, q, z) else {
            if calls::mentions(plan, q, z) {
                return q;
            }
            return z;
        };
        by_size(plan, pool, table, text, f, i, g, column, 0);
        q = columns::least(column, e - i, q + 1, z);
    }
    z
}
