// Such a filter whose expression is known: by its code, by its states too, or as one outside the part. Each has rooms of its own, for the reason that the crate has.
ghost use Rattle.definition.specs.Bytes.{part};
ghost use Rattle.regex_rooms.specs.Rooms.{scope_for};
ghost use Rattle.eval_rows.specs.Calls.{CallAt, Spelled};
ghost use Rattle.eval_rows.specs.Known.{Ready, Outside};
ghost use Rattle.eval_rows.specs.Columns.{AskPass, DonePass};

use crate::calls::Call;
use crate::rows;
use crate::rows::{Filter, Passed};
use crate::turns::Known;
use regex_marks::weigh;
use regex_states::prepare;

// Rooms for marks, as in `regex_rooms`.
const FEW: usize = 4096;

const NONE: usize = 0;

// Rooms for 63 states of at most so many marks, and for the marks of one. For fewer nodes than so many the expression has no states: a room is cleared first.
const STATE_ROOM: usize = 8192;

const STATE_MOST: usize = 120;

const STATE_MARKS: usize = 256;

const ENOUGH: usize = 8;

// A byte that is no kind of a plan's item.
const NO_KIND: u8 = 255;

// The nodes from i on that the filter keeps, with what follows, by the code of its expression.
// It and `with_most` differ in a constant: bin/archive keeps the frame of each by its name, so that over a const parameter each would stand with its clauses all the same.
fn with_few(
    plan: &[u8],
    pool: &[u8],
    table: &[u8],
    text: &[u8],
    f: Filter,
    i: usize,
    g: Call,
    code: &[u32],
    list: &mut [u32],
    at: usize,
    again: u8,
) -> Passed
    requires ask_pass { AskPass plan.now pool.now table.now text.now f i list.old at }
    requires call_at { CallAt plan.now f.z g × Spelled pool.now g }
    requires ready { Ready (scope_for g.kind) (part pool.now g.start g.size) code.now Known.Read }
    ensures { DonePass plan.now pool.now table.now text.now f i list.old at list.new result }
{
    if 0 < again {
        return with_few(plan, pool, table, text, f, i, g, code, list, at, again - 1);
    }
    let mut edges = [0u8; 1];
    let mut sets = [0u8; 1];
    let mut marks = [0u8; FEW];
    rows::keep(
        plan,
        pool,
        table,
        text,
        f,
        i,
        g,
        Known::Read,
        code,
        &mut edges,
        &mut sets,
        &mut marks,
        list,
        at,
    )
}

// The same by the states of the expression, which are kept from node to node.
fn with_states(
    plan: &[u8],
    pool: &[u8],
    table: &[u8],
    text: &[u8],
    f: Filter,
    i: usize,
    g: Call,
    code: &[u32],
    list: &mut [u32],
    at: usize,
    again: u8,
) -> Passed
    requires ask_pass { AskPass plan.now pool.now table.now text.now f i list.old at }
    requires call_at { CallAt plan.now f.z g × Spelled pool.now g }
    requires ready { Ready (scope_for g.kind) (part pool.now g.start g.size) code.now Known.States }
    ensures { DonePass plan.now pool.now table.now text.now f i list.old at list.new result }
{
    if 0 < again {
        return with_states(plan, pool, table, text, f, i, g, code, list, at, again - 1);
    }
    let mut edges = [0u8; STATE_ROOM];
    let mut sets = [0u8; STATE_ROOM];
    let mut marks = [0u8; STATE_MARKS];
    prepare(code, &mut edges, &mut sets);
    rows::keep(
        plan,
        pool,
        table,
        text,
        f,
        i,
        g,
        Known::States,
        code,
        &mut edges,
        &mut sets,
        &mut marks,
        list,
        at,
    )
}

// The same where the code has more marks than are kept for all texts: each text is tested in rooms of its own.
fn with_most(
    plan: &[u8],
    pool: &[u8],
    table: &[u8],
    text: &[u8],
    f: Filter,
    i: usize,
    g: Call,
    code: &[u32],
    list: &mut [u32],
    at: usize,
    again: u8,
) -> Passed
    requires ask_pass { AskPass plan.now pool.now table.now text.now f i list.old at }
    requires call_at { CallAt plan.now f.z g × Spelled pool.now g }
    requires ready { Ready (scope_for g.kind) (part pool.now g.start g.size) code.now Known.Read }
    ensures { DonePass plan.now pool.now table.now text.now f i list.old at list.new result }
{
    if 0 < again {
        return with_most(plan, pool, table, text, f, i, g, code, list, at, again - 1);
    }
    let mut edges = [0u8; 1];
    let mut sets = [0u8; 1];
    let mut marks = [0u8; NONE];
    rows::keep(
        plan,
        pool,
        table,
        text,
        f,
        i,
        g,
        Known::Read,
        code,
        &mut edges,
        &mut sets,
        &mut marks,
        list,
        at,
    )
}

// Whether an expression of n marks has states for the nodes from i up to e.
fn has_states(n: usize, i: usize, e: usize) -> bool {
    if STATE_MOST < n {
        return false;
    }
    if e < ENOUGH {
        return false;
    }
    i <= e - ENOUGH
}

// The same in rooms as small as they may be.
pub fn by_code(
    plan: &[u8],
    pool: &[u8],
    table: &[u8],
    text: &[u8],
    f: Filter,
    i: usize,
    g: Call,
    code: &[u32],
    list: &mut [u32],
    at: usize,
) -> Passed
    requires ask_pass { AskPass plan.now pool.now table.now text.now f i list.old at }
    requires call_at { CallAt plan.now f.z g × Spelled pool.now g }
    requires ready { Ready (scope_for g.kind) (part pool.now g.start g.size) code.now Known.Read }
    ensures { DonePass plan.now pool.now table.now text.now f i list.old at list.new result }
{
    // 0 for both kinds; but LLVM cannot tell.
    let again = g.kind / NO_KIND;
    let w = weigh(code, 0, FEW);
    if has_states(w.size, i, f.e) {
        return with_states(plan, pool, table, text, f, i, g, code, list, at, again);
    }
    if w.size <= FEW {
        return with_few(plan, pool, table, text, f, i, g, code, list, at, again);
    }
    with_most(plan, pool, table, text, f, i, g, code, list, at, again)
}

// The same where the expression is outside the part.
pub fn outside(
    plan: &[u8],
    pool: &[u8],
    table: &[u8],
    text: &[u8],
    f: Filter,
    i: usize,
    g: Call,
    list: &mut [u32],
    at: usize,
) -> Passed
    requires ask_pass { AskPass plan.now pool.now table.now text.now f i list.old at }
    requires call_at { CallAt plan.now f.z g × Spelled pool.now g }
    requires outside { Outside (scope_for g.kind) (part pool.now g.start g.size) }
    ensures { DonePass plan.now pool.now table.now text.now f i list.old at list.new result }
{
    let code = [0u32; 1];
    let mut edges = [0u8; 1];
    let mut sets = [0u8; 1];
    let mut marks = [0u8; 1];
    rows::keep(
        plan,
        pool,
        table,
        text,
        f,
        i,
        g,
        Known::Outside,
        &code,
        &mut edges,
        &mut sets,
        &mut marks,
        list,
        at,
    )
}
