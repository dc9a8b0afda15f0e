// A query read in a room of its own, and its plan and pool copied where they are wanted.
ghost use Rattle.std.specs.Prelude.{◌≡◌, ◌≤◌, length};
ghost use Rattle.definition.specs.Outcomes.{early};
ghost use Rattle.compile_unique.specs.Readings.{OneCompile};
ghost use Rattle.compile.specs.Outcomes.{outcome, QueryNumber, number_or_zero};
ghost use Rattle.compile.specs.Steps.{Enough, Sizes, Rooms, ParsePost, verdict_of, Delivers};

use crate::numbers::refusal_of;
use crate::{CompileRefusal, Lengths, Refusal};
use parser::query as parse_query;
use parser_items::{BEYOND, Cursor};
use parser_scan::is;
use plan_format::kinds::ROOT as FROM_ROOT;
use text::brackets::too_deep;
use text::encoding::is_utf8;
use text::parts::copy_part;

const MAX_QUERY: usize = 4096;

const ROOT: u8 = b'$';
// A byte that no UTF-8 text has.
pub const NO_BYTE: u8 = 255;

// A query is read in the smallest rooms that are sure to take it, since rooms are cleared first: 15 bytes of plan and one of pool for each byte.
// These take every query.
pub const PLAN_ROOM: usize = 61440;

pub const POOL_ROOM: usize = 4096;

// These take a query of at most 1,024 bytes.
pub const MIDDLE: usize = 1024;

pub const MIDDLE_PLAN_ROOM: usize = 15360;

pub const MIDDLE_POOL_ROOM: usize = 1024;

// These take a query of at most 256 bytes.
pub const SHORT: usize = 256;

pub const SHORT_PLAN_ROOM: usize = 3840;

pub const SHORT_POOL_ROOM: usize = 256;

// These take a query of at most 64 bytes.
pub const BRIEF: usize = 64;

pub const BRIEF_PLAN_ROOM: usize = 960;

pub const BRIEF_POOL_ROOM: usize = 64;

// These take a query of at most 32 bytes.
pub const SMALL: usize = 32;

pub const SMALL_PLAN_ROOM: usize = 480;

pub const SMALL_POOL_ROOM: usize = 32;

// These take a query of at most 16 bytes.
pub const TINY: usize = 16;

pub const TINY_PLAN_ROOM: usize = 240;

pub const TINY_POOL_ROOM: usize = 16;

// The refusals before the grammar, in their order.
pub fn early_refusal(query: &[u8]) -> Result<(), Refusal>
    ensures { number_or_zero result ≡ early query.now }
{
    if MAX_QUERY < query.len() {
        return Err(Refusal::TooLong);
    }
    if !is_utf8(query) {
        return Err(Refusal::NotUtf8);
    }
    if too_deep(query) {
        return Err(Refusal::TooDeep);
    }
    Ok(())
}

// jsonpath-query = root-identifier segments, from the first byte to the last; the cursor behind it, or the place where reading stopped.
pub fn parse(s: &[u8], plan: &mut [u8], pool: &mut [u8]) -> Result<Cursor, usize>
    requires { Rooms s.now plan.old pool.old }
    ensures { ParsePost s.now plan.old plan.new pool.old pool.new result }
{
    if !is(s, 0, ROOT) {
        return Err(0);
    }
    let st = Cursor {
        at: 1,
        len: 0,
        pool: 0,
        marks: 0,
    };
    let (n, _) = parse_query(&s[0..], plan, pool, st, FROM_ROOT)?;
    let at = n.at;
    if at < s.len() {
        return Err(at);
    }
    Ok(n)
}

// "then the first of 4, 5, 6 in the Rust's walk", then 8; 0 for none.
// A number, since marks of a cursor can stand for more than a query's refusals: `verdict_of` is said of each.
pub fn verdict(st: Cursor) -> u8
    ensures { result ≡ verdict_of st }
{
    let marks = st.marks;
    let first = (marks % BEYOND) as u8;
    if first != 0 {
        return first;
    }
    if marks < BEYOND { 0 } else { 8 }
}

// The refusal that a verdict is the number of.
pub fn judge(st: Cursor) -> Result<(), Refusal>
    requires { QueryNumber (verdict_of st) }
    ensures { number_or_zero result ≡ verdict_of st }
{
    let number = verdict(st);
    if number == 0 {
        return Ok(());
    }
    Err(refusal_of(number))
}

// The first n bytes of one room and the first m of the other, copied where both fit; otherwise both lengths.
fn deliver(
    from: &[u8],
    n: usize,
    texts: &[u8],
    m: usize,
    plan: &mut [u8],
    pool: &mut [u8],
) -> Result<Lengths, CompileRefusal>
    requires { (n ≤ length from.now) × (m ≤ length texts.now) }
    ensures { Delivers from.now n texts.now m plan.old pool.old (outcome result plan.new pool.new) }
{
    let lengths = Lengths { plan: n, pool: m };
    if plan.len() < n {
        return Err(CompileRefusal::SmallRoom(lengths));
    }
    if pool.len() < m {
        return Err(CompileRefusal::SmallRoom(lengths));
    }
    copy_part(from, 0, n, plan, 0);
    copy_part(texts, 0, m, pool, 0);
    Ok(lengths)
}

// A query that no early refusal meets, read in the two rooms given. What is handed on is `&query[0..]`, the same slice, since LLVM then keeps the one at hand in
// registers.
fn compile_in(
    query: &[u8],
    room: &mut [u8],
    texts: &mut [u8],
    plan: &mut [u8],
    pool: &mut [u8],
) -> Result<Lengths, CompileRefusal>
    requires { Enough query.now room.old texts.old × (early query.now ≡ 0) }
    ensures { OneCompile query.now plan.old pool.old (outcome result plan.new pool.new) }
{
    let Ok(st) = parse(&query[0..], room, texts) else {
        return Err(CompileRefusal::Query(Refusal::Malformed));
    };
    judge(st)?;
    deliver(room, st.len, texts, st.pool, plan, pool)
}

// The same in rooms of these sizes, which are cleared.
pub fn compile_within<const PLAN: usize, const POOL: usize>(
    query: &[u8],
    plan: &mut [u8],
    pool: &mut [u8],
) -> Result<Lengths, CompileRefusal>
    requires { Sizes query.now PLAN POOL × (early query.now ≡ 0) }
    ensures { OneCompile query.now plan.old pool.old (outcome result plan.new pool.new) }
{
    let mut room = [0u8; PLAN];
    let mut texts = [0u8; POOL];
    compile_in(query, &mut room, &mut texts, plan, pool)
}

// The larger rooms fill 4 and 16 pages of the stack, and a frame that has them is touched page by page on entry. LLVM would join the function that has them
// into its caller, and every compile would pay for that; a function that calls itself it leaves alone. `again` says how often one does, which changes nothing
// of the answer.
// Two functions and not one with sizes: bin/archive names both, to keep them apart.
pub fn compile_middle(
    query: &[u8],
    plan: &mut [u8],
    pool: &mut [u8],
    again: u8,
) -> Result<Lengths, CompileRefusal>
    requires { (length query.now ≤ 1024) × (early query.now ≡ 0) }
    ensures { OneCompile query.now plan.old pool.old (outcome result plan.new pool.new) }
{
    if 0 < again {
        return compile_middle(query, plan, pool, again - 1);
    }
    compile_within::<MIDDLE_PLAN_ROOM, MIDDLE_POOL_ROOM>(query, plan, pool)
}

pub fn compile_long(
    query: &[u8],
    plan: &mut [u8],
    pool: &mut [u8],
    again: u8,
) -> Result<Lengths, CompileRefusal>
    requires { early query.now ≡ 0 }
    ensures { OneCompile query.now plan.old pool.old (outcome result plan.new pool.new) }
{
    if 0 < again {
        return compile_long(query, plan, pool, again - 1);
    }
    compile_within::<PLAN_ROOM, POOL_ROOM>(query, plan, pool)
}
