// Plan check: whether a plan and a pool are the translation of a query form. One pass over the bytes, with a function for each part of a form.
// Filters, right operands and function arguments nest at most 128 deep, and so do the calls.

#![tactic(auto)]

ghost use Rattle.std.specs.Prelude.{◌≡◌, ◌+◌, ◌*◌, ◌≤◌, length};
ghost use Rattle.definition.specs.Limits.{max_nesting};
ghost use Rattle.definition.specs.Outcomes.{ChecksPlan};
ghost use Rattle.plan_laws.specs.Queries.{test_part, framed_part, selector_part, segments_part};
ghost use Rattle.plan_laws.specs.Operands.{basis_part, operand_part};
ghost use Rattle.plan_laws.specs.Tests.{base_part, ops_part};
ghost use Rattle.plan_items.specs.Readings.{Asks, Post};
ghost use Rattle.plan_check.specs.Loops.{counted, side_part, single_sort, Tested};
ghost use Rattle.plan_check.specs.Checks.{Accepts, refusal};

use plan_format::{kinds, lengths};
use plan_items::Got;
use text::bytes;

// Refusal 11: neither the plan nor the pool is over 65,535 bytes.
const MAX_PLAN: usize = 65535;

// "no item inside more than 128 filters, functions, nots and right operands"
const MAX_NESTING: usize = 128;

// Whether segments stay singular with one more of the kind k, with n selectors of which the last has the given sort.
fn single(before: usize, k: u8, n: usize, sort: usize) -> usize
    requires { (before ≤ 1) × (sort ≤ 1) }
    ensures { result ≡ before * single_sort k n sort }
{
    if before == 0 {
        return 0;
    }
    if k != kinds::CHILD {
        return 0;
    }
    if n != 1 {
        return 0;
    }
    sort
}

// A selector.
#[cycle(forms)]
fn sel(plan: &[u8], pool: &[u8], at: usize, p: usize, room: usize) -> Option<Got>
    requires { Asks plan.now pool.now at p room }
    ensures { Post selector_part room plan.now pool.now at p result }
{
    let k = plan_items::kind(plan, at);
    if k == kinds::NAME {
        return plan_items::text(plan, pool, at + 1, p, 1);
    }
    if k == kinds::INDEX {
        return plan_items::index(plan, at + 1, p);
    }
    if k == kinds::SLICE {
        return plan_items::slice(plan, at + 1, p);
    }
    if k == kinds::WILDCARD {
        return Some(Got {
            at: at + 1,
            p,
            h: 0,
            sort: 0,
        });
    }
    if k == kinds::FILTER {
        return framed(plan, pool, at + 1, p, room);
    }
    None
}

// A test behind the length of its code.
#[cycle(forms)]
fn framed(plan: &[u8], pool: &[u8], at: usize, p: usize, room: usize) -> Option<Got>
    requires { Asks plan.now pool.now at p room }
    ensures { Post framed_part room plan.now pool.now at p result }
{
    if plan.len() - at < lengths::SIZE_BODY {
        return None;
    }
    if room == 0 {
        return None;
    }
    let n = bytes::word16(plan, at);
    let a = at + lengths::SIZE_BODY;
    if plan.len() - a < n {
        return None;
    }
    let e = a + n;
    let g = test(&plan[a..e], pool, p, room - 1)?;
    Some(Got {
        at: e,
        p: g.p,
        h: g.h + 1,
        sort: 0,
    })
}

// The n selectors of a segment.
#[cycle(forms)]
fn sels(plan: &[u8], pool: &[u8], from: usize, start: usize, room: usize, n: usize) -> Option<Got>
    requires { Asks plan.now pool.now from start room × (1 ≤ n) }
    ensures { Post (counted n) room plan.now pool.now from start result }
{
    let mut at = from;
    let mut p = start;
    let mut h = 0;
    let mut left = n;
    loop {
        let g = sel(plan, pool, at, p, room)?;
        at = g.at;
        p = g.p;
        h = plan_items::most(h, g.h);
        if left == 1 {
            return Some(Got {
                at,
                p,
                h,
                sort: g.sort,
            });
        }
        left -= 1;
    }
}

// The segments of a query, up to its end.
#[cycle(forms)]
fn segs(plan: &[u8], pool: &[u8], from: usize, start: usize, room: usize) -> Option<Got>
    requires { Asks plan.now pool.now from start room }
    ensures { Post segments_part room plan.now pool.now from start result }
{
    let mut at = from;
    let mut p = start;
    let mut h = 0;
    let mut sort = 1;
    // A loop over the place: the end of the segments is an item of the plan.
    loop {
        let k = plan_items::kind(plan, at);
        if k == kinds::END {
            return Some(Got {
                at: at + 1,
                p,
                h,
                sort,
            });
        }
        if k != kinds::CHILD && k != kinds::DESCENDANT {
            return None;
        }
        if plan.len() - at < lengths::SIZE_ITEM {
            return None;
        }
        let n = bytes::word16(plan, at + 1);
        if n == 0 {
            return None;
        }
        let g = sels(plan, pool, at + lengths::SIZE_ITEM, p, room, n)?;
        at = g.at;
        p = g.p;
        h = plan_items::most(h, g.h);
        sort = single(sort, k, n, g.sort);
    }
}

// What an operand begins with: a literal or a query.
#[cycle(forms)]
fn basis(plan: &[u8], pool: &[u8], at: usize, p: usize, room: usize) -> Option<Got>
    requires { Asks plan.now pool.now at p room }
    ensures { Post basis_part room plan.now pool.now at p result }
{
    let k = plan_items::kind(plan, at);
    if k == kinds::ROOT {
        return segs(plan, pool, at + 1, p, room);
    }
    if k == kinds::CURRENT {
        return segs(plan, pool, at + 1, p, room);
    }
    plan_items::literal(plan, pool, at, p)
}

// An operand, with the functions that are called on it.
#[cycle(forms)]
fn oper(plan: &[u8], pool: &[u8], at: usize, p: usize, room: usize) -> Option<Got>
    requires { Asks plan.now pool.now at p room }
    ensures { Post operand_part room plan.now pool.now at p result }
{
    let g = basis(plan, pool, at, p, room)?;
    plan_items::calls(plan, g, room)
}

// The second of two values of which the first is a, and what is asked of both.
#[cycle(forms)]
fn side(plan: &[u8], pool: &[u8], a: Got, room: usize) -> Option<Got>
    requires { Asks plan.now pool.now a.at a.p room × (a.h ≤ room) }
    ensures { Post (side_part a.h a.sort) room plan.now pool.now a.at a.p result }
{
    if a.sort == 0 {
        return None;
    }
    let b = oper(plan, pool, a.at, a.p, room)?;
    if b.sort == 0 {
        return None;
    }
    let c = plan_items::relation(plan, b.at, b.p)?;
    let h = c.sort + plan_items::most(a.h, b.h);
    if room < h {
        return None;
    }
    Some(Got {
        at: c.at,
        p: b.p,
        h,
        sort: 0,
    })
}

// What a test begins with: a test of a query, a test of two values, or a test of a value function with its not.
#[cycle(forms)]
fn base(plan: &[u8], pool: &[u8], p: usize, room: usize) -> Option<Got>
    requires { Asks plan.now pool.now 0 p room }
    ensures { Post base_part room plan.now pool.now 0 p result }
{
    let a = oper(plan, pool, 0, p, room)?;
    if plan_items::kind(plan, a.at) != kinds::TEST {
        return side(plan, pool, a, room);
    }
    tested(plan, a, room)
}

// The end of a test of an operand: a query is tested by 18, a value function by 18 and 15.
fn tested(plan: &[u8], a: Got, room: usize) -> Option<Got>
    requires { (a.at + 1 ≤ length plan.now) × (a.h ≤ room) × (room ≤ max_nesting) }
    ensures { Tested plan.now a room result }
{
    if a.sort <= 1 {
        return Some(Got {
            at: a.at + 1,
            p: a.p,
            h: a.h,
            sort: 0,
        });
    }
    if a.sort != 3 {
        return None;
    }
    if plan_items::kind(plan, a.at + 1) != kinds::NOT {
        return None;
    }
    if room <= a.h {
        return None;
    }
    Some(Got {
        at: a.at + 2,
        p: a.p,
        h: a.h + 1,
        sort: 0,
    })
}

// The nots and right operands behind a test, up to the end of its code.
#[cycle(forms)]
fn more(plan: &[u8], pool: &[u8], a: Got, room: usize) -> Option<Got>
    requires { Asks plan.now pool.now a.at a.p room × (a.h ≤ room) }
    ensures { Post (ops_part a.h) room plan.now pool.now a.at a.p result }
{
    let mut at = a.at;
    let mut p = a.p;
    let mut h = a.h;
    // A loop over the place: an item is one byte long, or as long as its code.
    while at < plan.len() {
        let k = plan_items::kind(plan, at);
        if k == kinds::NOT {
            if room <= h {
                return None;
            }
            at += 1;
            h += 1;
        } else {
            if k != kinds::AND && k != kinds::OR {
                return None;
            }
            let g = framed(plan, pool, at + 1, p, room)?;
            at = g.at;
            p = g.p;
            h = plan_items::most(h, g.h);
        }
    }
    Some(Got { at, p, h, sort: 0 })
}

// A test that fills a plan to its end.
#[cycle(forms)]
fn test(plan: &[u8], pool: &[u8], p: usize, room: usize) -> Option<Got>
    requires { Asks plan.now pool.now 0 p room }
    ensures { Post test_part room plan.now pool.now 0 p result }
{
    let g = base(plan, pool, p, room)?;
    more(plan, pool, g, room)
}

// Whether a plan and a pool are the translation of a query form.
pub fn check_plan(plan: &[u8], pool: &[u8]) -> bool
    ensures accepts { Accepts plan.now pool.now result }
    ensures checks_plan { ChecksPlan plan.now pool.now (refusal result) }
{
    if MAX_PLAN < plan.len() {
        return false;
    }
    if MAX_PLAN < pool.len() {
        return false;
    }
    if plan_items::kind(plan, 0) != kinds::ROOT {
        return false;
    }
    match segs(plan, pool, 1, 0, MAX_NESTING) {
        None => false,
        Some(g) => g.at == plan.len() && g.p == pool.len(),
    }
}
