// The readers of those parts of a plan that hold no other part: texts, numbers, slices, literals, the functions called on an operand, and what is asked of two.

#![tactic(auto)]

ghost use Rattle.std.specs.Prelude.{◌≡◌, true, max, ◌+◌, ◌≤◌, length};
ghost use Rattle.definition.specs.Bytes.{signed64};
ghost use Rattle.definition.specs.Limits.{max_nesting};
ghost use Rattle.definition.specs.Literals.{in_range};
ghost use Rattle.definition.specs.QueryForms.{inside_i64};
ghost use Rattle.definition.specs.Tables.{is_finite};
ghost use Rattle.plan_laws.specs.Leaves.{texts, integers, floats, smalls, slices, literals};
ghost use Rattle.plan_laws.specs.Operands.{allowed};
ghost use Rattle.plan_laws.specs.Relations.{relations};
ghost use Rattle.plan_items.specs.Readings.{Kind, call_of, Within, AnyRoom, AnyPool, Eight, IsBound, PostCalls};

use limits::MAX_INT;
use plan_format::{kinds, lengths, operators, words};
use text::{bytes, encoding};

// Refusal 4's range: indices, bounds and steps lie in -(2^53-1)..2^53-1. This is the least of them in two's complement.
const LEAST_INT: u64 = 18437736874454810625;

// The weight of a float's sign bit, that of its exponent's lowest bit, and the exponent of what is not finite.
const SIGN: u64 = 9223372036854775808;

const EXPONENT: u64 = 4503599627370496;

const NOT_FINITE: u64 = 2047;

// Where a plan and a pool stand behind a part, how deep the part nests, and its sort.
// The sort is a number as in `plan_laws`: sorts are multiplied along segments, and a relation's is added to what it nests.
#[derive(Clone, Copy)]
pub struct Got {
    pub at: usize,
    pub p: usize,
    pub h: usize,
    pub sort: usize,
}

// The kind of the item at `at`, 0 at the plan's end.
pub fn kind(plan: &[u8], at: usize) -> u8
    ensures { Kind plan.now at result }
{
    if at < plan.len() { plan[at] } else { 0 }
}

// The greater of two numbers.
pub fn most(a: usize, b: usize) -> usize
    ensures { result ≡ max a b }
{
    if a < b { b } else { a }
}

// A text: where it starts in the pool, which is where the pool stands, and its length.
pub fn text(plan: &[u8], pool: &[u8], at: usize, p: usize, sort: usize) -> Option<Got>
    requires { Within plan.now pool.now at p }
    ensures { AnyRoom (texts sort) plan.now pool.now at p result }
{
    if plan.len() - at < lengths::POOLED_BODY {
        return None;
    }
    let start = bytes::word16(plan, at);
    if start != p {
        return None;
    }
    let n = bytes::word16(plan, at + 2);
    if pool.len() - p < n {
        return None;
    }
    if !encoding::is_utf8_part(pool, p, n) {
        return None;
    }
    Some(Got {
        at: at + lengths::POOLED_BODY,
        p: p + n,
        h: 0,
        sort,
    })
}

// Whether a number in two's complement lies in refusal 4's range.
pub fn in_range(n: u64) -> bool
    ensures { result ≡ in_range (signed64 n) }
{
    if n <= MAX_INT {
        return true;
    }
    LEAST_INT <= n
}

// Whether the bits n are a finite float's.
pub fn finite(n: u64) -> bool
    ensures { result ≡ is_finite n }
{
    n % SIGN / EXPONENT < NOT_FINITE
}

// A number of eight bytes that passes a test.
fn number<F: Fn(u64) -> bool>(plan: &[u8], at: usize, p: usize, sort: usize, test: F) -> Option<Got>
    requires place { at ≤ length plan.now }
    requires callable { F.IsAlwaysCallable test }
    ensures { Eight (F.post test) sort plan.now at p result }
{
    if plan.len() - at < lengths::NUMBER_BODY {
        return None;
    }
    let n = bytes::word64(plan, at);
    if !test(n) {
        return None;
    }
    Some(Got {
        at: at + lengths::NUMBER_BODY,
        p,
        h: 0,
        sort,
    })
}

// Every number in two's complement is an integer.
fn every(_n: u64) -> bool
    ensures { result ≡ true }
{
    true
}

// An integer.
pub fn integer(plan: &[u8], at: usize, p: usize) -> Option<Got>
    requires { at ≤ length plan.now }
    ensures { AnyPool (integers inside_i64 2) plan.now at p result }
{
    number(plan, at, p, 2, every)
}

// An index.
pub fn index(plan: &[u8], at: usize, p: usize) -> Option<Got>
    requires { at ≤ length plan.now }
    ensures { AnyPool (integers in_range 1) plan.now at p result }
{
    number(plan, at, p, 1, in_range)
}

// A float.
pub fn float(plan: &[u8], at: usize, p: usize) -> Option<Got>
    requires { at ≤ length plan.now }
    ensures { AnyPool (floats 2) plan.now at p result }
{
    number(plan, at, p, 2, finite)
}

// A byte below a limit.
pub fn small(plan: &[u8], at: usize, p: usize, limit: usize, sort: usize) -> Option<Got>
    ensures { AnyPool (smalls limit sort) plan.now at p result }
{
    if plan.len() <= at {
        return None;
    }
    let n = plan[at] as usize;
    if limit <= n {
        return None;
    }
    Some(Got {
        at: at + 1,
        p,
        h: 0,
        sort,
    })
}

// Whether eight bytes are a bound of a slice: in range where it is given, 0 where it is absent.
pub fn bound(plan: &[u8], at: usize, flag: usize) -> bool
    requires { (at + 8 ≤ length plan.now) × (flag ≤ 1) }
    ensures { IsBound plan.now at flag result }
{
    let n = bytes::word64(plan, at);
    if flag == 0 {
        return n == 0;
    }
    in_range(n)
}

// A slice: which bounds are given, and the three.
pub fn slice(plan: &[u8], at: usize, p: usize) -> Option<Got>
    requires { at ≤ length plan.now }
    ensures { AnyPool slices plan.now at p result }
{
    if plan.len() - at < lengths::SLICE_BODY {
        return None;
    }
    let flags = plan[at] as usize;
    if 7 < flags {
        return None;
    }
    if !bound(plan, at + 1, flags % 2) {
        return None;
    }
    if !bound(plan, at + 9, flags / 2 % 2) {
        return None;
    }
    if !bound(plan, at + 17, flags / 4) {
        return None;
    }
    Some(Got {
        at: at + lengths::SLICE_BODY,
        p,
        h: 0,
        sort: 0,
    })
}

// A literal: integer, float, text or constant.
pub fn literal(plan: &[u8], pool: &[u8], at: usize, p: usize) -> Option<Got>
    requires { Within plan.now pool.now at p }
    ensures { AnyRoom literals plan.now pool.now at p result }
{
    let k = kind(plan, at);
    if k == kinds::INTEGER {
        return integer(plan, at + 1, p);
    }
    if k == kinds::FLOAT {
        return float(plan, at + 1, p);
    }
    if k == kinds::TEXT {
        return text(plan, pool, at + 1, p, 2);
    }
    if k == kinds::CONSTANT {
        return small(plan, at + 1, p, words::HOW_MANY, 2);
    }
    None
}

// What is asked of two operands: a comparison with its operator, or match or search, for which the sort is 1.
pub fn relation(plan: &[u8], at: usize, p: usize) -> Option<Got>
    ensures { AnyPool relations plan.now at p result }
{
    let k = kind(plan, at);
    if k == kinds::COMPARE {
        return small(plan, at + 1, p, operators::HOW_MANY, 0);
    }
    if k == kinds::MATCH {
        return Some(Got {
            at: at + 1,
            p,
            h: 0,
            sort: 1,
        });
    }
    if k == kinds::SEARCH {
        return Some(Got {
            at: at + 1,
            p,
            h: 0,
            sort: 1,
        });
    }
    None
}

// Whether a function may be called on an operand of a sort: length on all but a query that is not singular, count and value on queries.
pub fn allows(sort: usize, k: u8) -> bool
    requires { (0x19 ≤ k) × (k ≤ 0x1B) }
    ensures { result ≡ allowed sort (call_of k) }
{
    if k == kinds::LENGTH {
        return 0 < sort;
    }
    sort <= 1
}

// The functions called on an operand.
pub fn calls(plan: &[u8], g: Got, room: usize) -> Option<Got>
    requires { (g.at ≤ length plan.now) × (g.h ≤ room) × (room ≤ max_nesting) }
    ensures { PostCalls plan.now g room result }
{
    let p = g.p;
    let mut at = g.at;
    let mut h = g.h;
    let mut sort = g.sort;
    // A loop over the place: how many calls there are shows only at the first item that is none.
    loop {
        let k = kind(plan, at);
        if k < kinds::COUNT {
            return Some(Got { at, p, h, sort });
        }
        if kinds::VALUE < k {
            return Some(Got { at, p, h, sort });
        }
        if !allows(sort, k) {
            return None;
        }
        if room <= h {
            return None;
        }
        at += 1;
        h += 1;
        sort = 3;
    }
}
