// The float nearest to N times ten to E by one word of the power of five: sure for most literals, and otherwise the two floats between which the fraction lies.

#![tactic(auto)]

ghost use Rattle.std.specs.Prelude.{◌≡◌, ◌⊎◌, ◌+◌, ◌*◌, ◌^◌, ◌<◌, ◌≤◌};
ghost use Rattle.number_fives.specs.Rule.{place, powers};
ghost use Rattle.number_leading.specs.Leads.{Bracket, Leads};

// c steps of 2 ^ k units of the smallest float are nearest; or the fraction is at least that and less than one and a half steps more.
// Both cases hold the same two numbers, and an Unsure one is no failure: a Result would say less.
#[derive(Clone, Copy)]
pub enum Lead {
    Sure(u64, usize),
    Unsure(u64, usize),
}

// A number with its leading bit at the top, and how far it was moved.
#[derive(Clone, Copy)]
pub struct Norm {
    pub m: u64,
    pub s: usize,
}

// 2 ^ 63, the top bit.
const TOP: u64 = 9223372036854775808;

// n with its leading bit at the top.
fn normal(n: u64) -> Norm
    requires { 0 < n }
    ensures { (result.m ≡ n * 2 ^ result.s) × (2 ^ 63 ≤ result.m) × (result.s < 64) × (result.m < 2 ^ 64) }
{
    let s = n.leading_zeros() as usize;
    Norm { m: n << s, s }
}

// The lowest j bits of h are below a step. The fraction is at least h and less than h + 4, so that the nearest number of steps is sure
// unless the half of a step lies there. n, i and s are there for the contract alone.
fn split(n: u64, h: u64, i: usize, s: usize, k: usize, j: usize) -> Lead
    requires bracket { Bracket n i s h 4 }
    requires s_value { (k + 67 + s ≡ place i + i + j) × (11 ≤ j) × ((k ≡ 0) ⊎ (2 ^ 52 * 2 ^ j ≤ h)) × (k ≤ place i + i) }
    ensures { Leads result n i }
{
    if 63 < j {
        return Lead::Unsure(0, k);
    }
    let p = 1u64 << j;
    let c = h >> j;
    let rest = h % p;
    let half = 1u64 << (j - 1);
    if rest + 4 <= half {
        return Lead::Sure(c, k);
    }
    if half < rest {
        return Lead::Sure(c + 1, k);
    }
    Lead::Unsure(c, k)
}

// A step is 2 ^ k units with 53 bits of h above it, and one unit where that would be less. The place of the word, which the table's rule names,
// and the place of the power of two together say which bit of h is a unit.
fn settle(n: u64, h: u64, i: usize, s: usize) -> Lead
    requires bracket { Bracket n i s h 4 }
    requires bound { (2 ^ 63 ≤ h) × (i < powers) × (s ≤ 64) }
    ensures { Leads result n i }
{
    let x = (152170 * i + 386660) / 65536 + i;
    if x < 56 + s {
        return split(n, h, i, s, 0, 67 + s - x);
    }
    split(n, h, i, s, x - 56 - s, 11)
}

// What the leading word says of n times ten to i - 342.
pub fn nearest(n: u64, i: usize) -> Lead
    requires { (0 < n) × (i < powers) }
    ensures { Leads result n i }
{
    let z = normal(n);
    let t = number_fives::five(i);
    let hi = number_product::wide_mul(z.m, t).hi;
    if hi < TOP {
        return settle(n, hi * 2, i, z.s + 1);
    }
    settle(n, hi, i, z.s)
}
