// The bits of the float nearest to N times ten to E, for every N of 64 bits and every E in -342..308: by the leading word where that is sure, and exactly otherwise.

#![tactic(auto)]

ghost use Rattle.std.specs.Prelude.{◌≡◌, ◌+◌, ◌*◌, ◌^◌, ◌<◌, ◌≤◌, min};
ghost use Rattle.number_fives.specs.Rule.{powers};
ghost use Rattle.number_leading.specs.Leads.{above, below};
ghost use Rattle.number_rounding.specs.Bits.{NearestBits, infinity};

use number_leading::Lead;

// 2 ^ 52, one step of the field of the exponent.
const FIELD: u64 = 4503599627370496;
// The bits of an infinity.
const INFINITY: u64 = 9218868437227405312;

// The bits of c steps of 2 ^ k units.
fn bits(c: u64, k: usize) -> u64
    requires { (c ≤ 2 ^ 53) × (k ≤ 2165) }
    ensures { result ≡ min (k * 2 ^ 52 + c) infinity }
{
    (k as u64 * FIELD + c).min(INFINITY)
}

// The bits of the float nearest to n times ten to i - 342, without a sign; an infinity's past the largest float.
pub fn nearest(n: u64, i: usize) -> u64
    requires { (0 < n) × (i < powers) }
    ensures { NearestBits (above n i) (below i) result }
{
    match number_leading::nearest(n, i) {
        Lead::Sure(c, k) => bits(c, k),
        Lead::Unsure(c, k) => bits(number_exact::decide(n, i, c, k), k),
    }
}
