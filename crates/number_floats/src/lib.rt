// The float of a number literal. Where N and a power of ten are floats, their product or quotient rounds once; everywhere else the crate `number_nearest` finds the bits.

#![tactic(auto)]

ghost use Rattle.std.specs.Prelude.{◌≡◌, true, false, ◌+◌, ◌^◌, ◌≤◌};
ghost use Rattle.std.specs.Float.Ieee.Exact.{HasValue};
ghost use Rattle.definition.specs.Limits.{max_int};
ghost use Rattle.definition.specs.Literals.{nearest, exponent_right};
ghost use Rattle.number_integers.specs.Signed.{signed};
ghost use Rattle.number_rounding.specs.Bits.{infinity, sign_bit};
ghost use Rattle.number_floats.specs.Scaled.{Scaled, one_power};

use limits::MAX_INT;
use number_fives::LEAST;

// The largest power of ten that is a float.
const ONE_POWER: usize = 22;
// 2^63, the bit of the sign.
const SIGN: u64 = 9223372036854775808;

// Ten to the power of k, by k products. A float holds every one of them exactly, so none of them rounds.
fn power(k: usize) -> f64
    requires { k ≤ one_power }
    ensures { HasValue result false (10 ^ k) 1 }
{
    let mut x = 1.0;
    for _i in 0..k {
        x = x * 10.0;
    }
    x
}

// n, or -n where `negative`; -0.0 is another float than 0.0.
fn whole(negative: bool, n: u64) -> f64
    requires { n ≤ max_int }
    ensures { HasValue result negative n 1 }
{
    let x = n as f64;
    if negative {
        return -x;
    }
    x
}

// The bits of the float nearest to n times ten to k, or to -k where `low`, with the sign: one operation on floats.
fn once(negative: bool, n: u64, low: bool, k: usize) -> u64
    requires { (n ≤ max_int) × (k ≤ one_power) }
    ensures { result ≡ nearest negative n (signed low k) }
{
    let x = whole(negative, n);
    let p = power(k);
    if low {
        return f64::to_bits(x / p);
    }
    f64::to_bits(x * p)
}

// The bits of a magnitude, with the sign.
fn with_sign(negative: bool, bits: u64) -> u64
    requires { bits ≤ infinity }
    ensures { result ≡ sign_bit negative + bits }
{
    if negative {
        return SIGN + bits;
    }
    bits
}

// The bits of the float nearest to n times ten to k, or to -k where `low`, with the sign; an infinity's past the largest float.
pub fn nearest(negative: bool, n: u64, low: bool, k: usize) -> u64
    requires { exponent_right (signed low k) ≡ true }
    ensures { Scaled negative n (signed low k) result }
{
    if n <= MAX_INT && k <= ONE_POWER {
        return once(negative, n, low, k);
    }
    if n == 0 {
        return once(negative, 0, false, 0);
    }
    if low {
        return with_sign(negative, number_nearest::nearest(n, LEAST - k));
    }
    with_sign(negative, number_nearest::nearest(n, LEAST + k))
}
