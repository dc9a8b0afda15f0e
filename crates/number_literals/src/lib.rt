// What a number literal stands for, from its sign, its digits and its exponent.

#![tactic(auto)]

ghost use Rattle.std.specs.Prelude.{◌≡◌, pos, ◌-ℤ◌, true, ◌<◌};
ghost use Rattle.definition.specs.Limits.{literal_limit};
ghost use Rattle.definition.specs.Literals.{whole_numeral, float_numeral, exponent_right};
ghost use Rattle.definition.specs.Tables.{is_finite};
ghost use Rattle.number_integers.specs.Signed.{signed};
ghost use Rattle.number_literals.specs.Values.{meaning, numeral_by};

use number_digits::LIMIT;
use number_fives::LEAST;

// An integer, a float by its bits, or a float beyond the range of literals.
// Three cases as in the definition's numeral: no reader fails at one beyond the range, so a Result would say less.
#[derive(Clone, Copy)]
pub enum Literal {
    Int(i64),
    Float(u64),
    Beyond,
}

// The largest E of a float literal, and the least one without its minus.
const MAX_EXPONENT: u64 = 308;

const MIN_EXPONENT: u64 = LEAST as u64;
// 2^63, the largest magnitude of an i64, which only a negative one has.
const LEAST_INT: u64 = 9223372036854775808;
// The bits of a float: 2^63 for the sign, and 2^52 for one step of the field that is 2047 where it is not finite.
const SIGN: u64 = 9223372036854775808;

const EXPONENT: u64 = 4503599627370496;

const NOT_FINITE: u64 = 2047;

// Whether k, or -k where `low`, may be the E of a literal.
fn exponent_right(low: bool, k: u64) -> bool
    ensures { result ≡ exponent_right (signed low k) }
{
    if low {
        return k <= MIN_EXPONENT;
    }
    k <= MAX_EXPONENT
}

// Whether the bits are a finite float's.
fn finite(bits: u64) -> bool
    ensures { result ≡ is_finite bits }
{
    bits % SIGN / EXPONENT < NOT_FINITE
}

// The nearest float, if it is not past the largest.
fn rounded(negative: bool, n: u64, low: bool, k: u64) -> Literal
    requires { (n < literal_limit) × (exponent_right (signed low k) ≡ true) }
    ensures { meaning result ≡ float_numeral negative n (signed low k) }
{
    let bits = number_floats::nearest(negative, n, low, k as usize);
    if finite(bits) {
        return Literal::Float(bits);
    }
    Literal::Beyond
}

// n times ten to k, or to -k where `low`, with the sign.
fn scaled(negative: bool, n: u64, low: bool, k: u64) -> Literal
    ensures { meaning result ≡ float_numeral negative n (signed low k) }
{
    if n >= LIMIT {
        return Literal::Beyond;
    }
    if exponent_right(low, k) {
        return rounded(negative, n, low, k);
    }
    Literal::Beyond
}

// n times ten to the exponent less the count of fraction digits, with the sign.
fn float_literal(negative: bool, n: u64, places: usize, low: bool, exp: u64) -> Literal
    ensures { meaning result ≡ float_numeral negative n (signed low exp -ℤ pos places) }
{
    let p = places as u64;
    if low {
        if exp > MIN_EXPONENT {
            return Literal::Beyond;
        }
        if p > MIN_EXPONENT {
            return Literal::Beyond;
        }
        return scaled(negative, n, true, exp + p);
    }
    if p <= exp {
        return scaled(negative, n, false, exp - p);
    }
    scaled(negative, n, true, p - exp)
}

// A number without fraction and exponent: an integer, if an i64 holds it, and otherwise a float.
fn whole_literal(negative: bool, n: u64) -> Literal
    ensures { meaning result ≡ whole_numeral negative n }
{
    if n > LEAST_INT {
        return scaled(negative, n, false, 0);
    }
    if negative {
        return Literal::Int(number_digits::signed(true, n));
    }
    if n == LEAST_INT {
        return scaled(false, n, false, 0);
    }
    Literal::Int(number_digits::signed(false, n))
}

// The parts together.
pub fn numeral(negative: bool, n: u64, places: usize, given: bool, low: bool, exp: u64) -> Literal
    ensures { meaning result ≡ numeral_by negative n places given (signed low exp) }
{
    if given {
        return float_literal(negative, n, places, low, exp);
    }
    if places > 0 {
        return float_literal(negative, n, places, low, exp);
    }
    whole_literal(negative, n)
}
