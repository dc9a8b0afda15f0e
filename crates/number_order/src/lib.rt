// The exact order of numbers: of two integers, of two floats, and of an integer and a float.
// No integer becomes a float on the way: a float is taken apart into its digits and a power of two, and these are compared with the integer.

#![tactic(auto)]

ghost use Rattle.std.specs.Prelude.{◌≡◌, T, nat_abs};
ghost use Prim.Native.Nat.{◌*◌, ◌%◌, ◌^◌, ◌<◌, ◌≤◌, compare};
ghost use Rattle.std.specs.Float.{binary64};
ghost use Rattle.std.specs.Float.Ieee.{of_bits};
ghost use Rattle.std.specs.Float.Ieee.Scale.{finite};
ghost use Rattle.number_order.specs.Exact.{answer, of_integer, of_float, order_of, significand, shift};

use std::cmp::Ordering;

// 2^52, the weight of the exponent's field in a float's bit pattern, and of the leading digit.
const LEADING: u64 = 4503599627370496;
// 2^63, the weight of the sign.
const SIGN: u64 = 9223372036854775808;
// The exponent's field of a float whose last digit weighs 1.
const WHOLE: u64 = 1075;
// A significand has at most 53 digits, and an integer that is above 0 and shifted by more is larger.
const DIGITS: u64 = 53;
// A significand has at least 53 digits where it is shifted, and shifted by more than 11 it is past every u64.
const ROOM: u64 = 11;

// n with m * 2^k.
fn order_with_shifted(n: u64, m: u64, k: u64) -> Ordering
    requires { (2 ^ 52 ≤ m) × (m < 2 ^ 53) }
    ensures { result ≡ answer (compare n (m * 2 ^ k)) }
{
    if k > ROOM {
        return Ordering::Less;
    }
    n.cmp(&(m << k))
}

// n * 2^k with m.
fn order_shifted_with(n: u64, m: u64, k: u64) -> Ordering
    requires { m < 2 ^ 53 }
    ensures { result ≡ answer (compare (n * 2 ^ k) m) }
{
    if k > DIGITS {
        if n > 0 {
            return Ordering::Greater;
        }
        return 0.cmp(&m);
    }
    let q = m >> k;
    n.cmp(&q).then((q << k).cmp(&m))
}

// n with the float whose bit pattern is b, which has no sign and is finite: both in units of 2^-1074.
fn order_with_bits(n: u64, b: u64) -> Ordering
    requires { b < 2047 * 2 ^ 52 }
    ensures { result ≡ answer (compare (n * 2 ^ 1074) (significand b * 2 ^ shift b)) }
{
    let x = b / LEADING;
    if x == 0 {
        return order_shifted_with(n, b, WHOLE - 1);
    }
    let m = LEADING + b % LEADING;
    if x < WHOLE {
        return order_shifted_with(n, m, WHOLE - x);
    }
    order_with_shifted(n, m, x - WHOLE)
}

// A magnitude of 2^63 fits too.
pub fn magnitude(i: i64) -> u64
    ensures { result ≡ nat_abs i }
{
    if i < 0 {
        return ((!i) as u64) + 1;
    }
    i as u64
}

// The float of a bit pattern that is finite: its exponent's field is not all ones.
pub fn float_of(b: u64) -> f64
    requires { b % 2 ^ 63 < 2047 * 2 ^ 52 }
    ensures { (result ≡ of_bits binary64 b) × T (finite result) }
{
    f64::from_bits(b)
}

// Two integers.
pub fn compare_i64(a: i64, b: i64) -> Ordering
    ensures { result ≡ answer (order_of (of_integer a) (of_integer b)) }
{
    a.cmp(&b)
}

// Two floats.
pub fn compare_nums(a: f64, b: f64) -> Ordering
    requires { T (finite a) × T (finite b) }
    ensures { result ≡ answer (order_of (of_float a) (of_float b)) }
{
    // `partial_cmp` would answer an Option here, which has to be taken apart again.
    if a < b {
        return Ordering::Less;
    }
    if b < a {
        return Ordering::Greater;
    }
    Ordering::Equal
}

// An integer with a float.
pub fn compare_i64_num(a: i64, b: f64) -> Ordering
    requires { T (finite b) }
    ensures { result ≡ answer (order_of (of_integer a) (of_float b)) }
{
    let p = f64::to_bits(b);
    let n = magnitude(a);
    if p < SIGN {
        if a < 0 {
            return Ordering::Less;
        }
        return order_with_bits(n, p);
    }
    let q = p - SIGN;
    if a < 0 {
        return order_with_bits(n, q).reverse();
    }
    if n > 0 {
        return Ordering::Greater;
    }
    order_with_bits(n, q).reverse()
}

// A float with an integer.
pub fn compare_num_i64(a: f64, b: i64) -> Ordering
    requires { T (finite a) }
    ensures { result ≡ answer (order_of (of_float a) (of_integer b)) }
{
    compare_i64_num(b, a).reverse()
}
