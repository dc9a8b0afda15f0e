// Large whole numbers as lists of limbs of 32 bits, the lowest first: products in place, and order.

#![tactic(auto)]

ghost use Rattle.std.specs.Prelude.{◌≡◌, ◌+◌, ◌*◌, ◌^◌, ◌<◌, ◌≤◌, length};
ghost use Rattle.number_limbs.specs.Limbs.{value, Limbs};
ghost use Rattle.number_limbs.specs.Order.{Ordered};

use std::cmp::Ordering;

// 2 ^ 32, the base of the limbs.
const BASE: u64 = 4294967296;

// x times m, and c, in place; what runs over the end is the result.
pub fn mul_add(x: &mut [u64], m: u64, c: u64) -> u64
    requires { Limbs x.old × (m < 2 ^ 32) × (c < 2 ^ 32) }
    ensures { (value x.new + (2 ^ 32) ^ length x.old * result ≡ m * value x.old + c) × Limbs x.new × (result < 2 ^ 32) }
{
    let mut carry = c;
    for limb in x.iter_mut() {
        let t = *limb * m + carry;
        *limb = t % BASE;
        carry = t / BASE;
    }
    carry
}

// x times m ^ e, in place, where that fits.
pub fn mul_times(x: &mut [u64], m: u64, e: usize)
    requires { Limbs x.old × (m < 2 ^ 32) × (0 < m) × (value x.old * m ^ e < (2 ^ 32) ^ length x.old) }
    ensures { (value x.new ≡ value x.old * m ^ e) × Limbs x.new }
{
    for _j in 0..e {
        mul_add(x, m, 0);
    }
}

// x, which is 0, becomes m.
fn fill(x: &mut [u64], m: u64)
    requires { Limbs x.old × (value x.old ≡ 0) × (2 ≤ length x.old) }
    ensures { (value x.new ≡ m) × Limbs x.new }
{
    x[0] = m % BASE;
    x[1] = m / BASE;
}

// x times base ^ e, in place, where that fits: `width` factors at a time, whose product is `chunk`.
fn raise(x: &mut [u64], base: u64, chunk: u64, width: usize, e: usize)
    requires { Limbs x.old × (chunk ≡ base ^ width) × (chunk < 2 ^ 32) × (base < 2 ^ 32) × (0 < base) × (0 < width) × (value x.old * base ^ e < (2 ^ 32) ^ length x.old) }
    ensures { (value x.new ≡ value x.old * base ^ e) × Limbs x.new }
{
    mul_times(x, chunk, e / width);
    mul_times(x, base, e % width);
}

// x, which is 0, becomes m times ten to p times two to e, where that fits.
pub fn scale(x: &mut [u64], m: u64, p: usize, e: usize)
    requires { Limbs x.old × (value x.old ≡ 0) × (2 ≤ length x.old) × (m * 10 ^ p * 2 ^ e < (2 ^ 32) ^ length x.old) }
    ensures { (value x.new ≡ m * 10 ^ p * 2 ^ e) × Limbs x.new }
{
    fill(x, m);
    raise(x, 10, 1000000000, 9, p);
    raise(x, 2, 2147483648, 31, e);
}

// The order of two numbers of as many limbs, by the highest limb that differs.
pub fn order(x: &[u64], y: &[u64]) -> Ordering
    requires { Limbs x.now × Limbs y.now × (length x.now ≡ length y.now) }
    ensures { Ordered result (value x.now) (value y.now) }
{
    for i in (0..x.len()).rev() {
        match x[i].cmp(&y[i]) {
            Ordering::Equal => {}
            unequal => return unequal,
        }
    }
    Ordering::Equal
}
