// The whole product of two 64-bit numbers, which has 128 bits.

#![tactic(auto)]

ghost use Rattle.std.specs.Prelude.{◌≡◌, ◌+◌, ◌*◌, ◌^◌, ◌<◌};

// 2 ^ 64, the base of the two words.
const WORD: u128 = 18446744073709551616;

// The number hi * 2 ^ 64 + lo.
#[derive(Clone, Copy)]
pub struct Wide {
    pub hi: u64,
    pub lo: u64,
}

// The product of a and b.
pub fn wide_mul(a: u64, b: u64) -> Wide
    ensures { (result.hi * 2 ^ 64 + result.lo ≡ a * b) × (result.lo < 2 ^ 64) }
{
    let product = u128::from(a) * u128::from(b);
    Wide {
        hi: (product >> 64) as u64,
        lo: (product % WORD) as u64,
    }
}
