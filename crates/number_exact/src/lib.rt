// Which of two neighbouring floats is nearest to a literal, decided exactly by whole numbers of many limbs.

#![tactic(auto)]

ghost use Rattle.std.specs.Prelude.{◌≡◌, ◌+◌, ◌<◌, ◌≤◌};
ghost use Rattle.number_fives.specs.Rule.{place, powers};
ghost use Rattle.number_rounding.specs.Decided.{Best};
ghost use Rattle.number_leading.specs.Leads.{above, below, Between};

use number_fives::LEAST;
use std::cmp::Ordering;

// Half a unit of the smallest float is 2 ^ -1075.
const HALF_UNITS: usize = 1075;
// The limbs that hold every number that is compared: 2,432 bits.
const LIMBS: usize = 76;

// n times ten to i - 342 is between c steps of 2 ^ k units and one and a half more. Twice the fraction is held against 2 * c + 1 steps,
// the middle between c and c + 1 steps: the nearest number of steps, and the even one in the middle.
pub fn decide(n: u64, i: usize, c: u64, k: usize) -> u64
    requires { Between n i c k × (k ≤ place i + i) × (i < powers) }
    ensures { Best (above n i) (below i) result k }
{
    let mut a = [0u64; LIMBS];
    let mut b = [0u64; LIMBS];
    number_limbs::scale(&mut a, n, i.saturating_sub(LEAST), HALF_UNITS);
    number_limbs::scale(&mut b, c * 2 + 1, LEAST.saturating_sub(i), k);
    match number_limbs::order(&a, &b) {
        Ordering::Less => c,
        Ordering::Equal => c + c % 2,
        Ordering::Greater => c + 1,
    }
}
