// The leading 64 bits of the powers of five from 5 ^ -342 to 5 ^ 308: the powers that the exponents of number literals ask for.

#![tactic(auto)]

mod high;
mod low;
mod middle;

ghost use Rattle.std.specs.Prelude.{◌<◌};
ghost use Rattle.number_fives.specs.Rule.{Leading, powers};

// The place of 5 ^ 0 in the table: the least E of a float literal, without its minus.
pub const LEAST: usize = 342;

// One table of 651 entries, of which the one at i belongs to 5 ^ (i - 342), in three parts, a module each: a part is stored whole where one of its entries is read.
const MIDDLE_FROM: usize = 217;

const HIGH_FROM: usize = 434;

// The leading 64 bits of 5 ^ (i - 342).
pub fn five(i: usize) -> u64
    requires { i < powers }
    ensures { Leading i result }
{
    if i < MIDDLE_FROM {
        return low::LOW[i];
    }
    if i < HIGH_FROM {
        return middle::MIDDLE[i - MIDDLE_FROM];
    }
    high::HIGH[i - HIGH_FROM]
}
