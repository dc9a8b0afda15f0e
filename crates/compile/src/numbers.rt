// Why a query is refused, and the number that document 01 gives it. The reader keeps the number.
ghost use Rattle.std.specs.Prelude.{◌≡◌, ◌<◌};
ghost use Rattle.compile.specs.Outcomes.{number_of};

use crate::Refusal;

// The refusal that has a number.
pub fn refusal_of(number: u8) -> Refusal
    requires { (0 < number) × (number < 9) × (number ≡ 7 → ⊥) }
    ensures { number_of result ≡ number }
{
    match number {
        1 => Refusal::TooLong,
        2 => Refusal::NotUtf8,
        3 => Refusal::TooDeep,
        4 => Refusal::Malformed,
        5 => Refusal::Mistyped,
        6 => Refusal::UnknownFunction,
        _ => Refusal::BeyondRange,
    }
}

// The number of a refusal.
pub fn number_of(refusal: Refusal) -> u8
    ensures { result ≡ number_of refusal }
{
    match refusal {
        Refusal::TooLong => 1,
        Refusal::NotUtf8 => 2,
        Refusal::TooDeep => 3,
        Refusal::Malformed => 4,
        Refusal::Mistyped => 5,
        Refusal::UnknownFunction => 6,
        Refusal::BeyondRange => 8,
    }
}
