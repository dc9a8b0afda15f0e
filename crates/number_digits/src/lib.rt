// Digits in a text: the leaves of the readers of ints and number literals.

#![tactic(auto)]

ghost use Rattle.std.specs.Prelude.{◌≡◌, ◌+◌, ◌*◌, ◌<◌, ◌≤◌, min, length};
ghost use Rattle.std.specs.Int.{w64};
ghost use Rattle.std.proofs.Common.{SFits};
ghost use Rattle.number_integers.specs.Signed.{signed};
ghost use Rattle.number_digits.specs.Runs.{Is, limit, DigitRun};
ghost use Rattle.number_digits.specs.Unsigned.{UnsignedAnswer};

// Ten to the 19, which the N of a float literal is below. Numbers are kept up to this limit, which stands for every larger one.
pub const LIMIT: u64 = 10000000000000000000;

// From here on one digit more reaches the limit.
const LIMIT_BEFORE: u64 = 1000000000000000000;

// Where a run of digits ends, and the number that it writes, kept at the limit.
#[derive(Clone, Copy)]
pub struct Run {
    pub end: usize,
    pub value: u64,
}

// Whether the byte x stands at a place.
pub fn is(s: &[u8], at: usize, x: u8) -> bool
    requires { at ≤ length s.now }
    ensures { Is s.now at x result }
{
    if at < s.len() { s[at] == x } else { false }
}

// One digit more, kept at the limit.
fn push(acc: u64, d: u64) -> u64
    requires { (acc ≤ limit) × (d < 10) }
    ensures { result ≡ min limit (acc * 10 + d) }
{
    if acc < LIMIT_BEFORE {
        acc * 10 + d
    } else {
        LIMIT
    }
}

// The digits from a place on: where they end, and what they write behind the number `start`.
pub fn digits(s: &[u8], from: usize, start: u64) -> Run
    requires { (from ≤ length s.now) × (start ≤ limit) }
    ensures { DigitRun s.now from start result.end result.value }
{
    let mut acc = start;
    for i in from..s.len() {
        let b = s[i];
        if !b.is_ascii_digit() {
            return Run { end: i, value: acc };
        }
        acc = push(acc, u64::from(b - b'0'));
    }
    Run {
        end: s.len(),
        value: acc,
    }
}

// The number without a sign that stands at a place and that no digit follows, where no 0 stands before another digit; or the byte that is in the way.
pub fn read_unsigned(s: &[u8], at: usize) -> Result<Run, usize>
    requires { at ≤ length s.now }
    ensures { UnsignedAnswer s.now at result }
{
    let r = digits(s, at, 0);
    if r.end == at {
        return Err(at);
    }
    if s[at] == b'0' && r.end - at != 1 {
        return Err(at + 1);
    }
    Ok(r)
}

// A magnitude with its sign, as an i64 that holds it.
pub fn signed(negative: bool, n: u64) -> i64
    requires { SFits w64 (signed negative n) }
    ensures { result ≡ signed negative n }
{
    if negative {
        if n > 0 {
            return !((n - 1) as i64);
        }
        return 0;
    }
    n as i64
}
