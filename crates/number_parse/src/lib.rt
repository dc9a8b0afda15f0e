// The readers of ints and of number literals: each reads one rule of the grammar at a place of a text.

#![tactic(auto)]

ghost use Rattle.std.specs.Prelude.{◌≡◌, ◌≤◌, length};
ghost use Rattle.number_digits.specs.Runs.{limit};
ghost use Rattle.number_parse.specs.Ints.{IntAnswer, ranged};
ghost use Rattle.number_parse.specs.Parts.{WholeAnswer, FractionAnswer, ExponentAnswer, PowerAnswer, IsLetter};
ghost use Rattle.number_parse.specs.Numbers.{NumberAnswer, is_number_char, Ends};

use limits::MAX_INT;
use number_literals::Literal;

// An int that was read: its end and its value.
#[derive(Clone, Copy)]
pub struct IntRead {
    pub end: usize,
    pub value: i64,
}

// Why no int was read: one with this end is out of range, or none stands there, with the byte that is in the way.
#[derive(Clone, Copy)]
pub enum IntError {
    OutOfRange(usize),
    Nothing(usize),
}

// A number literal that was read: its end and what it stands for.
#[derive(Clone, Copy)]
pub struct NumberRead {
    pub end: usize,
    pub value: Literal,
}

// The digits before a fraction: their end, whether a minus stands before them, and their number, kept at the limit.
#[derive(Clone, Copy)]
pub struct WholeRead {
    pub end: usize,
    pub negative: bool,
    pub value: u64,
}

// A fraction or none: its end, the count of its digits, and the number of all digits so far, kept at the limit.
#[derive(Clone, Copy)]
pub struct FractionRead {
    pub end: usize,
    pub places: usize,
    pub value: u64,
}

// An exponent or none: its end, whether one is written, whether it has a minus, and its number, kept at the limit.
// A flag and no Option: `number_literals::numeral` takes the three by themselves, and its clause speaks of each, also where none is written.
#[derive(Clone, Copy)]
pub struct ExponentRead {
    pub end: usize,
    pub given: bool,
    pub low: bool,
    pub value: u64,
}

// The answer for a magnitude and its sign: an index, a slice bound or a step is at most 2^53-1.
fn range(end: usize, negative: bool, n: u64) -> Result<IntRead, IntError>
    ensures { result ≡ ranged end negative n }
{
    if n > MAX_INT {
        return Err(IntError::OutOfRange(end));
    }
    Ok(IntRead {
        end,
        value: number_digits::signed(negative, n),
    })
}

// The digits before a fraction, with their sign; or the byte that is in the way.
fn read_whole(s: &[u8], at: usize) -> Result<WholeRead, usize>
    requires { at ≤ length s.now }
    ensures { WholeAnswer s.now at result }
{
    let negative = number_digits::is(s, at, b'-');
    let digits = number_digits::read_unsigned(s, at + usize::from(negative))?;
    Ok(WholeRead {
        end: digits.end,
        negative,
        value: digits.value,
    })
}

// The int that stands at a place and that no digit follows: an index, a slice bound or a step. A 0 with a minus is none.
pub fn parse_i_json_int(s: &[u8], at: usize) -> Result<IntRead, IntError>
    requires { at ≤ length s.now }
    ensures { IntAnswer s.now at result }
{
    let whole = read_whole(s, at).map_err(IntError::Nothing)?;
    if whole.negative && whole.value == 0 {
        return Err(IntError::Nothing(at + 1));
    }
    range(whole.end, whole.negative, whole.value)
}

// The fraction behind digits that write the number `start`; or the byte that is in the way.
fn read_fraction(s: &[u8], at: usize, start: u64) -> Result<FractionRead, usize>
    requires { (at ≤ length s.now) × (start ≤ limit) }
    ensures { FractionAnswer s.now at start result }
{
    if !number_digits::is(s, at, b'.') {
        return Ok(FractionRead {
            end: at,
            places: 0,
            value: start,
        });
    }
    let from = at + 1;
    let r = number_digits::digits(s, from, start);
    if r.end == from {
        return Err(from);
    }
    Ok(FractionRead {
        end: r.end,
        places: r.end - from,
        value: r.value,
    })
}

// Whether an "e", in either case, stands at a place.
fn is_letter(s: &[u8], at: usize) -> bool
    requires { at ≤ length s.now }
    ensures { IsLetter s.now at result }
{
    if number_digits::is(s, at, b'e') {
        return true;
    }
    number_digits::is(s, at, b'E')
}

// The digits of an exponent, behind its sign; or the byte that is in the way.
fn read_power(s: &[u8], at: usize, low: bool) -> Result<ExponentRead, usize>
    requires { at ≤ length s.now }
    ensures { PowerAnswer s.now at low result }
{
    let r = number_digits::digits(s, at, 0);
    if r.end == at {
        return Err(at);
    }
    Ok(ExponentRead {
        end: r.end,
        given: true,
        low,
        value: r.value,
    })
}

// The exponent; or the byte that is in the way.
fn read_exponent(s: &[u8], at: usize) -> Result<ExponentRead, usize>
    requires { at ≤ length s.now }
    ensures { ExponentAnswer s.now at result }
{
    if !is_letter(s, at) {
        return Ok(ExponentRead {
            end: at,
            given: false,
            low: false,
            value: 0,
        });
    }
    let from = at + 1;
    if number_digits::is(s, from, b'-') {
        return read_power(s, from + 1, true);
    }
    if number_digits::is(s, from, b'+') {
        return read_power(s, from + 1, false);
    }
    read_power(s, from, false)
}

fn is_number_char(c: u8) -> bool
    ensures { result ≡ is_number_char c }
{
    matches!(c, b'.' | b'0'..=b'9' | b'e' | b'E')
}

// Whether no character that could go on with a number stands at a place.
fn ends(s: &[u8], at: usize) -> bool
    ensures { Ends s.now at result }
{
    if at < s.len() {
        return !is_number_char(s[at]);
    }
    true
}

// The number literal that stands at a place and that no digit, "." or "e" follows; or the byte that is in the way.
pub fn parse_number(s: &[u8], at: usize) -> Result<NumberRead, usize>
    requires { at ≤ length s.now }
    ensures { NumberAnswer s.now at result }
{
    let whole = read_whole(s, at)?;
    let fraction = read_fraction(s, whole.end, whole.value)?;
    let exponent = read_exponent(s, fraction.end)?;
    if !ends(s, exponent.end) {
        return Err(exponent.end);
    }
    let value = number_literals::numeral(
        whole.negative,
        fraction.value,
        fraction.places,
        exponent.given,
        exponent.low,
        exponent.value,
    );
    Ok(NumberRead {
        end: exponent.end,
        value,
    })
}
