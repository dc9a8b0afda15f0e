// Words on a line of bytes, hexadecimal byte strings and decimal numbers, read and written.
//
//     words    the words of a line one after the other

#![tactic(auto)]

pub mod words;

ghost use Rattle.std.specs.Prelude.{◌≡◌, ◌*◌, ◌<◌, ◌≤◌, length, IfOk, vec_len};
ghost use Rattle.program_lines.specs.Words.{HasDigit, Pair, glyph as glyphOf, DecodedAs, Encoded, NumberAs};

use std::alloc::{AllocError, AllocFailed, Global};

// A number is read on while it is below this.
const NUMBER_LIMIT: usize = 1000000000000000000;

// Why a word is not read.
#[derive(Clone, Copy, Debug, PartialEq, Eq)]
pub enum WordError {
    // A byte string of more bytes than there is room for.
    TooLong,
    // No word, or none of the kind that is asked for.
    Bad,
    OutOfMemory,
}

impl<T: Drop> From<AllocFailed<T>> for WordError {
    fn from(_e: AllocFailed<T>) -> WordError {
        WordError::OutOfMemory
    }
}

impl From<AllocError> for WordError {
    fn from(_e: AllocError) -> WordError {
        WordError::OutOfMemory
    }
}

// The value of a hexadecimal digit of either case.
pub fn digit(b: u8) -> Option<u8>
    ensures { HasDigit b result }
{
    match b {
        b'0'..=b'9' => Some(b - b'0'),
        b'A'..=b'F' => Some(b - b'A' + 10),
        b'a'..=b'f' => Some(b - b'a' + 10),
        _ => None,
    }
}

// The byte of two hexadecimal digits.
fn pair(high: u8, low: u8) -> Result<u8, WordError>
    ensures { IfOk result (Pair high low) }
{
    match (digit(high), digit(low)) {
        (Some(high), Some(low)) => Ok(16 * high + low),
        _ => Err(WordError::Bad),
    }
}

// The bytes of a hexadecimal word, if they are no more than `room`. An empty string is written as a dash.
pub fn decode(alloc: Global, word: &[u8], room: usize) -> Result<Vec<u8>, WordError>
    ensures word { IfOk result (λ bytes. DecodedAs word.now bytes.items) }
    ensures room { IfOk result (λ bytes. vec_len bytes ≤ room) }
{
    if word == b"-".as_slice() {
        return Ok(Vec::new(alloc));
    }
    if word.is_empty() || word.len() % 2 != 0 {
        return Err(WordError::Bad);
    }
    if room < word.len() / 2 {
        return Err(WordError::TooLong);
    }
    let mut bytes = Vec::with_capacity(alloc, word.len() / 2)?;
    for i in 0..word.len() / 2 {
        bytes.push(pair(word[2 * i], word[2 * i + 1])?)?;
    }
    Ok(bytes)
}

// The hexadecimal digit of a value, in lower case.
pub fn glyph(n: u8) -> u8
    requires { n < 16 }
    ensures { result ≡ glyphOf n }
{
    if n < 10 { b'0' + n } else { b'a' - 10 + n }
}

// The bytes of s in hexadecimal, at the start of out.
pub fn encode(s: &[u8], out: &mut [u8]) -> usize
    requires { 2 * length s.now ≤ length out.old }
    ensures { Encoded s.now out.new result }
{
    for (i, b) in s.iter().enumerate() {
        out[2 * i] = glyph(*b / 16);
        out[2 * i + 1] = glyph(*b % 16);
    }
    2 * s.len()
}

// The number that a decimal word writes.
pub fn read_number(word: &[u8]) -> Result<usize, WordError>
    ensures { IfOk result (NumberAs word.now) }
{
    if word.is_empty() {
        return Err(WordError::Bad);
    }
    let mut n: usize = 0;
    for b in word {
        if !b.is_ascii_digit() || NUMBER_LIMIT <= n {
            return Err(WordError::Bad);
        }
        n = 10 * n + (*b - b'0') as usize;
    }
    Ok(n)
}
