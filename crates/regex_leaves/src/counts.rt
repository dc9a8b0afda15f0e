// Quantifiers: the signs, and counted repeats to 64.
ghost use Rattle.std.specs.Prelude.{◌≡◌, ◌+◌, ◌≤◌, length, drop};
ghost use Rattle.regex_definition.specs.Chars.{is_digit};
ghost use Rattle.regex_definition.specs.Read.{begins_digit, count_from, read_count, read_upper, read_braces};
ghost use Rattle.regex_leaves.specs.Reads.{ReadChar, ReadBraces, ReadQuantifier};

use crate::chars::{is, within};

// A repeat and the place behind it, from one number to another or from one on; or none is written.
#[derive(Clone, Copy)]
pub enum Quant {
    Upto(usize, u32, u32),
    Least(usize, u32),
    Once,
}

// The largest number of a counted repeat.
const MAX_REPEAT: u32 = 64;

fn is_digit(c: u32) -> bool
    ensures { result ≡ is_digit c }
{
    within(0x30, 0x39, c)
}

// Whether a digit stands at `at`.
fn digit_at(s: &[u32], at: usize) -> bool
    ensures { result ≡ begins_digit (drop at s.now) }
{
    at < s.len() && is_digit(s[at])
}

// The digits from `at` on, as a number.
fn digits(s: &[u32], at: usize) -> Option<(usize, u32)>
    requires { at ≤ length s.now }
    ensures { ReadChar (count_from 0 (drop at s.now)) s.now at result }
{
    let mut v: u32 = 0;
    for i in at..s.len() {
        let c = s[i];
        if !is_digit(c) {
            return Some((i, v));
        }
        v = v * 10 + (c - 0x30);
        if MAX_REPEAT < v {
            return None;
        }
    }
    Some((s.len(), v))
}

// A number of a counted repeat.
pub fn count(s: &[u32], at: usize) -> Option<(usize, u32)>
    requires { at ≤ length s.now }
    ensures { ReadChar (read_count (drop at s.now)) s.now at result }
{
    if digit_at(s, at) { digits(s, at) } else { None }
}

// Behind the ",".
pub fn upper(s: &[u32], at: usize, lo: u32) -> Option<Quant>
    requires { at ≤ length s.now }
    ensures { ReadBraces (read_upper lo (drop at s.now)) s.now at result }
{
    if is(s, at, 0x7D) {
        return Some(Quant::Least(at + 1, lo));
    }
    let (b, hi) = count(s, at)?;
    if is(s, b, 0x7D) {
        return Some(Quant::Upto(b + 1, lo, hi));
    }
    None
}

// Behind the "{".
pub fn braces(s: &[u32], at: usize) -> Option<Quant>
    requires { at ≤ length s.now }
    ensures { ReadBraces (read_braces (drop at s.now)) s.now at result }
{
    let (b, lo) = count(s, at)?;
    if is(s, b, 0x7D) {
        return Some(Quant::Upto(b + 1, lo, lo));
    }
    if is(s, b, 0x2C) {
        return upper(s, b + 1, lo);
    }
    None
}

// Behind an atom.
pub fn quantifier(s: &[u32], at: usize) -> Option<Quant>
    ensures { ReadQuantifier s.now at result }
{
    if is(s, at, 0x2A) {
        return Some(Quant::Least(at + 1, 0));
    }
    if is(s, at, 0x2B) {
        return Some(Quant::Least(at + 1, 1));
    }
    if is(s, at, 0x3F) {
        return Some(Quant::Upto(at + 1, 0, 1));
    }
    if is(s, at, 0x7B) {
        return braces(s, at + 1);
    }
    Some(Quant::Once)
}
