// The scanner under the reader of queries: a byte at a place, blanks, names, function names and comparison operators.

#![tactic(auto)]

ghost use Rattle.std.specs.Prelude.{◌≡◌, Bool, true, ℕ, ◌≤◌, ◌-◌, length, drop};
ghost use Rattle.definition.specs.Bytes.{part, within};
ghost use Rattle.definition.specs.Utf8.{is_utf8};
ghost use Rattle.definition.specs.Lexical.{is_blank, is_function_char};
ghost use Rattle.definition.specs.Walk.{named};
ghost use Rattle.parser_scan.specs.Text.{is_name_byte, Is, Both, Run, Skipped, Tests, ReadsName, ReadsWord, ReadsOperator, named_number, number_of_function, keyword_number, number_of_keyword};

use plan_format::operators;
use text::parts::same_bytes;

// The functions that a query may call.
#[derive(Clone, Copy)]
pub enum Function {
    Count,
    Length,
    Value,
    Match,
    Search,
}

// The literals that are words.
#[derive(Clone, Copy)]
pub enum Keyword {
    True,
    False,
    Null,
}

pub fn is(s: &[u8], at: usize, x: u8) -> bool
    requires { at ≤ length s.now }
    ensures { Is s.now at x result }
{
    at < s.len() && s[at] == x
}

pub fn both(s: &[u8], at: usize, x: u8, y: u8) -> bool
    requires { at ≤ length s.now }
    ensures { Both s.now at x y result }
{
    is(s, at, x) && is(s, at + 1, y)
}

pub fn is_blank(c: u8) -> bool
    ensures { result ≡ is_blank c }
{
    // Not `matches!`: of that LLVM makes up to three comparisons for each byte, of this one, and behind it a test of one bit.
    c == b' ' || c == b'\t' || c == b'\n' || c == b'\r'
}

// The end of the bytes that pass a test and stand from `at` on.
fn run_end<F: Fn(u8) -> bool>(s: &[u8], at: usize, test: F) -> usize
    requires place { at ≤ length s.now }
    requires callable { F.IsAlwaysCallable test }
    ensures { (p : ℕ → Bool) → Tests (F.post test) p → Run p s.now at result }
{
    for i in at..s.len() {
        if !test(s[i]) {
            return i;
        }
    }
    s.len()
}

pub fn skip_blanks(s: &[u8], at: usize) -> usize
    requires { at ≤ length s.now }
    ensures { Skipped s.now at result }
{
    // Most places have no blank, so the first byte is looked at before there is a loop.
    if at < s.len() && is_blank(s[at]) {
        return run_end(s, at + 1, is_blank);
    }
    at
}

// Whether a byte lies between two bounds.
fn between(lo: u8, hi: u8, c: u8) -> bool
    ensures { result ≡ within lo hi c }
{
    lo <= c && c <= hi
}

pub fn is_name_byte(c: u8) -> bool
    ensures { result ≡ is_name_byte c }
{
    // Letters by themselves: in one chain with the others LLVM tests them last.
    if between(b'a', b'z', c) || between(b'A', b'Z', c) {
        return true;
    }
    between(b'0', b'9', c) || c == b'_' || 128 <= c
}

// The end of the name bytes that stand from `at` on.
fn name_end(s: &[u8], at: usize) -> usize
    requires { at ≤ length s.now }
    ensures { Run is_name_byte s.now at result }
{
    run_end(s, at, is_name_byte)
}

// A member-name-shorthand at `at`, with all its characters: the place behind it, or the place where it goes wrong.
pub fn read_name(s: &[u8], at: usize) -> Result<usize, usize>
    requires { (at ≤ length s.now) × (is_utf8 (drop at s.now) ≡ true) }
    ensures { ReadsName s.now at result }
{
    if s.len() <= at {
        return Err(at);
    }
    let c = s[at];
    if between(b'0', b'9', c) {
        return Err(at);
    }
    if !is_name_byte(c) {
        return Err(at);
    }
    Ok(name_end(s, at + 1))
}

pub fn is_word_byte(c: u8) -> bool
    ensures { result ≡ is_function_char c }
{
    between(b'a', b'z', c) || c == b'_' || between(b'0', b'9', c)
}

// The end of the characters of a function-name that stand from `at` on.
fn word_end(s: &[u8], at: usize) -> usize
    requires { at ≤ length s.now }
    ensures { Run is_function_char s.now at result }
{
    run_end(s, at, is_word_byte)
}

// A function-name at `at`, with all its characters: the place behind it, or the place where it goes wrong.
pub fn read_word(s: &[u8], at: usize) -> Result<usize, usize>
    requires { at ≤ length s.now }
    ensures { ReadsWord s.now at result }
{
    if s.len() <= at {
        return Err(at);
    }
    if !between(b'a', b'z', s[at]) {
        return Err(at);
    }
    Ok(word_end(s, at + 1))
}

// Which function the word from `at` to `end` names, if any.
pub fn named_at(s: &[u8], at: usize, end: usize) -> Option<Function>
    requires { (at ≤ end) × (end ≤ length s.now) }
    ensures { number_of_function result ≡ named_number (named (part s.now at (end - at))) }
{
    let w = &s[at..end];
    if same_bytes(w, b"count") {
        return Some(Function::Count);
    }
    if same_bytes(w, b"length") {
        return Some(Function::Length);
    }
    if same_bytes(w, b"value") {
        return Some(Function::Value);
    }
    if same_bytes(w, b"match") {
        return Some(Function::Match);
    }
    if same_bytes(w, b"search") {
        return Some(Function::Search);
    }
    None
}

// Which literal the word from `at` to `end` is, if any.
pub fn keyword_at(s: &[u8], at: usize, end: usize) -> Option<Keyword>
    requires { (at ≤ end) × (end ≤ length s.now) }
    ensures { number_of_keyword result ≡ keyword_number (part s.now at (end - at)) }
{
    let w = &s[at..end];
    if same_bytes(w, b"true") {
        return Some(Keyword::True);
    }
    if same_bytes(w, b"false") {
        return Some(Keyword::False);
    }
    if same_bytes(w, b"null") {
        return Some(Keyword::Null);
    }
    None
}

// A comparison-op at `at`: the place behind it and its byte in a plan.
// The byte, and no enum of the six: it is only handed on, and is written as it is.
pub fn read_operator(s: &[u8], at: usize) -> Option<(usize, u8)>
    requires { at ≤ length s.now }
    ensures { ReadsOperator s.now at result }
{
    if both(s, at, b'=', b'=') {
        return Some((at + 2, operators::EQ));
    }
    if both(s, at, b'!', b'=') {
        return Some((at + 2, operators::NE));
    }
    if both(s, at, b'<', b'=') {
        return Some((at + 2, operators::LE));
    }
    if is(s, at, b'<') {
        return Some((at + 1, operators::LT));
    }
    if both(s, at, b'>', b'=') {
        return Some((at + 2, operators::GE));
    }
    if is(s, at, b'>') {
        return Some((at + 1, operators::GT));
    }
    None
}
