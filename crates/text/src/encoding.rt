// Whether bytes are UTF-8: a test whether all are ASCII, by words; where not, tests of four bytes each, many at once (`placed`); and where those do not pass,
// one pass, character by character, and eight ASCII bytes at once where they stand. A part of a UTF-8 text is tested at its two ends.
// How many scalar values a UTF-8 text has: by its bytes that continue a character, eight at once.
ghost use Rattle.std.specs.Prelude.{◌≡◌, true, [], ◌∷◌, ◌+◌, ◌-◌, ◌*◌, ◌<◌, ◌≤◌, length, drop};
ghost use Rattle.definition.specs.Bytes.{every, part};
ghost use Rattle.definition.specs.Utf8.{after_first, is_utf8, scalars_of};
ghost use Rattle.utf8_laws.specs.Scalars.{continuing};
ghost use Rattle.text.specs.Chars.{wait_of, is_ascii, tails_pass, tails_length, char_length, step_length};
ghost use Rattle.text.specs.Continuing.{Continuing};
ghost use Rattle.text.specs.Known.{Known};
ghost use Rattle.utf8_laws.specs.Boundaries.{is_between};

use crate::{bytes, placed};

// What is known of a text: nothing, that it is UTF-8, or that it is ASCII throughout.
pub const NOT_KNOWN: u8 = 0;

pub const KNOWN_UTF8: u8 = 1;

pub const KNOWN_ASCII: u8 = 2;

// The highest bit of each of eight bytes.
const HIGH_BITS: u64 = 0x8080808080808080;

// The highest bit of each of four bytes.
const HIGH_BITS_4: usize = 0x80808080;

// The lowest bit of each of eight bytes.
const LOW_BITS: u64 = 0x0101010101010101;

// So many words are added up at once: a byte of the sum is then at most 31, and all eight together are less than 255.
const BLOCK: usize = 31;

// What may come behind the first byte of a character: another character; a byte in lo..hi and some more in 80..BF after it; or nothing.
#[derive(Clone, Copy)]
enum Wait {
    Ready,
    Tail(u8, u8, u8),
    Bad,
}

// What may come behind b, where b is the first byte of a character.
fn after_first(b: u8) -> Wait
    ensures { wait_of result ≡ after_first b }
{
    if b < 0x80 {
        return Wait::Ready;
    }
    if b < 0xC2 {
        return Wait::Bad;
    }
    if b <= 0xDF {
        return Wait::Tail(0x80, 0xBF, 0);
    }
    if b == 0xE0 {
        return Wait::Tail(0xA0, 0xBF, 1);
    }
    if b == 0xED {
        return Wait::Tail(0x80, 0x9F, 1);
    }
    if b <= 0xEF {
        return Wait::Tail(0x80, 0xBF, 1);
    }
    if b == 0xF0 {
        return Wait::Tail(0x90, 0xBF, 2);
    }
    if b <= 0xF3 {
        return Wait::Tail(0x80, 0xBF, 2);
    }
    if b == 0xF4 {
        return Wait::Tail(0x80, 0x8F, 2);
    }
    Wait::Bad
}

// Whether a byte in lo..hi stands at `at`.
fn in_range(s: &[u8], at: usize, lo: u8, hi: u8) -> bool
    ensures { result ≡ tails_pass lo hi 0 (drop at s.now) }
{
    if s.len() <= at {
        return false;
    }
    let b = s[at];
    if b < lo {
        return false;
    }
    b <= hi
}

// The length of a character whose second byte stands at `at`, in lo..hi, with `more` bytes in 80..BF behind it, or 0 where they do not stand there.
fn tails_length(s: &[u8], at: usize, lo: u8, hi: u8, more: u8) -> usize
    requires { (at ≤ length s.now) × (more ≤ 2) }
    ensures { result ≡ tails_length lo hi more (drop at s.now) }
{
    if !in_range(s, at, lo, hi) {
        return 0;
    }
    if more == 0 {
        return 2;
    }
    if !in_range(s, at + 1, 0x80, 0xBF) {
        return 0;
    }
    if more == 1 {
        return 3;
    }
    if in_range(s, at + 2, 0x80, 0xBF) {
        4
    } else {
        0
    }
}

// The length of the character at `at`, or 0 where none stands there.
pub fn char_length(s: &[u8], at: usize) -> usize
    requires { at < length s.now }
    ensures { result ≡ char_length (drop at s.now) }
{
    match after_first(s[at]) {
        Wait::Ready => 1,
        Wait::Tail(lo, hi, more) => tails_length(s, at + 1, lo, hi, more),
        Wait::Bad => 0,
    }
}

// Whether the eight bytes of s from `at` on are ASCII: none has its highest bit set.
fn ascii8(s: &[u8], at: usize) -> bool
    requires { at + 8 ≤ length s.now }
    ensures { result ≡ every is_ascii (part s.now at 8) }
{
    bytes::word64(s, at) & HIGH_BITS == 0
}

// How many bytes of whole characters can be passed at `at`: eight ASCII bytes, or one character's, or 0 where no character stands.
fn step_length(s: &[u8], at: usize) -> usize
    requires { at < length s.now }
    ensures { result ≡ step_length (drop at s.now) }
{
    if s.len() - at < 8 {
        return char_length(s, at);
    }
    if ascii8(s, at) {
        return 8;
    }
    char_length(s, at)
}

// Whether the four bytes of s from `at` on are ASCII.
fn ascii4(s: &[u8], at: usize) -> bool
    requires { at + 4 ≤ length s.now }
    ensures { result ≡ every is_ascii (part s.now at 4) }
{
    bytes::word32(s, at) & HIGH_BITS_4 == 0
}

// Whether s is ASCII throughout, byte by byte.
fn ascii_few(s: &[u8]) -> bool
    ensures { result ≡ true → every is_ascii s.now ≡ true }
{
    s.iter().all(|b| *b < 0x80)
}

// The same, eight bytes at a time. The last eight may begin among bytes that were looked at before.
fn ascii_words(s: &[u8]) -> bool
    requires { 8 ≤ length s.now }
    ensures { result ≡ true → every is_ascii s.now ≡ true }
{
    for k in 0..(s.len() - 1) / 8 {
        if !ascii8(s, 8 * k) {
            return false;
        }
    }
    ascii8(s, s.len() - 8)
}

// Whether the 32 bytes of s from `at` on are ASCII.
pub fn ascii32(s: &[u8], at: usize) -> bool
    requires { at + 32 ≤ length s.now }
    ensures { result ≡ true → every is_ascii (part s.now at 32) ≡ true }
{
    ascii8(s, at) & ascii8(s, at + 8) & ascii8(s, at + 16) & ascii8(s, at + 24)
}

// Whether s is ASCII throughout, 32 bytes at a time. The last 32 may begin among bytes that were looked at before.
fn ascii_blocks(s: &[u8]) -> bool
    requires { 32 ≤ length s.now }
    ensures { result ≡ true → every is_ascii s.now ≡ true }
{
    for k in 0..(s.len() - 1) / 32 {
        if !ascii32(s, 32 * k) {
            return false;
        }
    }
    ascii32(s, s.len() - 32)
}

// The same, by the length.
fn all_ascii(s: &[u8]) -> bool
    ensures { result ≡ true → every is_ascii s.now ≡ true }
{
    if 32 <= s.len() {
        return ascii_blocks(s);
    }
    if 8 <= s.len() {
        return ascii_words(s);
    }
    if s.len() < 4 {
        return ascii_few(s);
    }
    if !ascii4(s, 0) {
        return false;
    }
    ascii4(s, s.len() - 4)
}

// Whether s has at most n bytes and is ASCII throughout. A longer s is not looked at.
pub fn short_ascii(s: &[u8], n: usize) -> bool
    ensures { result ≡ true → every is_ascii s.now ≡ true }
{
    if n < s.len() {
        return false;
    }
    all_ascii(s)
}

// How much of s is known: that it is ASCII throughout, that it is UTF-8, or nothing. An s of more than n bytes is not looked at.
pub fn short_known(s: &[u8], n: usize) -> u8
    ensures { Known result s.now }
{
    if short_ascii(s, n) {
        return KNOWN_ASCII;
    }
    if n < s.len() {
        return NOT_KNOWN;
    }
    if is_utf8(s) { KNOWN_UTF8 } else { NOT_KNOWN }
}

// Whether a place in s is between characters: the byte there continues none, or s ends there.
fn is_between(s: &[u8], at: usize) -> bool
    ensures { result ≡ is_between s.now at }
{
    if s.len() <= at {
        return true;
    }
    let b = s[at];
    (b < 0x80) | (0xBF < b)
}

// Whether the part of a UTF-8 text s from start to end is UTF-8, by its two ends.
pub fn part_between(s: &[u8], start: usize, end: usize) -> bool
    requires { (is_utf8 s.now ≡ true) × (start ≤ end) }
    ensures { result ≡ is_utf8 (part s.now start (end - start)) }
{
    if start == end {
        return true;
    }
    if !is_between(s, start) {
        return false;
    }
    is_between(s, end)
}

// Whether s is UTF-8.
pub fn is_utf8(s: &[u8]) -> bool
    ensures { result ≡ is_utf8 s.now }
{
    if all_ascii(s) {
        return true;
    }
    if placed::all_utf8(s) {
        return true;
    }
    chars_pass(s)
}

// The same, character by character.
fn chars_pass(s: &[u8]) -> bool
    ensures { result ≡ is_utf8 s.now }
{
    let mut i = 0;
    // A `while`: a step passes eight bytes or one character, so that there is no range to go over.
    while i < s.len() {
        let n = step_length(s, i);
        if n == 0 {
            return false;
        }
        i += n;
    }
    true
}

// Whether the n bytes of s from `from` on are UTF-8.
pub fn is_utf8_part(s: &[u8], from: usize, n: usize) -> bool
    requires { from + n ≤ length s.now }
    ensures { result ≡ is_utf8 (part s.now from n) }
{
    is_utf8(&s[from..from + n])
}

// ---- how many scalar values

// A 1 in each byte that continues a character, of the eight bytes of s from `at` on: its highest bit is set, and the next one is not.
fn continuing8(s: &[u8], at: usize) -> u64
    requires { at + 8 ≤ length s.now }
    ensures { Continuing (part s.now at 8) 1 result }
{
    let w = bytes::word64(s, at);
    let high = (w >> 7) & LOW_BITS;
    let next = (w >> 6) & LOW_BITS;
    high - (high & next)
}

// How many bytes continue a character, of so many words of eight bytes from `at` on.
fn continuing_block(s: &[u8], at: usize, words: usize) -> usize
    requires { (at + 8 * words ≤ length s.now) × (words ≤ 31) }
    ensures { result ≡ continuing (part s.now at (8 * words)) }
{
    let mut sum = 0;
    for i in 0..words {
        sum += continuing8(s, at + 8 * i);
    }
    (sum % 255) as usize
}

// The same of any number of words, block by block.
fn continuing_words(s: &[u8], at: usize, words: usize) -> usize
    requires { at + 8 * words ≤ length s.now }
    ensures { result ≡ continuing (part s.now at (8 * words)) }
{
    let mut count = 0;
    for k in 0..words / BLOCK {
        count += continuing_block(s, at + 8 * BLOCK * k, BLOCK);
    }
    let left = words % BLOCK;
    count + continuing_block(s, at + 8 * (words - left), left)
}

// 1 for a byte that continues a character, else 0.
fn continues(b: u8) -> usize
    ensures { result ≡ continuing (b ∷ []) }
{
    if b < 0x80 {
        return 0;
    }
    if b <= 0xBF {
        return 1;
    }
    0
}

// How many of n bytes continue a character, byte by byte.
fn continuing_few(s: &[u8], at: usize, n: usize) -> usize
    requires { at + n ≤ length s.now }
    ensures { result ≡ continuing (part s.now at n) }
{
    let mut count = 0;
    for i in 0..n {
        count += continues(s[at + i]);
    }
    count
}

// How many scalar values the n bytes of s from `from` on are: as many as bytes that continue no character.
pub fn count_scalars(s: &[u8], from: usize, n: usize) -> usize
    requires { from + n ≤ length s.now }
    ensures { result ≡ length (scalars_of (part s.now from n)) }
{
    let words = n / 8;
    let whole = 8 * words;
    let count = continuing_words(s, from, words);
    let few = continuing_few(s, from + whole, n - whole);
    let begun = n - count;
    begun - few
}
