// Parts of texts: equality, order by bytes, and copies. A part is given by its start and its length, and nothing of it is copied to be compared.
ghost use Rattle.std.specs.Prelude.{◌≡◌, ℕ, ◌+◌, ◌≤◌, List, length};
ghost use Rattle.definition.specs.Bytes.{part, same_bytes, order_bytes};
ghost use Rattle.basics.specs.Reads.{Wrote};
ghost use Rattle.text.specs.Orders.{answer, Front};
ghost use Rattle.text.specs.Ends.{EndsOf};

use crate::bytes;
use std::cmp::Ordering;

// Whether a and b hold the same bytes. Words are compared at once, and the last word of each as a whole, though it may begin among bytes that were compared before.
pub fn same_bytes(a: &[u8], b: &[u8]) -> bool
    ensures { result ≡ same_bytes a.now b.now }
{
    if a.len() != b.len() {
        return false;
    }
    same_each(a, b)
}

// Whether a and b, of one length, hold the same bytes.
fn same_each(a: &[u8], b: &[u8]) -> bool
    requires { length a.now ≡ length b.now }
    ensures { result ≡ same_bytes a.now b.now }
{
    if a.len() < 4 {
        return same_short(a, b);
    }
    if 8 <= a.len() {
        return same_words(a, b);
    }
    if bytes::word32(a, 0) != bytes::word32(b, 0) {
        return false;
    }
    let last = a.len() - 4;
    bytes::word32(a, last) == bytes::word32(b, last)
}

// The same of fewer than four bytes.
fn same_short(a: &[u8], b: &[u8]) -> bool
    requires { (length a.now ≡ length b.now) × (length a.now ≤ 3) }
    ensures { result ≡ same_bytes a.now b.now }
{
    if a.len() < 2 {
        return a == b;
    }
    same_pairs(a, b)
}

// The same of two or three bytes, two at a time.
fn same_pairs(a: &[u8], b: &[u8]) -> bool
    requires a_len { (length a.now ≡ length b.now) × (2 ≤ length a.now) }
    requires a_len_bound { length a.now ≤ 3 }
    ensures { result ≡ same_bytes a.now b.now }
{
    if bytes::word16(a, 0) != bytes::word16(b, 0) {
        return false;
    }
    let last = a.len() - 2;
    bytes::word16(a, last) == bytes::word16(b, last)
}

// The same, eight bytes at a time.
fn same_words(a: &[u8], b: &[u8]) -> bool
    requires { (length a.now ≡ length b.now) × (8 ≤ length a.now) }
    ensures { result ≡ same_bytes a.now b.now }
{
    for k in 0..(a.len() - 1) / 8 {
        if bytes::word64(a, 8 * k) != bytes::word64(b, 8 * k) {
            return false;
        }
    }
    let last = a.len() - 8;
    bytes::word64(a, last) == bytes::word64(b, last)
}

// Whether the n bytes of s from a on are the m bytes of t from b on.
pub fn same_part(s: &[u8], a: usize, n: usize, t: &[u8], b: usize, m: usize) -> bool
    requires { (a + n ≤ length s.now) × (b + m ≤ length t.now) }
    ensures { result ≡ same_bytes (part s.now a n) (part t.now b m) }
{
    same_bytes(&s[a..a + n], &t[b..b + m])
}

// The numbers that the first four and the last four bytes of a text stand for. Of a text of four to eight bytes they tell every byte.
#[derive(Clone, Copy)]
pub struct Ends {
    pub low: usize,
    pub high: usize,
}

fn ends_of(a: &[u8]) -> Ends
    requires { (4 ≤ length a.now) × (length a.now ≤ 8) }
    ensures { EndsOf (length a.now) a.now result.low result.high }
{
    let last = a.len() - 4;
    let low = bytes::word32(a, 0);
    let high = bytes::word32(a, last);
    Ends { low, high }
}

// The same of the n bytes of s from a on.
pub fn part_ends(s: &[u8], a: usize, n: usize) -> Ends
    requires n_in_bounds { a + n ≤ length s.now }
    requires le_n { (4 ≤ n) × (n ≤ 8) }
    ensures { EndsOf n (part s.now a n) result.low result.high }
{
    ends_of(&s[a..a + n])
}

// Whether a is the text of n bytes, four to eight, that has these numbers.
fn has_ends(a: &[u8], n: usize, low: usize, high: usize) -> bool
    requires { 4 ≤ n }
    ensures { (t : List ℕ) → EndsOf n t low high → result ≡ same_bytes a.now t }
{
    if a.len() != n {
        return false;
    }
    if bytes::word32(a, 0) != low {
        return false;
    }
    let last = a.len() - 4;
    bytes::word32(a, last) == high
}

// The same of the m bytes of s from a on.
pub fn part_has_ends(s: &[u8], a: usize, m: usize, n: usize, low: usize, high: usize) -> bool
    requires m_in_bounds { a + m ≤ length s.now }
    requires le_n { 4 ≤ n }
    ensures { (t : List ℕ) → EndsOf n t low high → result ≡ same_bytes (part s.now a m) t }
{
    has_ends(&s[a..a + m], n, low, high)
}

// How many bytes of a and b, from the first on, are found to be the same, eight at a time: those before the first unlike word, or before where a text has less than a word left.
fn same_front(a: &[u8], b: &[u8]) -> usize
    ensures { Front a.now b.now result }
{
    let words = a.len().min(b.len()) / 8;
    for k in 0..words {
        if bytes::word64(a, 8 * k) != bytes::word64(b, 8 * k) {
            return 8 * k;
        }
    }
    8 * words
}

// The order of a and b that the first unlike byte decides, the shorter first where there is none. Words that are the same are passed at once.
pub fn order_bytes(a: &[u8], b: &[u8]) -> Ordering
    ensures { result ≡ answer (order_bytes a.now b.now) }
{
    for i in same_front(a, b)..a.len().min(b.len()) {
        let found = a[i].cmp(&b[i]);
        if found.is_ne() {
            return found;
        }
    }
    a.len().cmp(&b.len())
}

// The order of the n bytes of s from a on and the m bytes of t from b on.
pub fn order_part(s: &[u8], a: usize, n: usize, t: &[u8], b: usize, m: usize) -> Ordering
    requires { (a + n ≤ length s.now) × (b + m ≤ length t.now) }
    ensures { result ≡ answer (order_bytes (part s.now a n) (part t.now b m)) }
{
    order_bytes(&s[a..a + n], &t[b..b + m])
}

// The n bytes of src from `from` on are stored in dst from `at` on.
pub fn copy_part(src: &[u8], from: usize, n: usize, dst: &mut [u8], at: usize)
    requires { (from + n ≤ length src.now) × (at + n ≤ length dst.old) }
    ensures { Wrote dst.old at (part src.now from n) dst.new }
{
    // A loop and no `copy_from_slice`, which calls `memmove`: the library calls `memcpy` and `memset` of the C library alone.
    for i in 0..n {
        dst[at + i] = src[from + i];
    }
}
