// Whether each of some bytes may stand where it does, by the kind of a text: all its characters beyond ASCII have two bytes, three or four (kinds 2, 3 and 4), they
// have at most three (kind 5), or any length (kind 6).
// A processor makes many of these tests at once, in few steps: a byte is turned, with the next one, so that those which must not occur are the least numbers or the
// greatest, and only the least and the greatest of all are kept.
ghost use Rattle.std.specs.Prelude.{◌≡◌, true, ◌||◌, ℕ, ◌+◌, ◌≤◌, leb, length};
ghost use Rattle.text.specs.Placed.{is_tail, PlacedIn};
ghost use Rattle.text.specs.Lengths.{low_mark, Fits, least_of, Under, top_of, Agrees, Starts};

use crate::placed;

// The kinds, which the tests have by their numbers, 2 to 6.
#[derive(Clone, Copy, PartialEq, Eq)]
pub enum Kind {
    Two,
    Three,
    Four,
    Mixed,
    Any,
}

// The greater of two bytes.
fn greater(p: u8, q: u8) -> u8
    ensures { (k : ℕ) → leb k result ≡ (leb k p || leb k q) }
{
    p.max(q)
}

// By how much a byte is greater than k, and 0 where it is not.
fn above(x: u8, k: u8) -> u8
    ensures { (m : ℕ) → 1 ≤ m → leb m result ≡ leb (m + k) x }
{
    x.saturating_sub(k)
}

// At least 128 only where x continues a character exactly if `asked` is at least 128.
fn agreed(x: u8, asked: u8) -> u8
    ensures { 0x80 ≤ result → is_tail x ≡ leb 0x80 asked }
{
    if placed::is_tail(x) {
        return asked;
    }
    0xFF - asked
}

// At least 128 only where x continues a character exactly if one of the bytes before begins a character that is not at its end.
fn agrees_as(kind: u8, a: u8, b: u8, c: u8, x: u8) -> u8
    ensures { 0x80 ≤ result → Agrees kind a b c x }
{
    if kind == 2 {
        return agreed(x, above(c, 0x40));
    }
    if kind == 3 {
        return agreed(x, above(greater(c, b), 0x60));
    }
    if kind == 4 {
        return agreed(x, above(greater(greater(c, b), a), 0x70));
    }
    let two = greater(c, above(b, 0x20));
    if kind == 5 {
        return agreed(x, above(two, 0x40));
    }
    agreed(x, above(greater(two, above(a, 0x30)), 0x40))
}

// A mark where x is in 80..top, and else 0.
fn low_mark(x: u8, top: u8, mark: u8) -> u8
    ensures { result ≡ low_mark x top mark }
{
    if (0x80 <= x) & (x <= top) {
        return mark;
    }
    0
}

// A byte and the next one, turned: less than `least_of` where they do not occur so in a text of the kind. E0 and F0 before a byte that is too low for them, and ED
// before one that is too high, are turned into the same number.
fn apart_as(kind: u8, c: u8, x: u8) -> u8
    ensures { least_of kind ≤ result → Fits kind c x }
{
    if kind == 2 {
        return c ^ 0xE0;
    }
    if kind == 3 {
        return c ^ 0xDD ^ low_mark(x, 0x9F, 0x0D);
    }
    if kind == 4 {
        return above(c ^ 0xCC, low_mark(x, 0x8F, 1));
    }
    c ^ 0xC0
}

// The least number that a byte which occurs is turned into.
fn least_of(kind: u8) -> u8
    ensures { result ≡ least_of kind }
{
    if kind == 2 {
        return 0x22;
    }
    if kind == 3 {
        return 0x31;
    }
    if kind == 4 {
        return 0x3C;
    }
    2
}

// The same the other way round: greater than `most_of` where they do not occur so, in a text of kind 5 or 6.
fn under_as(kind: u8, c: u8, x: u8) -> u8
    ensures { result ≤ top_of kind → Under kind c x }
{
    if kind == 5 {
        return c ^ 2 ^ low_mark(x, 0x9F, 0x0D);
    }
    above(c, low_mark(x, 0x8F, 1))
}

// The greatest number that a byte which occurs is turned into.
fn most_of(kind: u8) -> u8
    ensures { result ≡ top_of kind }
{
    if kind == 5 {
        return 0xEE;
    }
    if kind == 6 {
        return 0xF3;
    }
    0xFF
}

// Whether x is not too low behind E0 and F0, and not too high behind ED, in a text of kind 6: all three are turned into ED.
fn starts_as(kind: u8, c: u8, x: u8) -> bool
    ensures { result ≡ true → Starts kind c x }
{
    if kind < 6 {
        return true;
    }
    let four = 0xFF - low_mark(x, 0x8F, 0x10);
    (c & four) ^ low_mark(x, 0x9F, 0x0D) != 0xED
}

// Whether each of the n bytes behind the three at `at` may stand where it does, in a text of the kind.
fn block_as(s: &[u8], at: usize, n: usize, kind: u8) -> bool
    requires n_in_bounds { at + n + 3 ≤ length s.now }
    requires le_kind { (2 ≤ kind) × (kind ≤ 6) }
    ensures { result ≡ true → PlacedIn s.now at (at + n) }
{
    let p = s[at];
    let q = s[at + 1];
    let r = s[at + 2];
    let mut even = 0xFFu8;
    let mut low = apart_as(kind, p, q).min(apart_as(kind, q, r));
    let mut top = greater(under_as(kind, p, q), under_as(kind, q, r));
    let mut right = true;
    for i in 0..n {
        let j = at + i;
        let c = s[j + 2];
        let x = s[j + 3];
        even = even.min(agrees_as(kind, s[j], s[j + 1], c, x));
        low = low.min(apart_as(kind, c, x));
        top = greater(top, under_as(kind, c, x));
        right = right & starts_as(kind, c, x);
    }
    right & (0x80 <= even) & (least_of(kind) <= low) & (top <= most_of(kind))
}

// The kind that n bytes from `at` on look like, by the least and the greatest of the bytes that begin a character of more than one byte.
pub fn kind_of(s: &[u8], at: usize, n: usize) -> Kind
    requires { at + n ≤ length s.now }
{
    let mut low = 0xFFu8;
    let mut top = 0u8;
    for b in &s[at..at + n] {
        low = low.min(*b ^ 0xC0);
        top = top.max(*b);
    }
    kind_by(low, top)
}

// The same, where low is the least byte, turned, and top is the greatest one.
fn kind_by(low: u8, top: u8) -> Kind {
    if top < 0xE0 {
        return Kind::Two;
    }
    if 0x30 <= low {
        return Kind::Four;
    }
    if 0xF0 <= top {
        return Kind::Any;
    }
    if low < 0x20 {
        return Kind::Mixed;
    }
    Kind::Three
}

// Whether each of the n bytes behind the three at `at` may stand where it does, found where they are of the kind. A test of one kind has no branch on it.
pub fn passes_as(s: &[u8], at: usize, n: usize, kind: Kind) -> bool
    requires { at + n + 3 ≤ length s.now }
    ensures { result ≡ true → PlacedIn s.now at (at + n) }
{
    match kind {
        Kind::Two => block_as(s, at, n, 2),
        Kind::Three => block_as(s, at, n, 3),
        Kind::Four => block_as(s, at, n, 4),
        Kind::Mixed => block_as(s, at, n, 5),
        Kind::Any => block_as(s, at, n, 6),
    }
}
