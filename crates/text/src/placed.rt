// Whether a text of some length is UTF-8, by tests of four bytes that follow each other: which may stand behind which three. No test needs another's answer,
// so many are made at once, and bytes may be looked at twice. What is not found to be UTF-8 here is tested character by character.
ghost use Rattle.std.specs.Prelude.{◌≡◌, true, ◌+◌, ◌-◌, ◌≤◌, ◌<◌, length, OnSome};
ghost use Rattle.definition.specs.Utf8.{is_utf8};
ghost use Rattle.text.specs.Placed.{is_tail, is_asked, is_asked_plain, Bounded, Placed, Unbound, Plain, PlacedIn, Ends};

use crate::blocks::Kind;
use crate::{blocks, encoding};

// So many tests are made at once, where a text is short and where it is long.
const FEW: usize = 16;

const MANY: usize = 64;

// A long text is tested in blocks of so many bytes where they are ASCII, and else of up to so many.
const MOST: usize = 512;

const LARGE: usize = 4096;

// So many bytes are looked at for the kind of a text.
const LOOK: usize = 256;

// A kind of mixed lengths is kept for so many blocks behind the first.
const ROUNDS: u8 = 15;

// Three bytes before those that are tested.
const BEFORE: usize = 3;

// The kind that the next block is tested as, and for how many blocks behind it the kind is kept, if its lengths are mixed.
#[derive(Clone, Copy)]
struct Guess {
    kind: Kind,
    left: u8,
}

// Whether a byte continues a character.
pub fn is_tail(x: u8) -> bool
    ensures { result ≡ is_tail x }
{
    (0x80 <= x) & (x <= 0xBF)
}

// Whether one of the three bytes before asks for a byte that continues a character.
fn is_asked(a: u8, b: u8, c: u8) -> bool
    ensures { result ≡ is_asked a b c }
{
    (0xC0 <= c) | (0xE0 <= b) | (0xF0 <= a)
}

// The same where the first of the three begins no character of four bytes.
fn is_asked_plain(b: u8, c: u8) -> bool
    ensures { result ≡ is_asked_plain b c }
{
    (0xC0 <= c) | (0xE0 <= b)
}

// Whether two tests have one answer.
fn agrees(p: bool, q: bool) -> bool
    ensures { result ≡ true → «q» ≡ «p» }
{
    (p & q) | !(p | q)
}

// Whether c may stand in a text, and x behind it.
fn is_bounded(c: u8, x: u8) -> bool
    ensures { result ≡ true → Bounded c x }
{
    let three = ((c != 0xE0) | (0xA0 <= x)) & ((c != 0xED) | (x <= 0x9F));
    let four = ((c != 0xF0) | (0x90 <= x)) & ((c != 0xF4) | (x <= 0x8F));
    three & four & ((c < 0xC0) | (0xC2 <= c)) & (c <= 0xF4)
}

// Whether x may stand behind a, b and c.
fn is_placed(a: u8, b: u8, c: u8, x: u8) -> bool
    ensures { result ≡ true → Placed a b c x }
{
    agrees(is_asked(a, b, c), is_tail(x)) & is_bounded(c, x)
}

// Whether c is no byte with a bound of its own for the next one, and begins no character of four bytes.
fn is_unbound(c: u8) -> bool
    ensures { result ≡ true → Unbound c }
{
    (c != 0xE0) & (c != 0xED) & (c < 0xF0) & ((c < 0xC0) | (0xC2 <= c))
}

// Whether x may stand behind b and c, where no bounds are to be looked at.
fn is_plain(b: u8, c: u8, x: u8) -> bool
    ensures { result ≡ true → Plain b c x }
{
    agrees(is_asked_plain(b, c), is_tail(x)) & is_unbound(c)
}

// Whether each of sixteen bytes behind the three at `at` may stand where it does.
fn placed_few(s: &[u8], at: usize) -> bool
    requires { at + 19 ≤ length s.now }
    ensures { result ≡ true → PlacedIn s.now at (at + 16) }
{
    let mut right = true;
    for i in 0..FEW {
        let j = at + i;
        right = right & is_placed(s[j], s[j + 1], s[j + 2], s[j + 3]);
    }
    right
}

// The same of 64 bytes, four times sixteen.
fn placed_many(s: &[u8], at: usize) -> bool
    requires { at + 67 ≤ length s.now }
    ensures { result ≡ true → PlacedIn s.now at (at + 64) }
{
    placed_few(s, at) & placed_few(s, at + 16) & placed_few(s, at + 32) & placed_few(s, at + 48)
}

// The same, found where no bounds are to be looked at.
fn plain_many(s: &[u8], at: usize) -> bool
    requires { at + 67 ≤ length s.now }
    ensures { result ≡ true → PlacedIn s.now at (at + 64) }
{
    let mut right = (s[at] < 0xF0) & (s[at + 1] < 0xF0);
    for i in 0..MANY {
        let j = at + i;
        right = right & is_plain(s[j + 1], s[j + 2], s[j + 3]);
    }
    right
}

// The same, found where all 64 bytes are ASCII and none of the three before asks for another byte.
fn ascii_many(s: &[u8], at: usize) -> bool
    requires { at + 67 ≤ length s.now }
    ensures { result ≡ true → PlacedIn s.now at (at + 64) }
{
    let open = (s[at] < 0xF0) & (s[at + 1] < 0xE0) & (s[at + 2] < 0xC0);
    open & encoding::ascii32(s, at + 3) & encoding::ascii32(s, at + 35)
}

// The same, by the quickest test that finds it.
fn passes_many(s: &[u8], at: usize) -> bool
    requires { at + 67 ≤ length s.now }
    ensures { result ≡ true → PlacedIn s.now at (at + 64) }
{
    if ascii_many(s, at) {
        return true;
    }
    if plain_many(s, at) {
        return true;
    }
    placed_many(s, at)
}

// The same of 512 bytes, found where all are ASCII. What is not ASCII is mostly seen in the first 64.
fn ascii_most(s: &[u8], at: usize) -> bool
    requires { at + 515 ≤ length s.now }
    ensures { result ≡ true → PlacedIn s.now at (at + 512) }
{
    if !ascii_256(s, at) {
        return false;
    }
    ascii_256(s, at + 256)
}

// The same of 256 bytes.
fn ascii_256(s: &[u8], at: usize) -> bool
    requires { at + 259 ≤ length s.now }
    ensures { result ≡ true → PlacedIn s.now at (at + 256) }
{
    if !ascii_many(s, at) {
        return false;
    }
    ascii_many(s, at + 64) & ascii_many(s, at + 128) & ascii_many(s, at + 192)
}

// A kind for the first time.
fn first_of(kind: Kind) -> Guess {
    Guess { kind, left: ROUNDS }
}

// The kind that n bytes look like.
fn looks_like(s: &[u8], at: usize, n: usize) -> Guess
    requires { at + n ≤ length s.now }
{
    first_of(blocks::kind_of(s, at, n.min(LOOK)))
}

// The kind that the next block is tested as, behind one of n bytes that passes as its kind: the same, and from time to time the kind that it looks like.
fn kept_kind(s: &[u8], at: usize, n: usize, guess: Guess) -> Guess
    requires { at + n ≤ length s.now }
{
    match guess.kind {
        Kind::Two | Kind::Three | Kind::Four => guess,
        Kind::Mixed | Kind::Any => match guess.left.checked_sub(1) {
            Some(left) => Guess {
                kind: guess.kind,
                left,
            },
            None => looks_like(s, at, n),
        },
    }
}

// The kind that the next block is tested as, behind one that does not pass as its kind: what it looks like, and where that is the same kind, any.
fn next_kind(s: &[u8], at: usize, n: usize, kind: Kind) -> Guess
    requires { at + n ≤ length s.now }
{
    let found = looks_like(s, at, n);
    if found.kind != kind {
        return found;
    }
    first_of(Kind::Any)
}

// The kind that the next block is tested as, if each of n bytes may stand where it does.
fn passes_block(s: &[u8], at: usize, n: usize, guess: Guess) -> Option<Guess>
    requires { at + n + 3 ≤ length s.now }
    ensures { OnSome result (PlacedIn s.now at (at + n)) }
{
    if blocks::passes_as(s, at, n, guess.kind) {
        return Some(kept_kind(s, at, n, guess));
    }
    if !blocks::passes_as(s, at, n, Kind::Any) {
        return None;
    }
    Some(next_kind(s, at, n, guess.kind))
}

// How many of the bytes that are left are tested next: 512 where the first 32 are ASCII, and else as many as a block may have, by 64.
fn step_at(s: &[u8], at: usize, left: usize) -> usize
    requires { (at + left + 3 ≤ length s.now) × (512 ≤ left) }
    ensures { (64 ≤ result) × (result ≤ left) }
{
    if encoding::ascii32(s, at + BEFORE) {
        return MOST;
    }
    if LARGE < left {
        return LARGE;
    }
    left / MANY * MANY
}

// The kind that the next block is tested as, if each of n bytes may stand where it does. 512 bytes are first asked whether they are ASCII.
fn passes_step(s: &[u8], at: usize, n: usize, guess: Guess) -> Option<Guess>
    requires { at + n + 3 ≤ length s.now }
    ensures { OnSome result (PlacedIn s.now at (at + n)) }
{
    if n != MOST {
        return passes_block(s, at, n, guess);
    }
    if ascii_most(s, at) {
        return Some(guess);
    }
    passes_block(s, at, n, guess)
}

// Whether each of the last bytes behind i, less than 512, may stand where it does: by the last 512, if they are ASCII, and else by as few as are left, by 64.
fn passes_last(s: &[u8], i: usize, guess: Guess) -> bool
    requires { (515 ≤ length s.now) × (i + 3 ≤ length s.now) × (length s.now < i + 515) }
    ensures { result ≡ true → PlacedIn s.now i (length s.now - 3) }
{
    let end = s.len() - BEFORE;
    if ascii_most(s, end - MOST) {
        return true;
    }
    let n = (end - i + (MANY - 1)) / MANY * MANY;
    passes_block(s, end - n, n, guess).is_some()
}

// Whether each byte behind the first three of a long text may stand where it does.
fn long(s: &[u8]) -> bool
    requires { 515 ≤ length s.now }
    ensures { result ≡ true → PlacedIn s.now 0 (length s.now - 3) }
{
    let end = s.len() - BEFORE;
    let mut guess = looks_like(s, 0, end);
    let mut i = 0;
    // A `while`: each step says how far it goes, so that there is no range to go over.
    while MOST <= end - i {
        let n = step_at(s, i, end - i);
        let Some(next) = passes_step(s, i, n, guess) else {
            return false;
        };
        guess = next;
        i += n;
    }
    passes_last(s, i, guess)
}

// Whether each of n bytes may stand where it does, where n is 16 or 64.
fn passes_short(s: &[u8], at: usize, n: usize) -> bool
    requires { at + n + 3 ≤ length s.now }
    ensures { result ≡ true → PlacedIn s.now at (at + n) }
{
    if n == MANY {
        return passes_many(s, at);
    }
    if n == FEW {
        return placed_few(s, at);
    }
    false
}

// Whether each byte behind the first three may stand where it does, n at a time. The last n may begin among bytes that were tested before.
fn each(s: &[u8], n: usize) -> bool
    requires { (1 ≤ n) × (n + 3 ≤ length s.now) }
    ensures { result ≡ true → PlacedIn s.now 0 (length s.now - 3) }
{
    let last = s.len() - (n + BEFORE);
    let mut i = 0;
    // A `while`: the step is n, so that a range would count steps and each place be a product.
    while i < last {
        if !passes_short(s, i, n) {
            return false;
        }
        i += n;
    }
    passes_short(s, last, n)
}

// Whether the first three bytes may stand where they do, and the text may end behind the last three.
fn ends_right(s: &[u8]) -> bool
    requires { 3 ≤ length s.now }
    ensures { result ≡ true → Ends s.now }
{
    let last = s.len() - BEFORE;
    is_placed(0, 0, 0, s[0])
        & is_placed(0, 0, s[0], s[1])
        & is_placed(0, s[0], s[1], s[2])
        & is_placed(s[last], s[last + 1], s[last + 2], 0)
}

// Whether s is found to be UTF-8 in this way. A text of less than 19 bytes is not looked at.
pub fn all_utf8(s: &[u8]) -> bool
    ensures { result ≡ true → is_utf8 s.now ≡ true }
{
    if s.len() < FEW + BEFORE {
        return false;
    }
    if !ends_right(s) {
        return false;
    }
    if s.len() < MANY + BEFORE {
        return each(s, FEW);
    }
    if s.len() < MOST + BEFORE {
        return each(s, MANY);
    }
    long(s)
}
