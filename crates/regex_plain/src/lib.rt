// Expressions that are a row of single characters: a match is a comparison, and a search looks for the row at one character of the
// text after the other. Of any other expression nothing is said here.

#![tactic(auto)]

ghost use Rattle.std.specs.Prelude.{◌≡◌, true, ◌+◌, ◌*◌, ◌≤◌, ◌<◌, length, IfSome, MatchOption};
ghost use Rattle.regex_plain.specs.Rows.{Four, Letter, Free, Spelt, Plainly, Begins, Differs, Whole, Found, Sought, Known, Open};

use regex_chars::char_at;
use regex_code::skip;

// Whether the words w, x, y and z stand at `at`.
fn four(code: &[u32], at: usize, w: u32, x: u32, y: u32, z: u32) -> bool
    requires { at + 4 ≤ length code.now }
    ensures { result ≡ true → Four code.now at w x y z }
{
    code[at] == w && code[at + 1] == x && code[at + 2] == y && code[at + 3] == z
}

// The words of one character and of what follows it: 2 1 0 1 C C.
fn letter(code: &[u32], at: usize) -> bool
    requires { at ≤ length code.now }
    ensures { result ≡ true → Letter code.now at }
{
    6 <= code.len() - at && four(code, at, 2, 1, 0, 1) && code[at + 4] == code[at + 5]
}

// The words of any text: 5 0 1 1 0.
fn free(code: &[u32], at: usize) -> bool
    requires { at + 5 ≤ length code.now }
    ensures { result ≡ true → Free code.now at }
{
    four(code, at, 5, 0, 1, 1) && code[at + 4] == 0
}

// How many characters stand in a row from one place on, and the place behind them.
#[derive(Clone, Copy)]
pub struct Span {
    pub count: usize,
    pub next: usize,
}

fn letters(code: &[u32], at: usize) -> Span
    requires { at ≤ length code.now }
    ensures { Spelt code.now at result.count result.next }
{
    let mut n = 0;
    let mut i = at;
    // A loop over i: it goes on as long as a character stands there, six words at a time, which no `for` says more plainly.
    while letter(code, i) {
        n += 1;
        i += 6;
    }
    Span { count: n, next: i }
}

// The row of characters that the expression at `at` is, and the place behind the expression; None if it is no such row.
fn row_at(code: &[u32], at: usize) -> Option<Span>
    requires { at ≤ length code.now }
    ensures { IfSome result (λ r. Plainly code.now at r.count r.next) }
{
    let r = letters(code, at);
    if code.len() <= r.next || code[r.next] != 0 {
        return None;
    }
    Some(Span {
        count: r.count,
        next: r.next + 1,
    })
}

// The place behind the n characters, if the text of from..to begins with them.
fn begins(code: &[u32], at: usize, n: usize, text: &[u8], from: usize, to: usize) -> Option<usize>
    requires fact_1 { at + 6 * n ≤ length code.now }
    requires fact_2 { from ≤ to }
    requires fact_3 { to ≤ length text.now }
    ensures { MatchOption result (Differs code.now at n text.now from to) (Begins code.now at n text.now from to) }
{
    let mut i = from;
    for k in 0..n {
        if i == to {
            return None;
        }
        let c = char_at(text, i, to);
        if c.value != code[at + 6 * k + 4] {
            return None;
        }
        i = c.next;
    }
    Some(i)
}

// Whether the text is the characters.
fn whole(code: &[u32], at: usize, n: usize, text: &[u8]) -> bool
    requires { at + 6 * n ≤ length code.now }
    ensures { Whole code.now at n text.now result }
{
    let end = text.len();
    match begins(code, at, n, text, 0, end) {
        Some(next) => next == end,
        None => false,
    }
}

// Whether the characters stand in the text.
fn find(code: &[u32], at: usize, n: usize, text: &[u8]) -> bool
    requires { at + 6 * n ≤ length code.now }
    ensures { Found code.now at n text.now result }
{
    let end = text.len();
    let mut i = 0;
    // A loop over i: a step is as long as the character that stands there.
    while i < end {
        match begins(code, at, n, text, i, end) {
            Some(_) => return true,
            None => i = char_at(text, i, end).next,
        }
    }
    n == 0
}

// The number of characters, if the code is that of a search for a row of characters, which stands at 7.
fn sought(code: &[u32]) -> Option<usize>
    ensures { IfSome result (Sought code.now) }
{
    if code.len() < 12 || code[0] != 2 || !free(code, 1) || code[6] != 2 {
        return None;
    }
    let p = row_at(code, 7)?;
    if code.len() - p.next != 5 || !free(code, p.next) {
        return None;
    }
    Some(p.count)
}

// The answer, where the expression is a row of characters or a search for one.
pub fn ask(code: &[u32], text: &[u8]) -> Option<bool>
    ensures { IfSome result (Known code.now text.now) }
{
    if let Some(n) = sought(code) {
        return Some(find(code, 7, n, text));
    }
    let p = row_at(code, 0)?;
    Some(whole(code, 0, p.count, text))
}

// Whether the expression ends in any text, as that of a search does: then a text that is described is described with any end.
pub fn open_ended(code: &[u32]) -> bool
    ensures { result ≡ true → Open code.now }
{
    if code.len() < 5 || code[0] != 2 {
        return false;
    }
    let a = skip(code, 1);
    if code.len() <= a || code[a] != 2 {
        return false;
    }
    let b = skip(code, a + 1);
    code.len() - 5 == b && free(code, b)
}
