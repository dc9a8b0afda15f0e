// The total matcher: a recursion over (expression, from, to), of which the last two are places in the bytes of the text. Right for
// every expression and text; its depth is bounded by the nesting of the expression and the number of bits of a count, and it needs
// no other room.

#![tactic(auto)]

ghost use Rattle.std.specs.Prelude.{◌≡◌, ◌+◌, ◌≤◌, ◌<◌, true, length, get_or};
ghost use Rattle.regex_total.specs.Answers.{no_width, Inside, Matched, Repeated, Paired, Joined, Some, Enough, Widths, Capped, Apart, Reaches};

use regex_chars::{char_at, class_has};
use regex_code::{skip, skip_class, wide};

// One character of the class at `at`.
fn one(code: &[u32], at: usize, text: &[u8], from: usize, to: usize) -> bool
    requires fact_1 { Inside text.now from to }
    requires fact_2 { at < length code.now }
    requires fact_3 { get_or code.now at 0 ≡ 1 }
    ensures { Matched code.now at text.now from to result }
{
    if from == to {
        return false;
    }
    let c = char_at(text, from, to);
    c.next == to && class_has(code, at, c.value)
}

// Whether the part from..to of the text is described by the code at `at`.
#[cycle(matching)]
pub fn matches(code: &[u32], at: usize, text: &[u8], from: usize, to: usize) -> bool
    requires { Inside text.now from to }
    ensures { Matched code.now at text.now from to result }
{
    if code.len() <= at {
        return false;
    }
    let k = code[at];
    if k == 0 {
        return from == to;
    }
    if k == 1 {
        return one(code, at, text, from, to);
    }
    if k == 2 {
        let b = skip(code, at + 1);
        return row(code, at + 1, b, text, from, to);
    }
    if k == 3 {
        if matches(code, at + 1, text, from, to) {
            return true;
        }
        let b = skip(code, at + 1);
        return matches(code, b, text, from, to);
    }
    if code.len() - at < 3 {
        return false;
    }
    if k == 4 {
        let lo = wide(code[at + 1]);
        let hi = wide(code[at + 2]);
        return times(code, at + 3, lo, hi, text, from, to);
    }
    if k == 5 {
        let lo = wide(code[at + 1]);
        return times(code, at + 2, lo, lo + (to - from), text, from, to);
    }
    false
}

// How many bytes a word of the part at `at` has: least and most, where 2^31 is "as many as you like".
#[derive(Clone, Copy)]
pub struct Width {
    pub next: usize,
    pub least: usize,
    pub most: usize,
}

fn capped(n: usize) -> usize
    ensures { Capped n result }
{
    n.min(2147483648)
}

// The most bytes that a character of the class at `at` has: those of the end of its range, if it is one range and no complement.
fn reach(code: &[u32], at: usize) -> usize
    requires { at < length code.now }
    ensures { Reaches code.now at result }
{
    if code.len() - at < 5 || code[at + 1] == 1 || code[at + 2] != 1 || 0x80 <= code[at + 4] {
        return 4;
    }
    1
}

fn no_width(at: usize) -> Width
    ensures { result ≡ no_width at }
{
    Width {
        next: at,
        least: 0,
        most: 0,
    }
}

#[cycle(measuring)]
pub fn measure(code: &[u32], at: usize) -> Width
    ensures { Widths code.now at result.next result.least result.most }
{
    if code.len() <= at {
        return no_width(at);
    }
    let k = code[at];
    if k == 0 {
        return no_width(at + 1);
    }
    if k == 1 {
        return Width {
            next: skip_class(code, at),
            least: 1,
            most: reach(code, at),
        };
    }
    if k == 2 {
        return in_a_row(code, at);
    }
    if k == 3 {
        return one_of(code, at);
    }
    if k == 4 {
        return copied(code, at);
    }
    if k == 5 {
        return looped(code, at);
    }
    no_width(at)
}

// One function for each operator, so that a call of `measure` has no more on the stack than one of them needs.
#[cycle(measuring)]
fn in_a_row(code: &[u32], at: usize) -> Width
    requires { (at < length code.now) × (get_or code.now at 0 ≡ 2) }
    ensures { Widths code.now at result.next result.least result.most }
{
    let a = measure(code, at + 1);
    let b = measure(code, a.next);
    Width {
        next: b.next,
        least: capped(a.least + b.least),
        most: capped(a.most + b.most),
    }
}

#[cycle(measuring)]
fn one_of(code: &[u32], at: usize) -> Width
    requires { (at < length code.now) × (get_or code.now at 0 ≡ 3) }
    ensures { Widths code.now at result.next result.least result.most }
{
    let a = measure(code, at + 1);
    let b = measure(code, a.next);
    Width {
        next: b.next,
        least: a.least.min(b.least),
        most: a.most.max(b.most),
    }
}

#[cycle(measuring)]
fn copied(code: &[u32], at: usize) -> Width
    requires { (at < length code.now) × (get_or code.now at 0 ≡ 4) }
    ensures { Widths code.now at result.next result.least result.most }
{
    if code.len() - at < 3 {
        return no_width(at);
    }
    let lo = wide(code[at + 1]);
    let hi = wide(code[at + 2]);
    let a = measure(code, at + 3);
    if a.most < 2147483648 {
        return Width {
            next: a.next,
            least: capped(a.least * lo),
            most: capped(a.most * hi),
        };
    }
    Width {
        next: a.next,
        least: capped(a.least * lo),
        most: 2147483648,
    }
}

#[cycle(measuring)]
fn looped(code: &[u32], at: usize) -> Width
    requires { (at < length code.now) × (get_or code.now at 0 ≡ 5) }
    ensures { Widths code.now at result.next result.least result.most }
{
    if code.len() - at < 3 {
        return no_width(at);
    }
    let lo = wide(code[at + 1]);
    let a = measure(code, at + 2);
    Width {
        next: a.next,
        least: capped(a.least * lo),
        most: 2147483648,
    }
}

// Whether no row of lo to hi words, each of least to most characters, has n characters.
fn apart(n: usize, lo: usize, hi: usize, least: usize, most: usize) -> bool
    ensures { result ≡ true → Apart n lo hi least most }
{
    if 0 < least && n / least < lo {
        return true;
    }
    if n == 0 {
        return false;
    }
    if most == 0 {
        return true;
    }
    if most < 2147483648 {
        return hi <= (n - 1) / most;
    }
    false
}

// The most words that lo to hi of them need be, for a text of d bytes: beyond lo no more than one for each byte.
fn enough(lo: usize, hi: usize, d: usize) -> usize
    requires { lo ≤ hi }
    ensures { Enough lo hi d result }
{
    if d < hi - lo { lo + d } else { hi }
}

// .. by it lo to hi times. A count is halved, so its depth is its number of bits. There are few branches before the call of `cuts`,
// so that LLVM joins it into this function: a halving takes one call on the stack.
#[cycle(matching)]
fn times(code: &[u32], at: usize, lo: usize, hi: usize, text: &[u8], from: usize, to: usize) -> bool
    requires { Inside text.now from to }
    ensures { Repeated code.now at lo hi text.now from to result }
{
    if hi < lo {
        return false;
    }
    if hi == 0 {
        return from == to;
    }
    if from == to {
        if lo == 0 {
            return true;
        }
        return matches(code, at, text, from, to);
    }
    let d = to - from;
    let top = enough(lo, hi, d);
    let w = measure(code, at);
    if apart(d, lo, top, w.least, w.most) {
        return false;
    }
    if top == 1 {
        return matches(code, at, text, from, to);
    }
    let l = lo / 2;
    let h = top / 2;
    cuts(code, at, l, h, lo - l, top - h, text, from, to)
}

#[cycle(matching)]
fn pair(
    code: &[u32],
    at: usize,
    l: usize,
    h: usize,
    m: usize,
    n: usize,
    text: &[u8],
    from: usize,
    mid: usize,
    to: usize,
) -> bool
    requires { (Inside text.now from mid) × ((Inside text.now mid to) × (Some h n)) }
    ensures { Paired code.now at l h at m n text.now from mid to result }
{
    times(code, at, l, h, text, from, mid) && times(code, at, m, n, text, mid, to)
}

// .. by it l to h times, and then m to n times.
#[cycle(matching)]
fn cuts(
    code: &[u32],
    at: usize,
    l: usize,
    h: usize,
    m: usize,
    n: usize,
    text: &[u8],
    from: usize,
    to: usize,
) -> bool
    requires { (Inside text.now from to) × (Some h n) }
    ensures { Joined code.now at l h at m n text.now from to result }
{
    let mut i = from;
    // A loop over i: a step is as long as the character that stands there.
    while i < to {
        if pair(code, at, l, h, m, n, text, from, i, to) {
            return true;
        }
        let c = char_at(text, i, to);
        i = c.next;
    }
    pair(code, at, l, h, m, n, text, from, to, to)
}

#[cycle(matching)]
fn both(code: &[u32], a: usize, b: usize, text: &[u8], from: usize, mid: usize, to: usize) -> bool
    requires { (Inside text.now from mid) × ((Inside text.now mid to) × (a ≤ b)) }
    ensures { Paired code.now a 1 1 b 1 1 text.now from mid to result }
{
    matches(code, a, text, from, mid) && matches(code, b, text, mid, to)
}

// .. by the code at a, and then by that at b.
#[cycle(matching)]
fn row(code: &[u32], a: usize, b: usize, text: &[u8], from: usize, to: usize) -> bool
    requires { (Inside text.now from to) × (a ≤ b) }
    ensures { Joined code.now a 1 1 b 1 1 text.now from to result }
{
    let mut i = from;
    // A loop of its own beside that of `cuts`: by `times` with a count of one, each part would take more of the stack that is promised.
    while i < to {
        if both(code, a, b, text, from, i, to) {
            return true;
        }
        let c = char_at(text, i, to);
        i = c.next;
    }
    both(code, a, b, text, from, to, to)
}
