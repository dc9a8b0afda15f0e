// The matcher by sets of places: a part of an expression leads from each place of a text to others, and the places to which it leads from a set are worked
// out at once. A repeat goes on until its set is empty or grows no more. A set is a byte for each place, 1 if it has it.

#![tactic(auto)]

ghost use Rattle.std.specs.Prelude.{◌≡◌, true, false, ◌+◌, ◌≤◌, ◌<◌, length, get_or};
ghost use Rattle.regex_places.specs.Places.{Fits, IsRow, Reached, once, rows, most, Moves, Same, Adds, Both, None, Wider, Placed};
ghost use Rattle.regex_code.specs.Flat.{Word};

use regex_chars::class_has;
use regex_code::{skip, wide};

// A text has fewer characters: its places and its end are as many bytes.
pub const PLACES: usize = 1024;

// 1 if v is 1 and the class at `at` has c.
fn moved(code: &[u32], at: usize, c: u32, v: u8) -> u8
    requires { at < length code.now }
    ensures { Moves code.now at c v result }
{
    if v != 1 {
        return 0;
    }
    if class_has(code, at, c) { 1 } else { 0 }
}

// One character of the class at `at`: the places behind, from the last on.
fn step(code: &[u32], at: usize, text: &[u32], set: &mut [u8])
    requires fact_1 { at < length code.now }
    requires fact_2 { get_or code.now at 0 ≡ 1 }
    requires fact_3 { Fits text.now set.old }
    ensures { Reached code.now at text.now once set.old set.new }
{
    for i in (0..text.len()).rev() {
        set[i + 1] = moved(code, at, text[i], set[i]);
    }
    set[0] = 0;
}

// The first n places of a set.
fn copy(from: &[u8], n: usize, to: &mut [u8])
    requires { (n ≤ length from.now) × (n ≤ length to.old) }
    ensures { Same n from.now to.old to.new }
{
    for i in 0..n {
        to[i] = from[i];
    }
}

// The place i besides, if v is 1; `more` if it was there, and true if not.
fn add(set: &mut [u8], i: usize, v: u8, more: bool) -> bool
    requires { i < length set.old }
    ensures { Adds set.old i v more set.new result }
{
    if v != 1 || set[i] == 1 {
        return more;
    }
    set[i] = 1;
    true
}

// The first n places of another set besides; whether there were more than in the first.
fn join(set: &mut [u8], other: &[u8], n: usize) -> bool
    requires { (n ≤ length set.old) × (n ≤ length other.now) }
    ensures { Both n set.old other.now set.new result }
{
    let mut more = false;
    for i in 0..n {
        more = add(set, i, other[i], more);
    }
    more
}

// Whether a set has none of the first n places.
fn none(set: &[u8], n: usize) -> bool
    requires { n ≤ length set.now }
    ensures { result ≡ true → None n set.now }
{
    for i in 0..n {
        if set[i] == 1 {
            return false;
        }
    }
    true
}

// No place.
fn clear(set: &mut [u8], n: usize)
    requires { n ≤ length set.old }
    ensures { (length set.new ≡ length set.old) × None n set.new }
{
    for i in 0..n {
        set[i] = 0;
    }
}

// Whether two parts in a row stand at `at`.
fn is_row(code: &[u32], at: usize) -> bool
    ensures { IsRow code.now at result }
{
    at < code.len() && code[at] == 2
}

// The places to which the part at `at` leads. Parts in a row are a loop, so that the depth is that of groups, alternatives and repeats.
#[cycle(growing)]
pub fn reach(code: &[u32], at: usize, text: &[u32], set: &mut [u8])
    requires { Fits text.now set.old }
    ensures { Reached code.now at text.now once set.old set.new }
{
    let mut p = at;
    // A loop over p: a step is as long as the code of a part.
    while is_row(code, p) {
        reach(code, p + 1, text, set);
        p = skip(code, p + 1);
    }
    part(code, p, text, set);
}

// .. where no two parts in a row stand.
#[cycle(growing)]
fn part(code: &[u32], at: usize, text: &[u32], set: &mut [u8])
    requires { (IsRow code.now at false) × (Fits text.now set.old) }
    ensures { Reached code.now at text.now once set.old set.new }
{
    if code.len() <= at {
        return;
    }
    let k = code[at];
    if k == 0 {
        return;
    }
    if k == 1 {
        step(code, at, text, set);
        return;
    }
    if k == 3 {
        either(code, at, text, set);
        return;
    }
    if code.len() - at < 3 {
        return;
    }
    if k == 4 {
        counted(code, at, text, set);
        return;
    }
    if k == 5 {
        least(code, at, text, set);
    }
}

// One part or the other.
#[cycle(growing)]
fn either(code: &[u32], at: usize, text: &[u32], set: &mut [u8])
    requires { (Word code.now at 3) × (Fits text.now set.old) }
    ensures { Reached code.now at text.now once set.old set.new }
{
    let n = text.len() + 1;
    let mut other = [0u8; PLACES];
    copy(&set[..], n, &mut other);
    reach(code, at + 1, text, set);
    let b = skip(code, at + 1);
    reach(code, b, text, &mut other);
    join(set, &other[..], n);
}

// A part that is repeated from one number to another.
#[cycle(growing)]
fn counted(code: &[u32], at: usize, text: &[u32], set: &mut [u8])
    requires { (Word code.now at 4) × ((at + 3 ≤ length code.now) × (Fits text.now set.old)) }
    ensures { Reached code.now at text.now once set.old set.new }
{
    let lo = wide(code[at + 1]);
    let hi = wide(code[at + 2]);
    if hi < lo {
        clear(set, text.len() + 1);
        return;
    }
    again(code, at + 3, lo, text, set);
    grow(code, at + 3, hi - lo, text, set);
}

// A part that is repeated from one number on: each word beyond is one for a character.
#[cycle(growing)]
fn least(code: &[u32], at: usize, text: &[u32], set: &mut [u8])
    requires { (Word code.now at 5) × ((at + 3 ≤ length code.now) × (Fits text.now set.old)) }
    ensures { Reached code.now at text.now once set.old set.new }
{
    let lo = wide(code[at + 1]);
    again(code, at + 2, lo, text, set);
    grow(code, at + 2, text.len(), text, set);
}

// A part n times.
#[cycle(growing)]
fn again(code: &[u32], at: usize, n: usize, text: &[u32], set: &mut [u8])
    requires { Fits text.now set.old }
    ensures { Reached code.now at text.now (rows n) set.old set.new }
{
    for _ in 0..n {
        if none(&set[..], text.len() + 1) {
            return;
        }
        reach(code, at, text, set);
    }
}

// A part up to n times.
#[cycle(growing)]
fn grow(code: &[u32], at: usize, n: usize, text: &[u32], set: &mut [u8])
    requires { Fits text.now set.old }
    ensures { Reached code.now at text.now (most n) set.old set.new }
{
    for _ in 0..n {
        if !wider(code, at, text, set) {
            return;
        }
    }
}

// The places besides to which a part leads once; whether there are any.
#[cycle(growing)]
fn wider(code: &[u32], at: usize, text: &[u32], set: &mut [u8]) -> bool
    requires { Fits text.now set.old }
    ensures { Wider code.now at text.now set.old set.new result }
{
    let n = text.len() + 1;
    let mut other = [0u8; PLACES];
    copy(&set[..], n, &mut other);
    reach(code, at, text, &mut other);
    join(set, &other[..], n)
}

// Whether the text is described by the expression that the code is of.
pub fn run(code: &[u32], text: &[u32]) -> bool
    requires { length text.now < 1024 }
    ensures { Placed code.now text.now result }
{
    let mut set = [0u8; PLACES];
    set[0] = 1;
    reach(code, 0, text, &mut set);
    set[text.len()] == 1
}
