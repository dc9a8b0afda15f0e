// The fast matcher: one mark for each character position of the written-out expression; each character of the text is one pass over
// the code. Nothing is written out: the copies of a repeat share their code and have marks of their own.

#![tactic(auto)]

mod passes;

ghost use Rattle.std.specs.Prelude.{◌≡◌, true, ◌+◌, ◌-◌, ◌≤◌, ◌<◌, ◌^◌, length};
ghost use Rattle.regex_marks.specs.Moves.{Fits, ShiftedBy, CopiedBy, EndlessBy};
ghost use Rattle.regex_marks.specs.Runs.{Read, Ran, Clear, Grows, Weighs, Capped, Entered};
ghost use Rattle.regex_marks.specs.Passes.{pass_of};
ghost use Rattle.regex_code.specs.Flat.{Word};

use passes::{
    Pass, bare, bare_loop, bit, chain, either, enters, joined, last, less, link, looped, pack,
    second, stop, unmarked, unpack,
};
use regex_chars::{char_at, class_has};
use regex_code::{skip, skip_class, wide};

// Whether the class at `at` is entered and has c.
fn hits(code: &[u32], at: usize, enter: bool, c: u32) -> bool
    requires { at < length code.now }
    ensures { Entered code.now at enter c result }
{
    enter && class_has(code, at, c)
}

// One character of the class at `at`.
fn spot(code: &[u32], at: usize, marks: &mut [u8], base: usize, enter: bool, c: u32) -> Pass
    requires fact_1 { Word code.now at 1 }
    requires fact_2 { base ≤ length marks.old }
    ensures { ShiftedBy code.now at enter c base marks.old marks.new result }
{
    if marks.len() <= base {
        return stop(at);
    }
    let was = marks[base] == 1;
    let hit = hits(code, at, enter, c);
    marks[base] = bit(hit);
    let n = skip_class(code, at);
    Pass {
        next: n.min(code.len()),
        size: 1,
        empty: false,
        was: was,
        now: hit,
    }
}

// The marks of the part at `at`, from `base` on, read c.
#[cycle(copying)]
pub fn shift(code: &[u32], at: usize, marks: &mut [u8], base: usize, enter: bool, c: u32) -> usize
    requires { Fits code.now at marks.old base }
    ensures { ShiftedBy code.now at enter c base marks.old marks.new (pass_of result) }
{
    if code.len() <= at {
        let s = stop(at);
        return pack(s);
    }
    let k = code[at];
    if k == 0 {
        let s = unmarked(at + 1, true);
        return pack(s);
    }
    if k == 1 {
        let s = spot(code, at, marks, base, enter, c);
        return pack(s);
    }
    if k <= 3 {
        return two(code, at, k, marks, base, enter, c);
    }
    if k == 4 {
        return counted(code, at, marks, base, enter, c);
    }
    if k == 5 {
        return least(code, at, marks, base, enter, c);
    }
    let s = stop(at);
    pack(s)
}

// Two parts: in a row behind the word 2, one of them behind the word 3.
#[cycle(copying)]
fn two(code: &[u32], at: usize, k: u32, marks: &mut [u8], base: usize, enter: bool, c: u32) -> usize
    requires { (Fits code.now at marks.old base) × ((Word code.now at k) × ((2 ≤ k) × (k ≤ 3))) }
    ensures { ShiftedBy code.now at enter c base marks.old marks.new (pass_of result) }
{
    let p = shift(code, at + 1, marks, base, enter, c);
    let s = unpack(p);
    let m = second(k, enter, s);
    let n = s.next;
    let b = base + s.size;
    let q = shift(code, n, marks, b, m, c);
    let t = unpack(q);
    let u = joined(k, s, t);
    pack(u)
}

// A part that is repeated from one number to another.
#[cycle(copying)]
fn counted(code: &[u32], at: usize, marks: &mut [u8], base: usize, enter: bool, c: u32) -> usize
    requires { (Fits code.now at marks.old base) × (Word code.now at 4) }
    ensures { ShiftedBy code.now at enter c base marks.old marks.new (pass_of result) }
{
    if code.len() - at < 3 {
        let s = stop(at);
        return pack(s);
    }
    let lo = wide(code[at + 1]);
    let hi = wide(code[at + 2]);
    if hi == 0 {
        let n = skip(code, at + 3);
        let s = unmarked(n.min(code.len()), lo == 0);
        return pack(s);
    }
    copies(code, at + 3, marks, base, lo, hi, enter, c)
}

// A part that is repeated from one number on.
#[cycle(copying)]
fn least(code: &[u32], at: usize, marks: &mut [u8], base: usize, enter: bool, c: u32) -> usize
    requires { (Fits code.now at marks.old base) × (Word code.now at 5) }
    ensures { ShiftedBy code.now at enter c base marks.old marks.new (pass_of result) }
{
    if code.len() - at < 3 {
        let s = stop(at);
        return pack(s);
    }
    let lo = wide(code[at + 1]);
    endless(code, at + 2, marks, base, lo, enter, c)
}

#[cycle(copying)]
fn copies(
    code: &[u32],
    at: usize,
    marks: &mut [u8],
    base: usize,
    lo: usize,
    hi: usize,
    enter: bool,
    c: u32,
) -> usize
    requires { (Fits code.now at marks.old base) × (1 ≤ hi) }
    ensures { CopiedBy code.now at enter c base lo hi marks.old marks.new (pass_of result) }
{
    let p = shift(code, at, marks, base, enter, c);
    let s = unpack(p);
    if s.size == 0 {
        let u = bare(lo, hi, s);
        return pack(u);
    }
    if hi == 1 {
        let t = last(lo, s);
        let u = link(lo, s, t);
        return pack(u);
    }
    let m = enters(enter, s);
    let b = base + s.size;
    let l = less(lo);
    let q = copies(code, at, marks, b, l, hi - 1, m, c);
    let t = unpack(q);
    let u = link(lo, s, t);
    pack(u)
}

#[cycle(copying)]
fn endless(
    code: &[u32],
    at: usize,
    marks: &mut [u8],
    base: usize,
    lo: usize,
    enter: bool,
    c: u32,
) -> usize
    requires { Fits code.now at marks.old base }
    ensures { EndlessBy code.now at enter c base lo marks.old marks.new (pass_of result) }
{
    if marks.len() <= base {
        let s = stop(at);
        return pack(s);
    }
    if lo <= 1 {
        let f = marks[base] == 1;
        let m = either(enter, f);
        let p = shift(code, at, marks, base + 1, m, c);
        let s = unpack(p);
        marks[base] = bit(s.now);
        let u = looped(lo, s);
        return pack(u);
    }
    let p = shift(code, at, marks, base, enter, c);
    let s = unpack(p);
    if s.size == 0 {
        let u = bare_loop(s);
        return pack(u);
    }
    let m = enters(enter, s);
    let b = base + s.size;
    let q = endless(code, at, marks, b, lo - 1, m, c);
    let t = unpack(q);
    let u = chain(s, t);
    pack(u)
}

#[derive(Clone, Copy)]
pub struct Weight {
    pub next: usize,
    pub size: usize,
}

// No more than one above the cap.
fn capped(n: usize, cap: usize) -> usize
    requires { cap < 2 ^ 31 }
    ensures { Capped n cap result }
{
    if n <= cap { n } else { cap + 1 }
}

// The number of marks of the part at `at`, or cap + 1 for more than cap.
#[cycle(weighing)]
pub fn weigh(code: &[u32], at: usize, cap: usize) -> Weight
    requires { cap < 2 ^ 31 }
    ensures { Weighs code.now at cap result.next result.size }
{
    if code.len() <= at {
        return Weight { next: at, size: 0 };
    }
    let k = code[at];
    if k == 0 {
        return Weight {
            next: at + 1,
            size: 0,
        };
    }
    if k == 1 {
        return Weight {
            next: skip_class(code, at),
            size: capped(1, cap),
        };
    }
    if k <= 3 {
        return weigh_two(code, at, k, cap);
    }
    if k == 4 {
        return weigh_counted(code, at, cap);
    }
    if k == 5 {
        return weigh_least(code, at, cap);
    }
    Weight { next: at, size: 0 }
}

#[cycle(weighing)]
fn weigh_two(code: &[u32], at: usize, k: u32, cap: usize) -> Weight
    requires { (cap < 2 ^ 31) × ((Word code.now at k) × ((2 ≤ k) × (k ≤ 3))) }
    ensures { Weighs code.now at cap result.next result.size }
{
    let a = weigh(code, at + 1, cap);
    let n = a.next;
    let b = weigh(code, n, cap);
    Weight {
        next: b.next,
        size: capped(a.size + b.size, cap),
    }
}

#[cycle(weighing)]
fn weigh_counted(code: &[u32], at: usize, cap: usize) -> Weight
    requires { (cap < 2 ^ 31) × (Word code.now at 4) }
    ensures { Weighs code.now at cap result.next result.size }
{
    if code.len() - at < 3 {
        return Weight { next: at, size: 0 };
    }
    let hi = wide(code[at + 2]);
    let a = weigh(code, at + 3, cap);
    if cap < a.size {
        return Weight {
            next: a.next,
            size: cap + 1,
        };
    }
    Weight {
        next: a.next,
        size: capped(a.size * hi, cap),
    }
}

#[cycle(weighing)]
fn weigh_least(code: &[u32], at: usize, cap: usize) -> Weight
    requires { (cap < 2 ^ 31) × (Word code.now at 5) }
    ensures { Weighs code.now at cap result.next result.size }
{
    if code.len() - at < 3 {
        return Weight { next: at, size: 0 };
    }
    let lo = wide(code[at + 1]);
    let a = weigh(code, at + 2, cap);
    if cap < a.size {
        return Weight {
            next: a.next,
            size: cap + 1,
        };
    }
    let l = less(lo);
    Weight {
        next: a.next,
        size: capped(a.size * l + 1 + a.size, cap),
    }
}

fn clear(marks: &mut [u8])
    ensures { Clear marks.new }
{
    marks.fill(0);
}

// Whether no mark is set: then no text goes on from here.
pub fn dead(marks: &[u8]) -> bool
    ensures { result ≡ true → Clear marks.now }
{
    marks.iter().all(|&m| m == 0)
}

// The rest of the text, from a place on to which the marks have read it; `told` says whether what was read is described.
pub fn read(
    code: &[u32],
    text: &[u8],
    marks: &mut [u8],
    from: usize,
    told: bool,
    grows: bool,
) -> bool
    requires fact_1 { Fits code.now 0 marks.old 0 }
    requires fact_2 { (from ≤ length text.now) × Read code.now text.now from marks.old told }
    requires fact_3 { (grows ≡ true → Grows code.now) }
    ensures { Ran code.now text.now (length marks.old) result }
{
    let end = text.len();
    let mut last = told;
    let mut i = from;
    // A loop over i: a step is as long as the character that stands there.
    while i < end {
        let first = i == 0;
        let c = char_at(text, i, end);
        let p = shift(code, 0, marks, 0, first, c.value);
        last = unpack(p).now;
        if grows && last {
            return true;
        }
        if dead(&marks[..]) {
            return false;
        }
        i = c.next;
    }
    last
}

// Whether the text is described by the expression that the code is of. Where that grows, and what was read is described, so is the
// text.
pub fn run(code: &[u32], text: &[u8], marks: &mut [u8], grows: bool) -> bool
    requires fact_1 { Fits code.now 0 marks.old 0 }
    requires fact_2 { (grows ≡ true → Grows code.now) }
    ensures { Ran code.now text.now (length marks.old) result }
{
    clear(marks);
    let p = shift(code, 0, marks, 0, false, 0);
    let s = unpack(p);
    read(code, text, marks, 0, s.empty, grows)
}
