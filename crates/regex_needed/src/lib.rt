// An expression with counts that are no larger than a text can need: it describes the same texts of at most so many bytes, and has
// fewer positions when its counts are written out. The code of the one is read, and that of the other written into a room.
//
//   - a part that describes the empty text need not be there at all: {64} is {0,64}
//   - {0,64} around {0,64} is {0,4096}
//   - an upper end that no short text reaches is none: {0,64} is *
//   - a repeat whose texts are all too long is a class of no character

#![tactic(auto)]

ghost use Rattle.std.specs.Prelude.{◌≡◌, true, [], ◌∷◌, ◌+◌, ◌*◌, ◌≤◌, ◌<◌, ◌^◌, min, length, IfSome};
ghost use Rattle.std.proofs.Math.Seq.{slice};
ghost use Rattle.regex_needed.specs.Needed.{WroteInRoom, Lessened, once, repeated, Asks, Closes, Misses, Needed, Joins, Endless, Headed};
ghost use Rattle.regex_code.specs.Flat.{Word};

use regex_code::{skip, wide};
use regex_total::{matches, measure};

// The places behind what was read, and behind what was written. One more than the room has says that it is too small.
#[derive(Clone, Copy)]
pub struct Part {
    pub next: usize,
    pub end: usize,
}

// The counts of a repeat.
#[derive(Clone, Copy)]
struct Counts {
    lo: u32,
    hi: u32,
}

// Writes a word, and answers the place behind it.
fn put(out: &mut [u32], to: usize, v: u32) -> usize
    requires { to ≤ length out.old + 1 }
    ensures { WroteInRoom out.old to (v ∷ []) out.new result }
{
    if out.len() <= to {
        return out.len() + 1;
    }
    out[to] = v;
    to + 1
}

// Writes the words from..end of the code.
fn copy(code: &[u32], from: usize, end: usize, out: &mut [u32], to: usize) -> usize
    requires { (from ≤ end) × (end ≤ length code.now) × (to ≤ length out.old + 1) }
    ensures { WroteInRoom out.old to (slice from end code.now) out.new result }
{
    let mut e = to;
    for i in from..end {
        e = put(out, e, code[i]);
    }
    e
}

// What stands at `at`, as it is.
fn same(code: &[u32], at: usize, text: &[u8], out: &mut [u32], to: usize) -> Part
    requires fact_1 { at < length code.now }
    requires fact_2 { Asks text.now out.old to }
    ensures { Lessened code.now at once (length text.now) out.old to out.new result.next result.end }
{
    let n = skip(code, at);
    let m = n.min(code.len());
    let e = copy(code, at, m, out, to);
    Part { next: n, end: e }
}

// A class of no character for what describes no short text.
fn nothing(code: &[u32], at: usize, text: &[u8], out: &mut [u32], to: usize) -> Part
    requires fact_1 { Misses code.now at (length text.now) }
    requires fact_2 { Asks text.now out.old to }
    ensures { Lessened code.now at once (length text.now) out.old to out.new result.next result.end }
{
    let n = skip(code, at);
    let a = put(out, to, 1);
    let b = put(out, a, 0);
    let c = put(out, b, 0);
    Part { next: n, end: c }
}

// Whether behind the part at `at` stands the empty expression, as at the end of a branch.
fn closes(code: &[u32], at: usize) -> bool
    ensures { result ≡ true → Closes code.now at }
{
    let n = skip(code, at);
    n < code.len() && code[n] == 0
}

// Whether all texts of what stands at `at` have more than n bytes.
fn misses(code: &[u32], at: usize, n: usize) -> bool
    ensures { result ≡ true → Misses code.now at n }
{
    n < measure(code, at).least
}

// The lower end that a repeat needs: 0 where its part at `at` describes the empty text, which fills up the rest.
fn needed(code: &[u32], at: usize, lo: u32, hi: u32, text: &[u8]) -> u32
    ensures { Needed code.now at lo hi result }
{
    if hi < lo {
        return lo;
    }
    if matches(code, at, text, 0, 0) {
        return 0;
    }
    lo
}

// Two upper ends as one, but no more than n.
fn product(a: u32, b: u32, n: usize) -> u32
    requires { n ≤ 2 ^ 31 }
    ensures { result ≡ min (a * b) n }
{
    let h = wide(a);
    let k = wide(b);
    let m = (h * k).min(n);
    m as u32
}

// The counts of lo to hi times the repeat at `at`, as one repeat of its part.
fn joins(code: &[u32], at: usize, lo: u32, hi: u32, text: &[u8]) -> Option<Counts>
    requires fact_1 { Word code.now at 4 }
    requires fact_2 { length text.now ≤ 2 ^ 31 }
    ensures { IfSome result (λ r. Joins code.now at lo hi (length text.now) r.lo r.hi) }
{
    if code.len() - at < 3 || misses(code, at, text.len()) {
        return None;
    }
    let h = code[at + 2];
    let l = needed(code, at + 3, code[at + 1], h, text);
    if single(lo, hi) {
        return Some(Counts { lo: l, hi: h });
    }
    if hi < lo || 0 < l {
        return None;
    }
    Some(Counts {
        lo: 0,
        hi: product(hi, h, text.len()),
    })
}

// Once.
fn single(lo: u32, hi: u32) -> bool
    ensures { result ≡ true → (lo ≡ 1) × (hi ≡ 1) }
{
    lo == 1 && hi == 1
}

// Whether no text of n bytes has hi words of at least m bytes, but for empty ones that need not be there.
fn endless(lo: u32, hi: u32, m: usize, n: usize) -> bool
    requires { m ≤ 2 ^ 31 }
    ensures { result ≡ true → Endless lo hi m n }
{
    let h = wide(hi);
    if lo == 0 && n <= h {
        return true;
    }
    m != 0 && n <= m * h
}

// Writes the words of a repeat of what stands at `at`.
fn head(code: &[u32], at: usize, lo: u32, hi: u32, text: &[u8], out: &mut [u32], to: usize) -> usize
    requires { Asks text.now out.old to }
    ensures { Headed code.now at lo hi (length text.now) out.old to out.new result }
{
    if single(lo, hi) {
        return to;
    }
    let w = measure(code, at);
    if endless(lo, hi, w.least, text.len()) {
        let a = put(out, to, 5);
        return put(out, a, lo);
    }
    let a = put(out, to, 4);
    let b = put(out, a, lo);
    put(out, b, hi)
}

// The place behind the empty expression that stands behind a part.
fn behind(code: &[u32], p: Part) -> Part
    ensures { (result.next ≡ min p.next (length code.now) + 1) × (result.end ≡ p.end) }
{
    Part {
        next: p.next.min(code.len()) + 1,
        end: p.end,
    }
}

// Writes an expression for lo to hi times what stands at `at`.
#[cycle(lessening)]
pub fn lessen(
    code: &[u32],
    at: usize,
    lo: u32,
    hi: u32,
    text: &[u8],
    out: &mut [u32],
    to: usize,
) -> Part
    requires { Asks text.now out.old to }
    ensures { Lessened code.now at (repeated lo hi) (length text.now) out.old to out.new result.next result.end }
{
    if code.len() <= at {
        return Part { next: at, end: to };
    }
    let k = code[at];
    if k == 2 && closes(code, at + 1) {
        let p = lessen(code, at + 1, lo, hi, text, out, to);
        return behind(code, p);
    }
    if k == 4 {
        if let Some(c) = joins(code, at, lo, hi, text) {
            return lessen(code, at + 3, c.lo, c.hi, text, out, to);
        }
    }
    let e = head(code, at, lo, hi, text, out, to);
    plain(code, at, k, text, out, e)
}

// Writes an expression for what stands at `at`.
#[cycle(lessening)]
fn plain(code: &[u32], at: usize, k: u32, text: &[u8], out: &mut [u32], to: usize) -> Part
    requires { (Word code.now at k) × (Asks text.now out.old to) }
    ensures { Lessened code.now at once (length text.now) out.old to out.new result.next result.end }
{
    if k < 2 {
        return same(code, at, text, out, to);
    }
    if k <= 3 {
        return pair(code, at, k, text, out, to);
    }
    if code.len() - at < 3 {
        return same(code, at, text, out, to);
    }
    if misses(code, at, text.len()) {
        return nothing(code, at, text, out, to);
    }
    if k == 4 {
        return lessen(code, at + 3, code[at + 1], code[at + 2], text, out, to);
    }
    if k == 5 {
        return least(code, at, text, out, to);
    }
    same(code, at, text, out, to)
}

// Two parts: in a row behind the word 2, one of them behind the word 3.
#[cycle(lessening)]
fn pair(code: &[u32], at: usize, k: u32, text: &[u8], out: &mut [u32], to: usize) -> Part
    requires { (Word code.now at k) × ((Asks text.now out.old to) × ((2 ≤ k) × (k ≤ 3))) }
    ensures { Lessened code.now at once (length text.now) out.old to out.new result.next result.end }
{
    let e = put(out, to, k);
    let p = lessen(code, at + 1, 1, 1, text, out, e);
    lessen(code, p.next, 1, 1, text, out, p.end)
}

// A part that is repeated from one number on.
#[cycle(lessening)]
fn least(code: &[u32], at: usize, text: &[u8], out: &mut [u32], to: usize) -> Part
    requires { (Word code.now at 5) × ((at + 3 ≤ length code.now) × (Asks text.now out.old to)) }
    ensures { Lessened code.now at once (length text.now) out.old to out.new result.next result.end }
{
    let lo = code[at + 1];
    let l = needed(code, at + 2, lo, lo, text);
    let e = put(out, to, 5);
    let f = put(out, e, l);
    lessen(code, at + 2, 1, 1, text, out, f)
}
