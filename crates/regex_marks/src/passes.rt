// What a pass over a part says, what is said of two parts from what is said of each, and the same in one word.
ghost use Rattle.std.specs.Prelude.{◌≡◌, ◌&&◌, ◌||◌, ◌+◌, ◌≤◌, ◌<◌, ◌^◌, pred, eqb};
ghost use Rattle.regex_marks.specs.Passes.{flag_of, pass_of, empty_of, second_of, joined_of, chain_of, fork_of, link_of, loop_of, last_of, enter_of, stop_of, bare_of, bare_loop_of};

// What a pass over a part says: the place behind its code, the number of its marks, whether it describes the empty word, and
// whether a word of it may end here, before the character and after it.
#[derive(Clone, Copy)]
pub struct Pass {
    pub next: usize,
    pub size: usize,
    pub empty: bool,
    pub was: bool,
    pub now: bool,
}

pub fn either(a: bool, b: bool) -> bool
    ensures { result ≡ (a || b) }
{
    a || b
}

pub fn both(a: bool, b: bool) -> bool
    ensures { result ≡ (a && b) }
{
    a && b
}

pub fn bit(b: bool) -> u8
    ensures { eqb result 1 ≡ b }
{
    u8::from(b)
}

pub fn less(n: usize) -> usize
    ensures { result ≡ pred n }
{
    n.saturating_sub(1)
}

// Whether the second of two parts is entered.
pub fn enters(enter: bool, s: Pass) -> bool
    ensures { result ≡ enter_of enter s }
{
    either(s.was, both(enter, s.empty))
}

pub fn stop(at: usize) -> Pass
    ensures { result ≡ stop_of at }
{
    Pass {
        next: at,
        size: 0,
        empty: false,
        was: false,
        now: false,
    }
}

pub fn chain(s: Pass, t: Pass) -> Pass
    requires { s.size + t.size < 2 ^ 64 }
    ensures { result ≡ chain_of s t }
{
    Pass {
        next: t.next,
        size: s.size + t.size,
        empty: both(s.empty, t.empty),
        was: either(both(s.was, t.empty), t.was),
        now: either(both(s.now, t.empty), t.now),
    }
}

pub fn fork(s: Pass, t: Pass) -> Pass
    requires { s.size + t.size < 2 ^ 64 }
    ensures { result ≡ fork_of s t }
{
    Pass {
        next: t.next,
        size: s.size + t.size,
        empty: either(s.empty, t.empty),
        was: either(s.was, t.was),
        now: either(s.now, t.now),
    }
}

// A copy, and the copies behind it.
pub fn link(lo: usize, s: Pass, t: Pass) -> Pass
    requires { s.size + t.size < 2 ^ 64 }
    ensures { result ≡ link_of lo s t }
{
    let none = lo == 0;
    Pass {
        next: t.next,
        size: s.size + t.size,
        empty: either(none, both(s.empty, t.empty)),
        was: either(both(s.was, t.empty), t.was),
        now: either(both(s.now, t.empty), t.now),
    }
}

// No copy behind the last.
pub fn last(lo: usize, s: Pass) -> Pass
    ensures { result ≡ last_of lo s }
{
    Pass {
        next: s.next,
        size: 0,
        empty: lo <= 1,
        was: false,
        now: false,
    }
}

// Copies of a part without marks: it describes the empty word at most.
pub fn bare(lo: usize, hi: usize, s: Pass) -> Pass
    ensures { result ≡ bare_of lo hi s }
{
    let none = lo == 0;
    let some = lo <= hi;
    Pass {
        next: s.next,
        size: 0,
        empty: either(none, both(s.empty, some)),
        was: false,
        now: false,
    }
}

// Two copies or more of a part without marks.
pub fn bare_loop(s: Pass) -> Pass
    ensures { result ≡ bare_loop_of s }
{
    Pass {
        next: s.next,
        size: 1,
        empty: s.empty,
        was: false,
        now: false,
    }
}

// A copy that may follow itself.
pub fn looped(lo: usize, s: Pass) -> Pass
    requires { 1 + s.size < 2 ^ 64 }
    ensures { result ≡ loop_of lo s }
{
    let none = lo == 0;
    Pass {
        next: s.next,
        size: 1 + s.size,
        empty: either(none, s.empty),
        was: s.was,
        now: s.now,
    }
}

// A pass in one word: the place behind the code, 16 bits for the number of marks, and a bit for each of the three.
// Packed for the stack that is promised: a word comes back in a register, and a struct takes room in every frame of the recursion `copying`.
pub fn flag(b: bool) -> usize
    ensures { (result ≡ flag_of b) × (result ≤ 1) }
{
    usize::from(b)
}

pub fn pack(s: Pass) -> usize
    requires { (s.next < 2 ^ 33) × (s.size < 2 ^ 16) }
    ensures { pass_of result ≡ s }
{
    let empty = flag(s.empty);
    let was = flag(s.was);
    let now = flag(s.now);
    (s.next * 65536 + s.size) * 8 + empty * 4 + was * 2 + now
}

pub fn unpack(w: usize) -> Pass
    ensures { result ≡ pass_of w }
{
    Pass {
        next: w / 524288,
        size: w / 8 % 65536,
        empty: w / 4 % 2 == 1,
        was: w / 2 % 2 == 1,
        now: w % 2 == 1,
    }
}

// A part with no marks.
pub fn unmarked(at: usize, empty: bool) -> Pass
    ensures { result ≡ empty_of at empty }
{
    Pass {
        next: at,
        size: 0,
        empty: empty,
        was: false,
        now: false,
    }
}

// Whether the second of two parts is entered: in a row, or one of the two.
pub fn second(k: u32, enter: bool, s: Pass) -> bool
    ensures { result ≡ second_of k enter s }
{
    if k == 2 { enters(enter, s) } else { enter }
}

pub fn joined(k: u32, s: Pass, t: Pass) -> Pass
    requires { s.size + t.size < 2 ^ 64 }
    ensures { result ≡ joined_of k s t }
{
    if k == 2 { chain(s, t) } else { fork(s, t) }
}
