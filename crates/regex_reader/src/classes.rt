// A class: its code is the word 1, the word of the complement, the number of ranges, and two words for each.
ghost use Rattle.std.specs.Prelude.{◌≡◌, [], ◌∷◌, false, ◌+◌, ◌-◌, ◌*◌, ◌≤◌, length};
ghost use Rattle.regex_code.specs.Flat.{flag};
ghost use Rattle.basics.specs.Reads.{Wrote};
ghost use Rattle.regex_reader.specs.Reads.{IsEnd, PostRanges, Room, Post, is_complement, out_class, out_ranges};

use crate::steps::Cursor;
use regex_leaves::chars::is;
use regex_leaves::items::{first, one_item};

// Whether "-]" stands at `at`.
fn dash_end(s: &[u32], at: usize) -> bool
    ensures { IsEnd s.now at result }
{
    is(s, at, 0x2D) && is(s, at + 1, 0x5D)
}

fn put_range(code: &mut [u32], len: usize, lo: u32, hi: u32)
    requires { len + 2 ≤ length code.old }
    ensures { Wrote code.old len (lo ∷ hi ∷ []) code.new }
{
    code[len] = lo;
    code[len + 1] = hi;
}

// The head of a class, with no number of ranges yet, and its first range.
fn put_head(code: &mut [u32], len: usize, flag: u32, lo: u32, hi: u32)
    requires { len + 5 ≤ length code.old }
    ensures { Wrote code.old len (1 ∷ flag ∷ 0 ∷ lo ∷ hi ∷ []) code.new }
{
    code[len] = 1;
    code[len + 1] = flag;
    code[len + 2] = 0;
    code[len + 3] = lo;
    code[len + 4] = hi;
}

// The items behind the first, and the "]": the place behind it, and the number of these items.
fn items(s: &[u32], code: &mut [u32], at: usize, len: usize) -> Option<(usize, usize)>
    requires { (at ≤ length s.now) × (len + 2 * (length s.now - at) ≤ length code.old) × (length s.now ≤ 1024) }
    ensures { PostRanges s.now code.old code.new at len result }
{
    let mut i = at;
    let mut n: usize = 0;
    // A loop over i: a step is as long as an item.
    loop {
        if is(s, i, 0x5D) {
            return Some((i + 1, n));
        }
        if dash_end(s, i) {
            put_range(code, len + 2 * n, 0x2D, 0x2D);
            return Some((i + 2, n + 1));
        }
        let (b, lo, hi) = one_item(s, i)?;
        put_range(code, len + 2 * n, lo, hi);
        i = b;
        n += 1;
    }
}

// Behind the "[" or the "[^".
fn ranges(s: &[u32], code: &mut [u32], st: Cursor, sign: u32) -> Option<Cursor>
    requires { Room s.now code.old st 2 × (flag (is_complement sign) ≡ sign) }
    ensures { Post (out_ranges sign s.now st) 4 0 s.now code.old code.new st result }
{
    let at = st.at;
    let len = st.len;
    let (b, lo, hi) = first(s, at)?;
    put_head(code, len, sign, lo, hi);
    let (e, n) = items(s, code, b, len + 5)?;
    code[len + 2] = (n + 1) as u32;
    Some(Cursor {
        at: e,
        len: len + 5 + 2 * n,
    })
}

// Behind the "[".
pub fn class(s: &[u32], code: &mut [u32], st: Cursor) -> Option<Cursor>
    requires { Room s.now code.old st 2 }
    ensures { Post (out_class s.now st) 4 0 s.now code.old code.new st result }
{
    let at = st.at;
    let len = st.len;
    if is(s, at, 0x5E) {
        return ranges(s, code, Cursor { at: at + 1, len }, 1);
    }
    ranges(s, code, Cursor { at, len }, 0)
}
