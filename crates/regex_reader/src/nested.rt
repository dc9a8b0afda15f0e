// Alternatives, branches, pieces and groups, and the whole expression. A branch is written as the word 2 before each piece and the word 0
// at its end, alternatives as the word 3 before each branch but the last, a repeat before its atom.
ghost use Rattle.std.specs.Prelude.{◌+◌, ◌*◌, ◌≤◌, ◌<◌, length};
ghost use Rattle.regex_reader.specs.Reads.{Room, Post, out_atom, out_piece, out_branch, out_alternatives, ReadsWhole};

use crate::atoms::{leaf, repeat, stop_at};
use crate::steps::Cursor;
use regex_leaves::chars::is;
use regex_leaves::counts::quantifier;
use regex_leaves::words::insert;

#[cycle(expressions)]
fn atom(s: &[u32], code: &mut [u32], st: Cursor) -> Option<Cursor>
    requires { Room s.now code.old st 2 × (st.at < length s.now) }
    ensures { Post (out_atom s.now st) 1 0 s.now code.old code.new st result }
{
    if !is(s, st.at, 0x28) {
        return leaf(s, code, st);
    }
    let inside = Cursor {
        at: st.at + 1,
        len: st.len,
    };
    let n = alts(s, code, inside)?;
    if is(s, n.at, 0x29) {
        return Some(Cursor {
            at: n.at + 1,
            len: n.len,
        });
    }
    None
}

#[cycle(expressions)]
fn piece(s: &[u32], code: &mut [u32], st: Cursor) -> Option<Cursor>
    requires { Room s.now code.old st 2 × (st.at < length s.now) }
    ensures { Post (out_piece s.now st) 2 0 s.now code.old code.new st result }
{
    let n = atom(s, code, st)?;
    let q = quantifier(s, n.at)?;
    Some(repeat(code, st.len, n, q))
}

#[cycle(expressions)]
fn branch(s: &[u32], code: &mut [u32], st: Cursor) -> Option<Cursor>
    requires { Room s.now code.old st 3 }
    ensures { Post (out_branch s.now st) 3 2 s.now code.old code.new st result }
{
    let mut at = st.at;
    let mut len = st.len;
    // A loop over two places: a step is as long as a piece, and as its code.
    loop {
        if stop_at(s, at) {
            code[len] = 0;
            return Some(Cursor { at, len: len + 1 });
        }
        code[len] = 2;
        let n = piece(s, code, Cursor { at, len: len + 1 })?;
        at = n.at;
        len = n.len;
    }
}

#[cycle(expressions)]
fn alts(s: &[u32], code: &mut [u32], st: Cursor) -> Option<Cursor>
    requires { Room s.now code.old st 3 }
    ensures { Post (out_alternatives s.now st) 4 2 s.now code.old code.new st result }
{
    let mut at = st.at;
    let mut len = st.len;
    // A loop over two places: a step is as long as a branch, and as its code.
    loop {
        let n = branch(s, code, Cursor { at, len })?;
        if !is(s, n.at, 0x7C) {
            return Some(n);
        }
        insert(code, len, n.len, 3);
        at = n.at + 1;
        len = n.len + 1;
    }
}

// Reads the expression that the characters s are, writes its code from `len` on, and answers the place behind it. None says that the characters are no
// expression of the part.
pub fn read(s: &[u32], code: &mut [u32], len: usize) -> Option<usize>
    requires { (length s.now ≤ 1024) × (len + 8 * length s.now + 3 ≤ length code.old) }
    ensures { ReadsWhole s.now code.old code.new len result }
{
    let n = alts(s, code, Cursor { at: 0, len })?;
    if n.at < s.len() {
        return None;
    }
    Some(n.len)
}
