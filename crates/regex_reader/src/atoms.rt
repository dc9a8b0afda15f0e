// What stands between the groups: characters, ".", classes, and the repeat of what was written.
ghost use Rattle.std.specs.Prelude.{◌≡◌, [], ◌∷◌, ◌+◌, ◌≤◌, ◌<◌, length, drop};
ghost use Rattle.basics.specs.Reads.{Wrote};
ghost use Rattle.regex_definition.specs.Read.{stops};
ghost use Rattle.regex_reader.specs.Reads.{Room, Post, out_leaf, Repeats, PutChar};

use crate::classes::class;
use crate::steps::Cursor;
use regex_leaves::chars::{escape, is, normal};
use regex_leaves::counts::Quant;
use regex_leaves::words::insert;

// Whether no piece begins at `at`.
pub fn stop_at(s: &[u32], at: usize) -> bool
    ensures { result ≡ stops (drop at s.now) }
{
    s.len() <= at || s[at] == 0x7C || s[at] == 0x29
}

fn put_dot(code: &mut [u32], len: usize)
    requires { len + 7 ≤ length code.old }
    ensures { Wrote code.old len (1 ∷ 1 ∷ 2 ∷ 10 ∷ 10 ∷ 13 ∷ 13 ∷ []) code.new }
{
    code[len] = 1;
    code[len + 1] = 1;
    code[len + 2] = 2;
    code[len + 3] = 0x0A;
    code[len + 4] = 0x0A;
    code[len + 5] = 0x0D;
    code[len + 6] = 0x0D;
}

fn put_char(code: &mut [u32], len: usize, c: u32)
    requires { len + 5 ≤ length code.old }
    ensures { Wrote code.old len (1 ∷ 0 ∷ 1 ∷ c ∷ c ∷ []) code.new }
{
    code[len] = 1;
    code[len + 1] = 0;
    code[len + 2] = 1;
    code[len + 3] = c;
    code[len + 4] = c;
}

// The code of a character that was read.
fn put_read(code: &mut [u32], len: usize, c: Option<(usize, u32)>) -> Option<Cursor>
    requires { len + 5 ≤ length code.old }
    ensures { PutChar code.old code.new len c result }
{
    let (b, x) = c?;
    put_char(code, len, x);
    Some(Cursor {
        at: b,
        len: len + 5,
    })
}

// An atom that is no group.
pub fn leaf(s: &[u32], code: &mut [u32], st: Cursor) -> Option<Cursor>
    requires { Room s.now code.old st 2 × (st.at < length s.now) }
    ensures { Post (out_leaf s.now st) 0 0 s.now code.old code.new st result }
{
    let at = st.at;
    let len = st.len;
    if is(s, at, 0x5B) {
        return class(s, code, Cursor { at: at + 1, len });
    }
    if is(s, at, 0x2E) {
        put_dot(code, len);
        return Some(Cursor {
            at: at + 1,
            len: len + 7,
        });
    }
    if is(s, at, 0x5C) {
        let c = escape(s, at + 1);
        return put_read(code, len, c);
    }
    let c = normal(s, at);
    put_read(code, len, c)
}

// The repeat q of the atom whose code stands from `from` on up to n; where it ends.
pub fn repeat(code: &mut [u32], from: usize, n: Cursor, q: Quant) -> Cursor
    requires { (from ≤ n.len) × (n.len + 3 ≤ length code.old) }
    ensures { Repeats code.old code.new from n q result }
{
    let len = n.len;
    match q {
        Quant::Once => n,
        Quant::Least(b, lo) => {
            insert(code, from, len, lo);
            insert(code, from, len + 1, 5);
            Cursor {
                at: b,
                len: len + 2,
            }
        }
        Quant::Upto(b, lo, hi) => {
            insert(code, from, len, hi);
            insert(code, from, len + 1, lo);
            insert(code, from, len + 2, 4);
            Cursor {
                at: b,
                len: len + 3,
            }
        }
    }
}
