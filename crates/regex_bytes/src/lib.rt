// The reader of expressions over the bytes of a text: its scalar values first, and then the code of the expression.

#![tactic(auto)]

ghost use Rattle.std.specs.Prelude.{◌≡◌, ◌+◌, ◌*◌, ◌≤◌, ◌<◌, length, drop, true};
ghost use Rattle.definition.specs.Bytes.{within};
ghost use Rattle.definition.specs.Utf8.{is_utf8};
ghost use Rattle.utf8_laws.specs.Unique.{point};
ghost use Rattle.regex_bytes.specs.Bytes.{byte_at, OneMore, Scalars, ReadsBytes};

use regex_reader::nested::read;

// Expressions have at most 1,024 bytes.
const MAX_EXPRESSION: usize = 1024;

// The byte at `at`, 0 behind the end.
fn byte_at(s: &[u8], at: usize) -> u32
    ensures { (result ≡ byte_at s.now at) × (result ≤ 255) }
{
    if at < s.len() { u32::from(s[at]) } else { 0 }
}

// The code point whose bytes begin at `at`.
fn point(s: &[u8], at: usize) -> u32
    requires { at ≤ length s.now }
    ensures { result ≡ point (drop at s.now) }
{
    let b = byte_at(s, at);
    if b < 0x80 {
        return b;
    }
    let t = byte_at(s, at + 1);
    if b < 0xE0 {
        return (b * 64 + t).saturating_sub(0x3080);
    }
    let u = byte_at(s, at + 2);
    if b < 0xF0 {
        return (b * 4096 + t * 64 + u).saturating_sub(0xE2080);
    }
    let v = byte_at(s, at + 3);
    (b * 262144 + t * 4096 + u * 64 + v).saturating_sub(0x3C82080)
}

// Whether b is no first byte of a character.
fn is_tail(b: u8) -> bool
    ensures { result ≡ within 0x80 0xBF b }
{
    0x80 <= b && b <= 0xBF
}

// Writes the character that begins at i, if one does, behind n others, and answers their number.
fn scalar(s: &[u8], chars: &mut [u32], i: usize, n: usize) -> usize
    requires { (i < length s.now) × (n < length chars.old) }
    ensures { OneMore s.now chars.old chars.new i n result }
{
    if is_tail(s[i]) {
        return n;
    }
    chars[n] = point(s, i);
    n + 1
}

// Writes the characters of the text s, and answers their number.
pub fn scalars(s: &[u8], chars: &mut [u32]) -> usize
    requires { length s.now ≤ length chars.old }
    ensures { Scalars s.now chars.old chars.new result }
{
    let mut n: usize = 0;
    for i in 0..s.len() {
        n = scalar(s, chars, i, n);
    }
    n
}

// Reads the expression whose bytes, which are UTF-8, are s, writes its code from `len` on, and answers the place behind it; None says that the bytes
// are no expression of the part. `chars` takes its characters: a word for each byte. The code takes up to eight for each byte, and three more.
pub fn read_bytes(s: &[u8], chars: &mut [u32], code: &mut [u32], len: usize) -> Option<usize>
    requires s_value { is_utf8 s.now ≡ true }
    requires s_in_bounds { length s.now ≤ 1024 → (length s.now ≤ length chars.old) × (len + 8 * length s.now + 3 ≤ length code.old) }
    ensures { ReadsBytes s.now code.old code.new len result }
{
    if MAX_EXPRESSION < s.len() {
        return None;
    }
    let n = scalars(s, chars);
    read(&chars[..n], code, len)
}
