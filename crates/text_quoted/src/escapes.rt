// What stands behind a backslash, as a code point: "each `\uXXXX` stands for itself unless it begins a surrogate pair".

ghost use Rattle.std.specs.Prelude.{◌≡◌, ◌+◌, ◌-◌, ◌*◌, ◌≤◌, length};
ghost use Rattle.definition.specs.Lexical.{own_byte};
ghost use Rattle.text_quoted.specs.Quoted.{quote_of};
ghost use Rattle.text_quoted.specs.Pieces.{short_code, Unicode, Escaped};

use crate::digits;

const HIGH_FIRST: u32 = 0xD800;

const LOW_FIRST: u32 = 0xDC00;

const LOW_LAST: u32 = 0xDFFF;

// The code point that one letter names.
fn short_value(b: u8) -> Option<u32>
    ensures { result ≡ short_code b }
{
    match b {
        b'b' => Some(0x08),
        b'f' => Some(0x0C),
        b'n' => Some(0x0A),
        b'r' => Some(0x0D),
        b't' => Some(0x09),
        b'/' => Some(0x2F),
        b'\\' => Some(0x5C),
        _ => None,
    }
}

// The code point that a surrogate pair stands for.
fn paired(h: u32, l: u32) -> u32
    requires { (0xD800 ≤ h) × (h ≤ 0xDBFF) × (0xDC00 ≤ l) × (l ≤ 0xDFFF) }
    ensures { result ≡ 0x10000 + ((h - 0xD800) * 1024 + (l - 0xDC00)) }
{
    0x10000 + ((h - HIGH_FIRST) * 1024 + (l - LOW_FIRST))
}

// What stands behind \u: one code point, or a surrogate pair, and the place behind it. A surrogate alone is no escape.
fn unicode(s: &[u8], at: usize) -> Option<(u32, usize)>
    requires { at ≤ length s.now }
    ensures { Unicode s.now at result }
{
    let h = digits::hex4(s, at)?;
    let next = at + 4;
    if h < HIGH_FIRST {
        return Some((h, next));
    }
    if LOW_LAST < h {
        return Some((h, next));
    }
    if LOW_FIRST <= h {
        return None;
    }
    let l = digits::low_after(s, next)?;
    Some((paired(h, l), at + 10))
}

// What stands behind a backslash, in a text between such quotes, and the place behind it.
pub fn escape(s: &[u8], at: usize, quote: u8) -> Option<(u32, usize)>
    requires { (own_byte (quote_of quote) ≡ quote) × (at ≤ length s.now) }
    ensures { Escaped (quote_of quote) s.now at result }
{
    if at >= s.len() {
        return None;
    }
    let b = s[at];
    let next = at + 1;
    if b == quote {
        return Some((u32::from(b), next));
    }
    if b == b'u' {
        return unicode(s, next);
    }
    let c = short_value(b)?;
    Some((c, next))
}
