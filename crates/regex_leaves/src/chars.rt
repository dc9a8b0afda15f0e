// Classes of characters, an escape, a character of an expression or of a class.
//
// A character that is read comes as the place behind it and the character; None says that none stands there.
ghost use Rattle.std.specs.Prelude.{◌≡◌, ◌+◌, drop};
ghost use Rattle.regex_definition.specs.Chars.{within, is_normal, is_escaped, is_class_char, escape_value};
ghost use Rattle.regex_definition.specs.Read.{read_escape, read_bare, read_ccchar};
ghost use Rattle.regex_leaves.specs.Reads.{Is, ReadChar};

// Whether x stands at `at`.
pub fn is(s: &[u32], at: usize, x: u32) -> bool
    ensures { Is s.now at x result }
{
    at < s.len() && s[at] == x
}

// Whether c is one of the characters from lo to hi.
pub fn within(lo: u32, hi: u32, c: u32) -> bool
    ensures { result ≡ within lo hi c }
{
    lo <= c && c <= hi
}

// NormalChar.
pub fn is_normal(c: u32) -> bool
    ensures { result ≡ is_normal c }
{
    within(0x00, 0x27, c)
        || within(0x2C, 0x2D, c)
        || within(0x2F, 0x3E, c)
        || within(0x40, 0x5A, c)
        || within(0x5E, 0x7A, c)
        || within(0x7E, 0xD7FF, c)
        || within(0xE000, 0x10FFFF, c)
}

// CCchar, without its escapes.
pub fn is_class_char(c: u32) -> bool
    ensures { result ≡ is_class_char c }
{
    within(0x00, 0x2C, c)
        || within(0x2E, 0x5A, c)
        || within(0x5E, 0xD7FF, c)
        || within(0xE000, 0x10FFFF, c)
}

// What may stand behind the backslash of an escape.
pub fn is_escaped(c: u32) -> bool
    ensures { result ≡ is_escaped c }
{
    within(0x28, 0x2B, c)
        || within(0x2D, 0x2E, c)
        || c == 0x3F
        || within(0x5B, 0x5E, c)
        || c == 0x6E
        || c == 0x72
        || c == 0x74
        || within(0x7B, 0x7D, c)
}

// The character that an escape stands for.
pub fn escape_value(c: u32) -> u32
    ensures { result ≡ escape_value c }
{
    match c {
        0x6E => 0x0A,
        0x72 => 0x0D,
        0x74 => 0x09,
        _ => c,
    }
}

// Behind a backslash.
pub fn escape(s: &[u32], at: usize) -> Option<(usize, u32)>
    ensures { ReadChar (read_escape (drop at s.now)) s.now (at + 1) result }
{
    let c = *s.get(at)?;
    if is_escaped(c) {
        Some((at + 1, escape_value(c)))
    } else {
        None
    }
}

// A character that stands for itself.
pub fn normal(s: &[u32], at: usize) -> Option<(usize, u32)>
    ensures { ReadChar (read_bare is_normal (drop at s.now)) s.now (at + 1) result }
{
    let c = *s.get(at)?;
    if is_normal(c) {
        Some((at + 1, c))
    } else {
        None
    }
}

// A character of a class.
pub fn class_char(s: &[u32], at: usize) -> Option<(usize, u32)>
    ensures { ReadChar (read_ccchar (drop at s.now)) s.now (at + 1) result }
{
    if is(s, at, 0x5C) {
        return escape(s, at + 1);
    }
    let c = *s.get(at)?;
    if is_class_char(c) {
        Some((at + 1, c))
    } else {
        None
    }
}
