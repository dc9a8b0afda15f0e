// The four hexadecimal digits behind \u, and the escape of a low surrogate.

ghost use Rattle.std.specs.Prelude.{◌≡◌, ◌+◌, ◌*◌, ◌≤◌, ◌<◌, length};
ghost use Rattle.text_quoted.specs.Pieces.{HexDigit, Digits, LowDigits};

const LOW_FIRST: u32 = 0xDC00;

const LOW_LAST: u32 = 0xDFFF;

// The value of a hexadecimal digit in either case.
fn hex_value(b: u8) -> Option<u32>
    ensures { HexDigit b result }
{
    char::from(b).to_digit(16)
}

// The number that four digits write.
fn joined(a: u32, b: u32, c: u32, d: u32) -> u32
    requires { (a ≤ 16) × (b ≤ 16) × (c ≤ 16) × (d ≤ 16) }
    ensures { result ≡ ((a * 16 + b) * 16 + c) * 16 + d }
{
    ((a * 16 + b) * 16 + c) * 16 + d
}

// The number that the four digits from a place on write.
pub fn hex4(s: &[u8], at: usize) -> Option<u32>
    requires { at ≤ length s.now }
    ensures { Digits s.now at result }
{
    if s.len() - at < 4 {
        return None;
    }
    let a = hex_value(s[at])?;
    let b = hex_value(s[at + 1])?;
    let c = hex_value(s[at + 2])?;
    let d = hex_value(s[at + 3])?;
    Some(joined(a, b, c, d))
}

// The low surrogate whose escape stands at a place: a backslash, u and its four digits.
pub fn low_after(s: &[u8], at: usize) -> Option<u32>
    requires { at ≤ length s.now }
    ensures { LowDigits s.now at result }
{
    if s.len() - at < 2 {
        return None;
    }
    if s[at] != b'\\' {
        return None;
    }
    if s[at + 1] != b'u' {
        return None;
    }
    let v = hex4(s, at + 2)?;
    if v < LOW_FIRST {
        return None;
    }
    if LOW_LAST < v {
        return None;
    }
    Some(v)
}
