// What is written: runs of plain bytes as they stand, and the UTF-8 bytes of a code point.

ghost use Rattle.std.specs.Prelude.{◌≡◌, ◌+◌, ◌-◌, ◌≤◌, ◌<◌, length};
ghost use Rattle.definition.specs.Utf8.{encode};
ghost use Rattle.utf8_laws.specs.Names.{unescaped_byte};
ghost use Rattle.text_quoted.specs.Pieces.{Copied, Encoded};

// Whether a byte is one of an unescaped character's.
fn is_plain(b: u8) -> bool
    ensures { result ≡ unescaped_byte b }
{
    if b'\\' < b {
        return true;
    }
    if b < 0x20 {
        return false;
    }
    if b == b'"' {
        return false;
    }
    if b == b'\'' {
        return false;
    }
    b != b'\\'
}

// Copies the plain bytes from a place on, and answers where they end.
pub fn copy_plain(s: &[u8], at: usize, out: &mut [u8], len: usize) -> usize
    requires { (at ≤ length s.now) × (len + (length s.now - at) ≤ length out.old) }
    ensures { Copied s.now at out.old len out.new result }
{
    // An escape may stand right behind another, so a backslash is looked for before there is a loop.
    if at < s.len() && s[at] == b'\\' {
        return at;
    }
    for i in at..s.len() {
        let b = s[i];
        if !is_plain(b) {
            return i;
        }
        out[len + (i - at)] = b;
    }
    s.len()
}

// Writes the bytes of a code point, and answers the place behind them.
pub fn put_point(out: &mut [u8], len: usize, c: u32) -> usize
    requires { (c ≤ 0x10FFFF) × (len + length (encode c) ≤ length out.old) }
    ensures { Encoded out.old len c out.new result }
{
    if c < 0x80 {
        out[len] = c as u8;
        return len + 1;
    }
    if c < 0x800 {
        out[len] = (0xC0 + c / 64) as u8;
        out[len + 1] = (0x80 + c % 64) as u8;
        return len + 2;
    }
    if c < 0x10000 {
        out[len] = (0xE0 + c / 4096) as u8;
        out[len + 1] = (0x80 + c / 64 % 64) as u8;
        out[len + 2] = (0x80 + c % 64) as u8;
        return len + 3;
    }
    out[len] = (0xF0 + c / 262144) as u8;
    out[len + 1] = (0x80 + c / 4096 % 64) as u8;
    out[len + 2] = (0x80 + c / 64 % 64) as u8;
    out[len + 3] = (0x80 + c % 64) as u8;
    len + 4
}
