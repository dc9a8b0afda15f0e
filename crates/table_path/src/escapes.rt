// How a key and an index are spelled in a path: the letter of an escape, the hexadecimal digit, and how many bytes there are.
ghost use Rattle.std.specs.Prelude.{◌≡◌, ◌<◌, ◌≤◌, length};
ghost use Rattle.definition.specs.Limits.{max_text, max_nodes};
ghost use Rattle.definition.specs.Paths.{hex_digit, escaped, escaped_all, written};
ghost use Rattle.table_path.specs.Words.{letter_of};

// The letter that stands for a byte behind a backslash, if there is one.
pub fn letter_of(b: u8) -> Option<u8>
    ensures { result ≡ letter_of b }
{
    // A row of tests: with a `match` the goal of its arm `_` did not close.
    if b == 0x08 {
        return Some(b'b');
    }
    if b == 0x09 {
        return Some(b't');
    }
    if b == 0x0A {
        return Some(b'n');
    }
    if b == 0x0C {
        return Some(b'f');
    }
    if b == 0x0D {
        return Some(b'r');
    }
    if b == 0x27 {
        return Some(0x27);
    }
    if b == 0x5C {
        return Some(0x5C);
    }
    None
}

// A small hexadecimal digit.
pub fn hex_digit(d: u8) -> u8
    requires { d < 16 }
    ensures { result ≡ hex_digit d }
{
    if d < 10 {
        return 0x30 + d;
    }
    0x57 + d
}

// How many bytes a byte of a key has in a path.
fn byte_length(b: u8) -> usize
    ensures { result ≡ length (escaped b) }
{
    if letter_of(b).is_some() {
        return 2;
    }
    if 0x20 <= b {
        return 1;
    }
    6
}

// How many bytes a key has in a path, without its quotes.
pub fn key_length(key: &[u8]) -> usize
    requires { length key.now ≤ max_text }
    ensures { result ≡ length (escaped_all key.now) }
{
    let mut size = 0;
    for &byte in key {
        size += byte_length(byte);
    }
    size
}

// How many digits an index has.
pub fn digit_count(index: usize) -> usize
    requires { index < max_nodes }
    ensures { result ≡ length (written index) }
{
    // A loop over m: it goes through the digits, which no range counts.
    let mut count = 1;
    let mut m = index;
    while 10 <= m {
        count += 1;
        m /= 10;
    }
    count
}
