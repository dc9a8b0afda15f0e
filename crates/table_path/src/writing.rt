// Bytes of a path, each function before the place `end` of the room, which is where the bytes begin that are written already. Each answers where its own begin.
ghost use Rattle.std.specs.Prelude.{[], ◌∷◌, ◌<◌, ◌/◌, ◌%◌, length};
ghost use Rattle.definition.specs.Paths.{hex_digit, escaped, escaped_all, written};
ghost use Rattle.table_path.specs.Words.{Put, Room};

use crate::escapes;

// One byte.
pub fn put_byte(room: &mut [u8], end: usize, b: u8) -> usize
    requires { Room room.old end 1 }
    ensures { Put room.old end (b ∷ []) room.new result }
{
    let at = end - 1;
    room[at] = b;
    at
}

// Two bytes.
pub fn put_two(room: &mut [u8], end: usize, a: u8, b: u8) -> usize
    requires { Room room.old end 2 }
    ensures { Put room.old end (a ∷ b ∷ []) room.new result }
{
    let at = put_byte(room, end, b);
    put_byte(room, at, a)
}

// A control character by its four digits.
fn put_control(room: &mut [u8], end: usize, b: u8) -> usize
    requires b_bound { b < 0x20 }
    requires room { Room room.old end 6 }
    ensures { Put room.old end (0x5C ∷ 0x75 ∷ 0x30 ∷ 0x30 ∷ hex_digit (b / 16) ∷ hex_digit (b % 16) ∷ []) room.new result }
{
    let high = escapes::hex_digit(b / 16);
    let low = escapes::hex_digit(b % 16);
    let digits = put_two(room, end, high, low);
    let zeros = put_two(room, digits, b'0', b'0');
    put_two(room, zeros, 0x5C, b'u')
}

// A byte of a key: by a letter, as it is, or by its digits.
fn put_escaped(room: &mut [u8], end: usize, b: u8) -> usize
    requires { Room room.old end (length (escaped b)) }
    ensures { Put room.old end (escaped b) room.new result }
{
    if let Some(letter) = escapes::letter_of(b) {
        return put_two(room, end, 0x5C, letter);
    }
    if 0x20 <= b {
        return put_byte(room, end, b);
    }
    put_control(room, end, b)
}

// A key, without its quotes.
pub fn put_key(room: &mut [u8], end: usize, key: &[u8]) -> usize
    requires { Room room.old end (length (escaped_all key.now)) }
    ensures { Put room.old end (escaped_all key.now) room.new result }
{
    let mut at = end;
    for &byte in key.iter().rev() {
        at = put_escaped(room, at, byte);
    }
    at
}

// An index in decimal digits.
pub fn put_index(room: &mut [u8], end: usize, index: usize) -> usize
    requires { Room room.old end (length (written index)) }
    ensures { Put room.old end (written index) room.new result }
{
    // A loop over m: it goes through the digits, which no range counts.
    let mut at = end;
    let mut m = index;
    while 10 <= m {
        at = put_byte(room, at, (0x30 + m % 10) as u8);
        m /= 10;
    }
    put_byte(room, at, (0x30 + m) as u8)
}
