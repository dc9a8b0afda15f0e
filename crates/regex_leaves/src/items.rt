// The items of a class: a character, or a range of two.
//
// An item that is read comes as the place behind it and its range, lowest and highest; None says that none stands there.
ghost use Rattle.std.specs.Prelude.{◌+◌, ◌≤◌, length, drop};
ghost use Rattle.regex_definition.specs.Read.{read_end, read_item, read_first};
ghost use Rattle.regex_leaves.specs.Reads.{ReadItem};

use crate::chars::{class_char, is};

// Behind the first character a of an item.
pub fn item_end(s: &[u32], at: usize, a: u32) -> Option<(usize, u32, u32)>
    requires { at ≤ length s.now }
    ensures { ReadItem (read_end a (drop at s.now)) s.now at result }
{
    if !is(s, at, 0x2D) || is(s, at + 1, 0x5D) {
        return Some((at, a, a));
    }
    let (b, c) = class_char(s, at + 1)?;
    Some((b, a, c))
}

// An item.
pub fn one_item(s: &[u32], at: usize) -> Option<(usize, u32, u32)>
    ensures { ReadItem (read_item (drop at s.now)) s.now (at + 1) result }
{
    let (b, c) = class_char(s, at)?;
    item_end(s, b, c)
}

// The first of a class: an item, or "-".
pub fn first(s: &[u32], at: usize) -> Option<(usize, u32, u32)>
    ensures { ReadItem (read_first (drop at s.now)) s.now (at + 1) result }
{
    if is(s, at, 0x2D) {
        return Some((at + 1, 0x2D, 0x2D));
    }
    one_item(s, at)
}
