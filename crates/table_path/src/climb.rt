// From a node up to the root: the length of its path, and the path, a step at a time.
ghost use Rattle.std.specs.Prelude.{◌≡◌, ◌++◌, ◌≤◌, length, drop};
ghost use Rattle.definition.specs.Paths.{path_of};
ghost use Rattle.table_path.specs.Words.{Put, Room, NodeOf, ChildOf, step_of};

use crate::{escapes, writing};
use table::records;
use table::records::KIND_MAP;

// How many bytes the last step to a node behind the root has: the key in quotes, or the index, in brackets.
fn step_length(table: &[u8], text: &[u8], node: usize) -> usize
    requires { ChildOf table.now text.now node }
    ensures { result ≡ length (step_of table.now text.now node) }
{
    let above = records::parent(table, node) as usize;
    if records::kind(table, above) == KIND_MAP {
        let start = records::key_start(table, node) as usize;
        let stop = start + records::key_length(table, node) as usize;
        return 4 + escapes::key_length(&text[start..stop]);
    }
    let first = records::first_child(table, above) as usize;
    2 + escapes::digit_count(node - first)
}

// The last step to a node behind the root.
fn put_step(table: &[u8], text: &[u8], node: usize, room: &mut [u8], end: usize) -> usize
    requires child_of { ChildOf table.now text.now node }
    requires room { Room room.old end (length (step_of table.now text.now node)) }
    ensures { Put room.old end (step_of table.now text.now node) room.new result }
{
    let above = records::parent(table, node) as usize;
    if records::kind(table, above) == KIND_MAP {
        let start = records::key_start(table, node) as usize;
        let stop = start + records::key_length(table, node) as usize;
        let quote = writing::put_two(room, end, 0x27, b']');
        let key = writing::put_key(room, quote, &text[start..stop]);
        return writing::put_two(room, key, b'[', 0x27);
    }
    let first = records::first_child(table, above) as usize;
    let bracket = writing::put_byte(room, end, b']');
    let index = writing::put_index(room, bracket, node - first);
    writing::put_byte(room, index, b'[')
}

// How many bytes the path of a node has.
pub fn path_length(table: &[u8], text: &[u8], node: usize) -> usize
    requires { NodeOf table.now text.now node }
    ensures { result ≡ length (path_of table.now text.now node) }
{
    // A loop over n: it climbs from parent to parent, and an iterator of its own would be longer.
    let mut size = 1;
    let mut n = node;
    while 0 < n {
        size += step_length(table, text, n);
        n = records::parent(table, n) as usize;
    }
    size
}

// The path of a node, which has so many bytes, into the first bytes of the room.
pub fn write_path(table: &[u8], text: &[u8], node: usize, room: &mut [u8], size: usize)
    requires node_of { NodeOf table.now text.now node }
    requires size_value { (size ≡ length (path_of table.now text.now node)) × (size ≤ length room.old) }
    ensures { room.new ≡ path_of table.now text.now node ++ drop size room.old }
{
    // A loop over n, as in `path_length`.
    let mut end = size;
    let mut n = node;
    while 0 < n {
        end = put_step(table, text, n, room, end);
        n = records::parent(table, n) as usize;
    }
    room[0] = b'$';
}
