// The member of a map by its name.
ghost use Rattle.std.specs.Prelude.{◌≡◌, true, ◌+◌, ◌≤◌, ◌<◌, length};
ghost use Rattle.definition.specs.Bytes.{part, same_bytes};
ghost use Rattle.definition.specs.Tables.{node_count, key_start, key_length, key_bytes, low_word, child_count};
ghost use Rattle.table_laws.specs.Accepted.{Accepted};
ghost use Rattle.eval_values.specs.Members.{Members, Looked};
ghost use Rattle.eval_values.specs.Near.{DoneNear};
ghost use Rattle.eval_values.specs.Alike.{AskMember};

use table::records;
use table::records::KIND_MAP;
use text::parts;

// Whether the name of a node is the `n` bytes of s from `a` on.
pub fn is_named(table: &[u8], text: &[u8], node: usize, s: &[u8], a: usize, n: usize) -> bool
    requires node_bound { (node < node_count table.now) × (key_start table.now node + key_length table.now node ≤ length text.now) }
    requires n_in_bounds { a + n ≤ length s.now }
    ensures { result ≡ same_bytes (key_bytes table.now text.now node) (part s.now a n) }
{
    let start = records::key_start(table, node) as usize;
    let size = records::key_length(table, node) as usize;
    parts::same_part(text, start, size, s, a, n)
}

// Among `count` members from `first` on, the one whose name is the `n` bytes of s from `a` on.
pub fn get_by_key(
    table: &[u8],
    text: &[u8],
    first: usize,
    count: usize,
    s: &[u8],
    a: usize,
    n: usize,
) -> Option<usize>
    requires members { Members table.now text.now first count }
    requires n_in_bounds { a + n ≤ length s.now }
    ensures { Looked table.now text.now first count (part s.now a n) result }
{
    for i in 0..count {
        let node = first + i;
        if is_named(table, text, node, s, a, n) {
            return Some(node);
        }
    }
    None
}

// Whether a name has four to eight bytes.
pub fn is_short(n: usize) -> bool
    ensures { result ≡ true → (4 ≤ n) × (n ≤ 8) }
{
    matches!(n, 4..=8)
}

// As get_by_key, for a name of four to eight bytes, whose ends are read once.
pub fn find_short(
    table: &[u8],
    text: &[u8],
    first: usize,
    count: usize,
    s: &[u8],
    a: usize,
    n: usize,
) -> Option<usize>
    requires members { Members table.now text.now first count }
    requires n_in_bounds { a + n ≤ length s.now }
    requires le_n { (4 ≤ n) × (n ≤ 8) }
    ensures { Looked table.now text.now first count (part s.now a n) result }
{
    let ends = parts::part_ends(s, a, n);
    let low = ends.low;
    let high = ends.high;
    for i in 0..count {
        let node = first + i;
        let start = records::key_start(table, node) as usize;
        let size = records::key_length(table, node) as usize;
        if parts::part_has_ends(text, start, size, n, low, high) {
            return Some(node);
        }
    }
    None
}

// Whether a node is a map with more than `near` members, and the n bytes of s from a on are the name of its member at place `near`. Members of one map have different names, so that this is the one
// that a search finds.
pub fn is_near(
    table: &[u8],
    text: &[u8],
    node: usize,
    near: usize,
    s: &[u8],
    a: usize,
    n: usize,
) -> bool
    requires accepted { Accepted table.now text.now × (node < node_count table.now) }
    requires n_in_bounds { a + n ≤ length s.now }
    ensures { DoneNear table.now text.now node near (part s.now a n) result }
{
    if records::kind(table, node) != KIND_MAP {
        return false;
    }
    if records::children(table, node) as usize <= near {
        return false;
    }
    let member = records::first_child(table, node) as usize + near;
    is_named(table, text, member, s, a, n)
}

// Whether the member at place `near` of `count` from `first` on has the name that is the n bytes of the text from a on.
fn is_at(
    table: &[u8],
    text: &[u8],
    first: usize,
    count: usize,
    near: usize,
    a: usize,
    n: usize,
) -> bool
    requires members { Members table.now text.now first count }
    requires n_in_bounds { a + n ≤ length text.now }
    ensures { result ≡ true → (near < count) × (true ≡ same_bytes (key_bytes table.now text.now (first + near)) (part text.now a n)) }
{
    if count <= near {
        return false;
    }
    is_named(table, text, first + near, text, a, n)
}

// The member of the map j, whose `count` members begin at `first`, that has the name of the node m. The one at place `near` is looked at first: members of one map have different names, so
// that one with the name is the one that a search finds.
pub fn partner(
    table: &[u8],
    text: &[u8],
    m: usize,
    j: usize,
    first: usize,
    count: usize,
    near: usize,
) -> Option<usize>
    requires accepted { Accepted table.now text.now × AskMember table.now text.now m j }
    requires first_value { (first ≡ low_word table.now j) × (count ≡ child_count table.now j) }
    ensures { Looked table.now text.now first count (key_bytes table.now text.now m) result }
{
    let start = records::key_start(table, m) as usize;
    let size = records::key_length(table, m) as usize;
    if is_at(table, text, first, count, near, start, size) {
        return Some(first + near);
    }
    if is_short(size) {
        return find_short(table, text, first, count, text, start, size);
    }
    get_by_key(table, text, first, count, text, start, size)
}
