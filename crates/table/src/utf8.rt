// The pass over the nodes of a large table whose text is known to be UTF-8 and not ASCII. It is the pass of scan, and passes the texts of a list in a loop of their own.
ghost use Rattle.std.specs.Prelude.{◌≡◌, ◌<◌, ◌≤◌, false, IfOk};
ghost use Rattle.definition.specs.Limits.{max_nodes};
ghost use Rattle.definition.specs.Tables.{node_count, child_count, first_child, kind_at, kind_map};
ghost use Rattle.table_laws.specs.Joined.{least_wrong};
ghost use Rattle.table_laws.specs.Least.{RightBelow};
ghost use Rattle.text.specs.Known.{Known};
ghost use Rattle.table.specs.Words.{HasParent, CursorAt, ParentAt, Moved, Kept, Before, Begun, PassedBy, Front, ListedFrom, Behind};
ghost use Rattle.table.specs.Outcomes.{found};

use crate::records::{KIND_LIST, KIND_MAP, RECORD};
use crate::scan::{Cursor, Passed};
use crate::{buckets, records, rules, scan};
use text::encoding;

// In a list of fewer children texts are not looked for.
const SOME: usize = 2;

// In a list of so many children texts are passed by a call.
const MANY: usize = 32;

// How many children a node has. Bytes 20-23 are read whatever its kind is, so that the loop of `to_parent` has no branch for the kind.
fn count(table: &[u8], node: usize) -> u32
    requires { node < node_count table.now }
    ensures { result ≡ child_count table.now node }
{
    let k = records::kind(table, node);
    let high = records::high_word(table, node);
    if k / 2 == KIND_LIST / 2 {
        return high;
    }
    0
}

// Moves a cursor forward to the parent of a node that has one.
fn to_parent(table: &[u8], node: usize, cursor: Cursor) -> Cursor
    requires { HasParent table.now node × CursorAt table.now node cursor }
    ensures parent_at { ParentAt table.now node result }
    ensures moved { Moved node cursor result }
{
    if node < cursor.end {
        return cursor;
    }
    // A loop over parent, as in `scan::to_parent`.
    let mut parent = cursor.parent;
    let mut from = cursor.from;
    let mut end = cursor.end;
    while end <= node {
        parent += 1;
        from = end;
        end += count(table, parent) as usize;
    }
    let kind = records::kind(table, parent);
    let depth = records::depth(table, parent);
    Cursor {
        parent,
        from,
        end,
        kind,
        depth,
        sure: false,
    }
}

// The node behind the texts that are found to be right from a node on.
fn texts(table: &[u8], text: &[u8], start: usize, end: usize, parent: usize, depth: u8) -> usize
    requires { ListedFrom table.now text.now parent depth start end × Known 1 text.now }
    ensures { Behind table.now text.now start end result }
{
    for node in start..end {
        if !rules::text_item_right(table, text, node, parent, depth) {
            return node;
        }
    }
    end
}

// The same as a call, with registers of its own (docs/DECISIONS.md, 311).
fn many_texts(
    table: &[u8],
    text: &[u8],
    start: usize,
    end: usize,
    parent: usize,
    depth: u8,
) -> usize
    requires { ListedFrom table.now text.now parent depth start end × Known 1 text.now }
    ensures { Behind table.now text.now start end result }
{
    texts(table, text, start, end, parent, depth)
}

// The node behind the texts at the front of the list above, from a node on.
fn front(table: &[u8], text: &[u8], start: usize, begin: usize, above: Cursor) -> usize
    requires begun { Begun table.now text.now start begin above }
    requires fact { kind_at table.now above.parent ≡ kind_map → ⊥ }
    requires known { Known 1 text.now }
    ensures { Behind table.now text.now start above.end result }
{
    let end = above.end;
    let size = end - start;
    if size < SOME {
        return start;
    }
    if rules::MAX_DEPTH <= above.depth {
        return start;
    }
    if size < MANY {
        return texts(table, text, start, end, above.parent, above.depth);
    }
    many_texts(table, text, start, end, above.parent, above.depth)
}

// The children of a list from a node on, whose own children must begin at begin.
fn items(
    table: &[u8],
    text: &[u8],
    start: usize,
    begin: usize,
    above: Cursor,
) -> Result<Passed, usize>
    requires begun { Begun table.now text.now start begin above }
    requires fact { kind_at table.now above.parent ≡ kind_map → ⊥ }
    requires known { Known 1 text.now }
    ensures { PassedBy table.now text.now start above result }
{
    let end = above.end;
    let mut first = begin;
    let behind = front(table, text, start, begin, above);
    for node in behind..end {
        let Some(next) = rules::item_next(table, text, node, first, above) else {
            return Err(node);
        };
        first = next;
    }
    Ok(Passed {
        node: end,
        first,
        long: false,
    })
}

// The children of the node above from a node on.
fn children(
    table: &[u8],
    text: &[u8],
    start: usize,
    begin: usize,
    above: Cursor,
    heads: &mut [u16],
    links: &mut [u16],
) -> Result<Passed, usize>
    requires begun { Begun table.now text.now start begin above }
    requires kept { Kept table.now text.now start above heads.old links.old }
    requires known { Known 1 text.now }
    ensures passed_by { PassedBy table.now text.now start above result }
    ensures kept_2 { IfOk result (λ passed. Kept table.now text.now passed.node above heads.new links.new) }
{
    if above.kind == KIND_MAP {
        return scan::members(
            table,
            text,
            start,
            begin,
            above,
            heads,
            links,
            encoding::KNOWN_UTF8,
        );
    }
    items(table, text, start, begin, above)
}

// The pass from a node on, whose children must begin at start.
fn rest(
    table: &[u8],
    text: &[u8],
    start: usize,
    root: Cursor,
    heads: &mut [u16],
    links: &mut [u16],
    from: usize,
) -> Result<(), usize>
    requires start_value { (start ≡ first_child table.now from) × Before table.now text.now from root heads.old links.old }
    requires table_nonzero { (0 < node_count table.now) × (node_count table.now ≤ max_nodes) × RightBelow table.now text.now from }
    requires known { Known 1 text.now }
    ensures { found result ≡ least_wrong table.now text.now 0 (node_count table.now) }
{
    let count = table.len() / RECORD;
    // A loop over node: each turn passes as many nodes as `children` says.
    let mut cursor = root;
    let mut first = start;
    let mut node = from;
    while node < count {
        if first <= node {
            return Err(node);
        }
        let above = to_parent(table, node, cursor);
        let passed = children(table, text, node, first, above, heads, links)?;
        node = passed.node;
        first = passed.first;
        cursor = above;
        if passed.long {
            cursor = scan::surely(table, text, above);
        }
    }
    Ok(())
}

// The same, with room for chains of which none is begun.
pub fn with_chains(
    table: &[u8],
    text: &[u8],
    start: usize,
    root: Cursor,
    from: usize,
) -> Result<(), usize>
    requires start_value { (start ≡ first_child table.now 1) × CursorAt table.now 1 root × (root.sure ≡ false) }
    requires table_nonzero { (0 < node_count table.now) × (node_count table.now ≤ max_nodes) × Front table.now text.now from }
    requires known { Known 1 text.now }
    ensures { found result ≡ least_wrong table.now text.now 0 (node_count table.now) }
{
    let mut heads = [0u16; buckets::BUCKETS];
    let mut links = [0u16; scan::MAX_MEMBERS];
    rest(table, text, start, root, &mut heads, &mut links, from)
}
