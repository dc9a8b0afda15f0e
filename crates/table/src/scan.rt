// The pass over the nodes of a table: each node is held against the rules, and a cursor that only moves forward finds its parent.
ghost use Rattle.std.specs.Prelude.{◌≡◌, ◌<◌, ◌≤◌, ◌+◌, false, IfOk};
ghost use Rattle.definition.specs.Limits.{max_nodes};
ghost use Rattle.definition.specs.Tables.{node_count, first_child, kind_at, kind_map};
ghost use Rattle.table_laws.specs.Joined.{least_wrong};
ghost use Rattle.table_laws.specs.Least.{RightBelow};
ghost use Rattle.text.specs.Known.{Known};
ghost use Rattle.table.specs.Words.{HasParent, CursorAt, ParentAt, Moved, Surely, Kept, Before, Begun, PassedBy, RootList, Front};
ghost use Rattle.table.specs.Outcomes.{found};

use crate::records::{KIND_MAP, RECORD};
use crate::{buckets, distinct, records, rules, utf8};
use text::encoding;

pub const MAX_MEMBERS: usize = 1024;

const FEW_NODES: usize = 128;

// Where a chain comes to have so many nodes, all keys of its map are sorted. A chain has so many once, so that keys which are not found to differ are not sorted for each node.
const LONG_CHAIN: usize = 24;

// A node with the range of its children, its kind and its depth, which are read once for all of them. `sure` says that the keys of its members are known to differ.
#[derive(Clone, Copy)]
pub struct Cursor {
    pub parent: usize,
    pub from: usize,
    pub end: usize,
    pub kind: u8,
    pub depth: u8,
    pub sure: bool,
}

// How far the check of a node's children came: to a node before which all nodes are right, with the place where its children must begin. `long` says that it
// stopped there behind a node whose chain came to be long.
#[derive(Clone, Copy)]
pub struct Passed {
    pub node: usize,
    pub first: usize,
    pub long: bool,
}

// Moves a cursor forward to the parent of a node that has one.
fn to_parent(table: &[u8], node: usize, cursor: Cursor) -> Cursor
    requires { HasParent table.now node × CursorAt table.now node cursor }
    ensures parent_at { ParentAt table.now node result }
    ensures moved { Moved node cursor result }
{
    if node < cursor.end {
        return cursor;
    }
    // A loop over parent: it goes on with the cursor's range to the first one behind the node, and a range of numbers knows no such end.
    let mut parent = cursor.parent;
    let mut from = cursor.from;
    let mut end = cursor.end;
    while end <= node {
        parent += 1;
        from = end;
        end += records::child_count(table, parent) as usize;
    }
    let kind = records::kind(table, parent);
    let depth = records::depth(table, parent);
    Cursor {
        parent,
        from,
        end,
        kind,
        depth,
        sure: false,
    }
}

// Where all keys under a cursor are found to differ, the cursor says so.
pub fn surely(table: &[u8], text: &[u8], cursor: Cursor) -> Cursor
    requires { cursor.from ≤ cursor.end }
    ensures { Surely table.now text.now cursor result }
{
    if !distinct::all_differ(table, text, cursor.from, cursor.end) {
        return cursor;
    }
    Cursor {
        sure: true,
        ..cursor
    }
}

// The children of a list from a node on, whose own children must begin at begin. The error is a node that is wrong, before which all are right.
fn items(
    table: &[u8],
    text: &[u8],
    start: usize,
    begin: usize,
    above: Cursor,
    known: u8,
) -> Result<Passed, usize>
    requires begun { Begun table.now text.now start begin above }
    requires fact { kind_at table.now above.parent ≡ kind_map → ⊥ }
    requires known { Known known text.now }
    ensures { PassedBy table.now text.now start above result }
{
    let end = above.end;
    let mut first = begin;
    for node in start..end {
        if !rules::item_right(table, text, node, first, above, known) {
            return Err(node);
        }
        first += records::child_count(table, node) as usize;
    }
    Ok(Passed {
        node: end,
        first,
        long: false,
    })
}

// The members of a map from a node on, up to one whose chain comes to be long.
pub fn members(
    table: &[u8],
    text: &[u8],
    start: usize,
    begin: usize,
    above: Cursor,
    heads: &mut [u16],
    links: &mut [u16],
    known: u8,
) -> Result<Passed, usize>
    requires begun { Begun table.now text.now start begin above }
    requires parent_value { (kind_at table.now above.parent ≡ kind_map) × Kept table.now text.now start above heads.old links.old }
    requires known { Known known text.now }
    ensures passed_by { PassedBy table.now text.now start above result }
    ensures kept { IfOk result (λ passed. Kept table.now text.now passed.node above heads.new links.new) }
{
    let end = above.end;
    let mut first = begin;
    for node in start..end {
        let Some(steps) = rules::member_steps(table, text, node, first, above, heads, links, known)
        else {
            return Err(node);
        };
        first += records::child_count(table, node) as usize;
        if steps == LONG_CHAIN {
            return Ok(Passed {
                node: node + 1,
                first,
                long: true,
            });
        }
    }
    Ok(Passed {
        node: end,
        first,
        long: false,
    })
}

// The children of the node above from a node on.
fn children(
    table: &[u8],
    text: &[u8],
    start: usize,
    begin: usize,
    above: Cursor,
    heads: &mut [u16],
    links: &mut [u16],
    known: u8,
) -> Result<Passed, usize>
    requires begun { Begun table.now text.now start begin above }
    requires kept { Kept table.now text.now start above heads.old links.old }
    requires known { Known known text.now }
    ensures passed_by { PassedBy table.now text.now start above result }
    ensures kept_2 { IfOk result (λ passed. Kept table.now text.now passed.node above heads.new links.new) }
{
    if above.kind == KIND_MAP {
        return members(table, text, start, begin, above, heads, links, known);
    }
    items(table, text, start, begin, above, known)
}

// The node behind the texts that are found to be right from node 1 on, among the children of the root, which is a list, up to their end.
fn root_texts(table: &[u8], text: &[u8], end: usize) -> usize
    requires root_list { RootList table.now × (end ≡ first_child table.now 1) }
    requires known { Known 1 text.now × RightBelow table.now text.now 1 }
    ensures { Front table.now text.now result }
{
    for node in 1..end {
        if !rules::root_text_right(table, text, node) {
            return node;
        }
    }
    end
}

// The node that the pass begins with: 1, or where the root is a list and the text is UTF-8, the one behind the texts in front.
fn front(table: &[u8], text: &[u8], end: usize, kind: u8, known: u8) -> usize
    requires end_value { (end ≡ first_child table.now 1) × (kind ≡ kind_at table.now 0) }
    requires table_nonzero { (0 < node_count table.now) × RightBelow table.now text.now 1 }
    requires known { Known known text.now }
    ensures { Front table.now text.now result }
{
    if known != encoding::KNOWN_UTF8 {
        return 1;
    }
    if kind == KIND_MAP {
        return 1;
    }
    root_texts(table, text, end)
}

// The pass from a node on, whose children must begin at start.
fn rest(
    table: &[u8],
    text: &[u8],
    start: usize,
    root: Cursor,
    heads: &mut [u16],
    links: &mut [u16],
    known: u8,
    from: usize,
) -> Result<(), usize>
    requires start_value { (start ≡ first_child table.now from) × Before table.now text.now from root heads.old links.old }
    requires table_nonzero { (0 < node_count table.now) × (node_count table.now ≤ max_nodes) × RightBelow table.now text.now from }
    requires known { Known known text.now }
    ensures { found result ≡ least_wrong table.now text.now 0 (node_count table.now) }
{
    let count = table.len() / RECORD;
    // A loop over node: each turn passes as many nodes as `children` says.
    let mut cursor = root;
    let mut first = start;
    let mut node = from;
    while node < count {
        if first <= node {
            return Err(node);
        }
        let above = to_parent(table, node, cursor);
        let passed = children(table, text, node, first, above, heads, links, known)?;
        node = passed.node;
        first = passed.first;
        cursor = above;
        if passed.long {
            cursor = surely(table, text, above);
        }
    }
    Ok(())
}

// The same, with room for chains of which none is begun.
fn with_chains(
    table: &[u8],
    text: &[u8],
    start: usize,
    root: Cursor,
    known: u8,
    from: usize,
) -> Result<(), usize>
    requires start_value { (start ≡ first_child table.now 1) × CursorAt table.now 1 root × (root.sure ≡ false) }
    requires table_nonzero { (0 < node_count table.now) × (node_count table.now ≤ max_nodes) × Front table.now text.now from }
    requires known { Known known text.now }
    ensures { found result ≡ least_wrong table.now text.now 0 (node_count table.now) }
{
    let mut heads = [0u16; buckets::BUCKETS];
    let mut links = [0u16; MAX_MEMBERS];
    rest(
        table, text, start, root, &mut heads, &mut links, known, from,
    )
}

// The same for a table of few nodes, whose chains need less room: all of it is cleared first.
fn with_few(
    table: &[u8],
    text: &[u8],
    start: usize,
    root: Cursor,
    known: u8,
    from: usize,
) -> Result<(), usize>
    requires start_value { (start ≡ first_child table.now 1) × CursorAt table.now 1 root × (root.sure ≡ false) }
    requires table_nonzero { (0 < node_count table.now) × (node_count table.now ≤ max_nodes) × Front table.now text.now from }
    requires table_bound { node_count table.now ≤ 128 }
    requires known { Known known text.now }
    ensures { found result ≡ least_wrong table.now text.now 0 (node_count table.now) }
{
    let mut heads = [0u16; buckets::FEW_BUCKETS];
    let mut links = [0u16; FEW_NODES];
    rest(
        table, text, start, root, &mut heads, &mut links, known, from,
    )
}

// The whole pass.
pub fn scan(table: &[u8], text: &[u8]) -> Result<(), usize>
    requires { (0 < node_count table.now) × (node_count table.now ≤ max_nodes) }
    ensures { found result ≡ least_wrong table.now text.now 0 (node_count table.now) }
{
    if !rules::root_right(table, text) {
        return Err(0);
    }
    let end = 1 + records::child_count(table, 0) as usize;
    let kind = records::kind(table, 0);
    let depth = records::depth(table, 0);
    let root = Cursor {
        parent: 0,
        from: 1,
        end,
        kind,
        depth,
        sure: false,
    };
    let known = encoding::short_known(text, table.len());
    let from = front(table, text, end, kind, known);
    if table.len() / RECORD <= FEW_NODES {
        return with_few(table, text, end, root, known, from);
    }
    if known == encoding::KNOWN_UTF8 {
        return utf8::with_chains(table, text, end, root, from);
    }
    with_chains(table, text, end, root, known, from)
}
