// The joined rule for a node, part by part. Each function answers whether a rule of the definition is kept, and asks that its nodes are nodes of the table.
ghost use Rattle.std.specs.Prelude.{◌≡◌, true, ◌<◌, ◌+◌, is_some, OnSome};
ghost use Rattle.definition.specs.Tables.{node_count, kind_at, kind_text, kind_list, kind_map, high_word, child_count, first_child, good_part, head_right, is_finite, range_right, no_key};
ghost use Rattle.table_laws.specs.Joined.{payload_right, member_right, node_right};
ghost use Rattle.text.specs.Known.{Known};
ghost use Rattle.table.specs.Words.{Under, Child, MembersBefore, Kept, RootList, Listed, Bounded, NextBy};

use crate::records::{KIND_FLOAT, KIND_INTEGER, KIND_LIST, KIND_MAP, KIND_TEXT, RECORD};
use crate::scan::Cursor;
use crate::{keys, records};
use text::encoding;

pub const MAX_DEPTH: u8 = 63;

// The kinds are the numbers below this one, and the depth stands in bytes 0-3 as so many.
const KINDS: usize = 8;

const DEPTH_UNIT: usize = 256;

// Bytes 0-3 of a text under the root.
const TEXT_UNDER_ROOT: usize = 261;

pub const MAX_MEMBERS: u32 = 1024;

// A key in a map of so many members is compared with each earlier one.
const FEW_MEMBERS: usize = 8;

const FLOAT_SIGN: u64 = 9223372036854775808;

const FLOAT_UNIT: u64 = 4503599627370496;

const FLOAT_ONES: u64 = 2047;

// Whether a part of the text lies inside it and is UTF-8. Where the text is known to be ASCII, the part is not looked at; where it is known to be UTF-8, the part's two ends are.
pub fn good_part(text: &[u8], at: u32, size: u32, known: u8) -> bool
    requires { Known known text.now }
    ensures { result ≡ good_part text.now at size }
{
    let start = at as usize;
    let end = start + size as usize;
    if text.len() < end {
        return false;
    }
    if known == encoding::KNOWN_ASCII {
        return true;
    }
    if known == encoding::KNOWN_UTF8 {
        return encoding::part_between(text, start, end);
    }
    encoding::is_utf8(&text[start..end])
}

// The kind, the depth and the bytes that are to be zero.
pub fn head_right(table: &[u8], node: usize) -> bool
    requires { node < node_count table.now }
    ensures { result ≡ head_right table.now node }
{
    if KIND_MAP < records::kind(table, node) {
        return false;
    }
    if MAX_DEPTH < records::depth(table, node) {
        return false;
    }
    if records::zeros_2(table, node) != 0 {
        return false;
    }
    true
}

// Whether the bits are those of a finite float.
pub fn finite(bits: u64) -> bool
    ensures { result ≡ is_finite bits }
{
    bits % FLOAT_SIGN / FLOAT_UNIT < FLOAT_ONES
}

// The range of a container's children; first is where it must begin.
pub fn range_right(table: &[u8], node: usize, first: usize) -> bool
    requires { (node < node_count table.now) × (first ≡ first_child table.now node) }
    ensures { result ≡ range_right table.now node }
{
    let low = records::low_word(table, node) as usize;
    let high = records::high_word(table, node) as usize;
    if high == 0 {
        return low == 0;
    }
    if low != first {
        return false;
    }
    low + high <= table.len() / RECORD
}

// Bytes 16-23, as the kind asks; first is where the range of a container's children must begin.
pub fn payload_right(table: &[u8], text: &[u8], node: usize, first: usize, known: u8) -> bool
    requires node_bound { (node < node_count table.now) × (first ≡ first_child table.now node) }
    requires known { Known known text.now }
    ensures { result ≡ payload_right table.now text.now node }
{
    let k = records::kind(table, node);
    if k < KIND_INTEGER {
        return records::payload(table, node) == 0;
    }
    if k == KIND_INTEGER {
        return true;
    }
    if k == KIND_FLOAT {
        return finite(records::payload(table, node));
    }
    if k == KIND_TEXT {
        return good_part(
            text,
            records::low_word(table, node),
            records::high_word(table, node),
            known,
        );
    }
    if k == KIND_LIST {
        return range_right(table, node, first);
    }
    if MAX_MEMBERS < records::high_word(table, node) {
        return false;
    }
    range_right(table, node, first)
}

// Whether the key's start and length are 0.
pub fn no_key(table: &[u8], node: usize) -> bool
    requires { node < node_count table.now }
    ensures { result ≡ no_key table.now node }
{
    let start = records::key_start(table, node) as usize;
    let size = records::key_length(table, node) as usize;
    start + size == 0
}

// Whether a node has what every child of the node above has: a kind, the depth, the bytes that are to be zero, and its parent's number.
fn stands_under(table: &[u8], node: usize, above: Cursor) -> bool
    requires { Child table.now node above }
    ensures under { result ≡ true → Under table.now above.parent node }
    ensures value { Under table.now above.parent node → result ≡ true }
{
    if MAX_DEPTH <= above.depth {
        return false;
    }
    let depth = above.depth as usize + 1;
    if records::head(table, node) / KINDS != depth * DEPTH_UNIT / KINDS {
        return false;
    }
    records::parent(table, node) as usize == above.parent
}

// All that is asked of a child of the list above; first is where the range of a container's children must begin.
pub fn item_right(
    table: &[u8],
    text: &[u8],
    node: usize,
    first: usize,
    above: Cursor,
    known: u8,
) -> bool
    requires child { Child table.now node above × (first ≡ first_child table.now node) }
    requires fact { kind_at table.now above.parent ≡ kind_map → ⊥ }
    requires known { Known known text.now }
    ensures { result ≡ node_right table.now text.now node }
{
    if !stands_under(table, node, above) {
        return false;
    }
    if !no_key(table, node) {
        return false;
    }
    payload_right(table, text, node, first, known)
}

// Bytes 16-23 of a node that is neither a list nor a map, where the text is known to be UTF-8.
fn value_right(table: &[u8], text: &[u8], node: usize) -> bool
    requires node_bound { (node < node_count table.now) × (kind_at table.now node < kind_list) }
    requires known { Known 1 text.now }
    ensures { result ≡ payload_right table.now text.now node }
{
    let k = records::kind(table, node);
    if k < KIND_INTEGER {
        return records::payload(table, node) == 0;
    }
    if k < KIND_FLOAT {
        return true;
    }
    if k < KIND_TEXT {
        return finite(records::payload(table, node));
    }
    good_part(
        text,
        records::low_word(table, node),
        records::high_word(table, node),
        encoding::KNOWN_UTF8,
    )
}

// Whether a list or a map has no more children than it may have.
fn few_enough(table: &[u8], node: usize) -> bool
    requires { (node < node_count table.now) × (kind_text < kind_at table.now node) }
    ensures { Bounded table.now node result }
{
    if KIND_LIST < records::kind(table, node) {
        return records::high_word(table, node) <= MAX_MEMBERS;
    }
    true
}

// Where the range of the next node's children must begin, if that of this container is right.
fn range_next(table: &[u8], node: usize, first: usize) -> Option<usize>
    requires node_bound { (node < node_count table.now) × (first ≡ first_child table.now node) }
    requires node_value { child_count table.now node ≡ high_word table.now node }
    ensures { NextBy table.now node (range_right table.now node) result }
{
    let low = records::low_word(table, node) as usize;
    let high = records::high_word(table, node) as usize;
    if high == 0 {
        if low != 0 {
            return None;
        }
        return Some(first);
    }
    if low != first {
        return None;
    }
    let next = low + high;
    if table.len() / RECORD < next {
        return None;
    }
    Some(next)
}

// Where the range of the next node's children must begin, if a child of the list above is right, where the text is known to be UTF-8. Lists and maps are told from
// the others first.
pub fn item_next(
    table: &[u8],
    text: &[u8],
    node: usize,
    first: usize,
    above: Cursor,
) -> Option<usize>
    requires child { Child table.now node above × (first ≡ first_child table.now node) }
    requires fact { kind_at table.now above.parent ≡ kind_map → ⊥ }
    requires known { Known 1 text.now }
    ensures { NextBy table.now node (node_right table.now text.now node) result }
{
    if !stands_under(table, node, above) {
        return None;
    }
    if !no_key(table, node) {
        return None;
    }
    if KIND_TEXT < records::kind(table, node) {
        if !few_enough(table, node) {
            return None;
        }
        return range_next(table, node, first);
    }
    if !value_right(table, text, node) {
        return None;
    }
    Some(first)
}

// Whether a child of a list is found to be a right text, where the text is known to be UTF-8.
pub fn text_item_right(table: &[u8], text: &[u8], node: usize, parent: usize, depth: u8) -> bool
    requires { Listed table.now parent depth node × Known 1 text.now }
    ensures node_value { result ≡ true → node_right table.now text.now node ≡ true }
    ensures node_value_2 { result ≡ true → child_count table.now node ≡ 0 }
{
    let head = (depth as usize + 1) * DEPTH_UNIT + KIND_TEXT as usize;
    if records::head(table, node) != head {
        return false;
    }
    if !no_key(table, node) {
        return false;
    }
    if records::parent(table, node) as usize != parent {
        return false;
    }
    good_part(
        text,
        records::low_word(table, node),
        records::high_word(table, node),
        encoding::KNOWN_UTF8,
    )
}

// One more than the nodes on the chain that the key of a member of the map above was compared with, if the key is right. heads and links hold the chains of the
// members before it, if there are many and their keys are not known to differ.
fn member_right(
    table: &[u8],
    text: &[u8],
    node: usize,
    above: Cursor,
    heads: &mut [u16],
    links: &mut [u16],
    known: u8,
) -> Option<usize>
    requires child { Child table.now node above }
    requires parent_value { (kind_at table.now above.parent ≡ kind_map) × MembersBefore table.now text.now above.from node }
    requires kept { Kept table.now text.now node above heads.old links.old }
    requires known { Known known text.now }
    ensures result_value { is_some result ≡ member_right table.now text.now above.parent node }
    ensures kept_2 { OnSome result (Kept table.now text.now (node + 1) above heads.new links.new) }
{
    if !good_part(
        text,
        records::key_start(table, node),
        records::key_length(table, node),
        known,
    ) {
        return None;
    }
    let from = above.from;
    if above.end - from <= FEW_MEMBERS {
        return keys::key_differs(table, text, node, from).then_some(1);
    }
    if above.sure {
        return Some(1);
    }
    keys::joins_chain(table, text, node, from, heads, links)
}

// All that is asked of a member of the map above. The answer is as above, and first as for a child of a list.
pub fn member_steps(
    table: &[u8],
    text: &[u8],
    node: usize,
    first: usize,
    above: Cursor,
    heads: &mut [u16],
    links: &mut [u16],
    known: u8,
) -> Option<usize>
    requires child { Child table.now node above × (first ≡ first_child table.now node) }
    requires parent_value { (kind_at table.now above.parent ≡ kind_map) × MembersBefore table.now text.now above.from node }
    requires kept { Kept table.now text.now node above heads.old links.old }
    requires known { Known known text.now }
    ensures result_value { is_some result ≡ node_right table.now text.now node }
    ensures kept_2 { OnSome result (Kept table.now text.now (node + 1) above heads.new links.new) }
{
    if !stands_under(table, node, above) {
        return None;
    }
    if !payload_right(table, text, node, first, known) {
        return None;
    }
    member_right(table, text, node, above, heads, links, known)
}

// All that is asked of the root.
pub fn root_right(table: &[u8], text: &[u8]) -> bool
    requires { 0 < node_count table.now }
    ensures { result ≡ node_right table.now text.now 0 }
{
    if !head_right(table, 0) {
        return false;
    }
    if !payload_right(table, text, 0, 1, encoding::NOT_KNOWN) {
        return false;
    }
    if records::parent(table, 0) != 0 {
        return false;
    }
    if records::depth(table, 0) != 0 {
        return false;
    }
    no_key(table, 0)
}

// Whether a child of the root, a list, is found to be a right text, where the text is known to be UTF-8.
pub fn root_text_right(table: &[u8], text: &[u8], node: usize) -> bool
    requires root_list { RootList table.now × (0 < node) × (node < first_child table.now 1) }
    requires known { Known 1 text.now }
    ensures node_value { result ≡ true → node_right table.now text.now node ≡ true }
    ensures node_value_2 { result ≡ true → child_count table.now node ≡ 0 }
{
    if records::head(table, node) != TEXT_UNDER_ROOT {
        return false;
    }
    let start = records::key_start(table, node) as usize;
    let size = records::key_length(table, node) as usize;
    let parent = records::parent(table, node) as usize;
    if start + size + parent != 0 {
        return false;
    }
    good_part(
        text,
        records::low_word(table, node),
        records::high_word(table, node),
        encoding::KNOWN_UTF8,
    )
}
