// The check of the records alone: the rules that read no text, and the pass over all nodes.
//
// A record names the node's parent, and the range that a right record writes is the range of its children. So no cursor is kept: each node is held against the
// range that the record of its parent writes.
ghost use Rattle.std.specs.Prelude.{◌≡◌, true, false, ◌<◌, ◌≤◌};
ghost use Rattle.definition.specs.Limits.{max_nodes};
ghost use Rattle.definition.specs.Tables.{node_count, first_child, payload_record, stands_record, record_right, least_record};
ghost use Rattle.table_laws.specs.Parents.{InRange};
ghost use Rattle.table_laws.specs.Records.{RecordsBelow};
ghost use Rattle.table.specs.Outcomes.{found};

use crate::records::{KIND_FLOAT, KIND_INTEGER, KIND_LIST, KIND_MAP, RECORD};
use crate::rules::MAX_MEMBERS;
use crate::{records, rules};

// Bytes 16-23, as the kind asks, without the text that they name; first is where the range of a container's children must begin.
fn payload_right(table: &[u8], node: usize, first: usize) -> bool
    requires { (node < node_count table.now) × (first ≡ first_child table.now node) }
    ensures { result ≡ payload_record table.now node }
{
    let k = records::kind(table, node);
    if k < KIND_INTEGER {
        return records::payload(table, node) == 0;
    }
    if k == KIND_FLOAT {
        return rules::finite(records::payload(table, node));
    }
    if k < KIND_LIST {
        return true;
    }
    if k == KIND_LIST {
        return rules::range_right(table, node, first);
    }
    if MAX_MEMBERS < records::high_word(table, node) {
        return false;
    }
    rules::range_right(table, node, first)
}

// The root's place: no parent, no depth, no key.
fn root_place(table: &[u8]) -> bool
    requires { 0 < node_count table.now }
    ensures { result ≡ stands_record table.now 0 }
{
    if records::parent(table, 0) != 0 {
        return false;
    }
    if records::depth(table, 0) != 0 {
        return false;
    }
    rules::no_key(table, 0)
}

// Whether a node is in the range of children that a right record writes.
fn is_child(table: &[u8], node: usize, parent: usize) -> bool
    requires { (parent < node_count table.now) × (record_right table.now parent ≡ true) }
    ensures { (result ≡ true → InRange table.now parent node) × (result ≡ false → InRange table.now parent node → ⊥) }
{
    let from = records::low_word(table, parent) as usize;
    if node < from {
        return false;
    }
    node < from + records::child_count(table, parent) as usize
}

// The place of a node behind the root: it is a child of the node that its record names, one deeper, and has no key if that is no map.
fn place_right(table: &[u8], node: usize) -> bool
    requires { (0 < node) × (node < node_count table.now) × RecordsBelow table.now node }
    ensures { result ≡ stands_record table.now node }
{
    let parent = records::parent(table, node) as usize;
    if node <= parent {
        return false;
    }
    if !is_child(table, node, parent) {
        return false;
    }
    let deep = records::depth(table, node) as usize;
    let above = records::depth(table, parent) as usize;
    if deep != above + 1 {
        return false;
    }
    if records::kind(table, parent) == KIND_MAP {
        return true;
    }
    rules::no_key(table, node)
}

// All that is asked of a record behind right ones. Its children must begin at first.
fn record_right(table: &[u8], node: usize, first: usize) -> bool
    requires { (node < node_count table.now) × (first ≡ first_child table.now node) × RecordsBelow table.now node }
    ensures { result ≡ record_right table.now node }
{
    if !rules::head_right(table, node) {
        return false;
    }
    if !payload_right(table, node, first) {
        return false;
    }
    if node == 0 {
        return root_place(table);
    }
    place_right(table, node)
}

// The pass over all records. The error is the least node that is not right.
pub fn over_records(table: &[u8]) -> Result<(), usize>
    requires { (0 < node_count table.now) × (node_count table.now ≤ max_nodes) }
    ensures { found result ≡ least_record table.now }
{
    let count = table.len() / RECORD;
    let mut first = 1;
    for node in 0..count {
        if !record_right(table, node, first) {
            return Err(node);
        }
        first += records::child_count(table, node) as usize;
    }
    Ok(())
}
