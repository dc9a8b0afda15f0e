// Whether the key of a map's member is unlike those of the members before it.
//
// In a map of few members a key is compared with each of them. In a larger one it is compared with those in its bucket, which are a chain:
// heads holds for each bucket the last node in it, and links for each member the node before it in its bucket, by its place among the members.
// A number below the first member ends a chain, so nothing is cleared between one map and the next.
ghost use Rattle.std.specs.Prelude.{◌≡◌, ℕ, ◌<◌, ◌≤◌, ◌+◌, ◌-◌, is_some, OnSome, length};
ghost use Rattle.definition.specs.Bytes.{same_bytes};
ghost use Rattle.definition.specs.Tables.{key_bytes, key_differs};
ghost use Rattle.table.specs.Words.{KeysInside, Joins};
ghost use Rattle.table.specs.Buckets.{bucket_at};
ghost use Rattle.table.specs.Chains.{Chain, Chained};

use crate::{buckets, records};
use text::parts;

// Whether the key of a node, which lies inside the text, has these bytes.
fn same_key(table: &[u8], text: &[u8], node: usize, key: &[u8]) -> bool
    requires { KeysInside table.now text.now node (node + 1) }
    ensures { result ≡ same_bytes (key_bytes table.now text.now node) key.now }
{
    let size = records::key_length(table, node) as usize;
    if size != key.len() {
        return false;
    }
    let start = records::key_start(table, node) as usize;
    let end = start + size;
    parts::same_bytes(&text[start..end], key)
}

// Whether the key of a node is unlike those of the nodes from a place up to it.
pub fn key_differs(table: &[u8], text: &[u8], node: usize, from: usize) -> bool
    requires from_le_node { from ≤ node }
    requires keys_inside { KeysInside table.now text.now from (node + 1) }
    ensures { result ≡ key_differs table.now text.now node from (node - from) }
{
    let start = records::key_start(table, node) as usize;
    let end = start + records::key_length(table, node) as usize;
    let key = &text[start..end];
    for j in from..node {
        if same_key(table, text, j, key) {
            return false;
        }
    }
    true
}

// One more than the nodes on the chain of a node's bucket, whose last node is head, if the key of the node is unlike those of the nodes from a place up to it.
fn chain_differs(
    table: &[u8],
    text: &[u8],
    node: usize,
    from: usize,
    key: &[u8],
    head: usize,
    links: &[u16],
) -> Option<usize>
    requires joins { Joins table.now text.now from node }
    requires key_value { key.now ≡ key_bytes table.now text.now node }
    requires chain { Chain table.now text.now from node head links.now }
    ensures { is_some result ≡ key_differs table.now text.now node from (node - from) }
{
    // A loop over j: the nodes of a chain lie at uneven distances, and the count of them is asked for, so no iterator is plainer.
    let mut steps = 1;
    let mut j = head;
    while from <= j {
        if same_key(table, text, j, key) {
            return None;
        }
        j = links[j - from] as usize;
        steps += 1;
    }
    Some(steps)
}

// The same by the chains of the nodes before it; a node whose key is unlike theirs joins them.
pub fn joins_chain(
    table: &[u8],
    text: &[u8],
    node: usize,
    from: usize,
    heads: &mut [u16],
    links: &mut [u16],
) -> Option<usize>
    requires joins { Joins table.now text.now from node }
    requires chained { Chained (bucket_at (length heads.old) table.now text.now) from node heads.old links.old }
    requires from_in_bounds { node - from < length links.old }
    ensures result_value { is_some result ≡ key_differs table.now text.now node from (node - from) }
    ensures chained_2 { OnSome result (Chained (bucket_at (length heads.new) table.now text.now) from (node + 1) heads.new links.new) }
    ensures links_len_unchanged { length links.new ≡ length links.old }
{
    let start = records::key_start(table, node) as usize;
    let end = start + records::key_length(table, node) as usize;
    let key = &text[start..end];
    let bucket = buckets::bucket(key, heads.len());
    let last = heads[bucket];
    let steps = chain_differs(table, text, node, from, key, last as usize, links)?;
    links[node - from] = last;
    heads[bucket] = node as u16;
    Some(steps)
}
