// The check of the texts and keys alone, on records that may be wrong: ranges may overlap, stand before their map, or claim more nodes than there are.
//
// Of all maps whose range holds a node only the least start matters, since from there on all nodes up to it are members of one map.
// For each node all records are looked at, so a table of n nodes takes time proportional to n squared, and no room.
ghost use Rattle.std.specs.Prelude.{◌≡◌, ◌<◌, ◌+◌};
ghost use Rattle.definition.specs.Tables.{node_count, text_inside, keys_right, text_right, least_text, by_text};
ghost use Rattle.definition.specs.TableOutcomes.{report_table};
ghost use Rattle.table_laws.specs.Starts.{least_start};
ghost use Rattle.table.specs.Words.{TextsBelow};
ghost use Rattle.table.specs.Outcomes.{reported};

use crate::records::{KIND_MAP, KIND_TEXT, RECORD};
use crate::{TableRefusal, keys, records, rules};
use text::encoding;

// Whether the text of a node, if it is one, lies inside the text and is UTF-8.
fn text_inside(table: &[u8], text: &[u8], node: usize) -> bool
    requires { node < node_count table.now }
    ensures { result ≡ text_inside table.now text.now node }
{
    if records::kind(table, node) != KIND_TEXT {
        return true;
    }
    rules::good_part(
        text,
        records::low_word(table, node),
        records::high_word(table, node),
        encoding::NOT_KNOWN,
    )
}

// The least start of the ranges up to a map's that hold a node, from the least of those before it.
fn lesser_start(table: &[u8], node: usize, map: usize, least: usize) -> usize
    requires { (map < node_count table.now) × (least ≡ least_start table.now node map) }
    ensures { result ≡ least_start table.now node (map + 1) }
{
    if records::kind(table, map) != KIND_MAP {
        return least;
    }
    let low = records::low_word(table, map) as usize;
    if least <= low {
        return least;
    }
    if low + records::high_word(table, map) as usize <= node {
        return least;
    }
    low
}

// Where the first range begins that holds a node, or the number behind the node if there is none.
fn least_start(table: &[u8], node: usize) -> usize
    requires { node < node_count table.now }
    ensures { result ≡ least_start table.now node (node_count table.now) }
{
    let count = table.len() / RECORD;
    let mut least = node + 1;
    for map in 0..count {
        least = lesser_start(table, node, map, least);
    }
    least
}

// What the maps that hold a node ask of its key, behind nodes whose texts and keys are right.
fn keys_right(table: &[u8], text: &[u8], node: usize) -> bool
    requires { (node < node_count table.now) × TextsBelow table.now text.now node }
    ensures { result ≡ keys_right table.now text.now node (node_count table.now) }
{
    let from = least_start(table, node);
    if node < from {
        return true;
    }
    if !rules::good_part(
        text,
        records::key_start(table, node),
        records::key_length(table, node),
        encoding::NOT_KNOWN,
    ) {
        return false;
    }
    keys::key_differs(table, text, node, from)
}

// All that is asked of a node's text and key, behind nodes whose texts and keys are right.
fn text_right(table: &[u8], text: &[u8], node: usize) -> bool
    requires { (node < node_count table.now) × TextsBelow table.now text.now node }
    ensures { result ≡ text_right table.now text.now node }
{
    if !text_inside(table, text, node) {
        return false;
    }
    keys_right(table, text, node)
}

// The pass over the texts and keys of all nodes.
pub fn over_texts(table: &[u8], text: &[u8]) -> Result<(), TableRefusal>
    ensures { reported result ≡ report_table (by_text (least_text table.now text.now)) }
{
    let count = table.len() / RECORD;
    for node in 0..count {
        if !text_right(table, text, node) {
            return Err(TableRefusal::WrongText(node));
        }
    }
    Ok(())
}
