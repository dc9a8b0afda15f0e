// The text and the key of a node: whether there is one, the refusal where there is none, and the part of the text that holds it.
ghost use Rattle.std.specs.Prelude.{◌≡◌, ◌<◌, ◌≤◌, ◌+◌, Err, length};
ghost use Rattle.definition.specs.Tables.{node_count, key_start, key_length, low_word, high_word, key_bytes, text_bytes_at};
ghost use Rattle.definition.specs.TableOutcomes.{has_text, has_key, text_outcome, key_outcome};
ghost use Rattle.table_laws.specs.Accepted.{Parented};
ghost use Rattle.table_laws.specs.Places.{Begins};
ghost use Rattle.table.specs.Outcomes.{reported};

use crate::records::{KIND_MAP, KIND_TEXT, RECORD};
use crate::{TableRefusal, records};

const FOUND: u8 = 0;

const WRONG_SIZE: u8 = 9;

const WRONG_NODE: u8 = 10;

const WRONG_TEXT: u8 = 17;

const NO_TEXT: u8 = 15;

// Whether a number is that of a node of kind 5.
fn has_text(table: &[u8], node: usize) -> bool
    ensures { result ≡ has_text table.now node }
{
    if table.len() / RECORD <= node {
        return false;
    }
    records::kind(table, node) == KIND_TEXT
}

// Whether a number is that of a member of a map.
fn has_key(table: &[u8], node: usize) -> bool
    requires { Parented table.now }
    ensures { result ≡ has_key table.now node }
{
    if table.len() / RECORD <= node {
        return false;
    }
    if node == 0 {
        return false;
    }
    let above = records::parent(table, node) as usize;
    records::kind(table, above) == KIND_MAP
}

// The number of a refusal.
fn number(refusal: TableRefusal) -> u8
    ensures { result ≡ (reported (Err refusal)).refusal }
{
    match refusal {
        TableRefusal::WrongSize => WRONG_SIZE,
        TableRefusal::WrongNode(_) => WRONG_NODE,
        TableRefusal::WrongText(_) => WRONG_TEXT,
    }
}

// The refusal of text of a node, 0 for none.
pub fn text_refusal(table: &[u8], text: &[u8], node: usize) -> u8
    ensures { result ≡ (text_outcome table.now text.now node).number }
{
    match crate::check_table(table, text) {
        Ok(()) => {
            if has_text(table, node) {
                return FOUND;
            }
            NO_TEXT
        }
        Err(refusal) => number(refusal),
    }
}

// The refusal of key of a node, 0 for none.
pub fn key_refusal(table: &[u8], text: &[u8], node: usize) -> u8
    ensures { result ≡ (key_outcome table.now text.now node).number }
{
    match crate::check_table(table, text) {
        Ok(()) => {
            if has_key(table, node) {
                return FOUND;
            }
            NO_TEXT
        }
        Err(refusal) => number(refusal),
    }
}

// The text of a node, which lies inside the text.
pub fn text_part<'a>(table: &[u8], text: &'a [u8], node: usize) -> &'a [u8]
    requires { (node < node_count table.now) × (low_word table.now node + high_word table.now node ≤ length text.now) }
    ensures bytes { result.now ≡ text_bytes_at table.now text.now node }
    ensures place { Begins result.ref_ptr text.entry.ref_ptr (low_word table.now node) }
{
    let start = records::low_word(table, node) as usize;
    let end = start + records::high_word(table, node) as usize;
    &text[start..end]
}

// The key of a node, which lies inside the text.
pub fn key_part<'a>(table: &[u8], text: &'a [u8], node: usize) -> &'a [u8]
    requires { (node < node_count table.now) × (key_start table.now node + key_length table.now node ≤ length text.now) }
    ensures bytes { result.now ≡ key_bytes table.now text.now node }
    ensures place { Begins result.ref_ptr text.entry.ref_ptr (key_start table.now node) }
{
    let start = records::key_start(table, node) as usize;
    let end = start + records::key_length(table, node) as usize;
    &text[start..end]
}
