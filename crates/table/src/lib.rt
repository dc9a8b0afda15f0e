// The table of values: the check of its records, that of its texts and keys, and the pair; the text and the key of a node; and the fields that the evaluator reads.
//
//   records    the fields of a record of 24 bytes
//   buckets    the bucket of a key
//   distinct   whether all keys of a map differ, by sorting
//   keys       whether a key is unlike those before it in its map
//   rules      the rules for a node
//   scan       the pass over the nodes, by all rules
//   utf8       the same where the text is known to be UTF-8
//   structure  the pass over the records alone
//   texts      the pass over the texts and keys alone, on any records
//   pair       what the passes come to together
//   named      the text and the key of a node

#![tactic(auto)]

ghost use Rattle.std.specs.Prelude.{◌≡◌};
ghost use Rattle.definition.specs.Tables.{bad_size, low_word, key_start};
ghost use Rattle.definition.specs.TableOutcomes.{records_outcome, texts_outcome, table_outcome, text_outcome, key_outcome};
ghost use Rattle.table.specs.Outcomes.{reported, answered};
ghost use Rattle.table_laws.specs.Places.{Begins, part_start};

mod buckets;
mod distinct;
mod keys;
mod named;
mod pair;
pub mod records;
mod rules;
mod scan;
mod structure;
mod texts;
mod utf8;

use crate::records::RECORD;

const MAX_NODES: usize = 65535;

const MAX_TEXT: usize = 16777216;

// Why a check refuses a table.
#[derive(Clone, Copy)]
pub enum TableRefusal {
    // Refusal 9: the table's size or the text's is wrong.
    WrongSize,
    // Refusal 10: the least node at which a rule on records fails.
    WrongNode(usize),
    // Refusal 17: the least node at which a rule on texts and keys fails.
    WrongText(usize),
}

// Whether the size of the table or of the text is wrong.
fn bad_size(table: &[u8], text: &[u8]) -> bool
    ensures { result ≡ bad_size table.now text.now }
{
    if table.len() == 0 {
        return true;
    }
    if table.len() % RECORD != 0 {
        return true;
    }
    if MAX_NODES < table.len() / RECORD {
        return true;
    }
    MAX_TEXT < text.len()
}

// The check of the records alone.
pub fn check_records(table: &[u8], text: &[u8]) -> Result<(), TableRefusal>
    ensures { reported result ≡ records_outcome table.now text.now }
{
    if bad_size(table, text) {
        return Err(TableRefusal::WrongSize);
    }
    match structure::over_records(table) {
        Ok(()) => Ok(()),
        Err(node) => Err(TableRefusal::WrongNode(node)),
    }
}

// The check of the texts and keys alone, which takes each range as its record writes it, as far as the table reaches.
pub fn check_texts(table: &[u8], text: &[u8]) -> Result<(), TableRefusal>
    ensures { reported result ≡ texts_outcome table.now text.now }
{
    if bad_size(table, text) {
        return Err(TableRefusal::WrongSize);
    }
    match scan::scan(table, text) {
        Ok(()) => Ok(()),
        Err(node) => pair::refused_text(table, text, node),
    }
}

// The pair: the check of the records over all nodes, then that of the texts and keys.
pub fn check_table(table: &[u8], text: &[u8]) -> Result<(), TableRefusal>
    ensures { reported result ≡ table_outcome table.now text.now }
{
    if bad_size(table, text) {
        return Err(TableRefusal::WrongSize);
    }
    match scan::scan(table, text) {
        Ok(()) => Ok(()),
        Err(node) => Err(pair::refused(table, node)),
    }
}

// The text of a node as a part of the lent text, and 0 in the lent number; or an empty part, and the refusal in the number.
pub fn text_of_node<'a>(table: &[u8], text: &'a [u8], node: usize, number: &mut u8) -> &'a [u8]
    ensures answers { answered result.now number.new ≡ text_outcome table.now text.now node }
    ensures place { Begins result.ref_ptr text.entry.ref_ptr (part_start number.new (low_word table.now node)) }
{
    let refusal = named::text_refusal(table, text, node);
    *number = refusal;
    if refusal != 0 {
        return &text[0..0];
    }
    named::text_part(table, text, node)
}

// The key of a node as a part of the lent text, and 0 in the lent number; or an empty part, and the refusal in the number.
pub fn key_of_node<'a>(table: &[u8], text: &'a [u8], node: usize, number: &mut u8) -> &'a [u8]
    ensures answers { answered result.now number.new ≡ key_outcome table.now text.now node }
    ensures place { Begins result.ref_ptr text.entry.ref_ptr (part_start number.new (key_start table.now node)) }
{
    let refused = named::key_refusal(table, text, node);
    *number = refused;
    if refused != 0 {
        return &text[0..0];
    }
    named::key_part(table, text, node)
}
