// The checks of a table, and the text, the key and the path of a node, each with the very statement that is promised of it: `promises_stated` has the types (Promises.antt) and what follows from them (Demands.antt).
// Each is thin over the operation of its name below, requires nothing, and leaves one outcome for each input. A contract below that said less would not prove this crate.

#![tactic(auto)]

ghost use Rattle.promises_stated.specs.Promises.{ChecksRecordsOnly, ChecksTextsOnly, ChecksTableOnly, TextOnly, TextBegins, KeyOnly, KeyBegins, PathOnly};
ghost use Rattle.table.specs.Outcomes.{reported, answered};
ghost use Rattle.table_path.specs.Outcomes.{told};

use table::TableRefusal;
use table_path::PathRefusal;

// Whether the records of a table keep to the rules that read no text, or refusal 9 or 10.
pub fn check_records(table: &[u8], text: &[u8]) -> Result<(), TableRefusal>
    ensures { ChecksRecordsOnly table.now text.now (reported result) }
{
    table::check_records(table, text)
}

// Whether the texts and keys of a table keep to the rules, whatever else its records hold, or refusal 9 or 17.
pub fn check_texts(table: &[u8], text: &[u8]) -> Result<(), TableRefusal>
    ensures { ChecksTextsOnly table.now text.now (reported result) }
{
    table::check_texts(table, text)
}

// The pair: whether a table and its text keep to all rules, or refusal 9, 10 or 17.
pub fn check_table(table: &[u8], text: &[u8]) -> Result<(), TableRefusal>
    ensures { ChecksTableOnly table.now text.now (reported result) }
{
    table::check_table(table, text)
}

// The text of a node as a part of the lent text, and 0 in the lent number; or an empty part, and 9, 10, 15 or 17 in the number. The part lies where the node's record says.
pub fn text_of_node<'a>(table: &[u8], text: &'a [u8], node: usize, number: &mut u8) -> &'a [u8]
    ensures answers { TextOnly table.now text.now node (answered result.now number.new) }
    ensures place { TextBegins table.now node number.new text.entry.ref_ptr result.ref_ptr }
{
    table::text_of_node(table, text, node, number)
}

// The key of a node as a part of the lent text, and 0 in the lent number; or an empty part, and 9, 10, 15 or 17 in the number. The part lies where the node's record says.
pub fn key_of_node<'a>(table: &[u8], text: &'a [u8], node: usize, number: &mut u8) -> &'a [u8]
    ensures answers { KeyOnly table.now text.now node (answered result.now number.new) }
    ensures place { KeyBegins table.now node number.new text.entry.ref_ptr result.ref_ptr }
{
    table::key_of_node(table, text, node, number)
}

// The Normalized Path of a node, in the first bytes of the lent room, or a refusal: 9, 10, 15, 16 or 17, and then the room is as it was.
pub fn path_of_node(
    table: &[u8],
    text: &[u8],
    node: usize,
    room: &mut [u8],
) -> Result<usize, PathRefusal>
    ensures { PathOnly table.now text.now node room.old (told result room.new) }
{
    table_path::path_of_node(table, text, node, room)
}
