// What the passes come to together. One pass goes over all rules; only where it finds a wrong node are the records gone over by themselves.
ghost use Rattle.std.specs.Prelude.{◌≡◌, ◌<◌, ◌≤◌, Err};
ghost use Rattle.std.proofs.Math.Option.{some};
ghost use Rattle.definition.specs.Limits.{max_nodes};
ghost use Rattle.definition.specs.Tables.{node_count, least_record, least_text, by_record, by_text, and_then};
ghost use Rattle.definition.specs.Tables.Checked.{text_at};
ghost use Rattle.definition.specs.TableOutcomes.{report_table};
ghost use Rattle.table_laws.specs.Joined.{least_wrong};
ghost use Rattle.table.specs.Outcomes.{reported};

use crate::{TableRefusal, structure, texts};

// Why the pair refuses a table, where the pass over all rules finds a node: a wrong record, or else that node's text or key.
pub fn refused(table: &[u8], node: usize) -> TableRefusal
    requires { (0 < node_count table.now) × (node_count table.now ≤ max_nodes) }
    ensures { reported (Err result) ≡ report_table (and_then (by_record (least_record table.now)) (text_at node)) }
{
    match structure::over_records(table) {
        Ok(()) => TableRefusal::WrongText(node),
        Err(wrong) => TableRefusal::WrongNode(wrong),
    }
}

// The texts and keys alone, where the pass over all rules finds a node: with right records it is that node, and with wrong ones all are gone over.
pub fn refused_text(table: &[u8], text: &[u8], node: usize) -> Result<(), TableRefusal>
    requires table_nonzero { (0 < node_count table.now) × (node_count table.now ≤ max_nodes) }
    requires table_value { least_wrong table.now text.now 0 (node_count table.now) ≡ some node }
    ensures { reported result ≡ report_table (by_text (least_text table.now text.now)) }
{
    match structure::over_records(table) {
        Ok(()) => Err(TableRefusal::WrongText(node)),
        Err(_) => texts::over_texts(table, text),
    }
}
