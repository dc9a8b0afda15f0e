// What a call of match or search says of a node, by what is known of its expression.
ghost use Rattle.std.specs.Prelude.{◌≡◌};
ghost use Rattle.definition.specs.Bytes.{part};
ghost use Rattle.eval_filters.specs.Values.{AskLeft};
ghost use Rattle.regex_match.specs.Tested.{Tested};
ghost use Rattle.regex_rooms.specs.Rooms.{scope_for};
ghost use Rattle.eval_rows.specs.Calls.{CallAt, AskText, DoneCall};
ghost use Rattle.eval_rows.specs.Known.{Ready, Held};
ghost use Rattle.eval_rows.specs.Turns.{TextOf};

use crate::calls::Call;
use crate::paths;
use eval_items::leaves;
use regex_match::test;
use regex_rooms::marks::test_within;
use regex_states::test_with;
use table::records;
use table::records::KIND_TEXT;

// What is known of the expression: nothing yet, that it is outside the part, its code, or the code with rooms that are ready for its states.
#[derive(Clone, Copy)]
pub enum Known {
    Unread,
    Outside,
    Read,
    States,
}

// The text that the call's query finds from a node.
fn text_of<'a>(
    plan: &[u8],
    pool: &[u8],
    table: &[u8],
    text: &'a [u8],
    from: usize,
    g: Call,
) -> Option<&'a [u8]>
    requires { AskText plan.now pool.now table.now text.now from g }
    ensures { TextOf plan.now pool.now table.now text.now from g.at result }
{
    let r = paths::follow(plan, pool, table, text, from, g.at + 1, g.end);
    let Ok(m) = r.node else {
        return None;
    };
    if records::kind(table, m) != KIND_TEXT {
        return None;
    }
    let start = records::text_start(table, m) as usize;
    let size = records::text_length(table, m) as usize;
    Some(&text[start..start + size])
}

// Whether a text has the expression that the code is of: by its states where the rooms are ready for them; in rooms of its own where no marks are lent, since then the
// code has too many. The marks are room.
fn tested(
    kind: u8,
    known: Known,
    code: &[u32],
    text: &[u8],
    edges: &mut [u8],
    sets: &mut [u8],
    marks: &mut [u8],
) -> bool
    requires { Held code.now edges.old sets.old known }
    ensures tested { Tested code.now text.now result }
    ensures held { Held code.now edges.new sets.new known }
{
    if let Known::States = known {
        return test_with(code, text, edges, sets, marks);
    }
    if marks.len() == 0 {
        return test_within(kind, code, text);
    }
    test(code, text, marks)
}

// What the call says of a node, by what is known of its expression. The other rooms are those of `tested`.
pub fn called(
    plan: &[u8],
    pool: &[u8],
    table: &[u8],
    text: &[u8],
    root: usize,
    node: usize,
    z: usize,
    g: Call,
    known: Known,
    code: &[u32],
    edges: &mut [u8],
    sets: &mut [u8],
    marks: &mut [u8],
) -> bool
    requires ask_left { AskLeft plan.now pool.now table.now text.now root node g.at z × CallAt plan.now z g }
    requires fact { known ≡ Known.Unread → ⊥ }
    requires ready { Ready (scope_for g.kind) (part pool.now g.start g.size) code.now known × Held code.now edges.old sets.old known }
    ensures done_call { DoneCall plan.now pool.now table.now text.now root node z g result }
    ensures held { Held code.now edges.new sets.new known }
{
    let q = g.at;
    let from = leaves::begins(plan[q], root, node);
    let Some(found) = text_of(plan, pool, table, text, from, g) else {
        return false;
    };
    if let Known::Outside = known {
        return false;
    }
    tested(g.kind, known, code, found, edges, sets, marks)
}
