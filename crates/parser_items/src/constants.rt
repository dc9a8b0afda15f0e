// Number literals, as they are written.
ghost use Rattle.std.specs.Prelude.{◌≡◌, true, List, ℕ, ◌+◌};
ghost use Rattle.number_literals.specs.Values.{meaning};
ghost use Rattle.compile_writes.specs.Effects.{join_marks};
ghost use Rattle.compile_writes.specs.Writes.{write_numeral};
ghost use Rattle.parser_items.specs.Reads.{Done, Room, marks_of};

use crate::ranges::eight;
use crate::{BEYOND, Cursor, item, marked};
use number_literals::Literal;
use plan_format::{kinds, words};
use text::bytes::bits64;

// The cursor with a literal beyond the range of literals.
fn beyond(st: Cursor) -> Cursor
    ensures place { (result.at ≡ st.at) × (result.len ≡ st.len) × (result.pool ≡ st.pool) }
    ensures marks { marks_of result ≡ join_marks (marks_of st) (record { verdict = 0; beyond = true }) }
{
    let marks = st.marks;
    if marks < BEYOND {
        return marked(st, marks + BEYOND);
    }
    st
}

// The item of what a number literal stands for. No pool is touched.
pub fn put_numeral(plan: &mut [u8], st: Cursor, v: Literal) -> Cursor
    requires { Room 9 plan.old st }
    ensures { (L : List ℕ) → Done plan.old plan.new L L st result (write_numeral (meaning v) st.pool) }
{
    match v {
        Literal::Int(z) => {
            let a = item(plan, st, kinds::INTEGER);
            eight(plan, a, bits64(z))
        }
        Literal::Float(b) => {
            let a = item(plan, st, kinds::FLOAT);
            eight(plan, a, b)
        }
        Literal::Beyond => {
            let a = item(plan, beyond(st), kinds::CONSTANT);
            item(plan, a, words::NULL)
        }
    }
}
