// Quoted texts, as they are written.
ghost use Rattle.std.specs.Prelude.{◌≡◌, true};
ghost use Rattle.definition.specs.Lexical.{own_byte, spell_text};
ghost use Rattle.definition.specs.Literals.{text_bytes};
ghost use Rattle.text_quoted.specs.Quoted.{quote_of};
ghost use Rattle.parser_scan.specs.Text.{Is};
ghost use Rattle.compile_writes.specs.Effects.{pooling};
ghost use Rattle.parser_items.specs.Reads.{Asks, Post};

use crate::{Cursor, Step, moved, pooled};
use text_quoted::unescape_string;

// string-literal, whose quote stands at the cursor's place, as an item of the given kind; tells the given number.
// The kind is a byte, and no enum: it is only handed on, and is written as it is.
pub fn write_text(
    s: &[u8],
    plan: &mut [u8],
    pool: &mut [u8],
    st: Cursor,
    quote: u8,
    kind: u8,
    told: usize,
) -> Step
    requires asks { Asks 0 s.now plan.old pool.old st }
    requires quote_value { own_byte (quote_of quote) ≡ quote }
    requires is { Is s.now st.at quote true }
    ensures { Post spell_text (λ t. pooling kind (text_bytes t)) (λ t. told) 0 s.now plan.old plan.new pool.old pool.new st result }
{
    let at = st.at;
    let start = st.pool;
    let text = unescape_string(s, at + 1, quote, pool, start)?;
    let a = pooled(plan, st, kind, text.end - start);
    Ok((moved(a, text.next), told))
}
