// match and search of two values: false where either is no text.
ghost use Rattle.std.specs.Prelude.{◌≡◌, true, ◌+◌, ◌≤◌, length};
ghost use Rattle.std.proofs.Math.Option.{some};
ghost use Rattle.definition.specs.Bytes.{part};
ghost use Rattle.definition.specs.Utf8.{is_utf8};
ghost use Rattle.definition.specs.Regexps.{regex_test};
ghost use Rattle.eval_values.specs.Means.{text_in};
ghost use Rattle.regex_rooms.specs.Rooms.{scope_for};
ghost use Rattle.eval_items.specs.Regexes.{Spelled, regex_in};

use eval_values::Operand;

// Of the n bytes of s from a on, and the expression that the m bytes of t from b on are.
fn of_parts(kind: u8, s: &[u8], a: usize, n: usize, t: &[u8], b: usize, m: usize) -> bool
    requires n_in_bounds { (a + n ≤ length s.now) × (is_utf8 (part s.now a n) ≡ true) }
    requires m_in_bounds { (b + m ≤ length t.now) × (is_utf8 (part t.now b m) ≡ true) }
    ensures { result ≡ regex_test (scope_for kind) (part s.now a n) (part t.now b m) }
{
    regex_rooms::holds(kind, &s[a..a + n], &t[b..b + m])
}

// Of the n bytes of s from a on, and a value.
fn of_text(kind: u8, text: &[u8], pool: &[u8], s: &[u8], a: usize, n: usize, y: Operand) -> bool
    requires n_in_bounds { (a + n ≤ length s.now) × (is_utf8 (part s.now a n) ≡ true) }
    requires spelled { Spelled text.now pool.now y }
    ensures { result ≡ regex_in (scope_for kind) (some (part s.now a n)) (text_in text.now pool.now y) }
{
    match y {
        Operand::Pool(b, m) => of_parts(kind, s, a, n, pool, b, m),
        Operand::Text(b, m) => of_parts(kind, s, a, n, text, b, m),
        _ => false,
    }
}

// Of a value and the expression that another is, by the plan kind of match or search.
pub fn regex_values(kind: u8, text: &[u8], pool: &[u8], x: Operand, y: Operand) -> bool
    requires { Spelled text.now pool.now x × Spelled text.now pool.now y }
    ensures { result ≡ regex_in (scope_for kind) (text_in text.now pool.now x) (text_in text.now pool.now y) }
{
    match x {
        Operand::Pool(a, n) => of_text(kind, text, pool, pool, a, n, y),
        Operand::Text(a, n) => of_text(kind, text, pool, text, a, n, y),
        _ => false,
    }
}
