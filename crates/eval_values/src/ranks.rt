// The order of two values: it exists between two numbers or two texts.
ghost use Rattle.std.specs.Prelude.{◌≡◌, ◌+◌, ◌≤◌, T, length};
ghost use Rattle.std.proofs.Math.Option.{some};
ghost use Rattle.std.specs.Float.Ieee.Scale.{finite};
ghost use Rattle.definition.specs.Bytes.{part};
ghost use Rattle.definition.specs.Compare.{whole_fraction, float_fraction};
ghost use Rattle.eval_values.specs.Ranks.{rank_numbers, rank_texts, rank_in, ranked_is, is_rank_less, is_rank_equal};
ghost use Rattle.eval_values.specs.Means.{Finite, Parts, Ranked, number_in, text_in};

use crate::Operand;
use std::cmp::Ordering;
use text::parts;

// An integer against a value.
fn rank_int(a: i64, y: Operand) -> Option<Ordering>
    requires { Finite y }
    ensures { result ≡ rank_numbers (some (whole_fraction a)) (number_in y) }
{
    match y {
        Operand::Int(b) => Some(number_order::compare_i64(a, b)),
        Operand::Float(b) => Some(number_order::compare_i64_num(a, b)),
        _ => None,
    }
}

// A float against a value.
fn rank_float(a: f64, y: Operand) -> Option<Ordering>
    requires t { T (finite a) }
    requires finite { Finite y }
    ensures { result ≡ rank_numbers (some (float_fraction a)) (number_in y) }
{
    match y {
        Operand::Int(b) => Some(number_order::compare_num_i64(a, b)),
        Operand::Float(b) => Some(number_order::compare_nums(a, b)),
        _ => None,
    }
}

// The n bytes of s from a on against a value.
fn rank_text(text: &[u8], pool: &[u8], s: &[u8], a: usize, n: usize, y: Operand) -> Option<Ordering>
    requires n_in_bounds { a + n ≤ length s.now }
    requires parts { Parts text.now pool.now y }
    ensures { result ≡ rank_texts (some (part s.now a n)) (text_in text.now pool.now y) }
{
    match y {
        Operand::Pool(b, m) => Some(parts::order_part(s, a, n, pool, b, m)),
        Operand::Text(b, m) => Some(parts::order_part(s, a, n, text, b, m)),
        _ => None,
    }
}

// How one value stands to another, where there is an order between them.
pub fn rank_of(text: &[u8], pool: &[u8], x: Operand, y: Operand) -> Option<Ordering>
    requires { Ranked text.now pool.now x y }
    ensures { result ≡ rank_in text.now pool.now x y }
{
    match x {
        Operand::Int(a) => rank_int(a, y),
        Operand::Float(a) => rank_float(a, y),
        Operand::Pool(a, n) => rank_text(text, pool, pool, a, n, y),
        Operand::Text(a, n) => rank_text(text, pool, text, a, n, y),
        _ => None,
    }
}

// Whether one value is less than another.
pub fn is_less(text: &[u8], pool: &[u8], x: Operand, y: Operand) -> bool
    requires { Ranked text.now pool.now x y }
    ensures { result ≡ is_rank_less (rank_in text.now pool.now x y) }
{
    matches!(rank_of(text, pool, x, y), Some(Ordering::Less))
}

// Whether a value is a number or a text.
pub fn is_ranked(x: Operand) -> bool
    ensures { result ≡ ranked_is x }
{
    matches!(
        x,
        Operand::Int(_) | Operand::Float(_) | Operand::Pool(_, _) | Operand::Text(_, _)
    )
}

// Whether a rank is that of equal values.
fn is_same(k: Option<Ordering>) -> bool
    ensures { result ≡ is_rank_equal k }
{
    matches!(k, Some(Ordering::Equal))
}

// Whether the n bytes of s from a on are the text of a value.
fn is_text(s: &[u8], a: usize, n: usize, text: &[u8], pool: &[u8], y: Operand) -> bool
    requires n_in_bounds { a + n ≤ length s.now }
    requires parts { Parts text.now pool.now y }
    ensures { result ≡ is_rank_equal (rank_texts (some (part s.now a n)) (text_in text.now pool.now y)) }
{
    match y {
        Operand::Pool(b, m) => parts::same_part(s, a, n, pool, b, m),
        Operand::Text(b, m) => parts::same_part(s, a, n, text, b, m),
        _ => false,
    }
}

// Whether two numbers or two texts are equal. Texts of unlike lengths are not looked at.
pub fn is_equal(text: &[u8], pool: &[u8], x: Operand, y: Operand) -> bool
    requires { Ranked text.now pool.now x y }
    ensures { result ≡ is_rank_equal (rank_in text.now pool.now x y) }
{
    match x {
        Operand::Int(a) => is_same(rank_int(a, y)),
        Operand::Float(a) => is_same(rank_float(a, y)),
        Operand::Pool(a, n) => is_text(pool, a, n, text, pool, y),
        Operand::Text(a, n) => is_text(text, a, n, text, pool, y),
        _ => false,
    }
}
