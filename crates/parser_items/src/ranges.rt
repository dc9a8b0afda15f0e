// Indices and slices: an int, a bound and a step are read as a piece, and the pieces are written.
ghost use Rattle.std.specs.Prelude.{◌≡◌, true, false, List, ◌∷◌, ℕ, ◌+◌, ◌*◌, ◌-◌, ◌≤◌, length, drop, is_some};
ghost use Rattle.definition.specs.Bytes.{little_endian};
ghost use Rattle.definition.specs.Utf8.{is_utf8};
ghost use Rattle.parser_scan.specs.Text.{Is};
ghost use Rattle.parser_items.specs.Reads.{LoosePost, Put, PutMarked, Room, spell_plain, write_plain, is_plain};
ghost use Rattle.parser_items.specs.Ranges.{IntOrNot, StepThere, NoText, field_of, bits_of, verdict_of, bit_of, slice_bytes, slice_marks};

use crate::{Cursor, Step, item, judged, moved};
use number_parse::{IntError, parse_i_json_int};
use parser_scan::{is, skip_blanks};
use plan_format::kinds;
use text::bytes::{bits64, put64};

// The refusal of an int that is out of range.
const OUT_OF_RANGE: u8 = 4;

// An int as it is written: its bits, and the verdict on it.
#[derive(Clone, Copy)]
pub struct Value {
    pub bits: u64,
    pub verdict: u8,
}

// An int or none at a place: the place right behind it, or of the byte that is in the way; the place behind its blanks; and the int.
#[derive(Clone, Copy)]
pub struct Piece {
    pub end: usize,
    pub at: usize,
    pub value: Option<Value>,
}

// [ int S ]
pub fn read_int(s: &[u8], at: usize) -> Piece
    requires { at ≤ length s.now }
    ensures { IntOrNot s.now at result (is_some result.value) }
{
    match parse_i_json_int(s, at) {
        Err(IntError::Nothing(end)) => Piece {
            end,
            at,
            value: None,
        },
        Err(IntError::OutOfRange(end)) => Piece {
            end,
            at: skip_blanks(s, end),
            value: Some(Value {
                bits: 0,
                verdict: OUT_OF_RANGE,
            }),
        },
        Ok(int) => Piece {
            end: int.end,
            at: skip_blanks(s, int.end),
            value: Some(Value {
                bits: bits64(int.value),
                verdict: 0,
            }),
        },
    }
}

// [ ":" [ S step ] ]
pub fn read_step(s: &[u8], at: usize) -> Piece
    requires { at ≤ length s.now }
    ensures { StepThere s.now at result }
{
    if !is(s, at, b':') {
        return Piece {
            end: at,
            at,
            value: None,
        };
    }
    let a = skip_blanks(s, at + 1);
    let p = read_int(s, a);
    if p.value.is_some() {
        let e = p.end;
        return Piece {
            end: e,
            at: e,
            value: p.value,
        };
    }
    Piece {
        end: at + 1,
        at: at + 1,
        value: p.value,
    }
}

// The bits that are written for an int, or for none.
fn bits(value: Option<Value>) -> u64
    ensures { result ≡ bits_of value }
{
    match value {
        Some(v) => v.bits,
        None => 0,
    }
}

// The verdict on an int, or on none.
fn verdict(value: Option<Value>) -> u8
    ensures { result ≡ verdict_of value }
{
    match value {
        Some(v) => v.verdict,
        None => 0,
    }
}

// Eight bytes.
pub fn eight(plan: &mut [u8], st: Cursor, n: u64) -> Cursor
    requires { Room 8 plan.old st }
    ensures { Put plan.old plan.new st result (little_endian 8 n) }
{
    let len = st.len;
    put64(plan, len, n);
    Cursor { len: len + 8, ..st }
}

// A bit of a slice's flags.
fn bit(given: bool, n: u8) -> u8
    ensures { result ≡ bit_of given n }
{
    if given { n } else { 0 }
}

// An index.
fn put_index(plan: &mut [u8], st: Cursor, v: Value) -> Cursor
    requires { Room 9 plan.old st }
    ensures { PutMarked plan.old plan.new st result (0x06 ∷ little_endian 8 v.bits) (record { verdict = v.verdict; beyond = false }) }
{
    let a = judged(st, v.verdict);
    let b = item(plan, a, kinds::INDEX);
    eight(plan, b, v.bits)
}

// A slice: its flags, its bounds and its step.
fn put_slice(plan: &mut [u8], st: Cursor, start: Piece, stop: Piece, by: Piece) -> Cursor
    requires { Room 26 plan.old st }
    ensures { PutMarked plan.old plan.new st result (slice_bytes (field_of start) (field_of stop) (field_of by)) (slice_marks (field_of start) (field_of stop) (field_of by)) }
{
    let a = judged(st, verdict(start.value));
    let b = judged(a, verdict(stop.value));
    let c = judged(b, verdict(by.value));
    let d = item(plan, c, kinds::SLICE);
    let flags = bit(start.value.is_some(), 1)
        + bit(stop.value.is_some(), 2)
        + bit(by.value.is_some(), 4);
    let e = item(plan, d, flags);
    let f = eight(plan, e, bits(start.value));
    let g = eight(plan, f, bits(stop.value));
    eight(plan, g, bits(by.value))
}

// What follows the first bound of a slice, from its colon on.
fn write_slice(s: &[u8], plan: &mut [u8], st: Cursor, start: Piece) -> Step
    requires room { Room 26 plan.old st }
    requires s_value { is_utf8 (drop st.at s.now) ≡ true }
    requires no_text { NoText s.now st.at }
    requires int_or_not { IntOrNot s.now st.at start (is_some start.value) }
    requires is { Is s.now start.at 0x3A true }
    ensures { (L : List ℕ) → LoosePost spell_plain write_plain is_plain 1 4 s.now plan.old plan.new L L st result }
{
    let colon = start.at;
    let a = skip_blanks(s, colon + 1);
    let stop = read_int(s, a);
    let b = stop.at;
    let by = read_step(s, b);
    let c = put_slice(plan, st, start, stop, by);
    Ok((moved(c, by.at), 0))
}

// An index or a slice. No pool is touched.
pub fn write_range(s: &[u8], plan: &mut [u8], st: Cursor) -> Step
    requires at_in_bounds { (st.at ≤ length s.now) × (st.len + (15 * (length s.now - st.at) + 12) ≤ length plan.old) }
    requires s_value { is_utf8 (drop st.at s.now) ≡ true }
    requires no_text { NoText s.now st.at }
    ensures { (L : List ℕ) → LoosePost spell_plain write_plain is_plain 1 4 s.now plan.old plan.new L L st result }
{
    let at = st.at;
    let p = read_int(s, at);
    let e = p.at;
    if is(s, e, b':') {
        return write_slice(s, plan, st, p);
    }
    let Some(v) = p.value else {
        return Err(p.end);
    };
    let a = put_index(plan, st, v);
    Ok((moved(a, p.end), 1))
}
