// The reader's cursor, and the items of a query that do not nest: each is read at the cursor's place, both ways, and written.

#![tactic(auto)]

mod constants;
mod ranges;
mod texts;
pub mod verdicts;

ghost use Rattle.std.specs.Prelude.{◌≡◌, true, false, List, [], ◌∷◌, ℕ, ◌+◌, ◌≤◌, ◌<◌, length, drop, Some};
ghost use Rattle.definition.specs.Utf8.{is_utf8};
ghost use Rattle.parser_scan.specs.Text.{Has, WordAt, number_of_function, number_of_keyword};
ghost use Rattle.compile_writes.specs.Effects.{join_marks, first};
ghost use Rattle.compile_writes.specs.Sorts.{value_verdict, compared_verdict};
ghost use Rattle.compile_writes.specs.Writes.{test_tail, not_tail, call_bytes};
ghost use Rattle.parser_follow.specs.Follow.{is_segment_byte};
ghost use Rattle.parser_items.specs.Reads.{Asks, Post, LoosePost, Put, PutMarked, Room, Known, marks_of, no_flag, sort_of, spell_dotted, write_dotted, dotted_flag, spell_plain, write_plain, is_plain, spell_constant, write_constant, spell_keyword, write_keyword, name_of, call_marks, Operates, low, Pooled, word_byte};

use constants::put_numeral;
use number_parse::parse_number;
use parser_scan::{Function, Keyword, is, keyword_at, read_name, read_operator};
use plan_format::{kinds, words};
use ranges::write_range;
use text::bytes::put16;
use text::parts::copy_part;
use texts::write_text;
use verdicts::{call_verdict, compared, value_verdict};

// Where the reader stands: its place in the query, the lengths of plan and pool so far, and the marks of what was read. The marks are one number, so that
// a cursor is four words and is copied as such: below 256 the first verdict of 4, 5 and 6, and 256 more where a literal is beyond the range of literals.
#[derive(Clone, Copy)]
pub struct Cursor {
    pub at: usize,
    pub len: usize,
    pub pool: usize,
    pub marks: usize,
}

// What stands for a literal beyond the range of literals among the marks.
pub const BEYOND: usize = 256;

// The cursor behind a tree and the number that is told of it; or the place where reading stopped.
pub type Step = Result<(Cursor, usize), usize>;

// ---- the cursor

// The cursor at another place of the query.
pub fn moved(st: Cursor, at: usize) -> Cursor
    ensures place { result.at ≡ at }
    ensures lengths { (result.len ≡ st.len) × (result.pool ≡ st.pool) }
    ensures marks { result.marks ≡ st.marks }
{
    Cursor { at, ..st }
}

// The cursor with other marks.
pub fn marked(st: Cursor, marks: usize) -> Cursor
    ensures place { (result.at ≡ st.at) × (result.len ≡ st.len) × (result.pool ≡ st.pool) }
    ensures marks { result.marks ≡ marks }
{
    Cursor { marks, ..st }
}

// The cursor with a verdict of the walk, which stands if it is the first.
pub fn judged(st: Cursor, verdict: u8) -> Cursor
    ensures place { (result.at ≡ st.at) × (result.len ≡ st.len) × (result.pool ≡ st.pool) }
    ensures marks { marks_of result ≡ join_marks (marks_of st) (record { verdict = verdict; beyond = false }) }
{
    let marks = st.marks;
    if marks % BEYOND == 0 {
        return marked(st, marks + verdict as usize);
    }
    st
}

// ---- stores at the end of the plan

// One byte.
pub fn item(plan: &mut [u8], st: Cursor, x: u8) -> Cursor
    requires { Room 1 plan.old st }
    ensures { Put plan.old plan.new st result (x ∷ []) }
{
    let len = st.len;
    plan[len] = x;
    Cursor { len: len + 1, ..st }
}

// A kind with two bytes behind it that are set later.
// A kind is a byte here and below, and no enum: it is only handed on, and is written as it is.
pub fn opened(plan: &mut [u8], st: Cursor, kind: u8) -> Cursor
    requires { Room 3 plan.old st }
    ensures { Put plan.old plan.new st result (kind ∷ 0 ∷ 0 ∷ []) }
{
    let a = item(plan, st, kind);
    let b = item(plan, a, 0);
    item(plan, b, 0)
}

// What an expression of the given sort needs to stand as a test.
// A sort or a flag is a number here and below: one `Step` tells sorts, flags and counts, and with an enum for each it would have a type for each.
pub fn test_tail(plan: &mut [u8], st: Cursor, sort: usize) -> Cursor
    requires { Room 3 plan.old st × Known sort }
    ensures { Put plan.old plan.new st result (test_tail (sort_of sort)) }
{
    if sort == 0 {
        return st;
    }
    if sort == 4 {
        return st;
    }
    if sort == 3 {
        let a = item(plan, st, kinds::TEST);
        let b = item(plan, a, kinds::NOT);
        return item(plan, b, kinds::NOT);
    }
    item(plan, st, kinds::TEST)
}

// What an expression with the given flag needs to be negated, and the verdict on it: a value function may not be negated.
pub fn not_tail(plan: &mut [u8], st: Cursor, flag: usize) -> Cursor
    requires { Room 2 plan.old st × Known flag }
    ensures { PutMarked plan.old plan.new st result (not_tail (sort_of flag)) (record { verdict = compared_verdict true (sort_of flag); beyond = false }) }
{
    let a = judged(st, compared(flag, true));
    if flag == 0 {
        return item(plan, a, kinds::NOT);
    }
    if flag == 4 {
        return item(plan, a, kinds::NOT);
    }
    let b = item(plan, a, kinds::TEST);
    item(plan, b, kinds::NOT)
}

// The comparison of two sides of the given sorts, judged left then right.
pub fn write_compare(plan: &mut [u8], st: Cursor, left: usize, right: usize, op: u8) -> Cursor
    requires { Room 2 plan.old st × (Known left × Known right) }
    ensures { PutMarked plan.old plan.new st result (0x14 ∷ op ∷ []) (record { verdict = first (value_verdict (sort_of left)) (value_verdict (sort_of right)); beyond = false }) }
{
    let a = judged(st, value_verdict(left));
    let b = judged(a, value_verdict(right));
    let d = item(plan, b, kinds::COMPARE);
    item(plan, d, op)
}

// The end of a call of a function, with its typing.
pub fn write_call(plan: &mut [u8], st: Cursor, name: Option<Function>, sorts: usize) -> Cursor
    requires { Room 1 plan.old st × (sorts ≤ 31) }
    ensures { PutMarked plan.old plan.new st result (call_bytes (name_of (number_of_function name))) (call_marks (number_of_function name) sorts) }
{
    let a = judged(st, call_verdict(name, sorts));
    let Some(called) = name else {
        return a;
    };
    item(plan, a, call_kind(called))
}

// The kind of a call in a plan.
fn call_kind(called: Function) -> u8
    ensures { result ≡ 24 + number_of_function (Some called) }
{
    match called {
        Function::Count => kinds::COUNT,
        Function::Length => kinds::LENGTH,
        Function::Value => kinds::VALUE,
        Function::Match => kinds::MATCH,
        Function::Search => kinds::SEARCH,
    }
}

// ---- what comes next

// Whether a segment begins at `at`.
pub fn begins_segment(s: &[u8], at: usize) -> bool
    requires { at ≤ length s.now }
    ensures { Has is_segment_byte s.now at result }
{
    is(s, at, b'.') || is(s, at, b'[')
}

// Whether a comparison-op stands at `at`.
pub fn begins_operator(s: &[u8], at: usize) -> bool
    requires { at ≤ length s.now }
    ensures { Operates s.now at result }
{
    read_operator(s, at).is_some()
}

// The same answer with 0 told.
pub fn lowered(r: Step) -> Step
    ensures { result ≡ low r }
{
    let (st, _) = r?;
    Ok((st, 0))
}

// ---- names and words

// A kind and the count 1.
fn single(plan: &mut [u8], st: Cursor, kind: u8) -> Cursor
    requires { Room 3 plan.old st }
    ensures { Put plan.old plan.new st result (kind ∷ 1 ∷ 0 ∷ []) }
{
    let a = item(plan, st, kind);
    let b = item(plan, a, 1);
    item(plan, b, 0)
}

// The item of a name or a text whose n bytes stand at the end of the pool.
fn pooled(plan: &mut [u8], st: Cursor, kind: u8, n: usize) -> Cursor
    requires room { Room 5 plan.old st }
    requires n_bound { st.pool + n < 65536 }
    ensures { Pooled plan.old plan.new st result kind n }
{
    let len = st.len;
    let start = st.pool;
    plan[len] = kind;
    put16(plan, len + 1, start);
    put16(plan, len + 3, n);
    Cursor {
        len: len + 5,
        pool: start + n,
        ..st
    }
}

// ( wildcard-selector / member-name-shorthand ), behind the dots of a segment of the given kind; tells 2 for a name.
pub fn write_dotted(s: &[u8], plan: &mut [u8], pool: &mut [u8], st: Cursor, kind: u8) -> Step
    requires { Asks 0 s.now plan.old pool.old st }
    ensures { Post spell_dotted (write_dotted kind) dotted_flag 0 s.now plan.old plan.new pool.old pool.new st result }
{
    let at = st.at;
    if is(s, at, b'*') {
        let a = single(plan, st, kind);
        let b = item(plan, a, kinds::WILDCARD);
        return Ok((moved(b, at + 1), 0));
    }
    let e = read_name(s, at)?;
    let start = st.pool;
    copy_part(s, at, e - at, pool, start);
    let a = single(plan, st, kind);
    let b = pooled(plan, a, kinds::NAME, e - at);
    Ok((moved(b, e), 2))
}

// The byte of a literal that is a word.
fn word_byte(k: Keyword) -> u8
    ensures { result ≡ word_byte (number_of_keyword (Some k)) }
{
    match k {
        Keyword::True => words::TRUE,
        Keyword::False => words::FALSE,
        Keyword::Null => words::NULL,
    }
}

// The word from the cursor's place to `end`, if it is true, false or null. No pool is touched.
pub fn write_keyword(s: &[u8], plan: &mut [u8], st: Cursor, end: usize) -> Step
    requires room { Room 2 plan.old st }
    requires s_value { is_utf8 (drop st.at s.now) ≡ true }
    requires word_at { WordAt s.now st.at end }
    ensures { (L : List ℕ) → Post spell_keyword write_keyword no_flag 1 s.now plan.old plan.new L L st result }
{
    let at = st.at;
    let Some(k) = keyword_at(s, at, end) else {
        return Err(at);
    };
    let a = item(plan, st, kinds::CONSTANT);
    let b = item(plan, a, word_byte(k));
    Ok((moved(b, end), 0))
}

// ---- selectors and literals

// A selector that does not nest: a quoted name, `*`, a slice or an index; tells 1 for a name and an index.
pub fn write_selector(s: &[u8], plan: &mut [u8], pool: &mut [u8], st: Cursor) -> Step
    requires { Asks 12 s.now plan.old pool.old st }
    ensures { LoosePost spell_plain write_plain is_plain 1 4 s.now plan.old plan.new pool.old pool.new st result }
{
    let at = st.at;
    if is(s, at, b'"') {
        return write_text(s, plan, pool, st, b'"', kinds::NAME, 1);
    }
    if is(s, at, b'\'') {
        return write_text(s, plan, pool, st, b'\'', kinds::NAME, 1);
    }
    if is(s, at, b'*') {
        let a = item(plan, st, kinds::WILDCARD);
        return Ok((moved(a, at + 1), 0));
    }
    write_range(s, plan, st)
}

// A literal that is no word: a number or a quoted text.
pub fn write_literal(s: &[u8], plan: &mut [u8], pool: &mut [u8], st: Cursor) -> Step
    requires { Asks 0 s.now plan.old pool.old st }
    ensures { Post spell_constant write_constant no_flag 1 s.now plan.old plan.new pool.old pool.new st result }
{
    let at = st.at;
    if is(s, at, b'"') {
        return write_text(s, plan, pool, st, b'"', kinds::TEXT, 0);
    }
    if is(s, at, b'\'') {
        return write_text(s, plan, pool, st, b'\'', kinds::TEXT, 0);
    }
    let number = parse_number(s, at)?;
    let a = put_numeral(plan, st, number.value);
    Ok((moved(a, number.end), 0))
}
