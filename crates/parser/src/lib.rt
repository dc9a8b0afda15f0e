// The rules of the grammar that nest, one function for each, in the order of the grammar. Repetition is a loop, nesting a call.
// Each function reads at the cursor's place, writes what it reads, and answers the cursor behind it or the place where reading stopped.

#![tactic(auto)]

mod call;

ghost use Rattle.definition.specs.Grammar.{spell_segments, spell_segment, spell_bracketed, spell_selectors, spell_selector, spell_logical_or, spell_more_or, spell_logical_and, spell_more_and, spell_basic, spell_paren};
ghost use Rattle.compile_writes.specs.Sorts.{sort_more_or, sort_more_and, sort_or_lem, sort_and_lem, sort_basic, sort_paren};
ghost use Rattle.compile_writes.specs.Writes.{write_segments, write_segment, write_selectors, write_selector, write_or_lem, write_more_or, write_and_lem, write_more_and, write_basic, write_paren, write_from, count_more};
ghost use Rattle.std.specs.Prelude.{◌≤◌};
ghost use Rattle.parser_items.specs.Reads.{Asks, Post, LoosePost, no_flag, sort_number, sort_of, segments_flag, segment_flag, bracketed_flag, plain_flag, write_selection, Known, Opens};
ghost use Rattle.parser_follow.specs.Pieces.{spell_filter, write_filter, spell_negation, write_negation, spell_behind_of, write_behind_of, behind_of_sort, spell_side, write_side, spell_operand, write_operand, operand_flag, query_flag};

use call::function;
use parser_items::verdicts::{brackets_flag, comparable, compared, plain_sort, query_flag};
use parser_items::{
    Cursor, Step, begins_segment, item, judged, lowered, moved, not_tail, opened, test_tail,
    write_compare, write_dotted, write_keyword, write_literal, write_selector,
};
use parser_scan::{both, is, named_at, read_operator, read_word, skip_blanks};
use plan_format::kinds;
use text::bytes::put16;

// segments = *( S segment ); tells whether all of them are those of a singular query
#[cycle(grammar)]
fn segments(s: &[u8], plan: &mut [u8], pool: &mut [u8], st: Cursor) -> Step
    requires { Asks 0 s.now plan.old pool.old st }
    ensures { Post spell_segments write_segments segments_flag 1 s.now plan.old plan.new pool.old pool.new st result }
{
    let mut now = st;
    let mut flag: usize = 2;
    // A loop and no `for`: how many segments follow is known only where none does.
    loop {
        let here = now.at;
        let a = skip_blanks(s, here);
        if !begins_segment(s, a) {
            return Ok((now, flag));
        }
        let (n, f) = segment(s, plan, pool, moved(now, a))?;
        now = n;
        flag = flag.min(f);
    }
}

// segment = child-segment / descendant-segment
#[cycle(grammar)]
fn segment(s: &[u8], plan: &mut [u8], pool: &mut [u8], st: Cursor) -> Step
    requires { Asks 0 s.now plan.old pool.old st }
    ensures { Post spell_segment write_segment segment_flag 0 s.now plan.old plan.new pool.old pool.new st result }
{
    let at = st.at;
    if both(s, at, b'.', b'.') {
        let a = at + 2;
        if is(s, a, b'[') {
            return lowered(bracketed(s, plan, pool, moved(st, a), kinds::DESCENDANT));
        }
        return lowered(write_dotted(s, plan, pool, moved(st, a), kinds::DESCENDANT));
    }
    if is(s, at, b'.') {
        return write_dotted(s, plan, pool, moved(st, at + 1), kinds::CHILD);
    }
    bracketed(s, plan, pool, st, kinds::CHILD)
}

// bracketed-selection = "[" S selector *( S "," S selector ) S "]", of a segment of the given kind
// A kind is a byte here and below, and no enum: it is only handed on, and is written as it is.
#[cycle(grammar)]
fn bracketed(s: &[u8], plan: &mut [u8], pool: &mut [u8], st: Cursor, kind: u8) -> Step
    requires { Asks 0 s.now plan.old pool.old st }
    ensures { Post spell_bracketed (write_selection kind) bracketed_flag 0 s.now plan.old plan.new pool.old pool.new st result }
{
    let at = st.at;
    if !is(s, at, b'[') {
        return Err(at);
    }
    let a = skip_blanks(s, at + 1);
    let head = opened(plan, moved(st, a), kind);
    let (n, plain) = selector(s, plan, pool, head)?;
    let (m, count) = selectors(s, plan, pool, n)?;
    let b = m.at;
    let e = skip_blanks(s, b);
    if !is(s, e, b']') {
        return Err(e);
    }
    let len = st.len;
    put16(plan, len + 1, count + 1);
    Ok((
        moved(m, e + 1),
        brackets_flag(plain, count, a == at + 1, e == b),
    ))
}

// *( S "," S selector ); tells how many
#[cycle(grammar)]
fn selectors(s: &[u8], plan: &mut [u8], pool: &mut [u8], st: Cursor) -> Step
    requires { Asks 0 s.now plan.old pool.old st }
    ensures { LoosePost spell_selectors write_selectors count_more 0 5 s.now plan.old plan.new pool.old pool.new st result }
{
    let mut now = st;
    let mut count: usize = 0;
    // A loop and no `for`: how many selectors follow is known only where none does.
    loop {
        let here = now.at;
        let a = skip_blanks(s, here);
        if !is(s, a, b',') {
            return Ok((now, count));
        }
        let b = skip_blanks(s, a + 1);
        let (n, _) = selector(s, plan, pool, moved(now, b))?;
        now = n;
        count += 1;
    }
}

// selector; tells whether it is a name or an index
#[cycle(grammar)]
fn selector(s: &[u8], plan: &mut [u8], pool: &mut [u8], st: Cursor) -> Step
    requires { Asks 12 s.now plan.old pool.old st }
    ensures { LoosePost spell_selector write_selector plain_flag 1 4 s.now plan.old plan.new pool.old pool.new st result }
{
    let at = st.at;
    if is(s, at, b'?') {
        return filter(s, plan, pool, moved(st, at + 1));
    }
    write_selector(s, plan, pool, st)
}

// S logical-expr, behind the "?" of a filter-selector
#[cycle(grammar)]
fn filter(s: &[u8], plan: &mut [u8], pool: &mut [u8], st: Cursor) -> Step
    requires { Asks 3 s.now plan.old pool.old st }
    ensures { Post spell_filter write_filter no_flag 4 s.now plan.old plan.new pool.old pool.new st result }
{
    let at = st.at;
    let a = skip_blanks(s, at);
    let head = opened(plan, moved(st, a), kinds::FILTER);
    let (n, sort) = any(s, plan, pool, head, true)?;
    let m = test_tail(plan, n, sort);
    let len = st.len;
    let out = m.len;
    put16(plan, len + 1, out - len - 3);
    Ok((m, 0))
}

// logical-or-expr = logical-and-expr *( S "||" S logical-and-expr ); tells its sort
#[cycle(grammar)]
fn any(s: &[u8], plan: &mut [u8], pool: &mut [u8], st: Cursor, asked: bool) -> Step
    requires { Asks 0 s.now plan.old pool.old st }
    ensures { Post spell_logical_or (λ t. write_or_lem t asked) (λ t. sort_number (sort_or_lem t)) 4 s.now plan.old plan.new pool.old pool.new st result }
{
    let (n, sort) = all(s, plan, pool, st, asked)?;
    more_or(s, plan, pool, n, sort, asked)
}

// *( S "||" S logical-and-expr ), behind an operand of the given sort
// A sort or a flag is a number here and below: one `Step` tells sorts, flags and counts, and with an enum for each it would have a type for each.
#[cycle(grammar)]
fn more_or(s: &[u8], plan: &mut [u8], pool: &mut [u8], st: Cursor, sort: usize, asked: bool) -> Step
    requires { Asks 0 s.now plan.old pool.old st × (sort ≤ 4) }
    ensures { Post spell_more_or (λ t. write_more_or t (sort_of sort) asked) (λ t. sort_number (sort_more_or t (sort_of sort))) 4 s.now plan.old plan.new pool.old pool.new st result }
{
    let mut now = st;
    let mut kind = sort;
    // A loop and no `for`: how many operands follow is known only where none does.
    loop {
        let here = now.at;
        let a = skip_blanks(s, here);
        if !both(s, a, b'|', b'|') {
            return Ok((now, kind));
        }
        let b = skip_blanks(s, a + 2);
        let left = test_tail(plan, moved(now, b), kind);
        let head = opened(plan, left, kinds::OR);
        let (n, f) = all(s, plan, pool, head, asked)?;
        let m = test_tail(plan, n, f);
        let len = left.len;
        let out = m.len;
        put16(plan, len + 1, out - len - 3);
        now = m;
        kind = 4;
    }
}

// logical-and-expr = basic-expr *( S "&&" S basic-expr ); tells its sort
#[cycle(grammar)]
fn all(s: &[u8], plan: &mut [u8], pool: &mut [u8], st: Cursor, asked: bool) -> Step
    requires { Asks 0 s.now plan.old pool.old st }
    ensures { Post spell_logical_and (λ t. write_and_lem t asked) (λ t. sort_number (sort_and_lem t)) 3 s.now plan.old plan.new pool.old pool.new st result }
{
    let (n, sort) = basic(s, plan, pool, st)?;
    more_and(s, plan, pool, judged(n, compared(sort, asked)), sort, asked)
}

// *( S "&&" S basic-expr ), behind an operand of the given sort
#[cycle(grammar)]
fn more_and(
    s: &[u8],
    plan: &mut [u8],
    pool: &mut [u8],
    st: Cursor,
    sort: usize,
    asked: bool,
) -> Step
    requires { Asks 0 s.now plan.old pool.old st × (sort ≤ 4) }
    ensures { Post spell_more_and (λ t. write_more_and t (sort_of sort) asked) (λ t. sort_number (sort_more_and t (sort_of sort))) 3 s.now plan.old plan.new pool.old pool.new st result }
{
    let mut now = st;
    let mut kind = sort;
    // A loop and no `for`: how many operands follow is known only where none does.
    loop {
        let here = now.at;
        let a = skip_blanks(s, here);
        if !both(s, a, b'&', b'&') {
            return Ok((now, kind));
        }
        let b = skip_blanks(s, a + 2);
        let left = test_tail(plan, moved(now, b), kind);
        let head = opened(plan, left, kinds::AND);
        let (n, f) = basic(s, plan, pool, head)?;
        let m = test_tail(plan, n, f);
        let len = left.len;
        let out = m.len;
        put16(plan, len + 1, out - len - 3);
        now = judged(m, compared(f, asked));
        kind = 4;
    }
}

// basic-expr = paren-expr / comparison-expr / test-expr; tells its sort
#[cycle(grammar)]
fn basic(s: &[u8], plan: &mut [u8], pool: &mut [u8], st: Cursor) -> Step
    requires { Asks 0 s.now plan.old pool.old st }
    ensures { Post spell_basic write_basic (λ t. sort_number (sort_basic t)) 2 s.now plan.old plan.new pool.old pool.new st result }
{
    let at = st.at;
    if is(s, at, b'(') {
        return paren(s, plan, pool, st);
    }
    if is(s, at, b'!') {
        return negation(s, plan, pool, moved(st, at + 1));
    }
    let (n, flag) = operand(s, plan, pool, st)?;
    behind(s, plan, pool, n, flag)
}

// S ( paren / filter-query / function-expr ), behind a "!"
#[cycle(grammar)]
fn negation(s: &[u8], plan: &mut [u8], pool: &mut [u8], st: Cursor) -> Step
    requires { Asks 0 s.now plan.old pool.old st }
    ensures { Post spell_negation write_negation (λ t. 4) 2 s.now plan.old plan.new pool.old pool.new st result }
{
    let at = st.at;
    let a = skip_blanks(s, at);
    if is(s, a, b'(') {
        let (n, sort) = paren(s, plan, pool, moved(st, a))?;
        return Ok((not_tail(plan, n, sort), 4));
    }
    let (m, flag) = operand(s, plan, pool, moved(st, a))?;
    if flag == 0 {
        return Err(a);
    }
    Ok((not_tail(plan, m, flag), 4))
}

// [ S comparison-op S comparable ], behind an operand with the given flag; tells the sort of the whole
#[cycle(grammar)]
fn behind(s: &[u8], plan: &mut [u8], pool: &mut [u8], st: Cursor, flag: usize) -> Step
    requires { Asks 0 s.now plan.old pool.old st × Known flag }
    ensures { Post (spell_behind_of flag) (write_behind_of flag) (behind_of_sort flag) 2 s.now plan.old plan.new pool.old pool.new st result }
{
    let at = st.at;
    let a = skip_blanks(s, at);
    match read_operator(s, a) {
        None => {
            if flag == 0 {
                return Err(a);
            }
            Ok((st, plain_sort(flag)))
        }
        Some((e, op)) => {
            if !comparable(flag) {
                return Err(a);
            }
            right(s, plan, pool, moved(st, e), plain_sort(flag), op)
        }
    }
}

// S comparable, behind a left side of the given sort and the operator op
#[cycle(grammar)]
fn right(s: &[u8], plan: &mut [u8], pool: &mut [u8], st: Cursor, sort: usize, op: u8) -> Step
    requires { Asks 0 s.now plan.old pool.old st × Known sort }
    ensures { Post spell_side (write_side sort op) (λ t. 4) 2 s.now plan.old plan.new pool.old pool.new st result }
{
    let at = st.at;
    let a = skip_blanks(s, at);
    let (n, flag) = operand(s, plan, pool, moved(st, a))?;
    if !comparable(flag) {
        return Err(a);
    }
    Ok((write_compare(plan, n, sort, plain_sort(flag), op), 4))
}

// "(" S logical-expr S ")"; tells the sort of what is inside
#[cycle(grammar)]
fn paren(s: &[u8], plan: &mut [u8], pool: &mut [u8], st: Cursor) -> Step
    requires { Asks 0 s.now plan.old pool.old st × Opens 0x28 s.now st }
    ensures { Post spell_paren write_paren (λ t. sort_number (sort_paren t)) 0 s.now plan.old plan.new pool.old pool.new st result }
{
    let at = st.at;
    let a = skip_blanks(s, at + 1);
    let (n, sort) = any(s, plan, pool, moved(st, a), true)?;
    let here = n.at;
    let e = skip_blanks(s, here);
    if !is(s, e, b')') {
        return Err(e);
    }
    Ok((moved(n, e + 1), sort))
}

// literal / filter-query / function-expr; tells the flag: 0 a literal, 1 to 4 the sort, 5 a query that a singular-query spells
#[cycle(grammar)]
fn operand(s: &[u8], plan: &mut [u8], pool: &mut [u8], st: Cursor) -> Step
    requires { Asks 0 s.now plan.old pool.old st }
    ensures { Post spell_operand write_operand operand_flag 1 s.now plan.old plan.new pool.old pool.new st result }
{
    let at = st.at;
    if is(s, at, b'@') {
        return query(&s[0..], plan, pool, moved(st, at + 1), kinds::CURRENT);
    }
    if is(s, at, b'$') {
        return query(&s[0..], plan, pool, moved(st, at + 1), kinds::ROOT);
    }
    let Ok(e) = read_word(s, at) else {
        return write_literal(s, plan, pool, st);
    };
    if is(s, e, b'(') {
        return function(s, plan, pool, moved(st, e + 1), named_at(s, at, e));
    }
    write_keyword(s, plan, st, e)
}

// segments behind "@" or "$", as a query that starts with the given item; tells the flag of an operand
#[cycle(grammar)]
pub fn query(s: &[u8], plan: &mut [u8], pool: &mut [u8], st: Cursor, start: u8) -> Step
    requires { Asks 2 s.now plan.old pool.old st }
    ensures { Post spell_segments (λ t. write_from start (write_segments t)) query_flag 1 s.now plan.old plan.new pool.old pool.new st result }
{
    let head = item(plan, st, start);
    let (n, flag) = segments(s, plan, pool, head)?;
    Ok((item(plan, n, kinds::END), query_flag(flag)))
}
