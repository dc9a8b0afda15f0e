// Calls of functions and their arguments, behind the name and "(". They nest into the rules of the crate's root and back.
ghost use Rattle.std.specs.Prelude.{◌≡◌, ◌≤◌, drop};
ghost use Rattle.definition.specs.Grammar.{spell_arguments, spell_more_arguments, spell_argument};
ghost use Rattle.compile_writes.specs.Sorts.{sort_argument, sorts_of, sorts_more};
ghost use Rattle.parser_scan.specs.Text.{number_of_function};
ghost use Rattle.compile_writes.specs.Writes.{write_arguments, write_more_arguments, write_argument};
ghost use Rattle.parser_follow.specs.Follow.{unblank};
ghost use Rattle.parser_items.specs.Reads.{Asks, Post, sort_number, arguments_from, Known};
ghost use Rattle.parser_follow.specs.Pieces.{spell_call, write_call, call_sort, spell_chained_of, write_chained_of, chained_of_sort};

use crate::{any, behind, more_and, more_or, operand};
use parser_items::verdicts::{call_sort, one_more, plain_sort};
use parser_items::{Cursor, Step, begins_operator, moved, write_call};
use parser_scan::{Function, is, skip_blanks};

// S [ arguments ] S ")", behind the name and "(" of a call of the function of that name, if there is one; tells its sort
#[cycle(grammar)]
pub fn function(
    s: &[u8],
    plan: &mut [u8],
    pool: &mut [u8],
    st: Cursor,
    name: Option<Function>,
) -> Step
    requires { Asks 0 s.now plan.old pool.old st }
    ensures { Post spell_call (write_call (number_of_function name)) (call_sort (number_of_function name)) 0 s.now plan.old plan.new pool.old pool.new st result }
{
    let at = st.at;
    let a = skip_blanks(s, at);
    let (n, sorts) = arguments(s, plan, pool, moved(st, a))?;
    let here = n.at;
    let e = skip_blanks(s, here);
    if !is(s, e, b')') {
        return Err(e);
    }
    Ok((
        write_call(plan, moved(n, e + 1), name, sorts),
        call_sort(name),
    ))
}

// [ function-argument *( S "," S function-argument ) ]; tells the sorts
#[cycle(grammar)]
pub fn arguments(s: &[u8], plan: &mut [u8], pool: &mut [u8], st: Cursor) -> Step
    requires { Asks 0 s.now plan.old pool.old st × (unblank (drop st.at s.now) ≡ drop st.at s.now) }
    ensures { Post spell_arguments write_arguments (λ t. arguments_from 0 (sorts_of t)) 6 s.now plan.old plan.new pool.old pool.new st result }
{
    let at = st.at;
    if is(s, at, b')') {
        return Ok((st, 0));
    }
    let (n, sort) = argument(s, plan, pool, st)?;
    more(s, plan, pool, n, one_more(0, sort))
}

// *( S "," S function-argument ), behind arguments of the given sorts
// The sorts are one number, as `Step` tells numbers: it says up to two sorts, or that there are more, and the library has no heap for a list.
#[cycle(grammar)]
pub fn more(s: &[u8], plan: &mut [u8], pool: &mut [u8], st: Cursor, sorts: usize) -> Step
    requires { Asks 0 s.now plan.old pool.old st × (sorts ≤ 31) }
    ensures { Post spell_more_arguments write_more_arguments (λ t. arguments_from sorts (sorts_more t)) 5 s.now plan.old plan.new pool.old pool.new st result }
{
    let mut now = st;
    let mut known = sorts;
    // A loop and no `for`: how many arguments follow is known only where none does.
    loop {
        let here = now.at;
        let a = skip_blanks(s, here);
        if !is(s, a, b',') {
            return Ok((now, known));
        }
        let b = skip_blanks(s, a + 1);
        let (n, sort) = argument(s, plan, pool, moved(now, b))?;
        now = n;
        known = one_more(known, sort);
    }
}

// function-argument = literal / filter-query / logical-expr / function-expr; tells its sort
#[cycle(grammar)]
pub fn argument(s: &[u8], plan: &mut [u8], pool: &mut [u8], st: Cursor) -> Step
    requires { Asks 0 s.now plan.old pool.old st }
    ensures { Post spell_argument write_argument (λ t. sort_number (sort_argument t)) 4 s.now plan.old plan.new pool.old pool.new st result }
{
    let at = st.at;
    if is(s, at, b'(') {
        return any(&s[0..], plan, pool, st, false);
    }
    if is(s, at, b'!') {
        return any(&s[0..], plan, pool, st, false);
    }
    let (n, flag) = operand(&s[0..], plan, pool, st)?;
    if flag == 0 {
        let here = n.at;
        let a = skip_blanks(s, here);
        if !begins_operator(s, a) {
            return Ok((n, 0));
        }
    }
    chained(&s[0..], plan, pool, n, flag)
}

// what is left of a logical-expr behind its first operand, straight in an argument
#[cycle(grammar)]
pub fn chained(s: &[u8], plan: &mut [u8], pool: &mut [u8], st: Cursor, flag: usize) -> Step
    requires { Asks 0 s.now plan.old pool.old st × Known flag }
    ensures { Post (spell_chained_of flag) (write_chained_of flag) (chained_of_sort flag) 4 s.now plan.old plan.new pool.old pool.new st result }
{
    // Most arguments that are no literals are queries alone, with the end of the call behind them.
    if flag != 0 {
        let at = st.at;
        let a = skip_blanks(s, at);
        if is(s, a, b')') {
            return Ok((st, plain_sort(flag)));
        }
    }
    let (n, sort) = behind(s, plan, pool, st, flag)?;
    let (m, kind) = more_and(s, plan, pool, n, sort, false)?;
    more_or(s, plan, pool, m, kind, false)
}
