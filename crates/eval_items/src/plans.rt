// Where the items of a plan end.
ghost use Rattle.std.specs.Prelude.{◌≡◌, ◌+◌, ◌≤◌, length};
ghost use Rattle.definition.specs.Bytes.{number, part};
ghost use Rattle.eval_items.specs.Ends.{AskNext, AskSkip, AskPast, AskLiteral, DoneNext, DoneSkip, DonePast, DoneLiteral};

use plan_format::kinds::{CONSTANT, END, INDEX, NAME, SLICE, TEXT, WILDCARD};
use plan_format::lengths;
use text::bytes;

// The place behind the item at p that has its size in it: a filter, or `&&` or `||` with its right operand.
pub fn past_sized(plan: &[u8], p: usize) -> usize
    requires { p + 3 ≤ length plan.now }
    ensures { result ≡ p + 3 + number (part plan.now (p + 1) 2) }
{
    p + lengths::SIZE_ITEM + bytes::word16(plan, p + 1)
}

// The place behind the selector at p.
pub fn next_selector(plan: &[u8], p: usize) -> usize
    requires { AskNext plan.now p }
    ensures { DoneNext plan.now p result }
{
    let k = plan[p];
    if k == NAME {
        return p + lengths::POOLED_ITEM;
    }
    if k == INDEX {
        return p + lengths::NUMBER_ITEM;
    }
    if k == SLICE {
        return p + lengths::SLICE_ITEM;
    }
    if k == WILDCARD {
        return p + lengths::PLAIN_ITEM;
    }
    past_sized(plan, p)
}

// The place behind the n selectors at p.
pub fn skip_selectors(plan: &[u8], p: usize, n: usize) -> usize
    requires { AskSkip plan.now p n }
    ensures { DoneSkip plan.now p n result }
{
    let mut q = p;
    for m in 1..n {
        q = next_selector(plan, q);
    }
    next_selector(plan, q)
}

// The place behind the query whose segments begin at pc.
pub fn past_query(plan: &[u8], pc: usize) -> usize
    requires { AskPast plan.now pc }
    ensures { DonePast plan.now pc result }
{
    let mut p = pc;
    // A loop over p: a segment is as long as its selectors are, so `for` says no step.
    while plan[p] != END {
        let n = bytes::word16(plan, p + 1);
        p = skip_selectors(plan, p + lengths::SIZE_ITEM, n);
    }
    p + 1
}

// The place behind the literal at q.
pub fn past_literal(plan: &[u8], q: usize) -> usize
    requires { AskLiteral plan.now q }
    ensures { DoneLiteral plan.now q result }
{
    let k = plan[q];
    if k == CONSTANT {
        return q + lengths::BYTE_ITEM;
    }
    if k == TEXT {
        return q + lengths::POOLED_ITEM;
    }
    q + lengths::NUMBER_ITEM
}
