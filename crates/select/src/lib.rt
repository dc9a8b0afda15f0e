// Select: the nodes of a table that a query selects, into a list of the caller's from a start position on.
// The query is read in rooms of this crate's own, and its plan is run where it stands.

#![tactic(auto)]

ghost use Rattle.std.specs.Prelude.{◌≡◌, ◌≤◌, length};
ghost use Rattle.definition.specs.Outcomes.{RunOutcome, Selects, early};
ghost use Rattle.compile.specs.Steps.{Enough, Sizes};
ghost use Rattle.compile_unique.specs.Readings.{OneSelect};
ghost use Rattle.select.specs.Selections.{selected};

use compile::Refusal;
use compile::rooms::{
    BRIEF, BRIEF_PLAN_ROOM, BRIEF_POOL_ROOM, MIDDLE, MIDDLE_PLAN_ROOM, MIDDLE_POOL_ROOM, NO_BYTE,
    PLAN_ROOM, POOL_ROOM, SHORT, SHORT_PLAN_ROOM, SHORT_POOL_ROOM, SMALL, SMALL_PLAN_ROOM,
    SMALL_POOL_ROOM, TINY, TINY_PLAN_ROOM, TINY_POOL_ROOM, early_refusal, judge, parse,
};
use run::{RunRefusal, run_form};

// Why no node is selected, or not every one has a place.
#[derive(Clone, Copy)]
pub enum SelectRefusal {
    // The query is refused.
    Query(Refusal),
    // Running its plan is refused.
    Run(RunRefusal),
}

impl From<Refusal> for SelectRefusal {
    ghost use Rattle.select.specs.declared.SelectRefusal.TheVariants.{Query};

    ghost from_gives = { λ refusal given. given ≡ Query refusal };

    fn from(refusal: Refusal) -> SelectRefusal {
        SelectRefusal::Query(refusal)
    }
}

impl From<RunRefusal> for SelectRefusal {
    ghost use Rattle.select.specs.declared.SelectRefusal.TheVariants.{Run};

    ghost from_gives = { λ refusal given. given ≡ Run refusal };

    fn from(refusal: RunRefusal) -> SelectRefusal {
        SelectRefusal::Run(refusal)
    }
}

// A query that no early refusal meets, read in the two rooms given; and how many nodes are selected.
fn select_in<'a>(
    query: &[u8],
    room: &'a mut [u8],
    texts: &'a mut [u8],
    table: &'a [u8],
    text: &'a [u8],
    list: &mut [u32],
    start: usize,
) -> Result<usize, SelectRefusal>
    requires { Enough query.now room.old texts.old × (early query.now ≡ 0) }
    ensures { OneSelect query.now table.now text.now list.old start (selected result list.new) }
{
    let Ok(st) = parse(query, room, texts) else {
        return Err(SelectRefusal::Query(Refusal::Malformed));
    };
    judge(st)?;
    let plan = &room[..st.len];
    let pool = &texts[..st.pool];
    let count = run_form(plan, pool, table, text, list, start)?;
    Ok(count)
}

// The same in rooms of these sizes, which are cleared.
fn select_within<'a, const PLAN: usize, const POOL: usize>(
    query: &[u8],
    table: &'a [u8],
    text: &'a [u8],
    list: &mut [u32],
    start: usize,
) -> Result<usize, SelectRefusal>
    requires { Sizes query.now PLAN POOL × (early query.now ≡ 0) }
    ensures { OneSelect query.now table.now text.now list.old start (selected result list.new) }
{
    let mut room = [0u8; PLAN];
    let mut texts = [0u8; POOL];
    select_in(query, &mut room, &mut texts, table, text, list, start)
}

// As compile::rooms::compile_middle, it calls itself so that LLVM does not join it into its caller.
// Two functions and not one with sizes: bin/archive names both, to keep them apart.
fn select_middle<'a>(
    query: &[u8],
    table: &'a [u8],
    text: &'a [u8],
    list: &mut [u32],
    start: usize,
    again: u8,
) -> Result<usize, SelectRefusal>
    requires { (length query.now ≤ 1024) × (early query.now ≡ 0) }
    ensures { OneSelect query.now table.now text.now list.old start (selected result list.new) }
{
    if 0 < again {
        return select_middle(query, table, text, list, start, again - 1);
    }
    select_within::<MIDDLE_PLAN_ROOM, MIDDLE_POOL_ROOM>(query, table, text, list, start)
}

// The same for every query.
fn select_long<'a>(
    query: &[u8],
    table: &'a [u8],
    text: &'a [u8],
    list: &mut [u32],
    start: usize,
    again: u8,
) -> Result<usize, SelectRefusal>
    requires { early query.now ≡ 0 }
    ensures { OneSelect query.now table.now text.now list.old start (selected result list.new) }
{
    if 0 < again {
        return select_long(query, table, text, list, start, again - 1);
    }
    select_within::<PLAN_ROOM, POOL_ROOM>(query, table, text, list, start)
}

// "Select: the same without 12, then 9, 10, 14, 13." There is one outcome for each input.
pub fn select<'a>(
    query: &[u8],
    table: &'a [u8],
    text: &'a [u8],
    list: &mut [u32],
    start: usize,
) -> Result<usize, SelectRefusal>
    ensures answers { Selects query.now table.now text.now list.old start (selected result list.new) }
    ensures only { (o : RunOutcome) → Selects query.now table.now text.now list.old start o → o ≡ selected result list.new }
{
    early_refusal(query)?;
    if query.len() <= TINY {
        return select_within::<TINY_PLAN_ROOM, TINY_POOL_ROOM>(query, table, text, list, start);
    }
    if query.len() <= SMALL {
        return select_within::<SMALL_PLAN_ROOM, SMALL_POOL_ROOM>(query, table, text, list, start);
    }
    if query.len() <= BRIEF {
        return select_within::<BRIEF_PLAN_ROOM, BRIEF_POOL_ROOM>(query, table, text, list, start);
    }
    if query.len() <= SHORT {
        return select_within::<SHORT_PLAN_ROOM, SHORT_POOL_ROOM>(query, table, text, list, start);
    }
    // 0 for every query, since it is UTF-8; but LLVM cannot tell.
    let again = query[0] / NO_BYTE;
    if query.len() <= MIDDLE {
        return select_middle(query, table, text, list, start, again);
    }
    select_long(query, table, text, list, start, again)
}
