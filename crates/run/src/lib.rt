// Runs a plan on a table of values: the numbers of the nodes that it selects, into a list of the caller's from a start position on.

#![tactic(auto)]

ghost use Rattle.std.specs.Prelude.{◌≡◌};
ghost use Rattle.definition.specs.Outcomes.{Runs};
ghost use Rattle.run.specs.Outcomes.{ran, Planned, RunsForm, AskPlacing, DonePlacing};

use table::TableRefusal;

// Why no node is selected, or not every one has a place.
#[derive(Clone, Copy)]
pub enum RunRefusal {
    // Refusal 11: the plan and the pool are not the translation of a query form.
    WrongPlan,
    // Refusals 9, 10 and 17: what the check of the table finds.
    Table(TableRefusal),
    // Refusal 14: the start position is beyond the list's length.
    WrongStart,
    // Refusal 13: more nodes are selected than there are places from the start position on, and the first of them stand there.
    NoRoom,
}

impl From<TableRefusal> for RunRefusal {
    ghost use Rattle.run.specs.declared.RunRefusal.TheVariants.{Table};

    ghost from_gives = { λ refusal given. given ≡ Table refusal };

    fn from(refusal: TableRefusal) -> RunRefusal {
        RunRefusal::Table(refusal)
    }
}

// The nodes that a plan selects of an accepted table, into the places from the start position on, and how many they are.
fn place_nodes<'a>(
    plan: &'a [u8],
    pool: &'a [u8],
    table: &'a [u8],
    text: &'a [u8],
    list: &mut [u32],
    start: usize,
) -> Result<usize, RunRefusal>
    requires { AskPlacing plan.now pool.now table.now text.now }
    ensures { DonePlacing plan.now pool.now table.now text.now list.old start (ran result list.new) }
{
    if list.len() < start {
        return Err(RunRefusal::WrongStart);
    }
    let room = list.len() - start;
    let n = eval::entrance::evaluate(
        plan,
        pool,
        table,
        text,
        0,
        0,
        1,
        &mut list[start..],
        0,
        room,
    );
    if n <= room {
        Ok(n)
    } else {
        Err(RunRefusal::NoRoom)
    }
}

// Runs a plan that is the translation of a query form.
pub fn run_form<'a>(
    plan: &'a [u8],
    pool: &'a [u8],
    table: &'a [u8],
    text: &'a [u8],
    list: &mut [u32],
    start: usize,
) -> Result<usize, RunRefusal>
    requires { Planned plan.now pool.now }
    ensures { RunsForm plan.now pool.now table.now text.now list.old start (ran result list.new) }
{
    table::check_table(table, text)?;
    place_nodes(plan, pool, table, text, list, start)
}

// Runs a plan.
pub fn run<'a>(
    plan: &'a [u8],
    pool: &'a [u8],
    table: &'a [u8],
    text: &'a [u8],
    list: &mut [u32],
    start: usize,
) -> Result<usize, RunRefusal>
    ensures { Runs plan.now pool.now table.now text.now list.old start (ran result list.new) }
{
    if plan_check::check_plan(plan, pool) {
        return run_form(plan, pool, table, text, list, start);
    }
    Err(RunRefusal::WrongPlan)
}
