// Compile, select and run, each with the very statement that is promised of it: `promises_stated` has the types (Promises.antt) and what follows from them (Demands.antt).
// Each is thin over the operation of its name below, requires nothing, and leaves one outcome for each input. A contract below that said less would not prove this crate.

#![tactic(auto)]

ghost use Rattle.promises_stated.specs.Promises.{CompilesOnly, SelectsOnly, RunsOnly};
ghost use Rattle.compile.specs.Outcomes.{outcome};
ghost use Rattle.select.specs.Selections.{selected};
ghost use Rattle.run.specs.Outcomes.{ran};

use compile::{CompileRefusal, Lengths};
use run::RunRefusal;
use select::SelectRefusal;

// From any bytes to a plan and a pool in the lent rooms, or a refusal: 1 to 6, 8 or 12.
pub fn compile(query: &[u8], plan: &mut [u8], pool: &mut [u8]) -> Result<Lengths, CompileRefusal>
    ensures { CompilesOnly query.now plan.old pool.old (outcome result plan.new pool.new) }
{
    compile::compile(query, plan, pool)
}

// The nodes of a table that a query selects, into the lent list from a start position on, or a refusal: 1 to 6, 8, 9, 10, 13, 14 or 17.
pub fn select<'a>(
    query: &[u8],
    table: &'a [u8],
    text: &'a [u8],
    list: &mut [u32],
    start: usize,
) -> Result<usize, SelectRefusal>
    ensures { SelectsOnly query.now table.now text.now list.old start (selected result list.new) }
{
    select::select(query, table, text, list, start)
}

// The nodes of a table that a plan selects, into the lent list from a start position on, or a refusal: 9, 10, 11, 13, 14 or 17.
pub fn run<'a>(
    plan: &'a [u8],
    pool: &'a [u8],
    table: &'a [u8],
    text: &'a [u8],
    list: &mut [u32],
    start: usize,
) -> Result<usize, RunRefusal>
    ensures { RunsOnly plan.now pool.now table.now text.now list.old start (ran result list.new) }
{
    run::run(plan, pool, table, text, list, start)
}
