// The calls compile and plan.
use crate::calls::{Fault, LARGE_ROOM, QUERY_ROOM};
use crate::rooms;
use program_console::output;
use program_lines::words::Words;
use std::alloc::Global;

// Answers plan.
pub fn check(rt: &impl Print, alloc: Global, mut words: Words) -> Result<(), Fault> {
    let plan = words.bytes(alloc, LARGE_ROOM)?;
    let pool = words.bytes(alloc, LARGE_ROOM)?;
    if plan_check::check_plan(&plan, &pool) {
        output::text(rt, b"ok\n")?;
    } else {
        output::text(rt, b"refused 11\n")?;
    }
    Ok(())
}

// Answers compile.
pub fn compile(rt: &impl Print, alloc: Global, mut words: Words) -> Result<(), Fault> {
    let query = words.bytes(alloc, QUERY_ROOM)?;
    let plan_size = words.number()?;
    let pool_size = words.number()?;
    let mut plan = rooms::filled(alloc, plan_size)?;
    let mut pool = rooms::filled(alloc, pool_size)?;
    let done = refusals::of_compile(compile::compile(&query, &mut plan, &mut pool));
    if done.refusal == 0 {
        output::text(rt, b"ok ")?;
        output::bytes(rt, rooms::first(&plan, done.plan))?;
        output::text(rt, b" ")?;
        output::bytes(rt, rooms::first(&pool, done.pool))?;
        let changed = rooms::is_changed(&plan, done.plan) || rooms::is_changed(&pool, done.pool);
        rooms::show_changed(rt, changed)?;
        return Ok(());
    }
    output::text(rt, b"refused")?;
    output::next_number(rt, done.refusal as usize)?;
    output::next_number(rt, done.plan)?;
    output::next_number(rt, done.pool)?;
    let changed = rooms::is_changed(&plan, 0) || rooms::is_changed(&pool, 0);
    rooms::show_changed(rt, changed)?;
    Ok(())
}
