// Takes the plans of the queries on standard input, one to a line, and writes what they consist of: for each kind that occurs among their items, ascending, the kind
// in two hexadecimal digits, a blank and how often it occurs; at last `plans`, a blank and how many plans were taken.
//
// A line ends at a line feed, and the last one may lack it. A query that is refused is passed over.

#![tactic(auto)]

ghost use Rattle.std.specs.Prelude.{◌≡◌, ◌≤◌, length};
ghost use Rattle.compile.specs.Outcomes.{outcome};

use compile::{CompileRefusal, Lengths};
use program_console::input::Lines;
use program_console::output;
use std::io;
use tally::KINDS;

// The most bytes that a query may have. Of a longer line one byte more is taken, and the query is refused by its length all the same.
const QUERY_ROOM: u32 = 4096;
// Rooms for the plan and the pool of every query: 13 bytes of plan for each of a query's 4,096 bytes at most, and one of pool.
const PLAN_ROOM: usize = 53248;

const POOL_ROOM: usize = 4096;

// Writes the kinds that occur.
fn show(rt: &impl Print, counts: &[u64]) -> io::Result<()> {
    for (kind, count) in counts.iter().enumerate() {
        if 0 < *count {
            println!(rt; "{kind:02X} {count}")?;
        }
    }
    Ok(())
}

// Compiles a query. The rooms are never too small, so no query is passed over for them.
fn compile_query(query: &[u8], plan: &mut [u8], pool: &mut [u8]) -> Result<Lengths, CompileRefusal>
    requires { (53248 ≤ length plan.old) × (4096 ≤ length pool.old) }
    ensures { (outcome result plan.new pool.new).refusal ≡ 12 → ⊥ }
{
    compile::compile(query, plan, pool)
}

// Takes the plan of a query.
fn take(query: &[u8], counts: &mut [u64; KINDS], plans: &mut u64) {
    let mut plan = [0u8; PLAN_ROOM];
    let mut pool = [0u8; POOL_ROOM];
    if let Ok(lengths) = compile_query(query, &mut plan, &mut pool) {
        if let (Some(plan), Some(pool)) = (plan.get(..lengths.plan), pool.get(..lengths.pool)) {
            tally::tally(plan, pool, counts, plans);
        }
    }
}

// Takes every line.
fn main(rt: HostRuntime) -> io::Result<()> {
    let mut counts = [0u64; KINDS];
    let mut plans = 0u64;
    for line in Lines::new(rt.alloc(), rt.reader(), QUERY_ROOM)? {
        take(&line?, &mut counts, &mut plans);
    }
    show(&rt, &counts)?;
    println!(rt; "plans {plans}")
}
