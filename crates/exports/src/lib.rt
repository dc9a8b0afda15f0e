// The operations as functions that a C or Rust engine links: plain numbers and slices, each thin over the operation of `promises_tables`, `promises_plans` or `promises_queries`, with its statement carried over.
// include/stewpebble.h declares them for C.

#![tactic(auto)]

ghost use Rattle.promises_stated.specs.Promises.{CompilesOnly, SelectsOnly, RunsOnly, ChecksPlanOnly, ChecksRecordsOnly, ChecksTextsOnly, ChecksTableOnly, TextOnly, KeyOnly, PathOnly, TalliesOnly};
ghost use Rattle.std.specs.Prelude.{◌≡◌};
ghost use Rattle.table.specs.Outcomes.{answered};
ghost use Rattle.tally.specs.Counts.{tallied};
ghost use Rattle.definition.specs.Bytes.{part};
ghost use Rattle.definition.specs.Tables.{low_word, high_word, key_start, key_length};
ghost use Rattle.exports.specs.Outcomes.{told, Placed, addressed, compiled, ran_to};

use refusals::{CheckNumbers, RunNumbers};
use table::records;

// Hands out the numbers of a check's answer.
fn tell_check(numbers: CheckNumbers, node: &mut u64) -> u32
    ensures { (result ≡ numbers.refusal) × (node.new ≡ numbers.node) }
{
    *node = numbers.node as u64;
    numbers.refusal as u32
}

// The check of the records alone: the refusal, 0 for none; the node of refusal 10 is set, and 0 otherwise.
#[unsafe(no_mangle)]
pub extern "C" fn stewpebble_check_records(table: &[u8], text: &[u8], node: &mut u64) -> u32
    ensures { ChecksRecordsOnly table.now text.now (told result node.new) }
{
    let checked = promises_tables::check_records(table, text);
    tell_check(refusals::of_check(checked), node)
}

// The check of the texts and keys alone: the refusal, 0 for none; the node of refusal 17 is set, and 0 otherwise.
#[unsafe(no_mangle)]
pub extern "C" fn stewpebble_check_texts(table: &[u8], text: &[u8], node: &mut u64) -> u32
    ensures { ChecksTextsOnly table.now text.now (told result node.new) }
{
    let checked = promises_tables::check_texts(table, text);
    tell_check(refusals::of_check(checked), node)
}

// The pair of checks: the refusal, 0 for none; the node of refusals 10 and 17 is set, and 0 otherwise.
#[unsafe(no_mangle)]
pub extern "C" fn stewpebble_check_table(table: &[u8], text: &[u8], node: &mut u64) -> u32
    ensures { ChecksTableOnly table.now text.now (told result node.new) }
{
    let checked = promises_tables::check_table(table, text);
    tell_check(refusals::of_check(checked), node)
}

// Text of a node: the refusal, 0 for none; where the part of the lent text that holds it starts and its length are set, and 0 and 0 with every refusal.
#[unsafe(no_mangle)]
pub extern "C" fn stewpebble_text_of_node(
    table: &[u8],
    text: &[u8],
    node: usize,
    start: &mut u64,
    length: &mut u64,
) -> u32
    ensures answers { TextOnly table.now text.now node (answered (part text.now start.new length.new) result) }
    ensures place { Placed result (low_word table.now node) (high_word table.now node) start.new length.new }
{
    let mut number = 0u8;
    promises_tables::text_of_node(table, text, node, &mut number);
    if number != 0 {
        *start = 0;
        *length = 0;
        return number as u32;
    }
    *start = records::text_start(table, node) as u64;
    *length = records::text_length(table, node) as u64;
    0
}

// Key of a node, handed out as the text is.
#[unsafe(no_mangle)]
pub extern "C" fn stewpebble_key_of_node(
    table: &[u8],
    text: &[u8],
    node: usize,
    start: &mut u64,
    length: &mut u64,
) -> u32
    ensures answers { KeyOnly table.now text.now node (answered (part text.now start.new length.new) result) }
    ensures place { Placed result (key_start table.now node) (key_length table.now node) start.new length.new }
{
    let mut number = 0u8;
    promises_tables::key_of_node(table, text, node, &mut number);
    if number != 0 {
        *start = 0;
        *length = 0;
        return number as u32;
    }
    *start = records::key_start(table, node) as u64;
    *length = records::key_length(table, node) as u64;
    0
}

// Path of a node: the refusal, 0 for none; the path's length is set, also where refusal 16 names it, and 0 otherwise; the node of refusals 10 and 17 is set, and 0 otherwise.
#[unsafe(no_mangle)]
pub extern "C" fn stewpebble_path_of_node(
    table: &[u8],
    text: &[u8],
    node: usize,
    room: &mut [u8],
    length: &mut u64,
    wrong: &mut u64,
) -> u32
    ensures { PathOnly table.now text.now node room.old (addressed result length.new wrong.new room.new) }
{
    let written = promises_tables::path_of_node(table, text, node, room);
    let numbers = refusals::of_path(written);
    *length = numbers.size as u64;
    *wrong = numbers.node as u64;
    numbers.refusal as u32
}

// Compile: the refusal, 0 for none; the lengths of plan and pool are set, also where refusal 12 names them, and 0 otherwise.
#[unsafe(no_mangle)]
pub extern "C" fn stewpebble_compile(
    query: &[u8],
    plan: &mut [u8],
    pool: &mut [u8],
    planned: &mut u64,
    pooled: &mut u64,
) -> u32
    ensures { CompilesOnly query.now plan.old pool.old (compiled result planned.new pooled.new plan.new pool.new) }
{
    let compiled = promises_queries::compile(query, plan, pool);
    let numbers = refusals::of_compile(compiled);
    *planned = numbers.plan as u64;
    *pooled = numbers.pool as u64;
    numbers.refusal as u32
}

// Plan check: 11, or 0 where the plan and the pool are the translation of a query form.
#[unsafe(no_mangle)]
pub extern "C" fn stewpebble_check_plan(plan: &[u8], pool: &[u8]) -> u32
    ensures { ChecksPlanOnly plan.now pool.now result }
{
    if promises_plans::check_plan(plan, pool) {
        return 0;
    }
    11
}

// Takes a plan with its pool into the counts of kinds and the number of plans: the refusal, 11 or 21, and then nothing is counted; 0 for none.
#[unsafe(no_mangle)]
pub extern "C" fn stewpebble_tally(
    plan: &[u8],
    pool: &[u8],
    counts: &mut [u64; 256],
    plans: &mut u64,
) -> u32
    ensures { TalliesOnly plan.now pool.now counts.old plans.old (tallied result counts.new plans.new) }
{
    promises_plans::tally(plan, pool, counts, plans) as u32
}

// Hands out the numbers of a run's answer.
fn tell(numbers: RunNumbers, count: &mut u64, node: &mut u64) -> u32
    ensures { (result ≡ numbers.refusal) × (count.new ≡ numbers.count) × (node.new ≡ numbers.node) }
{
    *count = numbers.count as u64;
    *node = numbers.node as u64;
    numbers.refusal as u32
}

// Run: the refusal, 0 for none; the number of nodes selected is set, and 0 with every refusal; the node of refusals 10 and 17 is set, and 0 otherwise.
#[unsafe(no_mangle)]
pub extern "C" fn stewpebble_run<'a>(
    plan: &'a [u8],
    pool: &'a [u8],
    table: &'a [u8],
    text: &'a [u8],
    list: &mut [u32],
    start: usize,
    count: &mut u64,
    node: &mut u64,
) -> u32
    ensures { RunsOnly plan.now pool.now table.now text.now list.old start (ran_to result count.new node.new list.new) }
{
    let ran = promises_queries::run(plan, pool, table, text, list, start);
    tell(refusals::of_run(ran), count, node)
}

// Select: the refusal, 0 for none, with the same numbers as those of run.
#[unsafe(no_mangle)]
pub extern "C" fn stewpebble_select<'a>(
    query: &[u8],
    table: &'a [u8],
    text: &'a [u8],
    list: &mut [u32],
    start: usize,
    count: &mut u64,
    node: &mut u64,
) -> u32
    ensures { SelectsOnly query.now table.now text.now list.old start (ran_to result count.new node.new list.new) }
{
    let selection = promises_queries::select(query, table, text, list, start);
    tell(refusals::of_select(selection), count, node)
}
