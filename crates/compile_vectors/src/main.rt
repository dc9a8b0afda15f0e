// Queries, each with the refusal that the given Rust text and document 01 come to, compiled and compared. `differential/run.sh vectors` made the files
// stdin and stdout from the Rust text's answers (docs/DIFFERENCES.md, "Random queries").
// Each line of the input is a query in hexadecimal, or a dash for an empty one, then a blank and the refusal, 0 for none.
// For each line the program writes `ok`, or `refused` and the number; and `differs` behind an answer that is not the line's.
// The last line counts the queries and the answers that differ.

#![tactic(auto)]

use program_console::input::Lines;
use program_console::{input, output, rooms};
use program_lines::WordError;
use program_lines::words::Words;
use std::alloc::Global;
use std::io;

// How much of the input is read.
const INPUT_ROOM: u32 = 131072;

// Room for a query.
const QUERY_ROOM: usize = 65536;

// Compiles a query and writes what it comes to. The answer is whether that is the refusal given.
fn verdict(
    rt: &impl Print,
    query: &[u8],
    want: usize,
    plan: &mut [u8],
    pool: &mut [u8],
) -> io::Result<bool> {
    let refusal = refusals::of_compile(compile::compile(query, plan, pool)).refusal as usize;
    if refusal == 0 {
        output::text(rt, b"ok")?;
    } else {
        output::text(rt, b"refused")?;
        output::next_number(rt, refusal)?;
    }
    if refusal == want {
        output::newline(rt)?;
    } else {
        output::text(rt, b" differs\n")?;
    }
    Ok(refusal == want)
}

// The query of a line and the refusal that is wanted. The number is the rest of the line.
fn operands(alloc: Global, line: &[u8]) -> Result<(Vec<u8>, usize), WordError> {
    let mut words = Words::new(line);
    let query = words.next_word().ok_or(WordError::Bad)?;
    let want = program_lines::read_number(words.rest().ok_or(WordError::Bad)?)?;
    Ok((program_lines::decode(alloc, query, QUERY_ROOM)?, want))
}

// The verdict on a line.
fn verdict_of_line(
    rt: &impl Print,
    alloc: Global,
    line: &[u8],
    plan: &mut [u8],
    pool: &mut [u8],
) -> io::Result<bool> {
    match operands(alloc, line) {
        Ok((query, want)) => verdict(rt, &query, want, plan, pool),
        Err(error) => {
            output::bad_line(rt, error)?;
            Ok(false)
        }
    }
}

// The verdict on each line, and the counts. The input is read before anything is written.
fn main(rt: HostRuntime) -> io::Result<()> {
    let alloc = rt.alloc();
    let mut plan = rooms::large_buffer();
    let mut pool = rooms::large_buffer();
    let mut count = 0u64;
    let mut other = 0u64;
    let input = input::first(alloc, &mut rt.reader(), INPUT_ROOM)?;
    for line in Lines::new(alloc, input.as_slice(), INPUT_ROOM)? {
        let same = verdict_of_line(&rt, alloc, &line?, &mut plan, &mut pool)?;
        other = other.saturating_add(u64::from(!same));
        count = count.saturating_add(1);
    }
    println!(rt; "{count} queries, {other} answers differ")
}
