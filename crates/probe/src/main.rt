// A program over the library's operations, driven by lines on standard input: one call and one answer for each line.
// A byte string is hexadecimal, and a dash if it is empty. A number is decimal. One blank stands between words.
//
//     records TABLE TEXT                       ok | refused 9 | refused 10 NODE
//     texts TABLE TEXT                         ok | refused 9 | refused 17 NODE
//     table TABLE TEXT                         ok | refused 9 | refused 10 NODE | refused 17 NODE
//     text TABLE TEXT NODE                     ok PART | refused N
//     key TABLE TEXT NODE                      ok PART | refused N
//     path TABLE TEXT NODE ROOM                ok PATH | refused N NUMBER
//     compile QUERY ROOM ROOM                  ok PLAN POOL | refused N LENGTH LENGTH
//     plan PLAN POOL                           ok | refused 11
//     run PLAN POOL TABLE TEXT LENGTH START    ok COUNT PLACES | refused N NODE PLACES
//     select QUERY TABLE TEXT LENGTH START     ok COUNT PLACES | refused N NODE PLACES
//     take COUNTS PLANS PLAN POOL              ok COUNTS PLANS | refused N
//
// The rooms of compile are the sizes that are lent for the plan and for the pool, at most 65,536 each, and so is the room of path. Behind an answer of either
// stands ` changed` if a lent byte changed that is to keep its value. The number of a refused path is the length that is needed or the wrong node, or 0. LENGTH is the length of the list that is lent to run and select, at most 65,535, and START any number. The places
// of the list are written from the first to the last that the call wrote, with a dot for one that it did not write. Numbers that a refusal's row does not
// name are 0. COUNTS are 256 numbers of eight bytes, little-endian, and PLANS is how many plans were taken.
//
// A line that is none of these answers `bad line`; one with a word that does not fit its room answers `too long`.
//
//     calls         the call of a line, and the words behind its name
//     list_calls    run and select
//     path_calls    path
//     plan_calls    compile and plan
//     rooms         rooms whose bytes are known
//     table_calls   records, texts, table, text and key
//     tally_calls   take

#![tactic(auto)]

mod calls;
mod list_calls;
mod path_calls;
mod plan_calls;
mod rooms;
mod table_calls;
mod tally_calls;

use calls::Fault;
use program_console::input::Lines;
use std::alloc::Global;
use std::io;

// Room for a line with the largest table and the largest text, or with the largest plan and the largest pool and a table.
const LINE_ROOM: usize = 524800;

// Answers a line.
fn answer(rt: &impl Print, alloc: Global, line: &[u8]) -> Result<(), Fault> {
    if LINE_ROOM < line.len() {
        return Err(Fault::TooLong);
    }
    calls::answer(rt, alloc, line)
}

// Answers every line.
fn main(rt: HostRuntime) -> io::Result<()> {
    let alloc = rt.alloc();
    for line in Lines::new(alloc, rt.reader(), LINE_ROOM as u32)? {
        if let Err(fault) = answer(&rt, alloc, &line?) {
            calls::show_fault(&rt, fault)?;
        }
    }
    Ok(())
}
