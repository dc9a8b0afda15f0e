// The calls run and select.
use crate::calls::{Fault, LARGE_ROOM, Lent, QUERY_ROOM};
use program_console::output;
use program_lines::words::Words;
use refusals::RunNumbers;
use std::alloc::Global;
use std::io;

// The longest list.
const LIST_ROOM: usize = 65535;
// What a place holds before the call. No node has this number.
const NOT_SET: u32 = 0xffff_ffff;

// Answers run.
pub fn run(rt: &impl Print, alloc: Global, mut words: Words) -> Result<(), Fault> {
    let plan = words.bytes(alloc, LARGE_ROOM)?;
    let pool = words.bytes(alloc, LARGE_ROOM)?;
    let lent = Lent::read(alloc, &mut words)?;
    let length = words.number()?;
    let start = words.number()?;
    let mut list = places(alloc, length)?;
    let ran = run::run(&plan, &pool, &lent.table, &lent.text, &mut list, start);
    show(rt, refusals::of_run(ran), &list)?;
    Ok(())
}

// Answers select.
pub fn select(rt: &impl Print, alloc: Global, mut words: Words) -> Result<(), Fault> {
    let query = words.bytes(alloc, QUERY_ROOM)?;
    let lent = Lent::read(alloc, &mut words)?;
    let length = words.number()?;
    let start = words.number()?;
    let mut list = places(alloc, length)?;
    let selection = select::select(&query, &lent.table, &lent.text, &mut list, start);
    show(rt, refusals::of_select(selection), &list)?;
    Ok(())
}

// A list of a length.
fn places(alloc: Global, length: usize) -> Result<Vec<u32>, Fault> {
    if LIST_ROOM < length {
        return Err(Fault::TooLong);
    }
    Ok(vec![in alloc; NOT_SET; length]?)
}

// Writes the outcome and the places up to the last that was written, with a dot for one that was not.
fn show(rt: &impl Print, outcome: RunNumbers, list: &[u32]) -> io::Result<()> {
    if outcome.refusal == 0 {
        output::text(rt, b"ok")?;
        output::next_number(rt, outcome.count)?;
    } else {
        output::text(rt, b"refused")?;
        output::next_number(rt, outcome.refusal as usize)?;
        output::next_number(rt, outcome.node)?;
    }
    for node in list.iter().take(written(list)) {
        show_place(rt, *node)?;
    }
    output::newline(rt)
}

// One more than the last place that was written, or 0.
fn written(list: &[u32]) -> usize {
    list.len()
        - list
            .iter()
            .rev()
            .take_while(|node| **node == NOT_SET)
            .count()
}

fn show_place(rt: &impl Print, node: u32) -> io::Result<()> {
    if node == NOT_SET {
        output::text(rt, b" .")
    } else {
        output::next_number(rt, node as usize)
    }
}
