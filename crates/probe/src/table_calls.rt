// The calls records, texts, table, text and key.
use crate::calls::{Fault, Lent};
use program_console::output;
use program_lines::words::Words;
use std::alloc::Global;
use std::io;
use table::TableRefusal;

// The refusal of a check that names no node.
const WRONG_SIZE: u8 = 9;

// What the lent number holds before a call.
const NOT_SET: u8 = 255;

// Answers table.
pub fn check_table(rt: &impl Print, alloc: Global, mut words: Words) -> Result<(), Fault> {
    let lent = Lent::read(alloc, &mut words)?;
    show(rt, table::check_table(&lent.table, &lent.text))?;
    Ok(())
}

// Answers records.
pub fn check_records(rt: &impl Print, alloc: Global, mut words: Words) -> Result<(), Fault> {
    let lent = Lent::read(alloc, &mut words)?;
    show(rt, table::check_records(&lent.table, &lent.text))?;
    Ok(())
}

// Answers texts.
pub fn check_texts(rt: &impl Print, alloc: Global, mut words: Words) -> Result<(), Fault> {
    let lent = Lent::read(alloc, &mut words)?;
    show(rt, table::check_texts(&lent.table, &lent.text))?;
    Ok(())
}

// Writes what a check found.
fn show(rt: &impl Print, checked: Result<(), TableRefusal>) -> io::Result<()> {
    let numbers = refusals::of_check(checked);
    if numbers.refusal == 0 {
        return output::text(rt, b"ok\n");
    }
    output::text(rt, b"refused")?;
    output::next_number(rt, numbers.refusal as usize)?;
    if numbers.refusal != WRONG_SIZE {
        output::next_number(rt, numbers.node)?;
    }
    output::newline(rt)
}

// Answers text.
pub fn text(rt: &impl Print, alloc: Global, mut words: Words) -> Result<(), Fault> {
    let lent = Lent::read(alloc, &mut words)?;
    let node = words.number()?;
    let mut number = NOT_SET;
    let part = table::text_of_node(&lent.table, &lent.text, node, &mut number);
    show_part(rt, part, number)?;
    Ok(())
}

// Answers key.
pub fn key(rt: &impl Print, alloc: Global, mut words: Words) -> Result<(), Fault> {
    let lent = Lent::read(alloc, &mut words)?;
    let node = words.number()?;
    let mut number = NOT_SET;
    let part = table::key_of_node(&lent.table, &lent.text, node, &mut number);
    show_part(rt, part, number)?;
    Ok(())
}

// Writes a part, or the refusal.
fn show_part(rt: &impl Print, part: &[u8], number: u8) -> io::Result<()> {
    if number == 0 {
        output::text(rt, b"ok ")?;
        output::bytes(rt, part)?;
    } else {
        output::text(rt, b"refused")?;
        output::next_number(rt, number as usize)?;
    }
    output::newline(rt)
}
