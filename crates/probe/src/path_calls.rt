// The call path.
use crate::calls::{Fault, Lent};
use crate::rooms;
use program_console::output;
use program_lines::words::Words;
use std::alloc::Global;

// The refusal that names the path's length.
const SMALL_ROOM: u8 = 16;

// Answers path: the node of refusals 10 and 17, the length of refusal 16, and 0 otherwise.
pub fn answer(rt: &impl Print, alloc: Global, mut words: Words) -> Result<(), Fault> {
    let lent = Lent::read(alloc, &mut words)?;
    let node = words.number()?;
    let mut room = rooms::filled(alloc, words.number()?)?;
    let written = table_path::path_of_node(&lent.table, &lent.text, node, &mut room);
    let numbers = refusals::of_path(written);
    let size = numbers.size;
    if numbers.refusal == 0 {
        output::text(rt, b"ok ")?;
        output::bytes(rt, rooms::first(&room, size))?;
        rooms::show_changed(rt, rooms::is_changed(&room, size))?;
        return Ok(());
    }
    output::text(rt, b"refused")?;
    output::next_number(rt, numbers.refusal as usize)?;
    if numbers.refusal == SMALL_ROOM {
        output::next_number(rt, size)?;
    } else {
        output::next_number(rt, numbers.node)?;
    }
    rooms::show_changed(rt, rooms::is_changed(&room, 0))?;
    Ok(())
}
