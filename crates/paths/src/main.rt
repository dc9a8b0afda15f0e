// Answers the queries on standard input, one to a line, over the sample table {"a":[10,20.0,30],"b":"é"}.
// For each line it writes `ok`, how many nodes the query selects and the nodes, or `refused` and the refusal's number, with one blank between.
//
// A line ends at a line feed, and the last one may lack it. Every other byte belongs to the query; an empty line is a query too, refused 4.

#![tactic(auto)]

use program_console::input::Lines;
use program_console::output;
use select::SelectRefusal;
use std::io;

// The most bytes that a query may have. Of a longer line one byte more is taken, and the query is refused by its length all the same.
const QUERY_ROOM: u32 = 4096;
// How many places the list of selected nodes has.
const PLACES: usize = 4096;

// Writes what a query came to.
fn show(rt: &impl Print, selection: Result<usize, SelectRefusal>, list: &[u32]) -> io::Result<()> {
    match selection {
        Ok(count) => {
            print!(rt; "ok {count}")?;
            output::nodes(rt, list, count)?;
        }
        Err(refusal) => {
            let number = refusals::select_number(refusal);
            print!(rt; "refused {number}")?;
        }
    }
    output::newline(rt)
}

// Answers a query.
fn answer(rt: &impl Print, query: &[u8]) -> io::Result<()> {
    // A line for each node: the map, its members a and b, and the elements of a.
    let table = b"\
        \x07\0\0\0\0\0\0\0\0\0\0\0\0\0\0\0\x01\0\0\0\x02\0\0\0\
        \x06\x01\0\0\0\0\0\0\x01\0\0\0\0\0\0\0\x03\0\0\0\x03\0\0\0\
        \x05\x01\0\0\x01\0\0\0\x01\0\0\0\0\0\0\0\x02\0\0\0\x02\0\0\0\
        \x03\x02\0\0\0\0\0\0\0\0\0\0\x01\0\0\0\x0a\0\0\0\0\0\0\0\
        \x04\x02\0\0\0\0\0\0\0\0\0\0\x01\0\0\0\0\0\0\0\0\0\x34\x40\
        \x03\x02\0\0\0\0\0\0\0\0\0\0\x01\0\0\0\x1e\0\0\0\0\0\0\0\
        ";
    let text = b"ab\xc3\xa9";
    let mut list = [0u32; PLACES];
    let selection = select::select(query, table, text, &mut list, 0);
    show(rt, selection, &list)
}

// Answers every line.
fn main(rt: HostRuntime) -> io::Result<()> {
    for line in Lines::new(rt.alloc(), rt.reader(), QUERY_ROOM)? {
        answer(&rt, &line?)?;
    }
    Ok(())
}
