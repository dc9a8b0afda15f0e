// An example: its words are read, and what select answers is compared with what is wanted.
use program_console::output;
use program_lines::words::Words;
use program_lines::{WordError, words};
use std::alloc::{AllocError, Global};
use std::io;

// Room for a query, for a table or a text, and for the list of nodes that are wanted.
const QUERY_ROOM: usize = 4096;

const TABLE_ROOM: usize = 65536;

const WANTED_ROOM: usize = 2048;
// How many places the list of selected nodes has.
const PLACES: usize = 1024;

// What an example comes to.
#[derive(Clone, Copy)]
pub enum Verdict {
    // As the RFC says, and as this engine is to answer.
    Same,
    // As this engine is to answer, and not as the RFC says.
    Other,
    Wrong,
}

// An answer that is wanted.
#[derive(Drop)]
enum Wanted {
    // These nodes in this order.
    List(Vec<u32>),
    // These nodes in any order.
    Members(Vec<u32>),
    Accepted,
    // The refusal with this number, or any.
    Refused(Option<u8>),
    // Words that name no answer. Nothing fits them.
    Unknown,
}

// The words of an example behind its name.
#[derive(Drop)]
struct Example {
    query: Vec<u8>,
    table: Vec<u8>,
    text: Vec<u8>,
    here: Wanted,
    rfc: Wanted,
}

// The nodes of a byte string: two bytes each, the lower first.
fn nodes_of(alloc: Global, bytes: &[u8]) -> Result<Vec<u32>, WordError> {
    let mut nodes = Vec::new(alloc);
    for pair in bytes.chunks_exact(2) {
        nodes.push(256 * u32::from(pair[1]) + u32::from(pair[0]))?;
    }
    Ok(nodes)
}

// The answer of a kind, with its nodes or its number.
fn wanted_of(alloc: Global, kind: &[u8], bytes: &[u8]) -> Result<Wanted, WordError> {
    match kind {
        b"list" => Ok(Wanted::List(nodes_of(alloc, bytes)?)),
        b"members" => Ok(Wanted::Members(nodes_of(alloc, bytes)?)),
        b"accepted" => Ok(Wanted::Accepted),
        b"refused" => Ok(Wanted::Refused(bytes.first().copied())),
        _ => Ok(Wanted::Unknown),
    }
}

// Reads the two words of an answer.
fn read_wanted(alloc: Global, words: &mut Words) -> Result<Wanted, WordError> {
    let kind = words.next_word().ok_or(WordError::Bad)?;
    match words.bytes(alloc, WANTED_ROOM) {
        Ok(bytes) => wanted_of(alloc, kind, &bytes),
        Err(WordError::OutOfMemory) => Err(WordError::OutOfMemory),
        Err(_) => Ok(Wanted::Unknown),
    }
}

// Reads the words of a line.
fn read_example(alloc: Global, line: &[u8]) -> Result<Example, WordError> {
    if words::count(line) != 8 {
        return Err(WordError::Bad);
    }
    let mut words = Words::new(line);
    words.next_word();
    let query = words.bytes(alloc, QUERY_ROOM)?;
    let table = words.bytes(alloc, TABLE_ROOM)?;
    let text = words.bytes(alloc, TABLE_ROOM)?;
    let here = read_wanted(alloc, &mut words)?;
    let rfc = read_wanted(alloc, &mut words)?;
    Ok(Example {
        query,
        table,
        text,
        here,
        rfc,
    })
}

// Runs the example of a line.
pub fn run(rt: &impl Print, alloc: Global, line: &[u8]) -> io::Result<Verdict> {
    let name = Words::new(line).next_word().unwrap_or(line);
    match read_example(alloc, line) {
        Ok(example) => judge(rt, name, &example),
        Err(WordError::OutOfMemory) => Err(io::Error::from(AllocError)),
        Err(_) => {
            output::text(rt, b"wrong ")?;
            output::text(rt, name)?;
            output::text(rt, b": bad line\n")?;
            Ok(Verdict::Wrong)
        }
    }
}

// Selects, and compares what came with the two answers.
fn judge(rt: &impl Print, name: &[u8], example: &Example) -> io::Result<Verdict> {
    let mut list = [0u32; PLACES];
    let selection = select::select(&example.query, &example.table, &example.text, &mut list, 0);
    let answer = selection.map_err(refusals::select_number);
    if !fits(&example.here, answer, &list) {
        show_wrong(rt, name, answer, &list)?;
        return Ok(Verdict::Wrong);
    }
    output::text(rt, b"ok ")?;
    output::text(rt, name)?;
    if fits(&example.rfc, answer, &list) {
        output::newline(rt)?;
        return Ok(Verdict::Same);
    }
    output::text(rt, b", not as the RFC\n")?;
    Ok(Verdict::Other)
}

// Writes what came and is not wanted.
fn show_wrong(
    rt: &impl Print,
    name: &[u8],
    answer: Result<usize, u8>,
    list: &[u32],
) -> io::Result<()> {
    output::text(rt, b"wrong ")?;
    output::text(rt, name)?;
    match answer {
        Ok(count) => {
            print!(rt; ": ok {count}")?;
            output::nodes(rt, list, count)?;
        }
        Err(number) => print!(rt; ": refused {number}")?,
    }
    output::newline(rt)
}

// Whether what came, so many nodes or a refusal's number, is the answer that is wanted.
fn fits(wanted: &Wanted, answer: Result<usize, u8>, list: &[u32]) -> bool {
    match wanted {
        Wanted::List(nodes) => match selected(answer, list) {
            Some(listed) => listed == nodes.as_slice(),
            None => false,
        },
        Wanted::Members(nodes) => match selected(answer, list) {
            Some(listed) => same_in_any_order(nodes, listed),
            None => false,
        },
        Wanted::Accepted => answer.is_ok(),
        Wanted::Refused(Some(number)) => *number == answer.err().unwrap_or(0),
        Wanted::Refused(None) => answer.is_err(),
        Wanted::Unknown => false,
    }
}

// The nodes that were selected, if all of them have a place.
fn selected(answer: Result<usize, u8>, list: &[u32]) -> Option<&[u32]> {
    match answer {
        Ok(count) => list.get(..count),
        Err(_) => None,
    }
}

// Whether each node that is wanted was selected as often as it is wanted, and no other.
fn same_in_any_order(nodes: &[u32], listed: &[u32]) -> bool {
    nodes.len() == listed.len()
        && nodes
            .iter()
            .all(|one| times(nodes, *one) == times(listed, *one))
}

// How often a node stands in a list.
fn times(list: &[u32], one: u32) -> usize {
    list.iter().filter(|node| **node == one).count()
}
