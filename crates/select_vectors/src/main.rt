// Queries on small documents, each with the nodes that the given Rust text and document 01 come to, selected and compared.
// `differential/run.sh select-vectors` made the files stdin and stdout from the Rust text's answers (docs/DIFFERENCES.md, "Random documents").
// Each line of the input is a case:
//
//     QUERY TABLE TEXT ROW REFUSAL NODE..
//
// with byte strings in hexadecimal, a dash for an empty one. ROW is a dash where the answer is the Rust text's own, and else names the rows of
// docs/DIFFERENCES.md by which document 01's answer, which stands here, differs from it. REFUSAL is 0 where the query selects, and the nodes follow in order.
// For each line the program writes `ok` and the nodes, or `refused` and the number; and `differs` behind an answer that is not the line's.
// The last line counts the cases and the answers that differ.

#![tactic(auto)]

use program_console::input::Lines;
use program_console::output;
use program_lines::WordError;
use program_lines::words::Words;
use std::alloc::Global;
use std::io;

// How many places the list of selected nodes has.
const PLACES: usize = 1024;
// What a place holds before the call. No node has this number.
const NOT_SET: u32 = 0xffff_ffff;
// How many lines are answered at most.
const LINES: usize = 1048576;

// Room for a line, and for a word of it.
const LINE_ROOM: usize = 65536;

const WORD_ROOM: usize = 4096;

// What is selected, and from what.
#[derive(Drop)]
struct Case {
    query: Vec<u8>,
    table: Vec<u8>,
    text: Vec<u8>,
}

// Reads the words of a case.
fn read_case(alloc: Global, words: &mut Words) -> Result<Case, WordError> {
    let query = words.bytes(alloc, WORD_ROOM)?;
    let table = words.bytes(alloc, WORD_ROOM)?;
    let text = words.bytes(alloc, WORD_ROOM)?;
    Ok(Case { query, table, text })
}

// Whether the words that are left are the nodes at the first n places of a list.
fn same_nodes(mut words: Words, list: &[u32], n: usize) -> bool {
    for node in list.iter().take(n) {
        if words.number() != Ok(*node as usize) {
            return false;
        }
    }
    n <= list.len() && words.rest().is_none()
}

// Whether what came, so many nodes or a refusal's number, is the answer behind the row, which the words begin with.
fn fits(mut words: Words, answer: Result<usize, u8>, list: &[u32]) -> bool {
    words.next_word();
    match answer {
        Ok(count) => words.number() == Ok(0) && same_nodes(words, list, count),
        Err(number) => words.number() == Ok(number as usize) && words.rest().is_none(),
    }
}

fn show(rt: &impl Print, answer: Result<usize, u8>, list: &[u32]) -> io::Result<()> {
    match answer {
        Ok(count) => {
            output::text(rt, b"ok")?;
            output::nodes(rt, list, count)
        }
        Err(number) => print!(rt; "refused {number}"),
    }
}

// Selects, and writes what came and whether it is the answer that the words give. The answer is whether it is.
fn judge(rt: &impl Print, case: &Case, words: Words) -> io::Result<bool> {
    let mut list = [NOT_SET; PLACES];
    let selection = select::select(&case.query, &case.table, &case.text, &mut list, 0);
    let answer = selection.map_err(refusals::select_number);
    let same = fits(words, answer, &list);
    show(rt, answer, &list)?;
    if same {
        output::newline(rt)?;
    } else {
        output::text(rt, b" differs\n")?;
    }
    Ok(same)
}

// The verdict on a line.
fn verdict(rt: &impl Print, alloc: Global, line: &[u8]) -> io::Result<bool> {
    if LINE_ROOM < line.len() {
        output::bad_line(rt, WordError::TooLong)?;
        return Ok(false);
    }
    let mut words = Words::new(line);
    match read_case(alloc, &mut words) {
        Ok(case) => judge(rt, &case, words),
        Err(error) => {
            output::bad_line(rt, error)?;
            Ok(false)
        }
    }
}

// The verdict on each line, and the counts.
fn main(rt: HostRuntime) -> io::Result<()> {
    let alloc = rt.alloc();
    let mut count = 0u64;
    let mut other = 0u64;
    for line in Lines::new(alloc, rt.reader(), LINE_ROOM as u32)?.take(LINES) {
        let same = verdict(&rt, alloc, &line?)?;
        other = other.saturating_add(u64::from(!same));
        count = count.saturating_add(1);
    }
    println!(rt; "{count} cases, {other} answers differ")
}
