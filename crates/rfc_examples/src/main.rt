// The worked examples of RFC 9535, run by select and compared. tools/rfc_examples.py makes the input from the examples as data.
// Each line of the input is an example:
//
//     NAME QUERY TABLE TEXT HERE NODES RFC NODES
//
// with byte strings in hexadecimal, a dash for an empty one. HERE and its nodes say what this engine is to answer, RFC and its nodes what the RFC does:
//
//     list       these nodes in this order
//     members    these nodes in any order, repeats counted: the RFC fixes no order of a map's members
//     accepted   the query compiles; there is nothing to select from
//     refused    the query is refused, by the number that stands for the nodes, or by any if none stands there
//
// A node is two bytes, little-endian, and a refusal's number one. For each example the program writes `ok NAME`, `ok NAME, not as the RFC` or
// `wrong NAME` with what came instead, and at the end how many there were of each.
//
//     examples   what is read of a line, and how it is compared

#![tactic(auto)]

mod examples;

use examples::Verdict;
use program_console::input::Lines;
use program_console::output;
use std::alloc::Global;
use std::io;

// How many lines are answered at most.
const LINES: usize = 1048576;

// Room for a line.
const LINE_ROOM: usize = 65536;

// How many examples came to each verdict.
#[derive(Clone, Copy)]
struct Tally {
    same: u64,
    other: u64,
    wrong: u64,
}

impl Tally {
    // Counts a verdict.
    fn count(&mut self, verdict: Verdict) {
        match verdict {
            Verdict::Same => self.same = self.same.saturating_add(1),
            Verdict::Other => self.other = self.other.saturating_add(1),
            Verdict::Wrong => self.wrong = self.wrong.saturating_add(1),
        }
    }
}

// Runs the example of a line.
fn verdict(rt: &impl Print, alloc: Global, line: &[u8]) -> io::Result<Verdict> {
    if LINE_ROOM < line.len() {
        output::text(rt, b"wrong: too long\n")?;
        return Ok(Verdict::Wrong);
    }
    examples::run(rt, alloc, line)
}

// Runs every example, and writes how many there were.
fn main(rt: HostRuntime) -> io::Result<()> {
    let alloc = rt.alloc();
    let mut tally = Tally {
        same: 0,
        other: 0,
        wrong: 0,
    };
    for line in Lines::new(alloc, rt.reader(), LINE_ROOM as u32)?.take(LINES) {
        tally.count(verdict(&rt, alloc, &line?)?);
    }
    let Tally { same, other, wrong } = tally;
    println!(rt; "{same} as the RFC, {other} not as the RFC, {wrong} wrong")
}
