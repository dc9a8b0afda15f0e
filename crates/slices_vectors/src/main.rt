// Prints what every index and slice of a small range selects on lists of 0 to 3 elements. The file stdout has what document 01 says,
// by the rule in make.py.
//
// A bound is written by a code of 0..11: 0 is absent, 1 to 9 are -4 to 4, 10 and 11 are the ends of the range, -(2^53-1) and 2^53-1.

#![tactic(auto)]

ghost use Rattle.std.specs.Prelude.{◌≡◌, true, ◌≤◌, ◌<◌};
ghost use Rattle.definition.specs.Limits.{max_nodes};
ghost use Rattle.definition.specs.Literals.{in_range};
ghost use Rattle.slices.specs.Walks.{Inside};

use slices::Walk;
use std::io;

const MAX_INT: i64 = 9007199254740991;

const LISTS: usize = 4;

const CODES: usize = 12;

const PAIRS: usize = CODES * CODES;

const TRIPLES: usize = CODES * PAIRS;

const SLICES: usize = LISTS * TRIPLES;

const GIVEN: usize = CODES - 1;

const INDICES: usize = LISTS * GIVEN;

// The bound that a code stands for; an absent one has the value 0.
fn value(code: usize) -> i64
    ensures { in_range result ≡ true }
{
    match code {
        1 => -4,
        2 => -3,
        3 => -2,
        4 => -1,
        6 => 1,
        7 => 2,
        8 => 3,
        9 => 4,
        10 => -MAX_INT,
        11 => MAX_INT,
        _ => 0,
    }
}

// Writes a code's bound: `_` for absent, `L` and `H` for the ends of the range.
fn print_code(rt: &impl Print, code: usize) -> io::Result<()> {
    if code == 0 {
        return print!(rt; "_");
    }
    if code == 10 {
        return print!(rt; "L");
    }
    if code == 11 {
        return print!(rt; "H");
    }
    if code < 5 {
        return print!(rt; "-{}", 5 - code);
    }
    print!(rt; "{}", code - 5)
}

// Writes a blank and a number.
fn print_place(rt: &impl Print, at: usize) -> io::Result<()> {
    print!(rt; " {at}")
}

// Writes the places that are left of a walk.
fn print_walk(rt: &impl Print, n: usize, walk: Walk) -> io::Result<()>
    requires { (n ≤ max_nodes) × Inside n walk }
{
    // A loop over the walk, which is no iterator: its next place is asked of `slices`.
    let mut w = walk;
    while 0 < w.left {
        print_place(rt, w.at)?;
        w = slices::next_place(w);
    }
    Ok(())
}

// One line: a list's length, the bounds and the step, and what the slice selects.
fn print_slice(rt: &impl Print, n: usize, start: usize, stop: usize, step: usize) -> io::Result<()>
    requires { n ≤ max_nodes }
{
    print!(rt; "{n} ")?;
    print_code(rt, start)?;
    print!(rt; ":")?;
    print_code(rt, stop)?;
    print!(rt; ":")?;
    print_code(rt, step)?;
    print!(rt; " ->")?;
    let w = slices::slice_walk(
        n,
        start != 0,
        value(start),
        stop != 0,
        value(stop),
        step != 0,
        value(step),
    );
    print_walk(rt, n, w)?;
    println!(rt; "")
}

// One line: a list's length, the index, and what it selects.
fn print_index(rt: &impl Print, n: usize, code: usize) -> io::Result<()>
    requires { n ≤ max_nodes }
{
    print!(rt; "{n} ")?;
    print_code(rt, code)?;
    print!(rt; " ->")?;
    if let Some(k) = slices::index_place(n, value(code)) {
        print_place(rt, k)?;
    }
    println!(rt; "")
}

// Every index on every list: no index is absent.
fn indices(rt: &impl Print) -> io::Result<()> {
    for t in 0..INDICES {
        print_index(rt, t / GIVEN, t % GIVEN + 1)?;
    }
    Ok(())
}

// Every slice on every list.
fn all_slices(rt: &impl Print) -> io::Result<()> {
    for t in 0..SLICES {
        print_slice(
            rt,
            t / TRIPLES,
            t / PAIRS % CODES,
            t / CODES % CODES,
            t % CODES,
        )?;
    }
    Ok(())
}

fn main(rt: HostRuntime) -> io::Result<()> {
    indices(&rt)?;
    all_slices(&rt)
}
