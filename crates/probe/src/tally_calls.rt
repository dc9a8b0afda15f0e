// The call take: a plan with its pool, taken into counts.
use crate::calls::{Fault, LARGE_ROOM};
use program_console::output;
use program_lines::words::Words;
use std::alloc::Global;
use tally::KINDS;

// A count has eight bytes.
const COUNTS_BYTES: usize = 2048;

// Answers take.
pub fn take(rt: &impl Print, alloc: Global, mut words: Words) -> Result<(), Fault> {
    let before = words.bytes(alloc, COUNTS_BYTES)?;
    let mut plans = words.number()? as u64;
    let plan = words.bytes(alloc, LARGE_ROOM)?;
    let pool = words.bytes(alloc, LARGE_ROOM)?;
    if before.len() != COUNTS_BYTES {
        return Err(Fault::BadLine);
    }
    let mut counts = counts_of(&before);
    let refusal = tally::tally(&plan, &pool, &mut counts, &mut plans);
    if refusal == 0 {
        output::text(rt, b"ok ")?;
        output::bytes(rt, &bytes_of(&counts))?;
        output::next_number(rt, plans as usize)?;
    } else {
        output::text(rt, b"refused")?;
        output::next_number(rt, refusal as usize)?;
    }
    output::newline(rt)?;
    Ok(())
}

// The counts that bytes spell, the least byte of each first.
fn counts_of(bytes: &[u8]) -> [u64; KINDS] {
    let mut counts = [0u64; KINDS];
    for (count, digits) in counts.iter_mut().zip(bytes.chunks_exact(8)) {
        *count = digits.iter().rev().fold(0, |n, b| n << 8 | u64::from(*b));
    }
    counts
}

// Counts as bytes, the least byte of each first.
fn bytes_of(counts: &[u64; KINDS]) -> [u8; COUNTS_BYTES] {
    let mut bytes = [0u8; COUNTS_BYTES];
    for (part, count) in bytes.chunks_exact_mut(8).zip(counts) {
        part.copy_from_slice(&count.to_le_bytes());
    }
    bytes
}
