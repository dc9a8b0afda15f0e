// The words of an answer, on standard output. Each function fails where a write does.
use program_lines::WordError;
use std::alloc::AllocError;
use std::io;

// Room for the digits of 65,536 bytes.
const DIGITS_ROOM: usize = 131072;

pub fn text(rt: &impl Print, s: &[u8]) -> io::Result<()> {
    rt.write_all(s)
}

pub fn newline(rt: &impl Print) -> io::Result<()> {
    text(rt, b"\n")
}

pub fn number(rt: &impl Print, n: usize) -> io::Result<()> {
    print!(rt; "{n}")
}

// A number behind a blank.
pub fn next_number(rt: &impl Print, n: usize) -> io::Result<()> {
    print!(rt; " {n}")
}

// The nodes at the first n places of a list, each behind a blank.
pub fn nodes(rt: &impl Print, list: &[u32], n: usize) -> io::Result<()> {
    for node in list.iter().take(n) {
        print!(rt; " {node}")?;
    }
    Ok(())
}

// A byte string in hexadecimal, or a dash if it is empty. Of more than 65,536 bytes three dots are written.
// The digits stand in an array and not in a Vec: what prints has no allocator, and one write takes them all.
pub fn bytes(rt: &impl Print, s: &[u8]) -> io::Result<()> {
    if s.is_empty() {
        return text(rt, b"-");
    }
    let mut digits = [0u8; DIGITS_ROOM];
    if digits.len() / 2 < s.len() {
        return text(rt, b"...");
    }
    let n = program_lines::encode(s, &mut digits);
    text(rt, &digits[..n])
}

// Writes that a line is none that the program reads. It fails too where memory ran out.
pub fn bad_line(rt: &impl Print, error: WordError) -> io::Result<()> {
    match error {
        WordError::OutOfMemory => Err(io::Error::from(AllocError)),
        WordError::TooLong | WordError::Bad => text(rt, b"bad line\n"),
    }
}
