// What a program reads: its input line by line, or its first bytes. A line ends at a line feed, or where the input ends; every other byte belongs to it.
ghost use Rattle.std.specs.Prelude.{◌≡◌, ◌+◌, ◌^◌, ◌≤◌, IfOk, vec_len};

use std::alloc::Global;
use std::io;
use std::io::{BufRead, BufReader, Read};

const NEWLINE: u8 = b'\n';

// The lines of an input. Of a line of more than `room` bytes, one more than these are kept.
#[derive(Drop)]
pub struct Lines<R> {
    reader: BufReader<R>,
    alloc: Global,
    room: u32,
    // How many lines are still read at most.
    left: u64,
}

impl<R: Read + Drop> Lines<R> {
    pub fn new(alloc: Global, reader: R, room: u32) -> io::Result<Self>
        ensures { IfOk result (λ lines. (lines.room ≡ room) × (lines.left + 1 ≡ 2 ^ 64)) }
    {
        Ok(Lines {
            reader: BufReader::new(alloc, reader)?,
            alloc,
            room,
            left: u64::MAX,
        })
    }
}

impl<R: Read + Drop> Iterator for Lines<R> {
    type Item = io::Result<Vec<u8>>;

    ghost use Rattle.std.specs.Iterator.{at_most};

    ghost remaining = { λ s. at_most s.left };

    fn next(&mut self) -> Option<io::Result<Vec<u8>>> {
        if self.left == 0 {
            return None;
        }
        self.left -= 1;
        next_line(self.alloc, &mut self.reader, self.room).transpose()
    }
}

// The next line, or nothing behind the last one.
fn next_line(alloc: Global, reader: &mut impl BufRead, room: u32) -> io::Result<Option<Vec<u8>>> {
    let mut line = Vec::new(alloc);
    let most = u64::from(room) + 1;
    if reader.by_ref().take(most).read_until(NEWLINE, &mut line)? == 0 {
        return Ok(None);
    }
    if line.last() == Some(&NEWLINE) {
        line.pop();
    } else if (room as usize) < line.len() {
        reader.skip_until(NEWLINE)?;
    }
    Ok(Some(line))
}

// The first `room` bytes of an input, or all if it has fewer.
pub fn first(alloc: Global, reader: &mut impl Read, room: u32) -> io::Result<Vec<u8>>
    ensures { IfOk result (λ bytes. vec_len bytes ≤ room) }
{
    let mut bytes = Vec::new(alloc);
    reader
        .by_ref()
        .take(u64::from(room))
        .read_to_end(&mut bytes)?;
    // No more were read, which `read_to_end` does not say.
    bytes.truncate(room as usize);
    Ok(bytes)
}

#[cfg(test)]
mod tests {
    use super::*;
    use std::test::Fail;

    // A line that is longer than the room keeps one byte more; the input ends without a line feed.
    #[test]
    fn reads_lines_and_first_bytes(rt: HostRuntime) -> Result<(), Fail> {
        let mut lines = Lines::new(rt.alloc(), b"ab\n\nabcdef\nxy".as_slice(), 3)?;
        for want in [
            b"ab".as_slice(),
            b"".as_slice(),
            b"abcd".as_slice(),
            b"xy".as_slice(),
        ] {
            match lines.next() {
                Some(line) => assert_eq!(rt; line?.as_slice(), want),
                None => assert!(rt; false),
            }
        }
        assert!(rt; lines.next().is_none());
        let kept = first(rt.alloc(), &mut b"abcdef".as_slice(), 4)?;
        assert_eq!(rt; kept.as_slice(), b"abcd".as_slice());
        Ok(())
    }
}
