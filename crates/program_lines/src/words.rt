// The words of a line one after the other, with one blank between them.
ghost use Rattle.std.specs.Prelude.{◌≡◌, ◌+◌, ◌≤◌, length, Some, List, ℕ, Option, IfOk, vec_len};
ghost use Rattle.program_lines.specs.Words.{left_of, TakesWord, TakenAs, DecodedAs, NumberAs};

use crate::{WordError, decode, read_number};
use std::alloc::Global;

const BLANK: u8 = b' ';

// How many words a line has: one more than its blanks.
pub fn count(line: &[u8]) -> usize
    ensures { result ≤ length line.now + 1 }
{
    line.iter().filter(|b| **b == BLANK).count() + 1
}

// What is left of a line: the words from one on, or nothing behind the last word.
#[derive(Clone, Copy)]
pub struct Words<'a> {
    rest: Option<&'a [u8]>,
}

impl<'a> Words<'a> {
    pub fn new(line: &'a [u8]) -> Self
        ensures { left_of result.rest ≡ Some line.now }
    {
        Words { rest: Some(line) }
    }

    // Takes the next word.
    pub fn next_word(&mut self) -> Option<&'a [u8]>
        ensures { TakesWord (left_of self.old.rest) (left_of result) (left_of self.new.rest) }
    {
        let rest = self.rest?;
        match rest.iter().position(|b| *b == BLANK) {
            Some(end) => {
                self.rest = Some(&rest[end + 1..]);
                Some(&rest[..end])
            }
            None => {
                self.rest = None;
                Some(rest)
            }
        }
    }

    // Takes the next word, a byte string of at most `room` bytes in hexadecimal.
    pub fn bytes(&mut self, alloc: Global, room: usize) -> Result<Vec<u8>, WordError>
        ensures word { (word : Option (List ℕ)) × TakesWord (left_of self.old.rest) word (left_of self.new.rest) × IfOk result (λ bytes. TakenAs (λ s. DecodedAs s bytes.items) word) }
        ensures room { IfOk result (λ bytes. vec_len bytes ≤ room) }
    {
        match self.next_word() {
            Some(word) => decode(alloc, word, room),
            None => Err(WordError::Bad),
        }
    }

    // Takes the next word, a decimal number.
    pub fn number(&mut self) -> Result<usize, WordError>
        ensures { (word : Option (List ℕ)) × TakesWord (left_of self.old.rest) word (left_of self.new.rest) × IfOk result (λ n. TakenAs (λ s. NumberAs s n) word) }
    {
        match self.next_word() {
            Some(word) => read_number(word),
            None => Err(WordError::Bad),
        }
    }

    // The words that are left, as they stand on the line.
    pub fn rest(&self) -> Option<&'a [u8]>
        ensures { left_of result ≡ left_of self.now.rest }
    {
        let Words { rest } = *self;
        rest
    }
}

#[cfg(test)]
mod tests {
    use super::*;
    use std::test::Fail;

    #[test]
    fn reads_the_words_of_a_line(rt: HostRuntime) -> Result<(), Fail> {
        let mut words = Words::new(b"run 2F0a - 17 x".as_slice());
        assert_eq!(rt; words.next_word(), Some(b"run".as_slice()));
        let bytes = words.bytes(rt.alloc(), 2)?;
        assert_eq!(rt; bytes.as_slice(), [0x2F, 0x0A].as_slice());
        let none = words.bytes(rt.alloc(), 0)?;
        assert!(rt; none.is_empty());
        assert_eq!(rt; words.number(), Ok(17));
        assert_eq!(rt; words.rest(), Some(b"x".as_slice()));
        assert_eq!(rt; words.number(), Err(WordError::Bad));
        assert_eq!(rt; words.next_word(), None);
        Ok(())
    }
}
