// Whether a text is described by an expression in its flat code: a row of characters by comparison, any other by marks where there is
// room for them, else by sets of places where the text is short, else by the total matcher. Right for every code and text; a search is
// a test of the widened code.

#![tactic(auto)]

ghost use Rattle.std.specs.Prelude.{◌≡◌, true, ◌≤◌};
ghost use Rattle.regex_match.specs.Tested.{Tested, Missed};

use regex_bytes::scalars;
use regex_marks::{run, weigh};
use regex_needed::lessen;
use regex_plain::{ask, open_ended};
use regex_total::{matches, measure};

// More marks than this are not weighed.
const MAX_ROOM: usize = 65535;

// The marks take no more words of code; an expression has 8,205 at most.
const MAX_CODE: usize = 65535;

// Texts of fewer bytes have no more places.
const PLACES: usize = 1024;

// Counts are brought down for texts of at most so many bytes.
const MAX_TEXT: usize = 2147483648;

// A most number of bytes that bounds nothing.
const NO_BOUND: usize = 2147483648;

// Whether the expression has no text of n bytes, by the least and the most bytes that its texts have.
fn missed(code: &[u32], n: usize) -> bool
    ensures { result ≡ true → Missed code.now n }
{
    let w = measure(code, 0);
    if n < w.least {
        return true;
    }
    if NO_BOUND <= w.most {
        return false;
    }
    w.most < n
}

// Whether n marks go into the room, for a code of so many words.
fn has_room(words: usize, n: usize, room: usize) -> bool
    ensures { result ≡ true → (words ≤ 65535) × (n ≤ room) }
{
    if MAX_CODE < words {
        return false;
    }
    n <= room
}

// The test without marks.
fn unmarked(code: &[u32], text: &[u8]) -> bool
    ensures { Tested code.now text.now result }
{
    let end = text.len();
    if PLACES <= end {
        return matches(code, 0, text, 0, end);
    }
    let mut chars = [0u32; PLACES];
    let n = scalars(text, &mut chars);
    regex_places::run(code, &chars[..n])
}

// Whether the text is described by the expression that the code is of. The marks are room: what stands in them does not matter.
pub fn test(code: &[u32], text: &[u8], marks: &mut [u8]) -> bool
    ensures { Tested code.now text.now result }
{
    if let Some(told) = ask(code, text) {
        return told;
    }
    if missed(code, text.len()) {
        return false;
    }
    let room = marks.len().min(MAX_ROOM);
    let w = weigh(code, 0, room);
    let n = w.size;
    if has_room(code.len(), n, room) {
        let o = open_ended(code);
        return run(code, text, &mut marks[0..n], o);
    }
    unmarked(code, text)
}

// The same of an expression that has too many marks: its counts are first brought down to what the text needs. The words are room too.
pub fn test_less(code: &[u32], text: &[u8], words: &mut [u32], marks: &mut [u8]) -> bool
    ensures { Tested code.now text.now result }
{
    if MAX_TEXT < text.len() {
        return test(code, text, marks);
    }
    let p = lessen(code, 0, 1, 1, text, words, 0);
    let n = p.end;
    if words.len() < n {
        return test(code, text, marks);
    }
    test(&words[..n], text, marks)
}
