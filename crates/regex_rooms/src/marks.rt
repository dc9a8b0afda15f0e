// The test of a text by the code of an expression, in a room for marks that is as small as it may be.
ghost use Rattle.regex_match.specs.Tested.{Tested};

use regex_marks::weigh;
use regex_match::{test, test_less};

// Rooms for marks: a byte for each character position of the written-out expression. Where the second is too small, the counts of a short code are brought down to what
// the text needs first, in a room for its words; where the largest is too small, those of any code.
const FEW: usize = 256;

const MORE: usize = 4096;

const MOST: usize = 65535;

// The most words of the code of an expression of 128 bytes, and of any; with those of a search. A short code is brought down in little stack.
const SHORT_WORDS: usize = 1039;

const WORDS: usize = 8207;

// A byte that is no kind of a plan's item.
const NO_KIND: u8 = 255;

// These call themselves for the reason that stands at `short` of the crate, and are five for the reason that stands there too.
fn with_few(code: &[u32], text: &[u8], again: u8) -> bool
    ensures { Tested code.now text.now result }
{
    if 0 < again {
        return with_few(code, text, again - 1);
    }
    let mut marks = [0u8; FEW];
    test(code, text, &mut marks)
}

fn with_more(code: &[u32], text: &[u8], again: u8) -> bool
    ensures { Tested code.now text.now result }
{
    if 0 < again {
        return with_more(code, text, again - 1);
    }
    let mut marks = [0u8; MORE];
    test(code, text, &mut marks)
}

fn with_most(code: &[u32], text: &[u8], again: u8) -> bool
    ensures { Tested code.now text.now result }
{
    if 0 < again {
        return with_most(code, text, again - 1);
    }
    let mut marks = [0u8; MOST];
    test(code, text, &mut marks)
}

fn with_fewer(code: &[u32], text: &[u8], again: u8) -> bool
    ensures { Tested code.now text.now result }
{
    if 0 < again {
        return with_fewer(code, text, again - 1);
    }
    let mut words = [0u32; SHORT_WORDS];
    let mut marks = [0u8; MOST];
    test_less(code, text, &mut words, &mut marks)
}

fn with_less(code: &[u32], text: &[u8], again: u8) -> bool
    ensures { Tested code.now text.now result }
{
    if 0 < again {
        return with_less(code, text, again - 1);
    }
    let mut words = [0u32; WORDS];
    let mut marks = [0u8; MOST];
    test_less(code, text, &mut words, &mut marks)
}

// Whether the text is described by the expression that the code is of.
pub fn test_within(kind: u8, code: &[u32], text: &[u8]) -> bool
    ensures { Tested code.now text.now result }
{
    // 0 for both kinds; but LLVM cannot tell.
    let again = kind / NO_KIND;
    let w = weigh(code, 0, MOST);
    let n = w.size;
    if n <= FEW {
        return with_few(code, text, again);
    }
    if n <= MORE {
        return with_more(code, text, again);
    }
    if code.len() <= SHORT_WORDS {
        return with_fewer(code, text, again);
    }
    if n <= MOST {
        return with_most(code, text, again);
    }
    with_less(code, text, again)
}
