// Expressions, each with a text: read and tested, compared with the file stdout. make.py writes both files.
// Each line of the input is an expression, a blank and a text, both UTF-8 in hexadecimal, a dash for an empty one.
// For each line the program writes what holds: `match and search`, `search`, `match` or `neither`. With an expression outside the part that is `neither`.

#![tactic(auto)]

ghost use Rattle.std.specs.Prelude.{◌≡◌, true};
ghost use Rattle.definition.specs.Utf8.{is_utf8};

use plan_format::kinds::{MATCH, SEARCH};
use program_console::input::Lines;
use program_console::output;
use program_lines::WordError;
use program_lines::words::Words;
use std::alloc::Global;
use std::io;

// How many lines are answered at most.
const LINES: usize = 1048576;

// Room for a line, and for a word of it.
const LINE_ROOM: usize = 65536;

const WORD_ROOM: usize = 4096;

fn bad_line(rt: &impl Print) -> io::Result<()> {
    output::text(rt, b"bad line\n")
}

fn show(rt: &impl Print, whole: bool, part: bool) -> io::Result<()> {
    if whole {
        if part {
            output::text(rt, b"match and search")
        } else {
            output::text(rt, b"match")
        }
    } else if part {
        output::text(rt, b"search")
    } else {
        output::text(rt, b"neither")
    }
}

// The answer for a text and an expression.
fn answer(rt: &impl Print, text: &[u8], expression: &[u8]) -> io::Result<()>
    requires { (is_utf8 text.now ≡ true) × (is_utf8 expression.now ≡ true) }
{
    let whole = regex_rooms::holds(MATCH, text, expression);
    let part = regex_rooms::holds(SEARCH, text, expression);
    show(rt, whole, part)?;
    output::newline(rt)
}

fn verdict(rt: &impl Print, expression: &[u8], text: &[u8]) -> io::Result<()> {
    if !text::encoding::is_utf8(expression) {
        return bad_line(rt);
    }
    if !text::encoding::is_utf8(text) {
        return bad_line(rt);
    }
    answer(rt, text, expression)
}

// Answers a line.
fn answer_line(rt: &impl Print, alloc: Global, line: &[u8]) -> io::Result<()> {
    match operands(alloc, line) {
        Ok((expression, text)) => verdict(rt, &expression, &text),
        Err(error) => output::bad_line(rt, error),
    }
}

// The expression and the text of a line.
fn operands(alloc: Global, line: &[u8]) -> Result<(Vec<u8>, Vec<u8>), WordError> {
    if LINE_ROOM < line.len() {
        return Err(WordError::TooLong);
    }
    let mut words = Words::new(line);
    let expression = words.bytes(alloc, WORD_ROOM)?;
    let text = words.bytes(alloc, WORD_ROOM)?;
    Ok((expression, text))
}

// Answers each line.
fn main(rt: HostRuntime) -> io::Result<()> {
    let alloc = rt.alloc();
    for line in Lines::new(alloc, rt.reader(), LINE_ROOM as u32)?.take(LINES) {
        answer_line(&rt, alloc, &line?)?;
    }
    Ok(())
}
