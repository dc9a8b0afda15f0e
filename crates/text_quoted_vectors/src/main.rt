// Takes each line of its input as a quoted text with what follows it, and prints the bytes that it stands for, in hexadecimal, and how many
// bytes follow its closing quote; or the place where it is no quoted text, counted from behind the opening quote.
// make.py writes the input and what must be printed.

#![tactic(auto)]

ghost use Rattle.std.specs.Prelude.{◌≡◌, true, ◌≤◌, length};
ghost use Rattle.definition.specs.Lexical.{own_byte};
ghost use Rattle.definition.specs.Utf8.{is_utf8};
ghost use Rattle.text_quoted.specs.Quoted.{quote_of};

use program_console::{input, output, rooms};
use std::io;
use text_quoted::Unescaped;

// How much of the input is read.
const INPUT_ROOM: u32 = 65536;

// Writes bytes in hexadecimal.
fn print_bytes(rt: &impl Print, s: &[u8]) -> io::Result<()> {
    for b in s {
        print!(rt; "{b:02x}")?;
    }
    Ok(())
}

// Writes a line: the bytes, and how many bytes follow.
fn print_done(rt: &impl Print, bytes: &[u8], left: usize) -> io::Result<()> {
    output::text(rt, b"ok ")?;
    print_bytes(rt, bytes)?;
    output::next_number(rt, left)?;
    output::newline(rt)
}

// Writes a line: the place where the text is wrong.
fn print_bad(rt: &impl Print, place: usize) -> io::Result<()> {
    output::text(rt, b"bad")?;
    output::next_number(rt, place)?;
    output::newline(rt)
}

// A text behind its opening quote; out is room for what it stands for.
fn show(rt: &impl Print, quote: u8, s: &[u8], out: &mut [u8]) -> io::Result<()>
    requires { (own_byte (quote_of quote) ≡ quote) × (is_utf8 s.now ≡ true) × (length s.now ≤ length out.old) }
{
    match text_quoted::unescape_string(s, 0, quote, out, 0) {
        Ok(Unescaped { next, end }) => print_done(rt, &out[..end], s.len() - next),
        Err(place) => print_bad(rt, place),
    }
}

// One line of the input.
fn show_line(rt: &impl Print, line: &[u8], out: &mut [u8]) -> io::Result<()> {
    if line.len() == 0 {
        return output::text(rt, b"empty\n");
    }
    let quote = line[0];
    let s = &line[1..];
    if s.len() > out.len() {
        return output::text(rt, b"too long\n");
    }
    if !text::encoding::is_utf8(s) {
        return output::text(rt, b"not UTF-8\n");
    }
    if quote == b'"' {
        return show(rt, quote, s, out);
    }
    if quote == b'\'' {
        return show(rt, quote, s, out);
    }
    output::text(rt, b"no quote\n")
}

// Every line of the input.
fn show_lines(rt: &impl Print, s: &[u8], out: &mut [u8]) -> io::Result<()> {
    for line in s.split_inclusive(|b| *b == b'\n') {
        show_line(rt, line.strip_suffix(b"\n".as_slice()).unwrap_or(line), out)?;
    }
    Ok(())
}

fn main(rt: HostRuntime) -> io::Result<()> {
    let mut out = rooms::buffer();
    let input = input::first(rt.alloc(), &mut rt.reader(), INPUT_ROOM)?;
    show_lines(&rt, &input, &mut out)
}
