// Quoted texts of a query: from their spelling to the bytes that they stand for, in one pass.
//
//   digits     the four hexadecimal digits behind \u, and a low surrogate's escape
//   escapes    what stands behind a backslash, as a code point
//   writing    runs of plain bytes, and a code point's UTF-8 bytes
//
// specs/Quoted.antt has the words of unescape_string's contract, and specs/Pieces.antt those of its parts.

#![tactic(auto)]

mod digits;
mod escapes;
mod writing;

ghost use Rattle.std.specs.Prelude.{◌≡◌, ◌+◌, ◌-◌, ◌≤◌, length, drop};
ghost use Rattle.definition.specs.Lexical.{own_byte};
ghost use Rattle.basics.specs.Reads.{StartsNot};
ghost use Rattle.utf8_laws.specs.Names.{unescaped_byte};
ghost use Rattle.text_quoted.specs.Quoted.{quote_of, Opened, Unescaping};
ghost use Rattle.text_quoted.specs.Pieces.{Turning};

// The place behind what is read, with the place behind the last byte written.
#[derive(Clone, Copy)]
pub struct Unescaped {
    pub next: usize,
    pub end: usize,
}

// Behind a part of the text: it goes on, or its closing quote is passed.
#[derive(Clone, Copy)]
enum Turn {
    On(Unescaped),
    End(Unescaped),
}

// Reads the byte at which a run of plain bytes has ended: a quote, a backslash with what it escapes, or a wrong byte, whose place is the error.
fn special(s: &[u8], at: usize, quote: u8, out: &mut [u8], len: usize) -> Result<Turn, usize>
    requires { (own_byte (quote_of quote) ≡ quote) × StartsNot unescaped_byte (drop at s.now) × (at ≤ length s.now) × (len + (length s.now - at) ≤ length out.old) }
    ensures { Turning (quote_of quote) s.now at out.old len out.new result }
{
    if at >= s.len() {
        return Err(at);
    }
    let b = s[at];
    let next = at + 1;
    if b == quote {
        return Ok(Turn::End(Unescaped { next, end: len }));
    }
    if b == b'\\' {
        let Some((c, next)) = escapes::escape(s, next, quote) else {
            return Err(at);
        };
        let end = writing::put_point(out, len, c);
        return Ok(Turn::On(Unescaped { next, end }));
    }
    if b < 0x20 {
        return Err(at);
    }
    // no plain byte, so only the other quote is left
    out[len] = b;
    Ok(Turn::On(Unescaped { next, end: len + 1 }))
}

// Copies a run of plain bytes, and reads what ends it.
fn read_part(s: &[u8], at: usize, quote: u8, out: &mut [u8], len: usize) -> Result<Turn, usize>
    requires { Opened quote s.now at out.old len }
    ensures { Turning (quote_of quote) s.now at out.old len out.new result }
{
    let i = writing::copy_plain(s, at, out, len);
    special(s, i, quote, out, len + (i - at))
}

// Reads the characters of a quoted text from `at`, which stands right behind the opening quote, up to the closing quote, and writes the
// bytes that they stand for into out from `len` on. The error is the place where the text is no quoted text.
pub fn unescape_string(
    s: &[u8],
    at: usize,
    quote: u8,
    out: &mut [u8],
    len: usize,
) -> Result<Unescaped, usize>
    requires { Opened quote s.now at out.old len }
    ensures { Unescaping (quote_of quote) s.now at out.old len out.new result }
{
    let mut so_far = Unescaped { next: at, end: len };
    // A loop: how many parts a text has is known only at its closing quote.
    loop {
        match read_part(s, so_far.next, quote, out, so_far.end)? {
            Turn::On(part) => so_far = part,
            Turn::End(part) => return Ok(part),
        }
    }
}
