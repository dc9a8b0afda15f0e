// Vectors for the crate `text`, compared with the file stdout, which make.py writes.
// First it goes through texts of one to four bytes and writes for each whether it is UTF-8, four texts to a hexadecimal digit and 64 digits to a line:
// every text of one byte and of two, and of three and four those over an alphabet of bytes at which a rule of UTF-8 changes.
// Then it takes each line of its input as a query and writes the refusal that UTF-8 and the bracket count give it.

#![tactic(auto)]

ghost use Rattle.std.specs.Prelude.{◌+◌, ◌*◌, ◌^◌, ◌≤◌, ◌<◌, length};

use program_console::{input, output};
use std::io;

// Bytes at which a rule for characters of three bytes changes, with some on either side.
const EDGES3: [u8; 16] = [
    0x7F, 0x80, 0x8F, 0x90, 0x9F, 0xA0, 0xBF, 0xC0, 0xC2, 0xDF, 0xE0, 0xEC, 0xED, 0xEE, 0xEF, 0xF4,
];

// The same for characters of four bytes.
const EDGES4: [u8; 16] = [
    0x7F, 0x80, 0x8F, 0x90, 0x9F, 0xA0, 0xBF, 0xC0, 0xE1, 0xED, 0xF0, 0xF1, 0xF3, 0xF4, 0xF5, 0xFF,
];

// How much of the input is read.
const INPUT_ROOM: u32 = 65536;

// The texts that one line of output holds.
const PER_LINE: usize = 256;

// Every byte in order is put into d.
fn put_all(d: &mut [u8])
    requires { length d.old ≤ 256 }
{
    for (i, x) in d.iter_mut().enumerate() {
        *x = i as u8;
    }
}

// The text of number v of all those of k bytes over an alphabet is put into word. Its last byte is the lowest digit.
fn put_text(word: &mut [u8], k: usize, alphabet: &[u8], v: usize)
    requires { (k ≤ length word.old) × (0 < length alphabet.now) }
{
    let m = alphabet.len();
    let mut n = v;
    for i in (0..k).rev() {
        word[i] = alphabet[n % m];
        n /= m;
    }
}

// 1 where the text of number v is UTF-8, and otherwise 0.
fn bit(alphabet: &[u8], k: usize, v: usize) -> u8
    requires { (k ≤ 4) × (0 < length alphabet.now) }
    ensures { result ≤ 1 }
{
    let mut word = [0u8; 4];
    put_text(&mut word, k, alphabet, v);
    u8::from(text::encoding::is_utf8_part(&word, 0, k))
}

// The hexadecimal digit of the four texts from number v on.
fn digit(alphabet: &[u8], k: usize, v: usize) -> u8
    requires { (k ≤ 4) × (0 < length alphabet.now) × (v < 2 ^ 32) }
{
    let a = bit(alphabet, k, v);
    let b = bit(alphabet, k, v + 1);
    let c = bit(alphabet, k, v + 2);
    let d = bit(alphabet, k, v + 3);
    let x = a * 8 + b * 4 + c * 2 + d;
    if x < 10 { x + b'0' } else { x - 10 + b'a' }
}

// The digits of the texts from number v on are put into out, up to its last byte.
fn put_digits(out: &mut [u8], alphabet: &[u8], k: usize, v: usize)
    requires out_nonzero { (0 < length out.old) × (length out.old ≤ 65) }
    requires k_bound { (k ≤ 4) × (0 < length alphabet.now) × (v < 2 ^ 31) }
{
    for i in 0..out.len() - 1 {
        out[i] = digit(alphabet, k, v + i * 4);
    }
}

// A line of digits of the texts from number v on is written.
fn line(rt: &impl Print, alphabet: &[u8], k: usize, v: usize) -> io::Result<()>
    requires { (k ≤ 4) × (0 < length alphabet.now) × (v < 2 ^ 31) }
{
    let mut out = [b'\n'; 65];
    put_digits(&mut out, alphabet, k, v);
    output::text(rt, &out)
}

// The lines of all texts of k bytes over an alphabet, of which there are as many as `lines` hold.
fn sweep(rt: &impl Print, alphabet: &[u8], k: usize, lines: usize) -> io::Result<()>
    requires { (k ≤ 4) × (0 < length alphabet.now) × (lines ≤ 256) }
{
    for i in 0..lines {
        line(rt, alphabet, k, i * PER_LINE)?;
    }
    Ok(())
}

// The verdict on a query is written: the refusal 2 or 3, or none of the two.
fn verdict(rt: &impl Print, query: &[u8]) -> io::Result<()> {
    if !text::encoding::is_utf8(query) {
        return output::text(rt, b"refused 2\n");
    }
    if text::brackets::too_deep(query) {
        return output::text(rt, b"refused 3\n");
    }
    output::text(rt, b"passed\n")
}

// The verdict on each line of the input.
fn verdicts(rt: &impl Print, s: &[u8]) -> io::Result<()> {
    for line in s.split_inclusive(|b| *b == b'\n') {
        verdict(rt, line.strip_suffix(b"\n".as_slice()).unwrap_or(line))?;
    }
    Ok(())
}

fn main(rt: HostRuntime) -> io::Result<()> {
    let mut all = [0u8; 256];
    put_all(&mut all);
    sweep(&rt, &all, 1, 1)?;
    sweep(&rt, &all, 2, 256)?;
    sweep(&rt, &EDGES3, 3, 16)?;
    sweep(&rt, &EDGES4, 4, 256)?;
    let input = input::first(rt.alloc(), &mut rt.reader(), INPUT_ROOM)?;
    verdicts(&rt, &input)
}
