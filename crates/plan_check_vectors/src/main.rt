// Vectors for plan check, compared with the file stdout. make.py writes both files.
// Each line of the input is a plan, a blank and a pool, in hexadecimal. A star with four digits and two more repeats: so many bytes are copied, each from
// where it stands that far back. For each line the program writes `ok` or `refused 11`.

#![tactic(auto)]

ghost use Rattle.std.specs.Prelude.{◌≡◌, ◌+◌, ◌≤◌, ◌<◌, length};

use program_console::{input, output, rooms};
use std::io;

// How much of the input is read.
const INPUT_ROOM: u32 = 65536;

// The number of a hexadecimal digit, 0 of any other byte.
fn digit(b: u8) -> usize
    ensures { result ≤ 15 }
{
    match b {
        b'0'..=b'9' => usize::from(b - b'0'),
        b'a'..=b'f' => usize::from(b - b'a') + 10,
        _ => 0,
    }
}

// The number of two digits.
fn pair(s: &[u8], at: usize) -> usize
    requires { at + 2 ≤ length s.now }
    ensures { result ≤ 255 }
{
    digit(s[at]) * 16 + digit(s[at + 1])
}

// `many` bytes are put behind the first n of d, each from `back` places before it, as far as there is room. The answer is how many bytes d holds then.
fn repeat(d: &mut [u8], n: usize, many: usize, back: usize) -> usize
    requires { (n ≤ length d.old) × (back ≤ n) }
    ensures { result ≤ length d.new }
{
    let end = n.saturating_add(many).min(d.len());
    for i in n..end {
        d[i] = d[i - back];
    }
    end
}

// The bytes that s spells are put into d, as far as there is room. The answer is how many there are.
fn decode(s: &[u8], d: &mut [u8]) -> usize
    ensures { result ≤ length d.new }
{
    // A loop over the place: a star takes seven bytes, and a byte two.
    let mut at = 0;
    let mut n = 0;
    while at < s.len() {
        if s[at] == b'*' {
            if s.len() - at < 7 {
                return n;
            }
            let many = pair(s, at + 1) * 256 + pair(s, at + 3);
            let back = pair(s, at + 5);
            if n < back {
                return n;
            }
            n = repeat(d, n, many, back);
            at += 7;
        } else {
            if s.len() - at < 2 {
                return n;
            }
            if d.len() <= n {
                return n;
            }
            d[n] = pair(s, at) as u8;
            n += 1;
            at += 2;
        }
    }
    n
}

// The verdict on a plan and a pool is written.
fn verdict(rt: &impl Print, code: &[u8], pool: &[u8]) -> io::Result<()> {
    if plan_check::check_plan(code, pool) {
        output::text(rt, b"ok\n")
    } else {
        output::text(rt, b"refused 11\n")
    }
}

// The verdict on a line.
fn line(rt: &impl Print, s: &[u8], code: &mut [u8], pool: &mut [u8]) -> io::Result<()> {
    let Some(blank) = s.iter().position(|&b| b == b' ') else {
        // No verdict; but what the line spells stands in the room, where a star of a later line that looks back by nothing keeps it.
        decode(s, code);
        return Ok(());
    };
    let n = decode(&s[..blank], code);
    let m = decode(&s[blank + 1..], pool);
    verdict(rt, &code[..n], &pool[..m])
}

// The verdict on each line.
fn lines(rt: &impl Print, s: &[u8], code: &mut [u8], pool: &mut [u8]) -> io::Result<()> {
    for one in s.split(|&b| b == b'\n') {
        line(rt, one, code, pool)?;
    }
    Ok(())
}

fn main(rt: HostRuntime) -> io::Result<()> {
    let mut code = rooms::large_buffer();
    let mut pool = rooms::large_buffer();
    let input = input::first(rt.alloc(), &mut rt.reader(), INPUT_ROOM)?;
    lines(&rt, &input, &mut code, &mut pool)
}
