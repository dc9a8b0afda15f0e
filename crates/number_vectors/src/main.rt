// Runs the readers and the comparisons of numbers over the lines of standard input, and writes an answer for each.
// make.py, beside src/, makes the lines and the answers that are expected, from document 01's rules and exact fractions.
//
// A line is a letter, a blank and one or two operands:
//   i TEXT     parse_i_json_int: `next END VALUE`, `out END` or `nothing`
//   n TEXT     parse_number: `int END VALUE`, `float END BITS`, `beyond END` or `nothing`
//   c A B      the order of two numbers: `<`, `=` or `>`. An operand is an integer, or x and the 16 hexadecimal digits of a float's bits
// END is the place in the line behind what was read.

#![tactic(auto)]

ghost use Rattle.std.specs.Prelude.{◌≤◌, length};

use number_literals::Literal;
use number_parse::{IntError, IntRead, NumberRead};
use program_console::{input, output};
use std::cmp::Ordering;
use std::io;

// How much of the input is read.
const INPUT_ROOM: u32 = 65536;

// The sign's weight, and the bits of an infinity.
const SIGN: u64 = 9223372036854775808;

const INFINITY: u64 = 9218868437227405312;

// An operand of a comparison, a float by its bits.
#[derive(Clone, Copy)]
enum Operand {
    Int(i64),
    Float(u64),
}

fn print(rt: &impl Print, text: &[u8]) -> io::Result<()> {
    output::text(rt, text)
}

fn print_number(rt: &impl Print, n: u64) -> io::Result<()> {
    print!(rt; "{n}")
}

fn print_end(rt: &impl Print, end: usize) -> io::Result<()> {
    print_number(rt, end as u64)
}

fn print_signed(rt: &impl Print, v: i64) -> io::Result<()> {
    if v < 0 {
        print(rt, b"-")?;
    }
    print_number(rt, number_order::magnitude(v))
}

fn show_int(rt: &impl Print, s: &[u8]) -> io::Result<()>
    requires { 2 ≤ length s.now }
{
    match number_parse::parse_i_json_int(s, 2) {
        Ok(IntRead { end, value }) => {
            print(rt, b"next ")?;
            print_end(rt, end)?;
            print(rt, b" ")?;
            print_signed(rt, value)
        }
        Err(IntError::OutOfRange(end)) => {
            print(rt, b"out ")?;
            print_end(rt, end)
        }
        Err(IntError::Nothing(_)) => print(rt, b"nothing"),
    }
}

fn show_literal(rt: &impl Print, end: usize, v: Literal) -> io::Result<()> {
    match v {
        Literal::Int(i) => {
            print(rt, b"int ")?;
            print_end(rt, end)?;
            print(rt, b" ")?;
            print_signed(rt, i)
        }
        Literal::Float(b) => {
            print(rt, b"float ")?;
            print_end(rt, end)?;
            print!(rt; " {b:016x}")
        }
        Literal::Beyond => {
            print(rt, b"beyond ")?;
            print_end(rt, end)
        }
    }
}

fn show_number(rt: &impl Print, s: &[u8]) -> io::Result<()>
    requires { 2 ≤ length s.now }
{
    match number_parse::parse_number(s, 2) {
        Ok(read) => show_literal(rt, read.end, read.value),
        Err(_) => print(rt, b"nothing"),
    }
}

fn wide(x: u8) -> u64 {
    x as u64
}

fn hex_digit(c: u8) -> u64 {
    if c < b'0' {
        return 0;
    }
    if c <= b'9' {
        return wide(c - b'0');
    }
    if c < b'a' {
        return 0;
    }
    wide(c - 87)
}

// The number that hexadecimal digits write.
fn hex_value(digits: &[u8]) -> u64 {
    digits
        .iter()
        .fold(0, |acc, &digit| (acc << 4) | hex_digit(digit))
}

// None where no integer stands there.
fn read_operand(s: &[u8]) -> Option<Operand> {
    if number_digits::is(s, 0, b'x') {
        return Some(Operand::Float(hex_value(&s[1..])));
    }
    match number_parse::parse_number(s, 0) {
        Ok(
            NumberRead {
                value: Literal::Int(i),
                ..
            },
        ) => Some(Operand::Int(i)),
        _ => None,
    }
}

fn show_order(rt: &impl Print, o: Ordering) -> io::Result<()> {
    match o {
        Ordering::Less => print(rt, b"<"),
        Ordering::Equal => print(rt, b"="),
        Ordering::Greater => print(rt, b">"),
    }
}

fn compare_int_float(rt: &impl Print, i: i64, b: u64) -> io::Result<()> {
    if b % SIGN < INFINITY {
        show_order(
            rt,
            number_order::compare_i64_num(i, number_order::float_of(b)),
        )?;
    }
    Ok(())
}

fn compare_float_int(rt: &impl Print, a: u64, i: i64) -> io::Result<()> {
    if a % SIGN < INFINITY {
        show_order(
            rt,
            number_order::compare_num_i64(number_order::float_of(a), i),
        )?;
    }
    Ok(())
}

fn compare_floats(rt: &impl Print, a: u64, b: u64) -> io::Result<()> {
    if a % SIGN < INFINITY {
        if b % SIGN < INFINITY {
            show_order(
                rt,
                number_order::compare_nums(number_order::float_of(a), number_order::float_of(b)),
            )?;
        }
    }
    Ok(())
}

fn compare_operands(rt: &impl Print, a: Operand, b: Operand) -> io::Result<()> {
    match (a, b) {
        (Operand::Int(i), Operand::Int(j)) => show_order(rt, number_order::compare_i64(i, j)),
        (Operand::Int(i), Operand::Float(q)) => compare_int_float(rt, i, q),
        (Operand::Float(p), Operand::Int(j)) => compare_float_int(rt, p, j),
        (Operand::Float(p), Operand::Float(q)) => compare_floats(rt, p, q),
    }
}

fn show_comparison(rt: &impl Print, s: &[u8]) -> io::Result<()>
    requires { 2 ≤ length s.now }
{
    let pair = &s[2..];
    let Some(blank) = pair.iter().position(|&b| b == b' ') else {
        return Ok(());
    };
    match (
        read_operand(&pair[..blank]),
        read_operand(&pair[blank + 1..]),
    ) {
        (Some(a), Some(b)) => compare_operands(rt, a, b),
        _ => print(rt, b"bad"),
    }
}

fn show_line(rt: &impl Print, s: &[u8]) -> io::Result<()> {
    if s.len() < 2 {
        return Ok(());
    }
    if s[0] == b'i' {
        show_int(rt, s)?;
    }
    if s[0] == b'n' {
        show_number(rt, s)?;
    }
    if s[0] == b'c' {
        show_comparison(rt, s)?;
    }
    print(rt, b"\n")
}

fn run(rt: &impl Print, s: &[u8]) -> io::Result<()> {
    for line in s.split(|&b| b == b'\n') {
        show_line(rt, line)?;
    }
    Ok(())
}

fn main(rt: HostRuntime) -> io::Result<()> {
    let input = input::first(rt.alloc(), &mut rt.reader(), INPUT_ROOM)?;
    run(&rt, &input)
}
