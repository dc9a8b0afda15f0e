// Single characters: of a UTF-8 text, the code point of the character at a place and the place behind its bytes; of a class in the
// code of an expression, whether it has a character. Of other bytes and words nothing is said: they are read in bounds, and the
// place in a text moves on.

#![tactic(auto)]

ghost use Rattle.std.specs.Prelude.{◌≡◌, ◌+◌, ◌-◌, ◌≤◌, ◌<◌, length};
ghost use Rattle.regex_definition.specs.Chars.{within};
ghost use Rattle.regex_chars.specs.Chars.{Stands};
ghost use Rattle.regex_chars.specs.Classes.{Hits, Holds, flip_of};

use regex_code::wide as word;

// A character: its code point, and the place behind it.
#[derive(Clone, Copy)]
pub struct Char {
    pub value: u32,
    pub next: usize,
}

// The character at `at`, of the bytes up to `to`.
pub fn char_at(text: &[u8], at: usize, to: usize) -> Char
    requires fact_1 { at < to }
    requires fact_2 { to ≤ length text.now }
    ensures { Stands text.now at to result.next result.value }
{
    let b = u32::from(text[at]);
    if b < 0x80 {
        return Char {
            value: b,
            next: at + 1,
        };
    }
    if to - at < 2 {
        return Char { value: 0, next: to };
    }
    let c = u32::from(text[at + 1]) % 64;
    if b < 0xE0 {
        return Char {
            value: b % 32 * 64 + c,
            next: at + 2,
        };
    }
    if to - at < 3 {
        return Char { value: 0, next: to };
    }
    let d = u32::from(text[at + 2]) % 64;
    if b < 0xF0 {
        return Char {
            value: b % 16 * 4096 + c * 64 + d,
            next: at + 3,
        };
    }
    if to - at < 4 {
        return Char { value: 0, next: to };
    }
    let e = u32::from(text[at + 3]) % 64;
    Char {
        value: b % 16 * 262144 + c * 4096 + d * 64 + e,
        next: at + 4,
    }
}

fn between(low: u32, high: u32, c: u32) -> bool
    ensures { result ≡ within low high c }
{
    low <= c && c <= high
}

fn flip(comp: bool, hit: bool) -> bool
    ensures { result ≡ flip_of comp hit }
{
    comp != hit
}

// Whether one of the n ranges whose words stand from `at` on has c.
fn ranges_have(code: &[u32], at: usize, n: usize, c: u32) -> bool
    requires { at ≤ length code.now }
    ensures { Holds code.now at n c result }
{
    for k in 0..n {
        let i = at + 2 * k;
        if code.len() - i < 2 {
            return false;
        }
        if between(code[i], code[i + 1], c) {
            return true;
        }
    }
    false
}

// Whether the class whose code stands at `at` has c.
pub fn class_has(code: &[u32], at: usize, c: u32) -> bool
    requires { at < length code.now }
    ensures { Hits code.now at c result }
{
    if code.len() - at < 3 {
        return false;
    }
    let n = word(code[at + 2]);
    let hit = ranges_have(code, at + 3, n, c);
    flip(code[at + 1] == 1, hit)
}
