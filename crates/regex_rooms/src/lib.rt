// match and search of two texts that are given as bytes. The expression is read into rooms of this crate's own, as small as they may be, since rooms are cleared first.
//
//   reads   the code of an expression, widened for search
//   marks   the test of a text by the code

#![tactic(auto)]

pub mod marks;
pub mod reads;

ghost use Rattle.std.specs.Prelude.{◌≡◌, true, ◌+◌, ◌*◌, ◌≤◌, length};
ghost use Rattle.definition.specs.Utf8.{is_utf8};
ghost use Rattle.definition.specs.Regexps.{regex_test};
ghost use Rattle.regex_rooms.specs.Rooms.{scope_for};

// An expression of the part has at most so many bytes.
const LONG: usize = 1024;

const MIDDLE: usize = 128;

const SHORT: usize = 32;

// A word for each byte for the characters; eight for each byte and fifteen more for the code (`reads`).
const LONG_CODE: usize = 8207;

const MIDDLE_CODE: usize = 1039;

const SHORT_CODE: usize = 271;

// A byte that is no kind of a plan's item.
const NO_KIND: u8 = 255;

// Whether the text has the expression e: the whole of it where the kind is that of match, some part of it where it is that of search.
fn asked(kind: u8, text: &[u8], e: &[u8], chars: &mut [u32], code: &mut [u32]) -> bool
    requires text_value { (is_utf8 text.now ≡ true) × (is_utf8 e.now ≡ true) }
    requires e_in_bounds { (length e.now ≤ length chars.old) × (8 * length e.now + 15 ≤ length code.old) }
    ensures { result ≡ regex_test (scope_for kind) text.now e.now }
{
    match reads::read_widened(kind, e, chars, code) {
        None => false,
        Some(n) => marks::test_within(kind, &code[..n], text),
    }
}

// The rooms of an expression stand in frames of their own. LLVM would join these functions into the evaluation of a filter, which calls itself, and every call of
// that would have the rooms; a function that calls itself it leaves alone. `again` says how often this one does, which changes nothing of the answer.
// Three functions, and not one with the sizes as const parameters: bin/archive keeps each of them out of its callers by its name.
fn short(kind: u8, text: &[u8], e: &[u8], again: u8) -> bool
    requires { (is_utf8 text.now ≡ true) × (is_utf8 e.now ≡ true) × (length e.now ≤ 32) }
    ensures { result ≡ regex_test (scope_for kind) text.now e.now }
{
    if 0 < again {
        return short(kind, text, e, again - 1);
    }
    let mut chars = [0u32; SHORT];
    let mut code = [0u32; SHORT_CODE];
    asked(kind, text, e, &mut chars, &mut code)
}

fn middle(kind: u8, text: &[u8], e: &[u8], again: u8) -> bool
    requires { (is_utf8 text.now ≡ true) × (is_utf8 e.now ≡ true) × (length e.now ≤ 128) }
    ensures { result ≡ regex_test (scope_for kind) text.now e.now }
{
    if 0 < again {
        return middle(kind, text, e, again - 1);
    }
    let mut chars = [0u32; MIDDLE];
    let mut code = [0u32; MIDDLE_CODE];
    asked(kind, text, e, &mut chars, &mut code)
}

fn long(kind: u8, text: &[u8], e: &[u8], again: u8) -> bool
    requires { (is_utf8 text.now ≡ true) × (is_utf8 e.now ≡ true) × (length e.now ≤ 1024) }
    ensures { result ≡ regex_test (scope_for kind) text.now e.now }
{
    if 0 < again {
        return long(kind, text, e, again - 1);
    }
    let mut chars = [0u32; LONG];
    let mut code = [0u32; LONG_CODE];
    asked(kind, text, e, &mut chars, &mut code)
}

// match for the kind 1C and search for the kind 1D, of a text and an expression.
pub fn holds(kind: u8, text: &[u8], e: &[u8]) -> bool
    requires { (is_utf8 text.now ≡ true) × (is_utf8 e.now ≡ true) }
    ensures { result ≡ regex_test (scope_for kind) text.now e.now }
{
    // 0 for both kinds; but LLVM cannot tell.
    let again = kind / NO_KIND;
    let n = e.len();
    if n <= SHORT {
        return short(kind, text, e, again);
    }
    if n <= MIDDLE {
        return middle(kind, text, e, again);
    }
    if n <= LONG {
        return long(kind, text, e, again);
    }
    false
}
