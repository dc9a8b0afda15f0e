// The code of an expression as match or search asks for it. Search is match of the expression with any characters before it and behind it.
ghost use Rattle.std.specs.Prelude.{◌≡◌, true, [], ◌∷◌, ◌+◌, ◌*◌, ◌≤◌, length};
ghost use Rattle.definition.specs.Utf8.{is_utf8};
ghost use Rattle.basics.specs.Reads.{Wrote};
ghost use Rattle.regex_definition.specs.Scope.{part};
ghost use Rattle.regex_rooms.specs.Rooms.{scope_for, Widened};

use plan_format::kinds::SEARCH;
use regex_bytes::read_bytes;

// The words of "any number of any characters".
const ANYTHING: usize = 5;

// The words before the expression: 2, those, and 2.
const BEFORE: usize = 7;

// Writes the words of any number of any characters: the complement of no range, at least 0 times.
fn put_anything(code: &mut [u32], at: usize)
    requires { at + 5 ≤ length code.old }
    ensures { Wrote code.old at (5 ∷ 0 ∷ 1 ∷ 1 ∷ 0 ∷ []) code.new }
{
    code[at] = 5;
    code[at + 1] = 0;
    code[at + 2] = 1;
    code[at + 3] = 1;
    code[at + 4] = 0;
}

// Writes what stands before the expression.
fn put_before(code: &mut [u32])
    requires { 7 ≤ length code.old }
    ensures { Wrote code.old 0 (2 ∷ 5 ∷ 0 ∷ 1 ∷ 1 ∷ 0 ∷ 2 ∷ []) code.new }
{
    code[0] = 2;
    put_anything(code, 1);
    code[6] = 2;
}

// Reads the expression e for search.
fn read_sought(e: &[u8], chars: &mut [u32], code: &mut [u32]) -> Option<usize>
    requires e_value { is_utf8 e.now ≡ true }
    requires e_in_bounds { (length e.now ≤ length chars.old) × (8 * length e.now + 15 ≤ length code.old) }
    ensures { Widened part e.now code.new result }
{
    put_before(code);
    let n = read_bytes(e, chars, code, BEFORE)?;
    put_anything(code, n);
    Some(n + ANYTHING)
}

// Writes the code of the expression e, for match or search, from the beginning of `code` on, and answers its length; None says that e is no expression
// of the part.
pub fn read_widened(kind: u8, e: &[u8], chars: &mut [u32], code: &mut [u32]) -> Option<usize>
    requires e_value { is_utf8 e.now ≡ true }
    requires e_in_bounds { (length e.now ≤ length chars.old) × (8 * length e.now + 15 ≤ length code.old) }
    ensures { Widened (scope_for kind) e.now code.new result }
{
    if kind == SEARCH {
        return read_sought(e, chars, code);
    }
    read_bytes(e, chars, code, 0)
}
