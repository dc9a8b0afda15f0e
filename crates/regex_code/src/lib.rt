// The flat code of an expression, in words, and the place behind the code at a place. `specs/Flat.antt` has the code.

#![tactic(auto)]

ghost use Rattle.std.specs.Prelude.{◌≡◌, ◌<◌, ◌^◌, length};
ghost use Rattle.regex_code.specs.Skips.{Skips, SkipsClass};

// A word as a place or a number, with its bound: sums and doubles of such numbers fit.
pub fn wide(x: u32) -> usize
    ensures { (result ≡ x) × (result < 2 ^ 32) }
{
    x as usize
}

// The place behind the code of a class at `at`.
pub fn skip_class(code: &[u32], at: usize) -> usize
    requires { at < length code.now }
    ensures { SkipsClass code.now at result }
{
    if code.len() - at <= 2 {
        return at;
    }
    let n = wide(code[at + 2]);
    at + 3 + 2 * n
}

// The place behind the code at `at`.
pub fn skip(code: &[u32], at: usize) -> usize
    ensures { Skips code.now at result }
{
    if code.len() <= at {
        return at;
    }
    let k = code[at];
    if k == 0 {
        return at + 1;
    }
    if k == 1 {
        return skip_class(code, at);
    }
    if k == 2 {
        let n = skip(code, at + 1);
        return skip(code, n);
    }
    if k == 3 {
        let n = skip(code, at + 1);
        return skip(code, n);
    }
    if k == 4 {
        return skip(code, at + 3);
    }
    if k == 5 {
        return skip(code, at + 2);
    }
    at
}
