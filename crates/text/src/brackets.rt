// The bracket count of refusal 3: over the raw bytes of a query, in one pass, up to where it is settled.
ghost use Rattle.std.specs.Prelude.{◌||◌, ◌≡◌, ◌≤◌, eqb};
ghost use Rattle.definition.specs.Brackets.{place_after, count_after, too_deep};
ghost use Rattle.definition.specs.Limits.{max_brackets};
ghost use Rattle.text.specs.Places.{place_of, opening_in};

// The count that a query may reach and not pass.
const MAX_BRACKETS: usize = 32;

// A query is long from so many bytes on.
const LONG: usize = 96;

// Where a byte stands: outside quoted text, inside text that the given quote opened, or there right behind a backslash.
#[derive(Clone, Copy)]
enum Place {
    Outside,
    Quoted(u8),
    Escaped(u8),
}

// Whether b is one of two bytes.
fn either(b: u8, x: u8, y: u8) -> bool
    ensures { result ≡ (eqb b x || eqb b y) }
{
    if b == x {
        return true;
    }
    b == y
}

// Where the byte behind b stands.
fn place_after(p: Place, b: u8) -> Place
    ensures { place_of result ≡ place_after (place_of p) b }
{
    match p {
        Place::Outside => {
            if either(b, b'"', b'\'') {
                return Place::Quoted(b);
            }
            Place::Outside
        }
        Place::Quoted(q) => {
            if b == q {
                return Place::Outside;
            }
            if b == b'\\' {
                return Place::Escaped(q);
            }
            Place::Quoted(q)
        }
        Place::Escaped(q) => Place::Quoted(q),
    }
}

// The count behind b.
fn count_after(p: Place, n: usize, b: u8) -> usize
    requires { n ≤ max_brackets }
    ensures { result ≡ count_after (place_of p) n b }
{
    match p {
        Place::Outside => {
            if either(b, b'[', b'(') {
                return n + 1;
            }
            if either(b, b']', b')') {
                return if n == 0 { 0 } else { n - 1 };
            }
            n
        }
        Place::Quoted(_) => n,
        Place::Escaped(_) => n,
    }
}

// How many bytes of s add one outside quoted text.
fn opening(s: &[u8]) -> usize
    ensures { result ≡ opening_in s.now }
{
    let mut n = 0;
    // A `for`: `filter` and `count` took twice as long, since they are not compiled to many bytes a step.
    for b in s {
        if either(*b, b'[', b'(') {
            n += 1;
        }
    }
    n
}

// Whether the bracket count of s passes 32 at some moment, byte by byte.
fn counted(s: &[u8]) -> bool
    ensures { result ≡ too_deep s.now }
{
    let mut p = Place::Outside;
    let mut n = 0;
    for (i, b) in s.iter().enumerate() {
        // A byte adds at most one, so the pass ends where the bytes that are left cannot bring the count above the limit.
        if s.len() - i <= MAX_BRACKETS - n {
            return false;
        }
        n = count_after(p, n, *b);
        if MAX_BRACKETS < n {
            return true;
        }
        p = place_after(p, *b);
    }
    false
}

// The same. A long query in which few bytes open is told by their number, which is counted many bytes a step.
pub fn too_deep(s: &[u8]) -> bool
    ensures { result ≡ too_deep s.now }
{
    if s.len() <= LONG {
        return counted(s);
    }
    if opening(s) <= MAX_BRACKETS {
        return false;
    }
    counted(s)
}
