// How far a filter has been told of a node, as one number: the place in its code, and 65,536 more where the answer in front of that place is true.
ghost use Rattle.std.specs.Prelude.{◌≡◌, ◌≤◌, ◌<◌, length};
ghost use Rattle.eval_asks.specs.Cells.{answer_of, place_of, Laid};

// What a cell has more where the answer is true.
const YES: u32 = 65536;

const YES_PLACE: usize = 65536;

// The answer of a cell.
pub fn answer(c: u32) -> bool
    ensures { result ≡ answer_of c }
{
    YES <= c
}

// The place of a cell.
pub fn place(c: u32) -> usize
    ensures { result ≡ place_of c }
{
    if YES <= c {
        return (c - YES) as usize;
    }
    c as usize
}

// The cell of an answer and a place.
pub fn cell(acc: bool, q: usize) -> u32
    requires { q < 65536 }
    ensures { (answer_of result ≡ «acc») × (place_of result ≡ q) }
{
    if acc {
        return (q + YES_PLACE) as u32;
    }
    q as u32
}

// The first n cells for nodes of which nothing is told.
pub fn lay(column: &mut [u32], n: usize, p: usize)
    requires { (n ≤ length column.old) × (p < 65536) }
    ensures { Laid n p column.new }
{
    for k in 0..n {
        column[k] = p as u32;
    }
}
