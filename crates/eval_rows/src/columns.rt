// The cells of the nodes of a range, in a column, looked through for the next place at which some node stands.
ghost use Rattle.std.specs.Prelude.{◌≤◌, length};
ghost use Rattle.eval_rows.specs.Columns.{DoneLower, DoneLeast};

use eval_asks::cells;

// The lesser of q and a place from `from` on.
fn lower(from: usize, q: usize, c: usize) -> usize
    ensures { DoneLower from q c result }
{
    if c < from {
        return q;
    }
    if q < c {
        return q;
    }
    c
}

// The least place from `from` on, of code that ends at z, at which one of the first n nodes of a column stands, or z.
pub fn least(column: &[u32], n: usize, from: usize, z: usize) -> usize
    requires { n ≤ length column.now }
    ensures { DoneLeast column.now n from z result }
{
    let mut q = z;
    for k in 0..n {
        let c = cells::place(column[k]);
        q = lower(from, q, c);
    }
    q
}
