// The words that are written: one word put in before others.
ghost use Rattle.std.specs.Prelude.{◌≤◌, ◌<◌, length};
ghost use Rattle.regex_leaves.specs.Reads.{Inserted};

// Puts x at `from`, before the words that stand there up to `to`.
pub fn insert(code: &mut [u32], from: usize, to: usize, x: u32)
    requires { (from ≤ to) × (to < length code.old) }
    ensures { Inserted code.old from to x code.new }
{
    let mut carried = x;
    for i in from..to {
        let w = code[i];
        code[i] = carried;
        carried = w;
    }
    code[to] = carried;
}
