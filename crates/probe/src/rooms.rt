// Rooms that are lent, with bytes that are known.
ghost use Rattle.std.specs.Prelude.{◌≡◌, IfOk, vec_len, take};

use crate::calls::Fault;
use program_console::output;
use std::alloc::{AllocError, Global};
use std::io;

// The most that is lent for a plan, for a pool or for a path.
const ROOM: usize = 65536;
// What every lent byte holds before the call.
const FILL: u8 = 0xa5;

// A room of a size, unless it is more than is ever lent or memory runs out.
pub fn filled(alloc: Global, size: usize) -> Result<Vec<u8>, Fault>
    ensures { IfOk result (λ room. vec_len room ≡ size) }
{
    if ROOM < size {
        return Err(Fault::TooLong);
    }
    Ok(vec![in alloc; FILL; size]?)
}

// Ends an answer, and says if a byte of the lent room behind its first n bytes changed.
pub fn show_changed(rt: &impl Print, changed: bool) -> io::Result<()> {
    if changed {
        return output::text(rt, b" changed\n");
    }
    output::newline(rt)
}

// Whether a byte behind the first n of a room does not hold what it held before the call.
pub fn is_changed(room: &[u8], n: usize) -> bool {
    room.iter().skip(n).any(|b| *b != FILL)
}

// The first n bytes of a room, or all if it has fewer.
pub fn first(room: &[u8], n: usize) -> &[u8]
    ensures { result.now ≡ take n room.now }
{
    room.get(..n).unwrap_or(room)
}
