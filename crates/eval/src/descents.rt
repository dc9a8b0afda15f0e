// The next child that a descent goes to: a list or a map, or one that the shortcut of flat nodes leaves.
ghost use Rattle.eval_asks.specs.Asks.{Asked, Steady, AskFlats, DoneFlats};

use eval_asks::{Lent, State};

// The first list or map from node i on, or e: the descendant segment at pc selects nothing of what is neither. Once the cap is passed none is left.
pub fn skip_scalars(
    lent: &Lent,
    state: &mut State,
    list: &mut &mut [u32],
    i: usize,
    e: usize,
    pc: usize,
) -> usize
    requires asked { Asked lent.now state.old list.old.now }
    requires ask_flats { AskFlats lent.now i e pc }
    ensures steady { Steady state.old list.old state.new list.new }
    ensures done_flats { DoneFlats lent.now i e pc state.old list.old.now state.new list.new.now result }
{
    let cap = state.cap;
    let at = state.at;
    if cap < at {
        return e;
    }
    let table = lent.table;
    eval_front::next_container(table, i, e)
}

// The first node from i on that needs a call with the descendant segment at pc, or e. What the segment selects of those before it is pushed. Once the cap is passed none is left.
pub fn skip_flats(
    lent: &Lent,
    state: &mut State,
    list: &mut &mut [u32],
    i: usize,
    e: usize,
    pc: usize,
) -> usize
    requires asked { Asked lent.now state.old list.old.now }
    requires ask_flats { AskFlats lent.now i e pc }
    ensures steady { Steady state.old list.old state.new list.new }
    ensures done_flats { DoneFlats lent.now i e pc state.old list.old.now state.new list.new.now result }
{
    let cap = state.cap;
    let at = state.at;
    if cap < at {
        return e;
    }
    let table = lent.table;
    let j = eval_front::next_container(table, i, e);
    eval_shortcuts::pass_flats(lent, state, list, j, e, pc)
}
