// The nodes of a range with a filter that meets match or search. A cell for each of them, some at a time, says how far the filter is told; a call is asked of all that
// stand at it, so that its expression is read once for so many.
ghost use Rattle.std.specs.Prelude.{◌-◌, ◌<◌, ◌≤◌, length};
ghost use Rattle.eval_asks.specs.Lent.{plan_of, pool_of, table_of, text_of};
ghost use Rattle.eval_asks.specs.Asks.{Asked, Steady, AskNext};
ghost use Rattle.eval_asks.specs.Cells.{Column};
ghost use Rattle.eval_asks.specs.Rows.{AskRows, DoneKept, AskCells};

use crate::{eval_filter_expr, evaluate_segment};
use eval_asks::{Lent, State, cells};

// So many nodes have cells at most.
const CELLS: usize = 256;

// How many nodes have cells next, where `done` of the range are behind them and more than `need` must be found: not many more than were looked at, since the first of
// them may end it.
fn chunk(done: usize, need: usize) -> usize
    requires { done ≤ 4294967295 }
    ensures { (0 < result) × (result ≤ 256) }
{
    if CELLS <= need {
        return CELLS;
    }
    if CELLS <= done + need {
        return CELLS;
    }
    done + need + 1
}

// The end of the range from i up to e, or of its first n nodes.
fn chunk_end(i: usize, e: usize, n: usize) -> usize
    requires { (i < e) × ((e ≤ 4294967295) × (0 < n)) }
    ensures { (i < result) × ((result ≤ e) × (result - i ≤ n)) }
{
    if e - i <= n {
        return e;
    }
    i + n
}

// The nodes from i up to e for which the test from p up to z holds, each with the segments at rest.
#[cycle(evaluation)]
pub fn keep(
    lent: &Lent,
    state: &mut State,
    list: &mut &mut [u32],
    i: usize,
    e: usize,
    p: usize,
    z: usize,
    rest: usize,
)
    requires asked { Asked lent.now state.old list.old.now }
    requires ask_rows { AskRows lent.now i e p z rest × ((p ≤ rest) × (i < e)) }
    ensures steady { Steady state.old list.old state.new list.new }
    ensures done_kept { DoneKept lent.now i e p z rest state.old list.old.now state.new list.new.now }
{
    let mut j = eval_shortcuts::keep_rows(lent, state, list, i, e, p, z, rest);
    if e <= j {
        return;
    }
    // A loop over j: a turn that fills cells stays at its node, so that `for` is no plainer.
    let mut column = [0u32; CELLS];
    let mut b = j;
    let mut k = j;
    while j < e {
        let at = state.at;
        let cap = state.cap;
        if cap < at {
            return;
        }
        if k <= j {
            k = chunk_end(j, e, chunk(j - i, cap - at));
            tell(lent, state.root, j, k, p, z, &mut column);
            b = j;
        } else {
            let c = column[j - b];
            let s = eval_filter_expr(
                lent,
                state.root,
                j,
                cells::answer(c),
                cells::place(c),
                z,
                false,
            );
            if s.acc {
                evaluate_segment(lent, state, list, j, rest);
                j += 1;
            } else {
                j += 1;
            }
        }
    }
}

// The cells of the nodes from i up to e with the test from p up to z. Where they stand at a test that needs a query evaluated, with a call behind it, they go on by themselves.
#[cycle(evaluation)]
fn tell(lent: &Lent, root: usize, i: usize, e: usize, p: usize, z: usize, column: &mut [u32])
    requires { AskNext lent.now root i e p z × ((i < e) × (e - i ≤ length column.old)) }
    ensures { Column (plan_of lent.now) (pool_of lent.now) (table_of lent.now) (text_of lent.now) root i e p z column.new }
{
    cells::lay(column, e - i, p);
    // The steps differ, so that `for` is no plainer.
    let mut q = eval_shortcuts::fill_cells(lent, root, i, e, p, z, p, column);
    while q < z {
        turn(lent, root, i, e, p, z, q, column);
        q = eval_shortcuts::fill_cells(lent, root, i, e, p, z, q + 1, column);
    }
}

// The same with the nodes that stand at q told up to the next call.
#[cycle(evaluation)]
fn turn(
    lent: &Lent,
    root: usize,
    i: usize,
    e: usize,
    p: usize,
    z: usize,
    q: usize,
    column: &mut [u32],
)
    requires { AskCells lent.now root i e p z column.old × (p ≤ q) }
    ensures { Column (plan_of lent.now) (pool_of lent.now) (table_of lent.now) (text_of lent.now) root i e p z column.new }
{
    for j in i..e {
        let c = column[j - i];
        if cells::place(c) != q {
            continue;
        }
        let s = eval_filter_expr(lent, root, j, cells::answer(c), q, z, true);
        column[j - i] = cells::cell(s.acc, s.q);
    }
}
