// The shortcuts of evaluation, and the one way by which they enter it. Each function takes a query or a filter that it knows and gives the whole answer, with the
// contract of what it stands for; else it leaves everything as it was, and says so: false, or the node that it was given. `has_flats` and `is_call` say only which way is the
// faster one, and `fill_cells` tells as much of a test as it can. Evaluation knows no other shortcut, and is proved without them (docs/DECISIONS.md, 271).
//
//   flats     nodes with nothing below their children under a descendant segment of one selector
//   joined    a range of nodes with a filter of several tests
//   straight  a range of nodes with names and indices up to the end, one in each segment
//   several   the same with several in the last segment
//
// Filters that are read once stand in `eval_filters`, those with match or search of a text of the plan in `eval_rows`.

#![tactic(auto)]

ghost use Rattle.eval_front.specs.Visits.{Given};
ghost use Rattle.eval_asks.specs.Lent.{plan_of, pool_of, table_of, text_of};
ghost use Rattle.eval_asks.specs.Asks.{Asked, Steady, AskEach, DoneAhead, Descends, AskFlats, DoneFlats, AskSelector, AskKind, DoneKeep};
ghost use Rattle.eval_asks.specs.Rows.{AskRows, DoneRows, AskCells};
ghost use Rattle.eval_asks.specs.Cells.{Column};
ghost use Rattle.eval_filters.specs.Values.{AskLeft};
ghost use Rattle.std.specs.Prelude.{◌≤◌, ◌<◌};

use eval_asks::{Lent, State};
use eval_filters::kept;
use eval_rows::calls;
use eval_rows::rows::Filter;
use plan_format::kinds::END;
use table::records;
use text::bytes;

pub mod flats;
pub mod joined;
pub mod several;
pub mod straight;

// The first node from i on that needs a call with the segments at rest, or i. What names and indices up to the end lead to from those before it is pushed.
pub fn ahead(
    lent: &Lent,
    state: &mut State,
    list: &mut &mut [u32],
    i: usize,
    e: usize,
    rest: usize,
) -> usize
    requires asked { Asked lent.now state.old list.old.now }
    requires ask_each { AskEach lent.now i e rest }
    ensures steady { Steady state.old list.old state.new list.new }
    ensures done_ahead { DoneAhead lent.now i e rest state.old list.old.now state.new list.new.now result }
{
    let plan = lent.plan;
    if !straight::leads(plan, rest) {
        if plan[rest] == END {
            return i;
        }
        return pick_ahead(lent, state, list, i, e, rest);
    }
    let at = state.at;
    let r = straight::push_along(
        plan, lent.pool, lent.table, lent.text, i, e, rest, *list, at, state.cap,
    );
    state.at = r.at;
    r.i
}

// The same where the last segment has several.
fn pick_ahead(
    lent: &Lent,
    state: &mut State,
    list: &mut &mut [u32],
    i: usize,
    e: usize,
    rest: usize,
) -> usize
    requires asked { Asked lent.now state.old list.old.now }
    requires ask_each { AskEach lent.now i e rest }
    ensures steady { Steady state.old list.old state.new list.new }
    ensures done_ahead { DoneAhead lent.now i e rest state.old list.old.now state.new list.new.now result }
{
    let plan = lent.plan;
    let pc = several::last(plan, rest);
    if pc == 0 {
        return i;
    }
    let at = state.at;
    let r = several::push_picked(
        plan, lent.pool, lent.table, lent.text, i, e, rest, pc, *list, at, state.cap,
    );
    state.at = r.at;
    r.i
}

// Whether `pass_flats` may pass a node with the descendant segment at pc. It only says which way is the faster one.
pub fn has_flats(lent: &Lent, pc: usize) -> bool
    requires given { Given (plan_of lent.now) (pool_of lent.now) (table_of lent.now) (text_of lent.now) }
    requires descends { Descends (plan_of lent.now) (pool_of lent.now) pc }
{
    let plan = lent.plan;
    if flats::is_plain(plan, pc) {
        return true;
    }
    flats::asks_member(plan, pc)
}

// The first node from i on whose descent needs a call, or i. What the descendant segment at pc selects of those before it is pushed.
pub fn pass_flats(
    lent: &Lent,
    state: &mut State,
    list: &mut &mut [u32],
    i: usize,
    e: usize,
    pc: usize,
) -> usize
    requires asked { Asked lent.now state.old list.old.now }
    requires ask_flats { AskFlats lent.now i e pc }
    ensures steady { Steady state.old list.old state.new list.new }
    ensures done_flats { DoneFlats lent.now i e pc state.old list.old.now state.new list.new.now result }
{
    let at = state.at;
    let cap = state.cap;
    let f = flats::flat_start(
        lent.plan, lent.pool, lent.table, lent.text, i, e, pc, *list, at, cap,
    );
    state.at = f.at;
    f.i
}

// The children of a node for which the filter at p holds, each with the segments at rest, where the filter is read once: whether it is.
pub fn keep_children(
    lent: &Lent,
    state: &mut State,
    list: &mut &mut [u32],
    node: usize,
    p: usize,
    rest: usize,
) -> bool
    requires asked { Asked lent.now state.old list.old.now }
    requires ask_selector { AskSelector lent.now node p rest }
    requires ask_kind { AskKind lent.now p 9 }
    ensures steady { Steady state.old list.old state.new list.new }
    ensures done_keep { DoneKeep lent.now node p rest state.old list.old.now state.new list.new.now result }
{
    let plan = lent.plan;
    let z = p + 3 + bytes::word16(plan, p + 1);
    let Some(g) = kept::read_form(plan, p + 3, z, rest) else {
        return false;
    };
    let table = lent.table;
    let i = records::first_child(table, node) as usize;
    let n = records::child_count(table, node) as usize;
    let root = state.root;
    let at = state.at;
    let cap = state.cap;
    let next = kept::keep(
        plan,
        lent.pool,
        table,
        lent.text,
        root,
        i,
        i + n,
        p + 3,
        z,
        g,
        rest,
        *list,
        at,
        cap,
    );
    state.at = next;
    true
}

// The first node from i on of which the test from p up to z needs evaluation or an expression, or e, for a filter that `joined` is for. Those before it for which it holds
// are pushed with what follows, where nothing or one name does. Else, and where one node alone is asked, none is looked at.
pub fn keep_joined(
    lent: &Lent,
    state: &mut State,
    list: &mut &mut [u32],
    i: usize,
    e: usize,
    p: usize,
    z: usize,
    rest: usize,
) -> usize
    requires asked { Asked lent.now state.old list.old.now }
    requires ask_rows { AskRows lent.now i e p z rest }
    ensures steady { Steady state.old list.old state.new list.new }
    ensures done_rows { DoneRows lent.now i e p z rest state.old list.old.now state.new list.new.now result }
{
    if e < i + 2 {
        return i;
    }
    let plan = lent.plan;
    let Some(way) = joined::way_of(plan, p, z) else {
        return i;
    };
    let tail = kept::tail_of(plan, rest);
    if 1 < tail {
        return i;
    }
    let root = state.root;
    let cap = state.cap;
    let at = state.at;
    let f = Filter {
        root,
        e,
        p,
        z,
        tail,
        rest,
        cap,
        cells: false,
    };
    let v = joined::keep(plan, lent.pool, lent.table, lent.text, f, i, way, *list, at);
    state.at = v.at;
    match v.q {
        Some(_) => v.i,
        None => e,
    }
}

// Whether a call of match or search with a text of the plan stands at q, where a node comes to in a test that ends at z. It only says which way is the faster one.
pub fn is_call(lent: &Lent, root: usize, node: usize, q: usize, z: usize) -> bool
    requires { AskLeft (plan_of lent.now) (pool_of lent.now) (table_of lent.now) (text_of lent.now) root node q z }
{
    calls::read_call(lent.plan, q, z).is_some()
}

// The first node from i on of which the test from p up to z needs evaluation or a second expression, or e. Those before it for which it holds are pushed with what
// follows, where nothing or one name does. Else, and where one node alone is asked, none is looked at.
pub fn keep_rows(
    lent: &Lent,
    state: &mut State,
    list: &mut &mut [u32],
    i: usize,
    e: usize,
    p: usize,
    z: usize,
    rest: usize,
) -> usize
    requires asked { Asked lent.now state.old list.old.now }
    requires ask_rows { AskRows lent.now i e p z rest }
    ensures steady { Steady state.old list.old state.new list.new }
    ensures done_rows { DoneRows lent.now i e p z rest state.old list.old.now state.new list.new.now result }
{
    if e < i + 2 {
        return i;
    }
    let plan = lent.plan;
    let tail = kept::tail_of(plan, rest);
    if 1 < tail {
        return i;
    }
    let root = state.root;
    let cap = state.cap;
    let at = state.at;
    let f = Filter {
        root,
        e,
        p,
        z,
        tail,
        rest,
        cap,
        cells: false,
    };
    let v = eval_rows::keep_rows(plan, lent.pool, lent.table, lent.text, f, i, *list, at);
    state.at = v.at;
    match v.q {
        Some(_) => v.i,
        None => e,
    }
}

// The cells of the nodes from i up to e with the test from p up to z: calls of match or search with a text of the plan, from the place `from` of the code on, are asked of
// those that stand at them. It ends at the first place where something else stands in front of such a call, or at z.
pub fn fill_cells(
    lent: &Lent,
    root: usize,
    i: usize,
    e: usize,
    p: usize,
    z: usize,
    from: usize,
    column: &mut [u32],
) -> usize
    requires { AskCells lent.now root i e p z column.old }
    ensures column { Column (plan_of lent.now) (pool_of lent.now) (table_of lent.now) (text_of lent.now) root i e p z column.new }
    ensures lower_bound { result < z → from ≤ result }
{
    eval_rows::fill(
        lent.plan, lent.pool, lent.table, lent.text, root, i, e, p, z, from, column,
    )
}
