// A node itself, `@` with no segment, compared with a literal, where nothing follows: read from the plan once for all nodes of a range.
ghost use Rattle.std.specs.Prelude.{◌≡◌, length, get_or};
ghost use Rattle.eval_filters.specs.Atoms.{AskCode};
ghost use Rattle.eval_filters.specs.Kept.{AskTest, AskKept};
ghost use Rattle.eval_filters.specs.Keeps.{DoneRange};
ghost use Rattle.eval_filters.specs.Itself.{ItselfAt, DoneItself};

use crate::atoms;
use plan_format::kinds::{CURRENT, END};

// The form of the comparison, as an atom has it, and its operator.
#[derive(Clone, Copy)]
pub struct Itself {
    pub form: u8,
    pub op: u8,
}

// The test from p up to z.
pub fn read_itself(plan: &[u8], p: usize, z: usize) -> Option<Itself>
    requires { AskCode plan.now p z }
    ensures { DoneItself plan.now p z result }
{
    if z < p + 3 {
        return None;
    }
    if plan[p] != CURRENT {
        return None;
    }
    if plan[p + 1] != END {
        return None;
    }
    let k = plan[p + 2];
    let b = atoms::behind_literal(plan, p + 2, z)?;
    if b.next != z {
        return None;
    }
    let op = b.op;
    Some(Itself {
        form: atoms::form_of(k, op),
        op,
    })
}

// The nodes from i up to e for which it holds.
pub fn keep_itself(
    plan: &[u8],
    pool: &[u8],
    table: &[u8],
    text: &[u8],
    root: usize,
    i: usize,
    e: usize,
    p: usize,
    z: usize,
    form: u8,
    op: u8,
    rest: usize,
    list: &mut [u32],
    at: usize,
    cap: usize,
) -> usize
    requires ask_kept { AskKept plan.now pool.now table.now text.now root i e rest (length list.old) at cap }
    requires ask_test { AskTest plan.now pool.now p z }
    requires itself_at { ItselfAt plan.now p z form op × (get_or plan.now rest 0 ≡ 0x0A) }
    ensures { DoneRange plan.now pool.now table.now text.now root i e p z rest cap list.old at list.new result }
{
    let q = p + 2;
    let mut a = at;
    for j in i..e {
        if cap < a {
            return a;
        }
        if !atoms::compare_form(plan, pool, table, text, form, op, j, q) {
            continue;
        }
        a = eval_front::push(list, a, j, cap);
    }
    a
}
