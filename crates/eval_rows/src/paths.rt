// Names and indices that lead from a node to the end of a query.
ghost use Rattle.std.specs.Prelude.{IfSome};
ghost use Rattle.eval_front.specs.Visits.{AskReach};
ghost use Rattle.eval_rows.specs.Paths.{AskPath, Leads, DoneFollow};

use eval_front::Reached;
use eval_items::{leaves, plans};
use plan_format::heads::{INDEX_HEAD, NAME_HEAD};
use plan_format::kinds::END;
use text::bytes;

// The place of the end of a query, to which names and indices lead from pc on; none where it takes more to come there.
pub fn read_path(plan: &[u8], pc: usize) -> Option<usize>
    requires { AskPath plan.now pc }
    ensures { IfSome result (λ e. Leads plan.now e pc) }
{
    // The steps differ, so that `for` is no plainer.
    let mut q = pc;
    while plan[q] != END {
        let head = bytes::word32(plan, q);
        if head == NAME_HEAD {
            q += 8;
        } else {
            if head != INDEX_HEAD {
                return None;
            }
            q += 12;
        }
    }
    Some(q)
}

// The node that such a query, which ends at e, finds from a node.
pub fn follow(
    plan: &[u8],
    pool: &[u8],
    table: &[u8],
    text: &[u8],
    node: usize,
    pc: usize,
    e: usize,
) -> Reached
    requires ask_reach { AskReach plan.now pool.now table.now text.now node pc }
    requires leads { Leads plan.now e pc }
    ensures { DoneFollow plan.now pool.now table.now text.now node pc e result }
{
    // The steps differ, so that `for` is no plainer.
    let mut m = node;
    let mut q = pc;
    while q < e {
        let found = leaves::select_one(plan, pool, table, text, q + 3, m);
        let Some(k) = found else {
            return Reached {
                node: Err(m),
                pc: q,
            };
        };
        m = k;
        q = plans::next_selector(plan, q + 3);
    }
    Reached { node: Ok(m), pc: q }
}
