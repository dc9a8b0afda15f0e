// The evaluation of a run alone, behind both checks, so that bench/peers.sh can time it as the other engines are timed. It asks what the checks give; an engine links
// `exports`, whose operations ask nothing, and has no part of this.

#![tactic(auto)]

ghost use Rattle.std.specs.Prelude.{length};
ghost use Rattle.eval_asks.specs.Asks.{Begins, AskSegments, DoneSegments};

// What the segments of a plan select from the root of a table, into a list: the number of nodes, or one more than the cap.
#[unsafe(no_mangle)]
pub extern "C" fn stewpebble_walk<'a>(
    plan: &'a [u8],
    pool: &'a [u8],
    table: &'a [u8],
    text: &'a [u8],
    list: &mut [u32],
    cap: usize,
) -> usize
    requires begins { Begins plan.now pool.now table.now text.now 0 0 (length list.old) 0 cap }
    requires ask_segments { AskSegments plan.now pool.now 1 }
    ensures { DoneSegments cap plan.now pool.now table.now text.now 0 0 1 list.old 0 list.new result }
{
    eval::entrance::evaluate(plan, pool, table, text, 0, 0, 1, list, 0, cap)
}
