// Plan check and tally, each with the very statement that is promised of it: `promises_stated` has the types (Promises.antt) and what follows from them (Demands.antt).
// Each is thin over the operation of its name below, requires nothing, and leaves one outcome for each input. A contract below that said less would not prove this crate.

#![tactic(auto)]

ghost use Rattle.promises_stated.specs.Promises.{ChecksPlanOnly, TalliesOnly};
ghost use Rattle.plan_check.specs.Checks.{refusal};
ghost use Rattle.tally.specs.Counts.{tallied};

use tally::KINDS;

// Whether a plan and a pool are the translation of a query form; where they are not, that is refusal 11.
pub fn check_plan(plan: &[u8], pool: &[u8]) -> bool
    ensures { ChecksPlanOnly plan.now pool.now (refusal result) }
{
    plan_check::check_plan(plan, pool)
}

// Takes a plan with its pool into the counts of kinds and the number of plans: 0, or refusal 11 or 21, and then nothing is counted.
pub fn tally(plan: &[u8], pool: &[u8], counts: &mut [u64; KINDS], plans: &mut u64) -> u8
    ensures { TalliesOnly plan.now pool.now counts.old plans.old (tallied result counts.new plans.new) }
{
    tally::tally(plan, pool, counts, plans)
}
