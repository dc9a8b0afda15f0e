// What plans consist of: the number of items of every kind over a series of plans, given one at a time, and the number of plans.
// A plan is counted by itself first, in an array of counters of its own, so that a refusal leaves what was counted before as it is.

#![tactic(auto)]

ghost use Rattle.std.specs.Prelude.{◌≡◌, true, ◌≤◌, length};
ghost use Rattle.tally_laws.specs.Items.{body_length, kinds_of};
ghost use Rattle.tally_laws.specs.Tallies.{TallyOutcome, Tallies};
ghost use Rattle.tally.specs.Counts.{CountsOf, Fits, Sums, tallied};

use limits::MAX_INT;
use plan_check::check_plan;
use plan_format::{kinds, lengths};

// As many counts as a byte has values.
pub const KINDS: usize = 256;

// How many bytes follow the byte of a kind.
#[tactic(auto, unfolding(tally_laws::specs::Items::body_length))]
fn body_length(kind: u8) -> usize
    ensures { (result ≡ body_length kind) × (result ≤ 25) }
{
    match kind {
        kinds::CHILD | kinds::DESCENDANT | kinds::FILTER | kinds::AND | kinds::OR => {
            lengths::SIZE_BODY
        }
        kinds::NAME | kinds::TEXT => lengths::POOLED_BODY,
        kinds::INDEX | kinds::INTEGER | kinds::FLOAT => lengths::NUMBER_BODY,
        kinds::CONSTANT | kinds::COMPARE => lengths::BYTE_BODY,
        kinds::SLICE => lengths::SLICE_BODY,
        _ => 0,
    }
}

// How often each kind occurs among the items of a plan.
fn count_items(plan: &[u8]) -> [u64; KINDS]
    requires { length plan.now ≤ 65535 }
    ensures { CountsOf (kinds_of plan.now) result }
{
    let mut counts = [0u64; KINDS];
    // A loop over the place: the kind says how far the next item is.
    let mut at = 0;
    while at < plan.len() {
        let kind = plan[at];
        let k = kind as usize;
        counts[k] = counts[k] + 1;
        at = at + 1 + body_length(kind);
    }
    counts
}

// Whether no count passes 2^53-1 with those of a plan.
fn fits(more: [u64; KINDS], counts: &[u64; KINDS]) -> bool
    ensures { Fits more counts.now result }
{
    for i in 0..KINDS {
        let old = counts[i];
        if MAX_INT < old {
            return false;
        }
        if MAX_INT - old < more[i] {
            return false;
        }
    }
    true
}

// The counts with those of a plan, where none passes 2^53-1.
fn sums(more: [u64; KINDS], counts: &[u64; KINDS]) -> [u64; KINDS]
    requires { Fits more counts.now true }
    ensures { Sums more counts.now result }
{
    let mut all = [0u64; KINDS];
    for i in 0..KINDS {
        all[i] = counts[i] + more[i];
    }
    all
}

// Takes a plan with its pool into the counts and the number of plans. 0, or the refusal: 11, or 21 where a count would pass 2^53-1; then nothing is counted.
// The refusal is a number, as it is handed to C.
pub fn tally(plan: &[u8], pool: &[u8], counts: &mut [u64; KINDS], plans: &mut u64) -> u8
    ensures answers { Tallies plan.now pool.now counts.old plans.old (tallied result counts.new plans.new) }
    ensures only { (o : TallyOutcome) → Tallies plan.now pool.now counts.old plans.old o → o ≡ tallied result counts.new plans.new }
{
    if !check_plan(plan, pool) {
        return 11;
    }
    let taken = *plans;
    if MAX_INT <= taken {
        return 21;
    }
    let more = count_items(plan);
    if !fits(more, counts) {
        return 21;
    }
    *counts = sums(more, counts);
    *plans = taken + 1;
    0
}
