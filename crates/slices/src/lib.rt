// Which elements of a list an index and a slice select: an index as one place or none, a slice as a walk over places.
// Indices, bounds and steps are i64, as in the plan; places are usize. specs/Walks.antt has the words of the contracts.

#![tactic(auto)]

ghost use Rattle.std.specs.Prelude.{◌≡◌, true, suc, ◌≤◌, ◌<◌, pos, negsuc, nat_abs, neg_ℤ, ◌+ℤ◌, ◌-ℤ◌};
ghost use Rattle.definition.specs.Limits.{max_nodes};
ghost use Rattle.definition.specs.Literals.{in_range};
ghost use Rattle.definition.specs.Slices.{add_once, element_at, index_places, clamp, slice_step, given_start, given_stop, slice_start, slice_stop};
ghost use Rattle.slices.specs.Walks.{place_list, given, Inside, Between, Turns, Walks, Selects, Next};

// What a slice selects: `left` places, the first of them `at`, each of the others a `step` further up or down the list.
#[derive(Clone, Copy)]
pub struct Walk {
    pub at: usize,
    pub left: usize,
    pub step: usize,
    pub down: bool,
}

// ---- indices

// "Negative bounds have n added once", and a negative index too.
fn add_once(n: usize, i: i64) -> i64
    requires { (n ≤ max_nodes) × (in_range i ≡ true) }
    ensures { result ≡ add_once n i }
{
    if i < 0 {
        return i + n as i64;
    }
    i
}

// The element of a list of n at a place that may be negative or beyond the end.
fn element_at(n: usize, i: i64) -> Option<usize>
    ensures { place_list result ≡ element_at n i }
{
    if i < 0 {
        return None;
    }
    let k = i as usize;
    if k < n { Some(k) } else { None }
}

// The element of a list of n that an index selects.
pub fn index_place(n: usize, i: i64) -> Option<usize>
    requires { (n ≤ max_nodes) × (in_range i ≡ true) }
    ensures { place_list result ≡ index_places n i }
{
    element_at(n, add_once(n, i))
}

// ---- the bounds of a slice, as document 01 has them, in i64

// z brought into lo..hi.
fn clamped(lo: i64, hi: i64, z: i64) -> i64
    ensures { result ≡ clamp lo hi z }
{
    if z < lo {
        return lo;
    }
    if hi < z {
        return hi;
    }
    z
}

// "step default 1".
fn slice_step(has_step: bool, step: i64) -> i64
    ensures { result ≡ slice_step (given has_step step) }
{
    if has_step { step } else { 1 }
}

// "Default start is 0, or n-1 for a negative step".
fn given_start(n: usize, has_start: bool, start: i64, step: i64) -> i64
    requires { n ≤ max_nodes }
    ensures { result ≡ given_start n (given has_start start) step }
{
    if has_start {
        return start;
    }
    if step < 0 {
        return n as i64 - 1;
    }
    0
}

// "default stop n, or -n-1".
fn given_stop(n: usize, has_stop: bool, stop: i64, step: i64) -> i64
    requires { n ≤ max_nodes }
    ensures { result ≡ given_stop n (given has_stop stop) step }
{
    if has_stop {
        return stop;
    }
    if step < 0 {
        return -1 - n as i64;
    }
    n as i64
}

// "Then start is brought into 0..n".
fn slice_start(n: usize, has_start: bool, start: i64, step: i64) -> i64
    requires { (n ≤ max_nodes) × (in_range start ≡ true) }
    ensures { result ≡ slice_start n (given has_start start) step }
{
    let z = given_start(n, has_start, start, step);
    clamped(0, n as i64, add_once(n, z))
}

// "stop into -1..n".
fn slice_stop(n: usize, has_stop: bool, stop: i64, step: i64) -> i64
    requires { (n ≤ max_nodes) × (in_range stop ≡ true) }
    ensures { result ≡ slice_stop n (given has_stop stop) step }
{
    let z = given_stop(n, has_stop, stop, step);
    clamped(-1, n as i64, add_once(n, z))
}

// ---- from signed numbers to places

// A number that is not negative, as a place.
fn place_of(i: i64) -> usize
    requires { Between (pos 0) (pos max_nodes) i }
    ensures { pos result ≡ i }
{
    i as usize
}

// One more than a number that is -1 or not negative, as a place.
fn place_behind(i: i64) -> usize
    requires { Between (negsuc 0) (pos max_nodes) i }
    ensures { pos result ≡ i +ℤ pos 1 }
{
    if i < 0 {
        return 0;
    }
    i as usize + 1
}

// A number without its sign.
fn size(i: i64) -> usize
    requires { in_range i ≡ true }
    ensures { result ≡ nat_abs i }
{
    if i < 0 {
        return (-i) as usize;
    }
    i as usize
}

// ---- walks

// How many of the places from, from + step, from + 2 step .. lie below to.
fn turns(from: usize, to: usize, step: usize) -> usize
    requires { (0 < step) × (to ≤ suc max_nodes) }
    ensures { Turns from to step result }
{
    if to <= from {
        return 0;
    }
    (to - from - 1) / step + 1
}

// The walk down from a place of 0..n while at or above `end`. "a place n selects nothing": the first selected is then a step below it.
fn walk_down(n: usize, at: usize, end: usize, step: usize) -> Walk
    requires { (n ≤ max_nodes) × (at ≤ n) × (end ≤ suc n) × (0 < step) }
    ensures { Walks n (pos at) (pos end -ℤ pos 1) (neg_ℤ (pos step)) result }
{
    if at < n {
        let left = turns(end, at + 1, step);
        return Walk {
            at,
            left,
            step,
            down: true,
        };
    }
    if n < step {
        return Walk {
            at,
            left: 0,
            step,
            down: true,
        };
    }
    let below = at - step;
    let left = turns(end, below + 1, step);
    Walk {
        at: below,
        left,
        step,
        down: true,
    }
}

// The walk up from a place of 0..n while below `end` - 1; a step of 0 walks nowhere.
fn walk_up(n: usize, at: usize, end: usize, step: usize) -> Walk
    requires { (n ≤ max_nodes) × (at ≤ n) × (end ≤ suc n) }
    ensures { Walks n (pos at) (pos end -ℤ pos 1) (pos step) result }
{
    if step == 0 {
        return Walk {
            at,
            left: 0,
            step,
            down: false,
        };
    }
    let left = turns(at + 1, end, step);
    Walk {
        at,
        left,
        step,
        down: false,
    }
}

// "Walk from start while below stop (above, for negative steps)".
fn walk_between(n: usize, from: i64, to: i64, by: i64) -> Walk
    requires { (n ≤ max_nodes) × Between (pos 0) (pos n) from × Between (negsuc 0) (pos n) to × (in_range by ≡ true) }
    ensures { Walks n from to by result }
{
    let at = place_of(from);
    let end = place_behind(to);
    let step = size(by);
    if by < 0 {
        return walk_down(n, at, end, step);
    }
    walk_up(n, at, end, step)
}

// The elements of a list of n that a slice selects. A bound or step that is not given has any value in range, as 0.
pub fn slice_walk(
    n: usize,
    has_start: bool,
    start: i64,
    has_stop: bool,
    stop: i64,
    has_step: bool,
    step: i64,
) -> Walk
    requires { (n ≤ max_nodes) × (in_range start ≡ true) × (in_range stop ≡ true) × (in_range step ≡ true) }
    ensures { Selects n (given has_start start) (given has_stop stop) (given has_step step) result }
{
    let by = slice_step(has_step, step);
    let from = slice_start(n, has_start, start, by);
    let to = slice_stop(n, has_stop, stop, by);
    walk_between(n, from, to, by)
}

// A walk without its first place.
pub fn next_place(w: Walk) -> Walk
    requires { (0 < w.left) × Inside max_nodes w }
    ensures { Next w result }
{
    let at = w.at;
    let left = w.left - 1;
    let step = w.step;
    let down = w.down;
    if left == 0 {
        return Walk {
            at,
            left,
            step,
            down,
        };
    }
    if down {
        let lower = at - step;
        return Walk {
            at: lower,
            left,
            step,
            down,
        };
    }
    let upper = at + step;
    Walk {
        at: upper,
        left,
        step,
        down,
    }
}
