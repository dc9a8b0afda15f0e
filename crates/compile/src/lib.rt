// Compile: from any bytes to a plan and a pool, or the right refusal.
// The plan and the pool are written in rooms of this crate's own; only what is known to be right, and to fit, is copied into the lent rooms.

#![tactic(auto)]

pub mod numbers;
pub mod rooms;

ghost use Rattle.std.specs.Prelude.{◌≡◌};
ghost use Rattle.definition.specs.Outcomes.{CompileOutcome, Compiles};
ghost use Rattle.compile.specs.Outcomes.{outcome};
ghost use Rattle.compile.specs.declared.CompileRefusal.TheVariants.{Query};

use rooms::{
    BRIEF, BRIEF_PLAN_ROOM, BRIEF_POOL_ROOM, MIDDLE, NO_BYTE, SHORT, SHORT_PLAN_ROOM,
    SHORT_POOL_ROOM, SMALL, SMALL_PLAN_ROOM, SMALL_POOL_ROOM, TINY, TINY_PLAN_ROOM, TINY_POOL_ROOM,
    compile_long, compile_middle, compile_within, early_refusal,
};

// Why a query is refused.
#[derive(Clone, Copy)]
pub enum Refusal {
    // 1: it is longer than 4,096 bytes.
    TooLong,
    // 2: it is not UTF-8.
    NotUtf8,
    // 3: its bracket count passes 32.
    TooDeep,
    // 4: it is not in the grammar, or an index, a bound or a step is out of range.
    Malformed,
    // 5: a function, an operand or a test is not well typed.
    Mistyped,
    // 6: it calls an unknown function.
    UnknownFunction,
    // 8: a float literal is beyond its range.
    BeyondRange,
}

// The lengths of a plan and of its pool.
#[derive(Clone, Copy)]
pub struct Lengths {
    pub plan: usize,
    pub pool: usize,
}

// Why nothing is written.
#[derive(Clone, Copy)]
pub enum CompileRefusal {
    // The query is refused.
    Query(Refusal),
    // 12: the plan and the pool have these lengths, and one of the rooms is too small.
    SmallRoom(Lengths),
}

impl From<Refusal> for CompileRefusal {
    ghost from_gives = { λ refusal given. given ≡ Query refusal };

    fn from(refusal: Refusal) -> CompileRefusal {
        CompileRefusal::Query(refusal)
    }
}

// "Compile: 1, 2, 3, 4 by grammar, then the first of 4, 5, 6 in the Rust's walk", then 8, 12. There is one outcome for each input.
pub fn compile(query: &[u8], plan: &mut [u8], pool: &mut [u8]) -> Result<Lengths, CompileRefusal>
    ensures answers { Compiles query.now plan.old pool.old (outcome result plan.new pool.new) }
    ensures only { (o : CompileOutcome) → Compiles query.now plan.old pool.old o → o ≡ outcome result plan.new pool.new }
{
    early_refusal(query)?;
    if query.len() <= TINY {
        return compile_within::<TINY_PLAN_ROOM, TINY_POOL_ROOM>(query, plan, pool);
    }
    if query.len() <= SMALL {
        return compile_within::<SMALL_PLAN_ROOM, SMALL_POOL_ROOM>(query, plan, pool);
    }
    if query.len() <= BRIEF {
        return compile_within::<BRIEF_PLAN_ROOM, BRIEF_POOL_ROOM>(query, plan, pool);
    }
    if query.len() <= SHORT {
        return compile_within::<SHORT_PLAN_ROOM, SHORT_POOL_ROOM>(query, plan, pool);
    }
    // 0 for every query, since it is UTF-8; but LLVM cannot tell.
    let again = query[0] / NO_BYTE;
    if query.len() <= MIDDLE {
        return compile_middle(query, plan, pool, again);
    }
    compile_long(query, plan, pool, again)
}
