// That the constants are the definition's: each function answers some of them, and its contract is what the definition writes.
ghost use Rattle.std.specs.Prelude.{◌≡◌};
ghost use Rattle.plan_format.specs.Written.{kinds, calls, operators, words, lengths, heads};

use crate::{heads, kinds, lengths, operators, words};

// The kinds of items, ascending, up to or.
fn kinds_are() -> [u8; 18]
    ensures { result ≡ kinds }
{
    [
        kinds::ROOT,
        kinds::CURRENT,
        kinds::CHILD,
        kinds::DESCENDANT,
        kinds::NAME,
        kinds::INDEX,
        kinds::SLICE,
        kinds::WILDCARD,
        kinds::FILTER,
        kinds::END,
        kinds::INTEGER,
        kinds::FLOAT,
        kinds::TEXT,
        kinds::CONSTANT,
        kinds::COMPARE,
        kinds::NOT,
        kinds::AND,
        kinds::OR,
    ]
}

// The kinds of what stands behind operands, but compare.
fn calls_are() -> [u8; 6]
    ensures { result ≡ calls }
{
    [
        kinds::TEST,
        kinds::COUNT,
        kinds::LENGTH,
        kinds::VALUE,
        kinds::MATCH,
        kinds::SEARCH,
    ]
}

// The bytes of the operators.
fn operators_are() -> [u8; 6]
    ensures { result ≡ operators }
{
    [
        operators::EQ,
        operators::NE,
        operators::LT,
        operators::LE,
        operators::GT,
        operators::GE,
    ]
}

// The bytes of the words.
fn words_are() -> [u8; 3]
    ensures { result ≡ words }
{
    [words::FALSE, words::TRUE, words::NULL]
}

// The lengths of items.
fn lengths_are() -> [usize; 6]
    ensures { result ≡ lengths }
{
    [
        lengths::PLAIN_ITEM,
        lengths::SIZE_ITEM,
        lengths::POOLED_ITEM,
        lengths::NUMBER_ITEM,
        lengths::BYTE_ITEM,
        lengths::SLICE_ITEM,
    ]
}

// The first four bytes of a child segment of one selector.
fn heads_are() -> [usize; 5]
    ensures { result ≡ heads }
{
    [
        heads::NAME_HEAD,
        heads::INDEX_HEAD,
        heads::SLICE_HEAD,
        heads::WILDCARD_HEAD,
        heads::FILTER_HEAD,
    ]
}
