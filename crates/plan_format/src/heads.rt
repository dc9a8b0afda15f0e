// The first four bytes of a child segment of one selector, as a number: the segment's kind, the number of its selectors, and the selector's kind.
use crate::kinds;

const CHILD_OF_ONE: usize = 0x0100 + kinds::CHILD as usize;

const FOURTH: usize = 0x0100_0000;

pub const NAME_HEAD: usize = CHILD_OF_ONE + FOURTH * kinds::NAME as usize;

pub const INDEX_HEAD: usize = CHILD_OF_ONE + FOURTH * kinds::INDEX as usize;

pub const SLICE_HEAD: usize = CHILD_OF_ONE + FOURTH * kinds::SLICE as usize;

pub const WILDCARD_HEAD: usize = CHILD_OF_ONE + FOURTH * kinds::WILDCARD as usize;

pub const FILTER_HEAD: usize = CHILD_OF_ONE + FOURTH * kinds::FILTER as usize;
