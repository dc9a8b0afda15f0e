// How long the bodies of items are, and the items with their kind.

// Child and descendant: how many selectors. Filter, and, or: how many bytes of code.
pub const SIZE_BODY: usize = 2;

// Name and text: where it starts in the pool, and its length.
pub const POOLED_BODY: usize = 4;

// Index, integer and float.
pub const NUMBER_BODY: usize = 8;

// Compare and constant.
pub const BYTE_BODY: usize = 1;

// Which of the three numbers are given, and the three.
pub const SLICE_BODY: usize = 25;

// ---- items

// All other kinds have no body.
pub const PLAIN_ITEM: usize = 1;

pub const SIZE_ITEM: usize = 1 + SIZE_BODY;

pub const POOLED_ITEM: usize = 1 + POOLED_BODY;

pub const NUMBER_ITEM: usize = 1 + NUMBER_BODY;

pub const BYTE_ITEM: usize = 1 + BYTE_BODY;

pub const SLICE_ITEM: usize = 1 + SLICE_BODY;
