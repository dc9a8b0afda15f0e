// The body of a constant: which word it stands for.

pub const FALSE: u8 = 0;

pub const TRUE: u8 = 1;

pub const NULL: u8 = 2;

// How many there are.
pub const HOW_MANY: usize = 1 + NULL as usize;
