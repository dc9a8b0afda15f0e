// The body of compare: which operator it is.

pub const EQ: u8 = 0;

pub const NE: u8 = 1;

pub const LT: u8 = 2;

pub const LE: u8 = 3;

pub const GT: u8 = 4;

pub const GE: u8 = 5;

// How many there are.
pub const HOW_MANY: usize = 1 + GE as usize;
