// The kinds of items.

// ---- queries and their segments

pub const ROOT: u8 = 0x01;

pub const CURRENT: u8 = 0x02;

pub const CHILD: u8 = 0x03;

pub const DESCENDANT: u8 = 0x04;

pub const END: u8 = 0x0A;

// ---- selectors

pub const NAME: u8 = 0x05;

pub const INDEX: u8 = 0x06;

pub const SLICE: u8 = 0x07;

pub const WILDCARD: u8 = 0x08;

pub const FILTER: u8 = 0x09;

// ---- literals

pub const INTEGER: u8 = 0x10;

pub const FLOAT: u8 = 0x11;

pub const TEXT: u8 = 0x12;

pub const CONSTANT: u8 = 0x13;

// ---- operators of a filter's code

pub const COMPARE: u8 = 0x14;

pub const NOT: u8 = 0x15;

pub const AND: u8 = 0x16;

pub const OR: u8 = 0x17;

// ---- a test of an operand, and functions

pub const TEST: u8 = 0x18;

pub const COUNT: u8 = 0x19;

pub const LENGTH: u8 = 0x1A;

pub const VALUE: u8 = 0x1B;

pub const MATCH: u8 = 0x1C;

pub const SEARCH: u8 = 0x1D;
