// The fields of a record of 24 bytes. Each function asks that the node is one of the table.
ghost use Rattle.std.specs.Prelude.{◌≡◌, false, ◌<◌};
ghost use Rattle.std.specs.Float.{binary64};
ghost use Rattle.std.specs.Float.Ieee.{nan_bits, of_bits};
ghost use Rattle.definition.specs.Bytes.{signed64};
ghost use Rattle.definition.specs.Tables.{node_count, field, kind_at, depth_at, key_start, key_length, parent_at, payload as payloadAt, low_word, high_word, child_count};
ghost use Rattle.table.specs.Words.{Head};

use text::bytes;

// A record is 24 bytes long, and its number, bits, text or range of children begins at byte 16.
pub const RECORD: usize = 24;

pub const PAYLOAD: usize = 16;

// The kinds of values: bytes and no enum, since `kind` answers the byte of a record that may be wrong (`kind_at`), and rules and evaluation compare it by its order.
pub const KIND_NULL: u8 = 0;

pub const KIND_FALSE: u8 = 1;

pub const KIND_TRUE: u8 = 2;

pub const KIND_INTEGER: u8 = 3;

pub const KIND_FLOAT: u8 = 4;

pub const KIND_TEXT: u8 = 5;

pub const KIND_LIST: u8 = 6;

pub const KIND_MAP: u8 = 7;

// Byte 0: the kind.
pub fn kind(table: &[u8], node: usize) -> u8
    requires { node < node_count table.now }
    ensures { result ≡ kind_at table.now node }
{
    table[RECORD * node]
}

// Byte 1: the depth.
pub fn depth(table: &[u8], node: usize) -> u8
    requires { node < node_count table.now }
    ensures { result ≡ depth_at table.now node }
{
    table[RECORD * node + 1]
}

// Bytes 2-3, which are to be zero.
pub fn zeros_2(table: &[u8], node: usize) -> u16
    requires { node < node_count table.now }
    ensures { result ≡ field table.now node 2 2 }
{
    bytes::word16(table, RECORD * node + 2) as u16
}

// Bytes 0-3 as one number: the kind, the depth, and the bytes that are to be zero.
pub fn head(table: &[u8], node: usize) -> usize
    requires { node < node_count table.now }
    ensures { Head table.now node result }
{
    let low = kind(table, node) as usize + depth(table, node) as usize * 256;
    low + zeros_2(table, node) as usize * 65536
}

// Bytes 4-7: where the key starts.
pub fn key_start(table: &[u8], node: usize) -> u32
    requires { node < node_count table.now }
    ensures { result ≡ key_start table.now node }
{
    bytes::word32(table, RECORD * node + 4) as u32
}

// Bytes 8-11: the key's length.
pub fn key_length(table: &[u8], node: usize) -> u32
    requires { node < node_count table.now }
    ensures { result ≡ key_length table.now node }
{
    bytes::word32(table, RECORD * node + 8) as u32
}

// Bytes 12-15: the parent's node number.
pub fn parent(table: &[u8], node: usize) -> u32
    requires { node < node_count table.now }
    ensures { result ≡ parent_at table.now node }
{
    bytes::word32(table, RECORD * node + 12) as u32
}

// Bytes 16-23 as one number.
pub fn payload(table: &[u8], node: usize) -> u64
    requires { node < node_count table.now }
    ensures { result ≡ payloadAt table.now node }
{
    bytes::word64(table, RECORD * node + PAYLOAD)
}

// Bytes 16-23 as an integer in two's complement.
pub fn integer(table: &[u8], node: usize) -> i64
    requires { node < node_count table.now }
    ensures { result ≡ signed64 (payloadAt table.now node) }
{
    bytes::int64(table, RECORD * node + PAYLOAD)
}

// Bytes 16-23 as the bits of a float.
pub fn float(table: &[u8], node: usize) -> f64
    requires node_bound { node < node_count table.now }
    requires node_value { nan_bits binary64 (payloadAt table.now node) ≡ false }
    ensures { result ≡ of_bits binary64 (payloadAt table.now node) }
{
    bytes::float64(table, RECORD * node + PAYLOAD)
}

// Bytes 16-19: a text's start, a container's first child.
pub fn low_word(table: &[u8], node: usize) -> u32
    requires { node < node_count table.now }
    ensures { result ≡ low_word table.now node }
{
    bytes::word32(table, RECORD * node + 16) as u32
}

// Bytes 20-23: a text's length, a container's child count.
pub fn high_word(table: &[u8], node: usize) -> u32
    requires { node < node_count table.now }
    ensures { result ≡ high_word table.now node }
{
    bytes::word32(table, RECORD * node + 20) as u32
}

// Where a text starts.
pub fn text_start(table: &[u8], node: usize) -> u32
    requires { node < node_count table.now }
    ensures { result ≡ low_word table.now node }
{
    low_word(table, node)
}

// How long a text is.
pub fn text_length(table: &[u8], node: usize) -> u32
    requires { node < node_count table.now }
    ensures { result ≡ high_word table.now node }
{
    high_word(table, node)
}

// Where the children of a list or a map begin, as its record says.
pub fn first_child(table: &[u8], node: usize) -> u32
    requires { node < node_count table.now }
    ensures { result ≡ low_word table.now node }
{
    low_word(table, node)
}

// How many children a list or a map has, as its record says.
pub fn children(table: &[u8], node: usize) -> u32
    requires { node < node_count table.now }
    ensures { result ≡ high_word table.now node }
{
    high_word(table, node)
}

// How many children a node has: none, if it is neither a list nor a map.
pub fn child_count(table: &[u8], node: usize) -> u32
    requires { node < node_count table.now }
    ensures { result ≡ child_count table.now node }
{
    let k = kind(table, node);
    if k == KIND_LIST {
        return high_word(table, node);
    }
    if k == KIND_MAP {
        return high_word(table, node);
    }
    0
}
