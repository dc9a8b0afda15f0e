// Little-endian numbers in a slice of bytes: reads of 2, 4 and 8 bytes, as numbers, signed numbers and floats, and writes.
// A wider number is put together from two halves.
ghost use Rattle.std.specs.Prelude.{◌≡◌, false, ◌+◌, ◌≤◌, length};
ghost use Rattle.std.specs.Float.{binary64};
ghost use Rattle.std.specs.Float.Ieee.{nan_bits, of_bits};
ghost use Rattle.definition.specs.Bytes.{part, number, little_endian, signed64, unsigned64};
ghost use Rattle.basics.specs.Reads.{Wrote};
ghost use Rattle.text.specs.Words.{Word};

// The highest bit of eight bytes, which is set in a negative number.
const SIGN_BIT: u64 = 0x8000000000000000;

// The number that one byte stands for.
pub fn word8(s: &[u8], at: usize) -> usize
    requires { at + 1 ≤ length s.now }
    ensures { Word 1 s.now at result }
{
    s[at] as usize
}

// The number that two bytes from `at` on stand for.
pub fn word16(s: &[u8], at: usize) -> usize
    requires { at + 2 ≤ length s.now }
    ensures { Word 2 s.now at result }
{
    let low = word8(s, at);
    let high = word8(s, at + 1);
    low + high * 256
}

// The number that four bytes from `at` on stand for.
pub fn word32(s: &[u8], at: usize) -> usize
    requires { at + 4 ≤ length s.now }
    ensures { Word 4 s.now at result }
{
    let low = word16(s, at);
    let high = word16(s, at + 2);
    low + high * 65536
}

// The number that eight bytes from `at` on stand for.
pub fn word64(s: &[u8], at: usize) -> u64
    requires { at + 8 ≤ length s.now }
    ensures { Word 8 s.now at result }
{
    let low = word32(s, at);
    let high = word32(s, at + 4);
    (low + high * 4294967296) as u64
}

// The number in two's complement that eight bytes from `at` on stand for.
pub fn int64(s: &[u8], at: usize) -> i64
    requires { at + 8 ≤ length s.now }
    ensures { result ≡ signed64 (number (part s.now at 8)) }
{
    let n = word64(s, at);
    if n < SIGN_BIT { n as i64 } else { !(!n as i64) }
}

// The float whose bits eight bytes from `at` on are, where those are no NaN's.
pub fn float64(s: &[u8], at: usize) -> f64
    requires at_in_bounds { at + 8 ≤ length s.now }
    requires at_value { nan_bits binary64 (number (part s.now at 8)) ≡ false }
    ensures { result ≡ of_bits binary64 (number (part s.now at 8)) }
{
    f64::from_bits(word64(s, at))
}

// The lowest byte of n is stored at `at`.
pub fn put8(d: &mut [u8], at: usize, n: usize)
    requires { at + 1 ≤ length d.old }
    ensures { Wrote d.old at (little_endian 1 n) d.new }
{
    d[at] = (n % 256) as u8;
}

// The two lowest bytes of n are stored from `at` on.
pub fn put16(d: &mut [u8], at: usize, n: usize)
    requires { at + 2 ≤ length d.old }
    ensures { Wrote d.old at (little_endian 2 n) d.new }
{
    put8(d, at, n);
    put8(d, at + 1, n / 256);
}

// The four lowest bytes of n are stored from `at` on.
pub fn put32(d: &mut [u8], at: usize, n: usize)
    requires { at + 4 ≤ length d.old }
    ensures { Wrote d.old at (little_endian 4 n) d.new }
{
    put16(d, at, n);
    put16(d, at + 2, n / 65536);
}

// The eight bytes of n are stored from `at` on.
pub fn put64(d: &mut [u8], at: usize, n: u64)
    requires { at + 8 ≤ length d.old }
    ensures { Wrote d.old at (little_endian 8 n) d.new }
{
    let m = n as usize;
    put32(d, at, m);
    put32(d, at + 4, m / 4294967296);
}

// The bits of z in two's complement, as a number.
pub fn bits64(z: i64) -> u64
    ensures { result ≡ unsigned64 z }
{
    if z < 0 { !(!z as u64) } else { z as u64 }
}

// The eight bytes of z in two's complement are stored from `at` on.
pub fn put_int64(d: &mut [u8], at: usize, z: i64)
    requires { at + 8 ≤ length d.old }
    ensures { Wrote d.old at (little_endian 8 (unsigned64 z)) d.new }
{
    put64(d, at, bits64(z))
}
