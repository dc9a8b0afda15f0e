// The bucket of a key: a number that the key's bytes decide, so that equal keys are in one bucket. Nothing else is asked of it.
ghost use Rattle.std.specs.Prelude.{◌≡◌, ◌<◌, ◌/◌, length};
ghost use Rattle.table.specs.Buckets.{hashes, mixed, folded, hash_of, bucket_of};

use text::bytes;

const FACTOR: usize = 1640531527;

const HALF: usize = 65536;

// A hash has 32 bits.
const HASHES: usize = 4294967296;

// As many buckets as a map can have members, and as many as a small table can have nodes.
pub const BUCKETS: usize = 1024;

pub const FEW_BUCKETS: usize = 128;

// The hash of what was read before and a word of at most four bytes.
fn mix(hash: usize, word: usize) -> usize
    requires { (hash < hashes) × (word < hashes) }
    ensures { (result ≡ mixed hash word) × (result < hashes) }
{
    (hash + word) * FACTOR / HALF % HASHES
}

// The hash of the whole words of four bytes.
fn words_hash(s: &[u8]) -> usize
    ensures { (result ≡ folded 4 s.now (length s.now / 4) 0 0) × (result < hashes) }
{
    let mut hash = 0;
    for i in 0..s.len() / 4 {
        hash = mix(hash, bytes::word32(s, 4 * i));
    }
    hash
}

// The hash of the bytes one by one.
fn bytes_hash(s: &[u8]) -> usize
    ensures { (result ≡ folded 1 s.now (length s.now) 0 0) × (result < hashes) }
{
    let mut hash = 0;
    for at in 0..s.len() {
        hash = mix(hash, bytes::word8(s, at));
    }
    hash
}

// The hash of a key. Behind its whole words its last four bytes are one more, if any byte is left.
fn hash_of(s: &[u8]) -> usize
    ensures { (result ≡ hash_of s.now) × (result < hashes) }
{
    if s.len() < 4 {
        return bytes_hash(s);
    }
    let words = words_hash(s);
    if s.len() % 4 == 0 {
        return words;
    }
    mix(words, bytes::word32(s, s.len() - 4))
}

// The bucket of a key, one of n. For the usual number of them no division is needed.
pub fn bucket(s: &[u8], n: usize) -> usize
    requires { 0 < n }
    ensures { (result ≡ bucket_of n s.now) × (result < n) }
{
    let hash = hash_of(s);
    let both = hash + hash / HALF;
    if n == BUCKETS {
        return both % BUCKETS;
    }
    both % n
}
