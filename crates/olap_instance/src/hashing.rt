// How ids are hashed for their index: behind a key, so that ids that collide under one key don't under another.
ghost use Rattle.std.specs.Prelude.{◌≡◌, ◌≤◌, ◌∷◌, ◌++◌, [], length, take};
ghost use Rattle.std.specs.Int.{w64, from_le_bytes};
ghost use Rattle.std.specs.List.{fold};
ghost use Rattle.olap_instance.specs.Hashing as hashing;

use sha2::{Digest, Sha256};
use std::hash::{BuildHasher, Hasher};

// A point is kept eight times as large, so that the low half of a product with it ends where 61 bits of the product
// end.
const SCALE: u64 = 8;
// 2 ^ 61.
const LOW: u64 = 0x2000_0000_0000_0000;

// 2 ^ 64.
const HALF: u128 = 0x1_0000_0000_0000_0000;

// How many bytes are a coefficient.
const STEP: usize = 7;

/// The value at a point of a polynomial modulo 2 ^ 61 - 1. Bytes that are written at once are its coefficients, seven
/// at a time; the last one has those that are left over, after how many were written.
#[derive(Clone, Copy)]
pub(crate) struct IdHasher {
    // Eight times the point.
    point: u64,
    value: u64,
}

// The value after one more coefficient.
#[inline(always)]
fn stepped(point: u64, value: u64, coefficient: u64) -> u64
    ensures { result ≡ hashing.stepped point value coefficient }
{
    let sum = (value % LOW + value / LOW).wrapping_add(coefficient);
    let product = sum as u128 * point as u128;
    let low = (product % HALF) as u64 / SCALE;
    low.wrapping_add((product / HALF) as u64)
}

// The first seven bytes as a number, the lowest first.
#[inline(always)]
fn seven(bytes: &[u8]) -> u64
    requires { 7 ≤ length bytes.now }
    ensures { result ≡ from_le_bytes w64 (take 7 bytes.now ++ 0 ∷ []) }
{
    u64::from_le_bytes([
        bytes[0], bytes[1], bytes[2], bytes[3], bytes[4], bytes[5], bytes[6], 0,
    ])
}

// A number of bytes with these bytes after it.
#[inline(always)]
fn with_rest(count: usize, rest: &[u8]) -> u64
    ensures { result ≡ fold hashing.with_byte count rest.now }
{
    let mut number = count as u64;
    'bytes: for byte in rest {
        number = number << 8 | *byte as u64;
    }
    number
}

impl Hasher for IdHasher {
    ghost write = { hashing.with_bytes };

    ghost finish = { λ h. h.value };

    #[inline(always)]
    fn finish(&self) -> u64 {
        self.value
    }

    #[inline(always)]
    fn write(&mut self, bytes: &[u8]) {
        let mut value = self.value;
        let mut rest = bytes;
        'steps: while rest.len() >= STEP {
            value = stepped(self.point, value, seven(rest));
            rest = &rest[STEP..];
        }
        self.value = stepped(self.point, value, with_rest(bytes.len(), rest));
    }
}

/// A hash behind a key, which is the point.
#[derive(Clone, Copy)]
pub(crate) struct KeyedHash {
    point: u64,
}

impl BuildHasher for KeyedHash {
    type Hasher = IdHasher;

    ghost build_hasher = { λ h. hashing.begun h.point };

    #[inline(always)]
    fn build_hasher(&self) -> IdHasher {
        IdHasher {
            point: self.point,
            value: 0,
        }
    }
}

impl KeyedHash {
    /// The hash whose key is the beginning of the text's digest. Goes over the text once.
    pub(crate) fn by_text(text: &[u8]) -> KeyedHash
        ensures key { result.point ≡ hashing.key_of text.now }
    {
        let digest = Sha256::digest(text);
        let word = u64::from_le_bytes([
            digest[0], digest[1], digest[2], digest[3], digest[4], digest[5], digest[6], digest[7],
        ]);
        KeyedHash {
            point: word / SCALE * SCALE,
        }
    }

    /// The hash at a point that is the same in each run.
    pub(crate) fn fixed() -> KeyedHash {
        KeyedHash {
            point: 0x9e37_79b9_7f4a_7c10,
        }
    }
}
