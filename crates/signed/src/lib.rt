// Whole numbers of 32 bits, read from a slice, and as keys: numbers from 0 on in the same order.
#![tactic(auto)]

pub mod compare;
pub mod components;

ghost use Rattle.std.specs.Prelude.{◌≡◌, pos, slice_index_or};
ghost use Rattle.signed.specs.Keys.{key_of};

// The element at an index, 0 past the end.
pub fn at(s: &[i32], i: usize) -> i32
    ensures { result ≡ slice_index_or s.now i (pos 0) }
{
    s.get(i).copied().unwrap_or(0)
}

// A number's key.
pub fn key(z: i32) -> u64
    ensures { result ≡ key_of z }
{
    (i64::from(z) + 0x8000_0000) as u64
}

// The key of the element at an index, that of 0 past the end.
pub fn key_at(s: &[i32], i: usize) -> u64
    ensures { result ≡ key_of (slice_index_or s.now i (pos 0)) }
{
    key(at(s, i))
}
