// The records of a library, put into bytes.
ghost use Rattle.std.specs.Prelude.{◌≡◌, ◌++◌, ◌+◌, ◌-◌, ◌*◌, ◌^◌, ◌≤◌, ◌<◌, pos, length, get_or, take, replicate};
ghost use Rattle.std.specs.Int.{w16};
ghost use Rattle.std.proofs.Common.{of_z};
ghost use Rattle.records.specs.Bytes.{low_first};
ghost use Rattle.records.specs.Records.{vector_kind, record_length, joined};
ghost use Rattle.library.specs.Each.{each, tabulate};
ghost use Rattle.library.specs.Library.{head_bytes, mark_bytes, vector_bytes, mark_place, vector_place};
ghost use Rattle.writing.specs.Sized.{Row, Writing};
ghost use Rattle.writing.specs.SignedBytes.{Bits};

use library::{mark_place, vector_place};
use records::{Kind, VECTOR_FRONT, VECTOR_LENGTH};

#[tactic(auto, using(library::specs::Sizes::mark_place_lem))]
pub(crate) fn write_head(d: usize, b: usize, n: usize, bytes: &mut [u8])
    requires { mark_place 0 ≤ length bytes.old }
    ensures { take (mark_place 0) bytes.new ≡ head_bytes d b n }
{
    put_byte(bytes, 0, Kind::Head as u64);
    put_byte(bytes, 1, d as u64);
    put_byte(bytes, 2, b as u64);
    put_pair(bytes, 3, n as u64);
}

#[tactic(auto, using(library::specs::Sizes::mark_place_lem))]
pub(crate) fn write_marks(marks: &[i32], bytes: &mut [u8])
    requires { (length marks.now < 2 ^ 32) × (mark_place (length marks.now) ≤ length bytes.old) }
    ensures { take (mark_place (length marks.now)) bytes.new
        ≡ take (mark_place 0) bytes.old
        ++ each (length marks.now) (λ i. mark_bytes (get_or marks.now i (pos 0))) }
{
    for (i, mark) in marks.iter().enumerate() {
        let at = mark_place(i as u32);
        put_byte(bytes, at, Kind::Mark as u64);
        put_quad(bytes, at + 1, bits_of(*mark));
    }
}

pub(crate) fn write_vectors(
    d: usize,
    n: usize,
    m: usize,
    settings: &[u32],
    components: &[i32],
    bytes: &mut [u8],
)
    requires { Writing d n m settings.now components.now (length bytes.old) }
    ensures { take (vector_place m n) bytes.new
        ≡ take (vector_place m 0) bytes.old
        ++ each n (λ i. vector_bytes d (get_or settings.now i 0) (λ t. get_or components.now (i * d + t) (pos 0))) }
{
    for (i, own_settings) in settings[..n].iter().enumerate() {
        write_vector(
            d,
            vector_place(m as u32, i as u32),
            *own_settings,
            components,
            i * d,
            bytes,
        );
    }
}

// The record of the vector whose components stand from an index on.
fn write_vector(
    d: usize,
    at: usize,
    settings: u32,
    components: &[i32],
    from: usize,
    bytes: &mut [u8],
)
    requires { (at + record_length vector_kind ≤ length bytes.old) × (Row d from components.now) }
    ensures { take (at + record_length vector_kind) bytes.new
        ≡ take at bytes.old ++ vector_bytes d settings (λ t. get_or components.now (from + t) (pos 0)) }
{
    put_byte(bytes, at, Kind::Vector as u64);
    put_quad(bytes, at + 1, u64::from(settings));
    write_stored(d, at + VECTOR_FRONT, components, from, bytes);
    write_zeros(at + VECTOR_FRONT + 2 * d, at + VECTOR_LENGTH, bytes);
}

// The d components of a vector, two bytes each.
fn write_stored(d: usize, at: usize, components: &[i32], from: usize, bytes: &mut [u8])
    requires { (at + 2 * d ≤ length bytes.old) × (Row d from components.now) }
    ensures { take (at + 2 * d) bytes.new
        ≡ take at bytes.old
        ++ joined (replicate d 2) (tabulate d (λ t. of_z w16 (get_or components.now (from + t) (pos 0)))) }
{
    for (t, z) in components[from..from + d].iter().enumerate() {
        put_pair(bytes, at + 2 * t, bits_of(*z));
    }
}

// Zeros from one index up to another.
fn write_zeros(from: usize, to: usize, bytes: &mut [u8])
    requires { (from ≤ to) × (to ≤ length bytes.old) }
    ensures { take to bytes.new ≡ take from bytes.old ++ replicate (to - from) 0 }
{
    bytes[from..to].fill(0);
}

// A number whose low bytes are those of a signed one, in two's complement.
fn bits_of(z: i32) -> u64
    ensures { Bits result z }
{
    signed::key(z) + 0x8000_0000
}

// A number's lowest byte, into the buffer at an index.
pub(crate) fn put_byte(bytes: &mut [u8], at: usize, x: u64)
    requires { at + 1 ≤ length bytes.old }
    ensures { take (at + 1) bytes.new ≡ take at bytes.old ++ low_first 1 x }
{
    bytes[at] = (x % 256) as u8;
}

// A number's two lowest bytes, lowest first, from an index on.
fn put_pair(bytes: &mut [u8], at: usize, x: u64)
    requires { at + 2 ≤ length bytes.old }
    ensures { take (at + 2) bytes.new ≡ take at bytes.old ++ low_first 2 x }
{
    bytes[at] = (x % 256) as u8;
    bytes[at + 1] = (x / 256 % 256) as u8;
}

// A number's four lowest bytes, lowest first, from an index on.
fn put_quad(bytes: &mut [u8], at: usize, x: u64)
    requires { at + 4 ≤ length bytes.old }
    ensures { take (at + 4) bytes.new ≡ take at bytes.old ++ low_first 4 x }
{
    put_pair(bytes, at, x);
    put_pair(bytes, at + 2, x / 65536);
}
