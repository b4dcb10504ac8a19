// The values of a library's records, read from its bytes. Signed numbers are read as they are, and compared as such.
ghost use Rattle.std.specs.Prelude.{◌≡◌, suc, ◌+◌, ◌*◌, ◌^◌, ◌≤◌, ◌<◌, length, drop};
ghost use Rattle.limits.specs.Limits.{max_dimensions, max_dimension_bits};
ghost use Rattle.records.specs.Records.{vector_kind, record_length, value_of};
ghost use Rattle.library.specs.Library.{mark_at, stored_at};

use library::mark_place;
use records::{VECTOR_FRONT, u32_at};

// The mark of a number, from 0.
#[tactic(auto, using(library::specs::Sizes::mark_place_lem, crate::specs::ReadLaws::mark_bits))]
pub(crate) fn mark_at(bytes: &[u8], i: usize) -> i32
    requires { i < 2 ^ 32 }
    ensures { result ≡ mark_at bytes.now i }
{
    u32_at(bytes, mark_place(i as u32) + 1).cast_signed()
}

// The number of regions of a dimension with w bits.
pub(crate) fn regions(w: usize) -> usize
    requires { w ≤ max_dimension_bits }
    ensures { result ≡ 2 ^ w }
{
    1usize << w
}

// The bits of component t of the vector whose record begins at an index and is whole.
#[tactic(auto, using(library::specs::Sizes::vector_length, records::specs::ByteLaws::two_bytes, crate::specs::ReadLaws::component_value))]
pub(crate) fn component_bits(bytes: &[u8], at: usize, t: usize) -> u32
    requires { (at + record_length vector_kind ≤ length bytes.now) × (t < max_dimensions) }
    ensures { result ≡ value_of vector_kind (suc t) (drop at bytes.now) }
{
    let i = at + VECTOR_FRONT + 2 * t;
    u32::from(bytes[i]) + 256 * u32::from(bytes[i + 1])
}

// Component t of the vector whose record begins at an index and is whole.
pub(crate) fn component_at(bytes: &[u8], at: usize, t: usize) -> i32
    requires { (at + record_length vector_kind ≤ length bytes.now) × (t < max_dimensions) }
    ensures { result ≡ stored_at (drop at bytes.now) t }
{
    i32::from((component_bits(bytes, at, t) as u16).cast_signed())
}
