// Whole numbers of two slices compared, 0 past the end.
ghost use Rattle.std.specs.Prelude.{◌≡◌, pos, int_lt, slice_index_or};

use crate::at;

// Whether a's number i is below b's number j.
pub fn is_below(a: &[i32], i: usize, b: &[i32], j: usize) -> bool
    ensures { result ≡ int_lt (slice_index_or a.now i (pos 0)) (slice_index_or b.now j (pos 0)) }
{
    at(a, i) < at(b, j)
}
