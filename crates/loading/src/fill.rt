// The buffers of a library that is loaded.
ghost use Rattle.std.specs.Prelude.{◌≡◌, ◌++◌, ◌+◌, ◌*◌, ◌/◌, ◌%◌, ◌^◌, ◌≤◌, ◌<◌, length, take, drop};
ghost use Rattle.limits.specs.Limits.{max_dimensions, max_vectors};
ghost use Rattle.records.specs.Records.{vector_kind, record_length};
ghost use Rattle.library.specs.Each.{tabulate};
ghost use Rattle.library.specs.Library.{vector_place, mark_at, settings_at, stored_at, component_at};

use crate::values::{component_at, mark_at};
use library::vector_place;

// The first m marks are read into the front of the buffer.
pub(crate) fn fill_marks(bytes: &[u8], m: usize, marks: &mut [i32])
    requires { (m < 2 ^ 32) × (m ≤ length marks.old) }
    ensures { marks.new ≡ tabulate m (mark_at bytes.now) ++ drop m marks.old }
{
    for (i, mark) in marks[..m].iter_mut().enumerate() {
        *mark = mark_at(bytes, i);
    }
}

// The settings of n vectors, whose records stand behind m marks, are read into the front of the buffer.
pub(crate) fn fill_settings(bytes: &[u8], m: usize, n: usize, settings: &mut [u32])
    requires { (m < 2 ^ 32) × (n < 2 ^ 32) × (n ≤ length settings.old) }
    ensures { settings.new ≡ tabulate n (settings_at m bytes.now) ++ drop n settings.old }
{
    for (i, setting) in settings[..n].iter_mut().enumerate() {
        *setting = records::u32_at(bytes, vector_place(m as u32, i as u32) + 1);
    }
}

// The d components of each of n vectors, whose records stand behind m marks, are read into the front of the buffer.
pub(crate) fn fill_components(bytes: &[u8], m: usize, d: usize, n: usize, components: &mut [i32])
    requires { (m < 2 ^ 32) × (d ≤ max_dimensions) × (n ≤ max_vectors) × (n * d ≤ length components.old)
        × (vector_place m n ≤ length bytes.now) }
    ensures { components.new
        ≡ tabulate (n * d) (λ k. component_at m bytes.now (k / d) (k % d)) ++ drop (n * d) components.old }
{
    for i in 0..n {
        fill_vector(
            bytes,
            vector_place(m as u32, i as u32),
            d,
            i * d,
            components,
        );
    }
}

// The d components of the vector whose record begins at `at` and is whole are read into the buffer from `from` on.
fn fill_vector(bytes: &[u8], at: usize, d: usize, from: usize, components: &mut [i32])
    requires { (at + record_length vector_kind ≤ length bytes.now) × (d ≤ max_dimensions) × (from + d ≤ length components.old) }
    ensures { components.new
        ≡ take from components.old
        ++ (tabulate d (stored_at (drop at bytes.now)) ++ drop (from + d) components.old) }
{
    for (t, component) in components[from..from + d].iter_mut().enumerate() {
        *component = component_at(bytes, at, t);
    }
}
