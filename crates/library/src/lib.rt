// The library file (document 01, "Library file"): its counts, and where its records stand in its bytes. `loading` reads it and `writing`
// writes it.
#![tactic(auto)]

ghost use Rattle.std.specs.Prelude.{◌≡◌, ◌≤◌};
ghost use Rattle.refusal.specs.First.{first, outcome};
ghost use Rattle.limits.specs.Limits.{max_vectors};
ghost use Rattle.library.specs.Library.{mark_place, vector_place, library_length};
ghost use Rattle.library.specs.Tests.{counts_causes};
ghost use Rattle.library.specs.Ends.{lies};

use layout::Layout;
use records::{END_LENGTH, HEAD_LENGTH, MARK_LENGTH, VECTOR_LENGTH};
use refusal::Refusal;

// Whether the counts of a library are within the limits.
#[tactic(auto, using(refusal::specs::First::handed_on), unfolding(refusal::specs::First::first))]
pub fn check_counts(d: usize, b: usize, n: usize) -> Result<(), Refusal>
    ensures { result ≡ first (counts_causes d b n) }
{
    layout::check_shape(d, b)?;
    if !limits::is_vector_count(n) {
        return Err(Refusal::Count);
    }
    Ok(())
}

// Where the record of mark i begins.
#[tactic(auto, using(crate::specs::Sizes::mark_place_lem))]
pub fn mark_place(i: u32) -> usize
    ensures { result ≡ mark_place i }
{
    HEAD_LENGTH + i as usize * MARK_LENGTH
}

// Where, behind m marks, the record of vector i begins.
#[tactic(auto, using(crate::specs::Sizes::mark_place_lem, crate::specs::Sizes::vector_place_lem))]
pub fn vector_place(m: u32, i: u32) -> usize
    ensures { result ≡ vector_place m i }
{
    mark_place(m) + i as usize * VECTOR_LENGTH
}

// How many bytes a library of this layout and of n vectors has.
#[tactic(auto, using(crate::specs::Sizes::library_length_lem, crate::specs::Sizes::vector_place_lem, crate::specs::Sizes::layout_marks))]
pub fn length(layout: Layout, n: usize) -> usize
    requires { n ≤ max_vectors }
    ensures { result ≡ library_length layout.d layout.b n }
{
    vector_place(layout.marks_length() as u32, n as u32) + END_LENGTH
}

// How many bytes a library of these counts has, 0 where they are out of range.
pub fn library_length(d: usize, b: usize, n: usize) -> usize
    ensures { result ≡ outcome (first (counts_causes d b n)) (library_length d b n) (λ _. 0) }
{
    match Layout::new(d, b) {
        Ok(layout) if limits::is_vector_count(n) => length(layout, n),
        _ => 0,
    }
}

// Whether a number is at least `low` and below `high`, without a branch.
pub fn lies(low: i32, z: i32, high: i32) -> bool
    ensures { result ≡ lies low z high }
{
    (low <= z) & (z < high)
}
