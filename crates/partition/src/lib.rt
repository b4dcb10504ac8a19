// The marks buffer: the test of its marks, and each dimension's part of it.
#![tactic(auto)]

ghost use Rattle.std.specs.Prelude.{◌≡◌, ◌-◌, ◌≤◌, length};
ghost use Rattle.refusal.specs.First.{first};
ghost use Rattle.layout.specs.Layout.{first_marks};
ghost use Rattle.partition.specs.Marks.{dimension_marks, good_marks};
ghost use Rattle.partition.specs.MarksCauses.{shaped_causes, marks_causes, part_causes};
ghost use Rattle.partition.specs.Parts.{seen_marks, fits_at, marks_at};

use layout::Layout;
use limits::MAX_DIMENSION_BITS;
use refusal::Refusal;
use region::good_dimension;

// Whether the marks are as many as d dimensions with b bits have, in range, and never fall.
#[tactic(auto, using(refusal::specs::First::handed_on), unfolding(refusal::specs::First::first))]
pub fn check_marks(d: usize, b: usize, marks: &[i32]) -> Result<(), Refusal>
    ensures { result ≡ first (marks_causes d b marks.now) }
{
    let layout = Layout::new(d, b)?;
    check_shaped(layout, marks)
}

// The same where d and b are within their limits.
#[tactic(auto, unfolding(refusal::specs::First::first))]
fn check_shaped(layout: Layout, marks: &[i32]) -> Result<(), Refusal>
    ensures { result ≡ first (shaped_causes layout.d layout.b marks.now) }
{
    if marks.len() != layout.marks_length() {
        return Err(Refusal::Length);
    }
    if !good_marks(layout, marks) {
        return Err(Refusal::Mark);
    }
    Ok(())
}

// Why dimension j's part of the marks buffer is not handed back, or that it is.
#[tactic(auto, unfolding(refusal::specs::First::first))]
pub fn check_part(d: usize, b: usize, marks: &[i32], j: usize) -> Result<(), Refusal>
    ensures { result ≡ first (part_causes d b marks.now j) }
{
    if !limits::is_between(1, j, d) {
        return Err(Refusal::Dimension);
    }
    check_marks(d, b, marks)
}

// Dimension j's part of the marks buffer, from 1, or an empty part where check_part refuses.
pub fn checked_part<'a>(d: usize, b: usize, marks: &'a [i32], j: usize) -> &'a [i32]
    ensures { result.now ≡ seen_marks d b marks.now j }
{
    match check_part(d, b, marks, j) {
        Ok(()) => part(Layout { d, b }, marks, j),
        Err(_) => &marks[0..0],
    }
}

// Whether each dimension's marks are in range and never fall.
fn good_marks(layout: Layout, marks: &[i32]) -> bool
    requires { length marks.now ≡ first_marks layout.d layout.b layout.d }
    ensures { result ≡ good_marks layout.d layout.b marks.now }
{
    (0..layout.d).all(|j| good_dimension(part(layout, marks, j + 1)))
}

// Dimension j's part of the marks buffer, from 1.
fn part(layout: Layout, marks: &[i32], j: usize) -> &[i32]
    requires dimension { (1 ≤ j) × (j ≤ layout.d) }
    requires length { length marks.now ≡ first_marks layout.d layout.b layout.d }
    ensures { result.now ≡ dimension_marks layout.d layout.b marks.now j }
{
    let stretch = layout.stretch(j);
    part_at(marks, stretch.offset, stretch.bits)
}

// The marks of a dimension of so many bits from an offset on, for marks that have been tested: an empty part where no dimension has these
// bits or the buffer ends before.
pub fn part_at<'a>(marks: &'a [i32], offset: usize, bits: usize) -> &'a [i32]
    ensures { result.now ≡ marks_at marks.now offset bits }
{
    if !fits_at(marks.len(), offset, bits) {
        return &marks[0..0];
    }
    let end = offset + (1usize << bits) + 1;
    &marks[offset..end]
}

// Whether a dimension can have so many bits, and a buffer of this length holds its marks from an offset on.
fn fits_at(length: usize, offset: usize, bits: usize) -> bool
    ensures { result ≡ fits_at length offset bits }
{
    if MAX_DIMENSION_BITS < bits {
        return false;
    }
    let count = (1usize << bits) + 1;
    if length < count {
        return false;
    }
    offset <= length - count
}

// How many regions a part's marks bound, none where it is empty.
pub fn regions_between(part: &[i32]) -> usize
    ensures { result ≡ length part.now - 1 }
{
    part.len().saturating_sub(1)
}
