// The region of a value in one dimension's marks.
#![tactic(auto)]

ghost use Rattle.std.specs.Prelude.{◌≡◌, ◌&&◌, suc, ◌+◌, ◌<◌, pos, length, drop, get_or};
ghost use Rattle.limits.specs.Limits.{is_mark};
ghost use Rattle.region.specs.Dimension.{not_above, good_dimension};
ghost use Rattle.region.specs.Region.{in_marks};
ghost use Rattle.region.specs.Halving.{half_start, halved};
ghost use Rattle.region.specs.RegionCount.{is_region_count};
ghost use Rattle.region.specs.Lookup.{looked_up};

use limits::{GREATEST_MARK, LEAST_MARK, MAX_DIMENSION_BITS};
use refusal::Refusal;

// The region of a value in one dimension's marks, of which there is one more than regions.
#[tactic(auto, using(crate::specs::Halving::halved_is), unfolding(refusal::specs::First::first))]
pub fn region(marks: &[i32], regions: usize, v: i32) -> Result<usize, Refusal>
    ensures { result ≡ looked_up marks.now regions v }
{
    if !is_region_count(regions) {
        return Err(Refusal::Bits);
    }
    if marks.len() != regions + 1 {
        return Err(Refusal::Length);
    }
    if !good_dimension(marks) {
        return Err(Refusal::Mark);
    }
    if !in_marks(marks, v) {
        return Err(Refusal::Outside);
    }
    Ok(locate(marks, v))
}

// The region by halving the stretch of marks, which are not tested: where they never fall and the value lies inside them, it is the value's
// region. Each call makes three halvings, whose halves are chosen without a branch, and hands on the part that is left.
pub fn locate(marks: &[i32], v: i32) -> usize
    ensures { result ≡ halved marks.now v }
{
    let count = marks.len();
    if count <= 2 {
        return 0;
    }
    let half = (count - 1) / 2;
    let quarter = (count - half - 1) / 2;
    let eighth = (count - half - quarter - 1) / 2;
    let first = half_start(marks, v, 0, half);
    let second = half_start(marks, v, first, quarter);
    let start = half_start(marks, v, second, eighth);
    let left = count - half - quarter - eighth;
    if left <= 2 {
        return start;
    }
    let end = start + left;
    start + locate(&marks[start..end], v)
}

// Where the half begins in which a value is sought: at the mark in the middle, or at the start where the value is below that mark.
fn half_start(marks: &[i32], v: i32, start: usize, half: usize) -> usize
    requires { start + half < length marks.now }
    ensures { result ≡ half_start marks.now v start half }
{
    let middle = start + half;
    if v < marks[middle] { start } else { middle }
}

// Whether a value lies inside the marks.
pub fn in_marks(marks: &[i32], v: i32) -> bool
    ensures { result ≡ in_marks marks.now v }
{
    let count = marks.len();
    if count == 0 {
        return false;
    }
    marks[0] <= v && v < marks[count - 1]
}

// Whether each of one dimension's marks is in range and none is below the one before it.
pub fn good_dimension(marks: &[i32]) -> bool
    ensures { result ≡ good_dimension marks.now }
{
    (0..marks.len()).all(|i| good_mark(marks, i))
}

// Whether the mark at an index is in range and not above the one behind it.
fn good_mark(marks: &[i32], i: usize) -> bool
    requires { i < length marks.now }
    ensures { result ≡ is_mark (get_or marks.now i (pos 0))
        && not_above (get_or marks.now i (pos 0)) (drop (suc i) marks.now) }
{
    if !is_mark(marks[i]) {
        return false;
    }
    let next = i + 1;
    if next == marks.len() {
        return true;
    }
    marks[i] <= marks[next]
}

// Whether a number is in a mark's range.
pub fn is_mark(z: i32) -> bool
    ensures { result ≡ is_mark z }
{
    (LEAST_MARK..=GREATEST_MARK).contains(&z)
}

// Whether a number of regions is a power of two, of at most MAX_DIMENSION_BITS bits.
fn is_region_count(regions: usize) -> bool
    ensures { result ≡ is_region_count regions }
{
    regions <= 1 << MAX_DIMENSION_BITS && regions.is_power_of_two()
}
