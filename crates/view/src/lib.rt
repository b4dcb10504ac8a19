// One dimension's marks, looked at with their number of regions as one thing. The functions over the view are thin: the work is that of
// functions over plain slices. Those with plain parameters stand above them, for every other caller.
#![tactic(auto)]

ghost use Rattle.std.specs.Prelude.{◌≡◌};
ghost use Rattle.refusal.specs.First.{first, outcome};
ghost use Rattle.region.specs.Region.{region_of};
ghost use Rattle.region.specs.Lookup.{looked_up};
ghost use Rattle.partition.specs.Marks.{dimension_marks};
ghost use Rattle.partition.specs.Parts.{seen_marks};
ghost use Rattle.view.specs.View.{seen_regions, value_causes};

use partition::{check_part, checked_part, regions_between};
use refusal::Refusal;

// One dimension's marks, and how many regions they bound.
#[derive(Drop)]
pub struct View<'a> {
    pub marks: &'a [i32],
    pub regions: usize,
}

// Dimension j's view, from 1, or an empty part and no regions where check_part refuses.
pub fn view_of<'a>(d: usize, b: usize, marks: &'a [i32], j: usize) -> View<'a>
    ensures { (result.marks.now ≡ seen_marks d b marks.now j) × (result.regions ≡ seen_regions d b marks.now j) }
{
    let part = checked_part(d, b, marks, j);
    View {
        marks: part,
        regions: regions_between(part),
    }
}

// The region of a value in a view's marks.
pub fn region_in<'a>(view: View<'a>, v: i32) -> Result<usize, Refusal>
    ensures { result ≡ looked_up view.entry.marks.now view.entry.regions v }
{
    region::region(view.marks, view.regions, v)
}

// A view's marks.
pub fn marks_of<'a>(view: View<'a>) -> &'a [i32]
    ensures { result ≡ view.entry.marks }
{
    view.marks
}

// Dimension j's part of the marks buffer, from 1, or an empty part where check_part refuses.
pub fn dimension_marks<'a>(d: usize, b: usize, marks: &'a [i32], j: usize) -> &'a [i32]
    ensures { result.now ≡ seen_marks d b marks.now j }
{
    marks_of(view_of(d, b, marks, j))
}

// The region of a value in dimension j's marks. Where the view refuses, a second call gives the cause.
pub fn region_of(d: usize, b: usize, marks: &[i32], j: usize, v: i32) -> Result<usize, Refusal>
    ensures { result ≡ outcome (first (value_causes d b marks.now j v))
        (Ok (region_of (dimension_marks d b marks.now j) v)) Err }
{
    match look_up(d, b, marks, j, v) {
        Ok(number) => Ok(number),
        Err(_) => {
            check_part(d, b, marks, j)?;
            Err(Refusal::Outside)
        }
    }
}

// The region of a value in dimension j's view. A view that was refused has no regions, so a lookup in it refuses too.
fn look_up(d: usize, b: usize, marks: &[i32], j: usize, v: i32) -> Result<usize, Refusal>
    ensures { result ≡ looked_up (seen_marks d b marks.now j) (seen_regions d b marks.now j) v }
{
    region_in(view_of(d, b, marks, j), v)
}
