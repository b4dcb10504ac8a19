// Marks that rise, so that no region is empty.
ghost use Rattle.std.specs.Prelude.{◌≡◌, ◌+◌, ◌≤◌, ◌<◌};
ghost use Rattle.layout.specs.Layout.{region_count, first_marks};
ghost use Rattle.cells.specs.Rising.{rises_from, rises_first};

use layout::Layout;
use signed::compare::is_below;

// Whether in each dimension every mark is below the next.
pub(crate) fn all_rise(layout: Layout, marks: &[i32]) -> bool
    ensures { result ≡ rises_first layout.d layout.b marks.now layout.d }
{
    (0..layout.d).all(|t| dimension_rises(layout, marks, t))
}

// Whether every mark of one dimension, with t dimensions before it, is below the next.
fn dimension_rises(layout: Layout, marks: &[i32], t: usize) -> bool
    requires { t < layout.d }
    ensures { result ≡ rises_from marks.now (first_marks layout.d layout.b t) (region_count layout.d layout.b (t + 1)) }
{
    let stretch = layout.stretch(t + 1);
    rises(marks, stretch.offset, 1usize << stretch.bits)
}

// Whether each of so many marks from a place on is below the next.
fn rises(marks: &[i32], start: usize, count: usize) -> bool
    requires { start + count ≤ 4096 }
    ensures { result ≡ rises_from marks.now start count }
{
    (start..start + count).all(|at| is_below(marks, at, marks, at + 1))
}
