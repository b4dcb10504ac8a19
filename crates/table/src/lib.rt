// A query's table: what the step to each region adds to a bound.
#![tactic(auto)]

ghost use Rattle.std.specs.Prelude.{◌≡◌, cond, ◌&&◌, length, ◌==◌};
ghost use Rattle.layout.specs.Layout.{first_marks};
ghost use Rattle.step.specs.Step.{step_of};
ghost use Rattle.table.specs.Table.{has_table, steps_from, table_of};

use layout::Layout;
use limits::{MAX_DIMENSION_BITS, MAX_DIMENSIONS};
use step::Bound;

// The length of the longest table: that of the longest marks buffer.
pub const MAX_TABLE: usize = MAX_DIMENSIONS * ((1 << MAX_DIMENSION_BITS) + 1);

// The query's table. It stays as it was where the marks or the table are not as long as d dimensions with b bits in all make them.
pub fn fill_table(
    bound: Bound,
    d: usize,
    b: usize,
    marks: &[i32],
    factors: [u32; MAX_DIMENSIONS],
    query: &[i32],
    table: &mut [u64],
)
    ensures { table.new
        ≡ cond (has_table d b (length marks.now) (length table.old))
        (table_of (step_of bound) d b marks.now factors query.now) table.old }
{
    let Ok(layout) = Layout::new(d, b) else {
        return;
    };
    if has_table(layout, marks.len(), table.len()) {
        fill_dimensions(bound, layout, marks, factors, query, table);
    }
}

// Whether marks and a table of these lengths are the layout's.
fn has_table(layout: Layout, marks: usize, table: usize) -> bool
    ensures { result ≡ (marks == first_marks layout.d layout.b layout.d) && (table == first_marks layout.d layout.b layout.d) }
{
    let length = layout.marks_length();
    marks == length && table == length
}

// The query's table, each dimension's entries in their own stretch.
fn fill_dimensions(
    bound: Bound,
    layout: Layout,
    marks: &[i32],
    factors: [u32; MAX_DIMENSIONS],
    query: &[i32],
    table: &mut [u64],
)
    requires { (length marks.now ≡ first_marks layout.d layout.b layout.d)
        × (length table.old ≡ first_marks layout.d layout.b layout.d) }
    ensures { table.new ≡ table_of (step_of bound) layout.d layout.b marks.now factors query.now }
{
    for t in 0..layout.d {
        let stretch = layout.stretch(t + 1);
        let start = stretch.offset;
        let end = start + (1usize << stretch.bits) + 1;
        fill_steps(
            bound,
            factors[t],
            signed::at(query, t),
            &marks[start..end],
            &mut table[start..end],
        );
    }
}

// What the steps from a component to the regions between neighbouring marks add, as many as there is room for; a mark past the last is 0.
fn fill_steps(bound: Bound, factor: u32, q: i32, marks: &[i32], steps: &mut [u64])
    ensures { steps.new ≡ steps_from (step_of bound) factor q marks.now 0 (length steps.old) }
{
    for (r, entry) in steps.iter_mut().enumerate() {
        *entry = step::weighed_step(
            bound,
            factor,
            q,
            signed::at(marks, r),
            signed::at(marks, r + 1),
        );
    }
}
