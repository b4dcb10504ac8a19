// Whether a vector lies in a code's cell.
ghost use Rattle.std.specs.Prelude.{◌≡◌, suc, ◌+◌, ◌*◌, ◌^◌, ◌<◌, ◌≤◌, ◌&&◌, length, ◌==◌, nat_le, nat_lt};
ghost use Rattle.limits.specs.Limits.{max_vectors};
ghost use Rattle.layout.specs.Layout.{first_marks, code_length};
ghost use Rattle.cells.specs.Cells.{in_first};
ghost use Rattle.cells.specs.CellLaws.{between};
ghost use Rattle.bounds.specs.Inside.{in_cell, run_inside};

use crate::bit_buffer::{begin, take};
use layout::Layout;
use limits::MAX_VECTORS;

// Whether code i names a cell and a vector lies in it. Where no such code names a cell, no vector does.
#[tactic(auto, unfolding(crate::specs::Inside::names_cell))]
pub fn in_cell(d: usize, b: usize, marks: &[i32], codes: &[u8], i: usize, vector: &[i32]) -> bool
    ensures { result ≡ in_cell d b marks.now codes.now i vector.now }
{
    let Ok(layout) = Layout::new(d, b) else {
        return false;
    };
    names_cell(layout, i, marks.len(), codes.len())
        && vector.len() == d
        && all_inside(layout, marks, codes, i, vector)
}

// Whether code i names a cell, by the lengths of the marks and of the codes.
fn names_cell(layout: Layout, i: usize, marks: usize, codes: usize) -> bool
    ensures { result
        ≡ nat_lt i max_vectors && (marks == first_marks layout.d layout.b layout.d && nat_le (code_length layout.b (i + 1)) codes) }
{
    i < MAX_VECTORS && marks == layout.marks_length() && layout.codes_length(i + 1) <= codes
}

// Whether each of the d components lies in the region that the code names for its dimension: those of the dimensions with one bit
// more, and those of the others.
fn all_inside(layout: Layout, marks: &[i32], codes: &[u8], i: usize, vector: &[i32]) -> bool
    requires { (length marks.now ≡ first_marks layout.d layout.b layout.d) × (i < max_vectors)
        × (suc i * layout.b ≤ length codes.now * 8) × (length vector.now ≡ layout.d) }
    ensures { result ≡ in_first layout.d layout.b marks.now codes.now i vector.now layout.d }
{
    let fewest = layout.fewest();
    let more = layout.wider();
    let wide = fewest + 1;
    let bit = i * layout.b;
    let start = more * ((1usize << wide) + 1);
    run_inside(marks, codes, wide, bit, 0, vector, more)
        && run_inside(
            marks,
            codes,
            fewest,
            bit + more * wide,
            start,
            &vector[more..],
            layout.d - more,
        )
}

// Whether so many components do, of dimensions of w bits, whose regions' numbers begin at a bit of the codes, and whose marks at a
// place of the marks buffer.
fn run_inside(
    marks: &[i32],
    codes: &[u8],
    w: usize,
    first_bit: usize,
    first_start: usize,
    vector: &[i32],
    count: usize,
) -> bool
    requires { (w ≤ 7) × (first_bit + count * w ≤ length codes.now * 8) × (first_start + count * (2 ^ w + 1) ≤ length marks.now)
        × (count ≤ length vector.now) }
    ensures { result ≡ run_inside marks.now codes.now w first_bit first_start vector.now count }
{
    if count == 0 {
        return true;
    }
    let regions = 1usize << w;
    let mask = regions - 1;
    let mut buffer = begin(codes, first_bit);
    let mut start = first_start;
    for component in &vector[..count] {
        buffer = take(codes, buffer, w);
        let region = (buffer.bits >> buffer.count) & mask;
        if !is_between(marks, start + region, *component) {
            return false;
        }
        start += regions + 1;
    }
    true
}

// Whether a number lies between the mark at a place, which may be equal, and the next one.
fn is_between(marks: &[i32], at: usize, v: i32) -> bool
    requires { at + 1 < length marks.now }
    ensures { result ≡ between marks.now at v }
{
    (marks[at]..marks[at + 1]).contains(&v)
}
