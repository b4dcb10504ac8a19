// The bounds of rows of region numbers, as sums of a table's entries.
ghost use Rattle.std.specs.Prelude.{◌≡◌, ◌+◌, ◌*◌, ◌%◌, ◌^◌, ◌≤◌, length};
ghost use Rattle.refusal.specs.First.{first, outcome};
ghost use Rattle.layout.specs.Layout.{first_marks};
ghost use Rattle.distance.specs.Values.{values_from};
ghost use Rattle.bounds.specs.Regions.{region_sum, row_sum_causes, region_sum_causes};
ghost use Rattle.bounds.specs.RegionRun.{region_run};

use layout::Layout;
use refusal::Refusal;

// The bounds of n rows of d region numbers, by a query's table. Refused are numbers of dimensions, bits or rows out of their limits, and
// other lengths. The entry of a region number that leads past the table is 0.
#[tactic(auto, using(refusal::specs::First::handed_on), unfolding(refusal::specs::First::first))]
pub fn sum_regions(
    d: usize,
    b: usize,
    table: &[u64],
    regions: &[u8],
    bounds: &mut [u64],
) -> Result<(), Refusal>
    ensures value { result
        ≡ first (region_sum_causes d b (length table.now) (length regions.now) (length bounds.old)) }
    ensures bounds_after { bounds.new
        ≡ outcome
        (first (region_sum_causes d b (length table.now) (length regions.now) (length bounds.old)))
        (values_from (region_sum d b table.now regions.now) 0 (length bounds.old))
        (λ _. bounds.old) }
{
    let layout = Layout::new(d, b)?;
    check_rows(layout, table.len(), regions.len(), bounds.len())?;
    sum_rows(layout, table, regions, bounds);
    Ok(())
}

// Whether there are such bounds, by the lengths of the table and of the region numbers, where d and b are within their limits.
#[tactic(auto, unfolding(refusal::specs::First::first))]
fn check_rows(layout: Layout, table: usize, regions: usize, n: usize) -> Result<(), Refusal>
    ensures { result ≡ first (row_sum_causes layout.d layout.b table regions n) }
{
    if !limits::is_vector_count(n) {
        return Err(Refusal::Count);
    }
    if table != layout.marks_length() || regions != n * layout.d {
        return Err(Refusal::Length);
    }
    Ok(())
}

// The bounds of as many rows as there is room for: of each the sum of the entries of the dimensions with one bit more, and that of the
// others.
fn sum_rows(layout: Layout, table: &[u64], regions: &[u8], bounds: &mut [u64])
    requires { (length table.now ≡ first_marks layout.d layout.b layout.d)
        × (length regions.now ≡ length bounds.old * layout.d) }
    ensures { bounds.new
        ≡ values_from (region_sum layout.d layout.b table.now regions.now) 0 (length bounds.old) }
{
    let fewest = layout.fewest();
    let more = layout.wider();
    let narrow = (1usize << fewest) + 1;
    let wide = (1usize << (fewest + 1)) + 1;
    let start = more * wide;
    for (i, bound) in bounds.iter_mut().enumerate() {
        let row = i * layout.d;
        let sum = sum_run(table, regions, row, 0, wide, more);
        let rest = sum_run(table, regions, row + more, start, narrow, layout.d - more);
        *bound = sum.wrapping_add(rest);
    }
}

// The sum of the entries of so many dimensions, whose region numbers begin at a place, and whose entries at a place of the table, so many
// to a dimension. An entry past the table is 0.
fn sum_run(
    table: &[u64],
    regions: &[u8],
    from: usize,
    first_start: usize,
    stride: usize,
    count: usize,
) -> u64
    requires { (from + count ≤ length regions.now) × (first_start + count * stride ≤ length table.now) }
    ensures { result ≡ region_run table.now regions.now from first_start stride count % 2 ^ 64 }
{
    let mut start = first_start;
    let mut sum = 0u64;
    for region in &regions[from..from + count] {
        let entry = table
            .get(start + usize::from(*region))
            .copied()
            .unwrap_or(0);
        sum = sum.wrapping_add(entry);
        start += stride;
    }
    sum
}
