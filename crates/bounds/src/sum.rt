// The bounds of codes, as sums of a table's entries.
ghost use Rattle.std.specs.Prelude.{◌≡◌, suc, ◌+◌, ◌*◌, ◌%◌, ◌^◌, ◌<◌, ◌≤◌, length};
ghost use Rattle.refusal.specs.First.{first, outcome};
ghost use Rattle.limits.specs.Limits.{max_vectors};
ghost use Rattle.layout.specs.Layout.{first_marks};
ghost use Rattle.table.specs.Table.{bound_sum};
ghost use Rattle.distance.specs.Values.{values_from};
ghost use Rattle.bounds.specs.Run.{run_sum};
ghost use Rattle.bounds.specs.Sums.{counted_causes, sum_causes};

use crate::bit_buffer::{begin, take};
use crate::cell::exact_lengths;
use codes::bits::bits_at;
use layout::Layout;
use refusal::Refusal;

// The bounds of n codes, by a query's table. Refused are numbers of dimensions, bits or codes out of their limits, other lengths, and a
// spare bit that is set.
#[tactic(auto, using(refusal::specs::First::handed_on), unfolding(refusal::specs::First::first))]
pub fn sum_bounds(
    d: usize,
    b: usize,
    table: &[u64],
    codes: &[u8],
    bounds: &mut [u64],
) -> Result<(), Refusal>
    ensures value { result ≡ first (sum_causes d b (length table.now) codes.now (length bounds.old)) }
    ensures bounds_after { bounds.new
        ≡ outcome (first (sum_causes d b (length table.now) codes.now (length bounds.old)))
        (values_from (bound_sum d b table.now codes.now) 0 (length bounds.old))
        (λ _. bounds.old) }
{
    let layout = Layout::new(d, b)?;
    check_sums(layout, table.len(), codes, bounds.len())?;
    sum_all(layout, table, codes, bounds);
    Ok(())
}

// Whether there are such bounds, by the table's length, where d and b are within their limits.
#[tactic(auto, unfolding(refusal::specs::First::first))]
fn check_sums(layout: Layout, table: usize, codes: &[u8], n: usize) -> Result<(), Refusal>
    ensures { result ≡ first (counted_causes layout.d layout.b table codes.now n) }
{
    if !limits::is_vector_count(n) {
        return Err(Refusal::Count);
    }
    if !exact_lengths(layout, n, layout.d, table, codes.len()) {
        return Err(Refusal::Length);
    }
    if bits_at(codes, n * layout.b, 8) != 0 {
        return Err(Refusal::Code);
    }
    Ok(())
}

// The bounds of as many codes as there is room for, by a table of the right length.
pub(crate) fn sum_all(layout: Layout, table: &[u64], codes: &[u8], bounds: &mut [u64])
    requires { (length table.now ≡ first_marks layout.d layout.b layout.d) × (length bounds.old ≤ max_vectors)
        × (length bounds.old * layout.b ≤ length codes.now * 8) }
    ensures { bounds.new
        ≡ values_from (bound_sum layout.d layout.b table.now codes.now) 0 (length bounds.old) }
{
    for (i, bound) in bounds.iter_mut().enumerate() {
        *bound = code_bound(layout, table, codes, i);
    }
}

// The bound of code i: the sum of the entries of the regions that it names, those of the dimensions with one bit more, and those of the
// others.
fn code_bound(layout: Layout, table: &[u64], codes: &[u8], i: usize) -> u64
    requires { (length table.now ≡ first_marks layout.d layout.b layout.d) × (i < max_vectors)
        × (suc i * layout.b ≤ length codes.now * 8) }
    ensures { result ≡ bound_sum layout.d layout.b table.now codes.now i }
{
    let fewest = layout.fewest();
    let more = layout.wider();
    let wide = fewest + 1;
    let bit = i * layout.b;
    let start = more * ((1usize << wide) + 1);
    let sum = sum_run(table, codes, wide, bit, 0, more);
    let rest = sum_run(
        table,
        codes,
        fewest,
        bit + more * wide,
        start,
        layout.d - more,
    );
    sum.wrapping_add(rest)
}

// The sum of the entries of so many dimensions of w bits, whose regions' numbers begin at a bit of the codes, and whose entries at a
// place of the table.
fn sum_run(
    table: &[u64],
    codes: &[u8],
    w: usize,
    first_bit: usize,
    first_start: usize,
    count: usize,
) -> u64
    requires { (w ≤ 7) × (first_bit + count * w ≤ length codes.now * 8)
        × (first_start + count * (2 ^ w + 1) ≤ length table.now) }
    ensures { result ≡ run_sum table.now codes.now w first_bit first_start count % 2 ^ 64 }
{
    if count == 0 {
        return 0;
    }
    let regions = 1usize << w;
    let mask = regions - 1;
    let mut buffer = begin(codes, first_bit);
    let mut start = first_start;
    let mut sum = 0u64;
    for _t in 0..count {
        buffer = take(codes, buffer, w);
        let region = (buffer.bits >> buffer.count) & mask;
        sum = sum.wrapping_add(table[start + region]);
        start += regions + 1;
    }
    sum
}
