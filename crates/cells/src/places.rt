// Where the lower marks of the regions that a code names stand in the marks buffer.
ghost use Rattle.std.specs.Prelude.{◌≡◌, ◌++◌, ◌-◌, ◌^◌, ◌≤◌, ◌<◌, length, take};
ghost use Rattle.limits.specs.Limits.{max_dimensions, max_vectors};
ghost use Rattle.cells.specs.Places.{run_places, mark_places};

use codes::bits::bits_at;
use layout::Layout;

// Code i's, one for each dimension, at the front of the buffer: first of the dimensions with one bit more, then of the others.
pub(crate) fn mark_places(layout: Layout, codes: &[u8], i: usize, places: &mut [usize])
    requires { (i < max_vectors) × (layout.d ≤ length places.old) }
    ensures { take layout.d places.new ≡ mark_places layout.d layout.b codes.now i }
{
    let fewest = layout.fewest();
    let more = layout.wider();
    let wide = fewest + 1;
    let bit = i * layout.b;
    let start = more * ((1usize << wide) + 1);
    place_run(codes, wide, bit, 0, 0, more, places);
    place_run(
        codes,
        fewest,
        bit + more * wide,
        start,
        more,
        layout.d,
        places,
    );
}

// Those of the dimensions from `first` to `end`, of w bits each: `bit` is where a region's number begins in the codes, and `start` where
// its dimension's marks begin.
fn place_run(
    codes: &[u8],
    w: usize,
    first_bit: usize,
    first_start: usize,
    first: usize,
    end: usize,
    places: &mut [usize],
)
    requires { (w ≤ 7) × (first_bit ≤ 2 ^ 32) × (first_start ≤ 2 ^ 32) × («first» ≤ end)
        × (end ≤ max_dimensions) × (end ≤ length places.old) }
    ensures { take end places.new
        ≡ take «first» places.old ++ run_places codes.now w first_bit first_start (end - «first») }
{
    let mut bit = first_bit;
    let mut start = first_start;
    for place in &mut places[first..end] {
        *place = start + bits_at(codes, bit, w);
        bit += w;
        start += (1usize << w) + 1;
    }
}
