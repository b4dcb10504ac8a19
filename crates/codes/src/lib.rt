// Codes: the region numbers of vectors, a row of d numbers for each, packed into bytes and unpacked again.
#![tactic(auto)]

mod bit_writer;
pub mod bits;

ghost use Rattle.std.specs.Prelude.{◌≡◌, true, ◌++◌, ◌+◌, ◌-◌, ◌*◌, ◌/◌, ◌^◌, ◌≤◌, ◌<◌, length, take, drop};
ghost use Rattle.refusal.specs.First.{first, outcome};
ghost use Rattle.limits.specs.Limits.{max_dimensions, max_vectors};
ghost use Rattle.codes.specs.Bits.{bytes_of, byte_bits};
ghost use Rattle.codes.specs.BitWriter.{Writes, written_bits};
ghost use Rattle.codes.specs.Fields.{read_fields, all_below};
ghost use Rattle.codes.specs.Rows.{Rows};
ghost use Rattle.codes.specs.Codes.{joined, regions_fit, packed, split, unpacked};
ghost use Rattle.codes.specs.Pack.{length_causes, size_causes, pack_causes, unpack_causes};

use crate::bit_writer::{BitWriter, begin, finish, put};
use crate::bits::bits_at;
use layout::Layout;
use refusal::Refusal;

// n rows of region numbers packed into codes of b bits. Refused are numbers of dimensions, bits or vectors out of their limits, buffers
// of other lengths, and a region number past the last of its dimension.
#[tactic(auto, using(refusal::specs::First::handed_on), unfolding(refusal::specs::First::first))]
pub fn pack(d: usize, b: usize, n: usize, regions: &[u8], codes: &mut [u8]) -> Result<(), Refusal>
    ensures value { result ≡ first (pack_causes d b n regions.now (length codes.old)) }
    ensures codes_after { codes.new
        ≡ outcome (first (pack_causes d b n regions.now (length codes.old)))
        (packed d b n regions.now) (λ _. codes.old) }
{
    let layout = Layout::new(d, b)?;
    check_lengths(layout, n, regions.len(), codes.len())?;
    if !regions_fit(layout, regions) {
        return Err(Refusal::Code);
    }
    put_all(layout, regions, codes);
    Ok(())
}

// n rows of region numbers read off codes of b bits. Refused are the same numbers and lengths, and a spare bit that is set.
#[tactic(auto, using(refusal::specs::First::handed_on), unfolding(refusal::specs::First::first))]
pub fn unpack(d: usize, b: usize, n: usize, codes: &[u8], regions: &mut [u8]) -> Result<(), Refusal>
    ensures value { result ≡ first (unpack_causes d b n codes.now (length regions.old)) }
    ensures regions_after { regions.new
        ≡ outcome (first (unpack_causes d b n codes.now (length regions.old)))
        (unpacked d b n codes.now) (λ _. regions.old) }
{
    let layout = Layout::new(d, b)?;
    check_lengths(layout, n, regions.len(), codes.len())?;
    if bits_at(codes, n * layout.b, 8) != 0 {
        return Err(Refusal::Code);
    }
    take_all(layout, codes, regions);
    Ok(())
}

// Whether the numbers of dimensions, bits and vectors are within their limits, and the buffers' lengths the right ones.
#[tactic(auto, using(refusal::specs::First::handed_on), unfolding(refusal::specs::First::first))]
pub fn check_sizes(
    d: usize,
    b: usize,
    n: usize,
    regions: usize,
    codes: usize,
) -> Result<(), Refusal>
    ensures { result ≡ first (size_causes d b n regions codes) }
{
    let layout = Layout::new(d, b)?;
    check_lengths(layout, n, regions, codes)
}

// The same where d and b are within their limits.
#[tactic(auto, unfolding(refusal::specs::First::first))]
fn check_lengths(layout: Layout, n: usize, regions: usize, codes: usize) -> Result<(), Refusal>
    ensures { result ≡ first (length_causes layout.d layout.b n regions codes) }
{
    if !limits::is_vector_count(n) {
        return Err(Refusal::Count);
    }
    if regions != n * layout.d || codes != layout.codes_length(n) {
        return Err(Refusal::Length);
    }
    Ok(())
}

// Whether each region number is one of its dimension's. Where all dimensions have as many bits, the rows are one run of numbers.
fn regions_fit(layout: Layout, regions: &[u8]) -> bool
    requires { Rows layout.d (length regions.now) }
    ensures { result ≡ regions_fit layout.d layout.b 0 regions.now }
{
    if layout.wider() == 0 {
        return fit(regions, layout.fewest());
    }
    rows_fit(layout, regions)
}

// The same, row by row: the first numbers of a row may have one bit more than the others, and none has more than they.
fn rows_fit(layout: Layout, regions: &[u8]) -> bool
    requires { Rows layout.d (length regions.now) }
    ensures { result ≡ regions_fit layout.d layout.b 0 regions.now }
{
    let fewest = layout.fewest();
    let more = layout.wider();
    if !fit(regions, fewest + 1) {
        return false;
    }
    for i in (0..regions.len()).step_by(layout.d) {
        if !fit(&regions[i + more..i + layout.d], fewest) {
            return false;
        }
    }
    true
}

// Whether each number has at most w bits, by the greatest.
fn fit(numbers: &[u8], w: usize) -> bool
    requires { w ≤ 8 }
    ensures { result ≡ all_below (2 ^ w) numbers.now }
{
    let mut greatest = 0;
    for number in numbers {
        greatest = greatest.max(*number);
    }
    greatest as usize >> w == 0
}

// Region numbers packed into as many bytes as hold their bits.
fn put_all(layout: Layout, regions: &[u8], codes: &mut [u8])
    requires { Rows layout.d (length regions.now) × (regions_fit layout.d layout.b 0 regions.now ≡ true)
        × (length codes.old ≡ (length (joined layout.d layout.b 0 regions.now) + 7) / 8) }
    ensures { codes.new ≡ bytes_of (length codes.old) (joined layout.d layout.b 0 regions.now) }
{
    let writer = put_numbers(layout, regions, codes);
    finish(writer, codes);
}

// Region numbers put into bytes. Where all dimensions have as many bits, the rows are one run of numbers.
fn put_numbers(layout: Layout, regions: &[u8], codes: &mut [u8]) -> BitWriter
    requires { Rows layout.d (length regions.now) × (regions_fit layout.d layout.b 0 regions.now ≡ true)
        × (length (joined layout.d layout.b 0 regions.now) ≤ length codes.old * 8) }
    ensures { Writes codes.new result × (written_bits codes.new result ≡ joined layout.d layout.b 0 regions.now) }
{
    if layout.wider() == 0 {
        return put(regions, layout.fewest(), begin(), codes);
    }
    put_rows(layout, regions, codes)
}

// The same, row by row.
fn put_rows(layout: Layout, regions: &[u8], codes: &mut [u8]) -> BitWriter
    requires { Rows layout.d (length regions.now) × (regions_fit layout.d layout.b 0 regions.now ≡ true)
        × (length (joined layout.d layout.b 0 regions.now) ≤ length codes.old * 8) }
    ensures { Writes codes.new result × (written_bits codes.new result ≡ joined layout.d layout.b 0 regions.now) }
{
    let fewest = layout.fewest();
    let more = layout.wider();
    let mut writer = begin();
    for i in (0..regions.len()).step_by(layout.d) {
        let wide = put(&regions[i..i + more], fewest + 1, writer, codes);
        writer = put(&regions[i + more..i + layout.d], fewest, wide, codes);
    }
    writer
}

// As many region numbers as there is room for, read off codes. Where all dimensions have as many bits, the rows are one run of numbers.
fn take_all(layout: Layout, codes: &[u8], regions: &mut [u8])
    requires { Rows layout.d (length regions.old) × (length regions.old ≤ max_vectors * max_dimensions) }
    ensures { regions.new ≡ split layout.d layout.b 0 (length regions.old) (byte_bits codes.now) }
{
    if layout.wider() == 0 {
        let end = regions.len();
        take(codes, 0, layout.fewest(), regions, 0, end);
    } else {
        take_rows(layout, codes, regions);
    }
}

// The same, row by row.
fn take_rows(layout: Layout, codes: &[u8], regions: &mut [u8])
    requires { Rows layout.d (length regions.old) × (length regions.old ≤ max_vectors * max_dimensions) }
    ensures { regions.new ≡ split layout.d layout.b 0 (length regions.old) (byte_bits codes.now) }
{
    let fewest = layout.fewest();
    let more = layout.wider();
    let mut from = 0;
    for i in (0..regions.len()).step_by(layout.d) {
        take(codes, from, fewest + 1, regions, i, i + more);
        take(
            codes,
            from + more * (fewest + 1),
            fewest,
            regions,
            i + more,
            i + layout.d,
        );
        from += layout.b;
    }
}

// Numbers of w bits each, read off codes from a bit on, into the places from start to end.
fn take(codes: &[u8], from: usize, w: usize, numbers: &mut [u8], start: usize, end: usize)
    requires { (w ≤ 8) × (start ≤ end) × (end ≤ length numbers.old) × (from + 8 * (end - start) < 2 ^ 63) }
    ensures { take end numbers.new
        ≡ take start numbers.old ++ read_fields w (end - start) (drop from (byte_bits codes.now)) }
{
    let mut at = from;
    for i in start..end {
        numbers[i] = bits_at(codes, at, w) as u8;
        at += w;
    }
}
