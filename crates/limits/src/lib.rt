// The limits of document 01, "What the delivery holds" and "Marks, regions, codes". specs/Limits.antt has each under the same name.
#![tactic(auto)]

ghost use Rattle.std.specs.Prelude.{◌≡◌, ◌&&◌, leb};
ghost use Rattle.limits.specs.Limits.{is_dimension_count, is_bits, is_vector_count, is_neighbour_count};

// Dimension count d is 1 to MAX_DIMENSIONS, total bits b at most MAX_DIMENSION_BITS for each dimension, vector count n 1 to
// MAX_VECTORS.
pub const MAX_DIMENSIONS: usize = 32;

pub const MAX_DIMENSION_BITS: usize = 6;

pub const MAX_VECTORS: usize = 512;
// The most neighbours, k, that a search or a scan can give: no k is above it, and arrays of entries have room for so many.
pub const MAX_NEIGHBOURS: usize = 512;
// The most vectors of a library that the kit program takes.
pub const KIT_VECTORS: usize = 512;
// The most queries of a batch.
pub const MAX_QUERIES: usize = 64;
// A component is a whole number from LEAST_COMPONENT to GREATEST_COMPONENT.
pub const LEAST_COMPONENT: i32 = -32768;

pub const GREATEST_COMPONENT: i32 = 32767;
// A mark is a whole number from LEAST_MARK to GREATEST_MARK.
pub const LEAST_MARK: i32 = -32768;

pub const GREATEST_MARK: i32 = 32768;

// Whether a number of dimensions is within the limits.
pub fn is_dimension_count(d: usize) -> bool
    ensures { result ≡ is_dimension_count d }
{
    is_between(1, d, MAX_DIMENSIONS)
}

// Whether a number of bits is within the limits, for d dimensions.
pub fn is_bits(d: usize, b: usize) -> bool
    ensures { result ≡ is_bits d b }
{
    let whole = b / MAX_DIMENSION_BITS;
    if whole == d {
        return b % MAX_DIMENSION_BITS < 1;
    }
    whole < d
}

// Whether a number of vectors is within the limits.
pub fn is_vector_count(n: usize) -> bool
    ensures { result ≡ is_vector_count n }
{
    is_between(1, n, MAX_VECTORS)
}

// Whether k neighbours can be asked for among n vectors.
pub fn is_neighbour_count(n: usize, k: usize) -> bool
    ensures { result ≡ is_neighbour_count n k }
{
    is_between(1, k, n)
}

// Whether a number is from low to high.
pub fn is_between(low: usize, x: usize, high: usize) -> bool
    ensures { result ≡ leb low x && leb x high }
{
    (low..=high).contains(&x)
}
