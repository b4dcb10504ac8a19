// Distances of vectors.
#![tactic(auto)]

ghost use Rattle.std.specs.Prelude.{◌≡◌, ◌%◌, ◌^◌, ◌≤◌, length};
ghost use Rattle.refusal.specs.First.{first, outcome};
ghost use Rattle.distance.specs.Distance.{distance_of, product_at, first_squares, measured_of};
ghost use Rattle.limits.specs.Limits.{max_dimensions};
ghost use Rattle.distance.specs.Values.{values_from};
ghost use Rattle.distance.specs.Measured.{distance_causes};

use limits::MAX_DIMENSIONS;
use refusal::Refusal;
use signed::components::are_components;

// The distance of a vector from a query, of as many components as the query has.
#[tactic(auto, unfolding(refusal::specs::First::first))]
pub fn measure(query: &[i32], vector: &[i32]) -> Result<u64, Refusal>
    ensures { result ≡ outcome (first (distance_causes query.now vector.now))
        (Ok (distance_of (length query.now) query.now vector.now)) Err }
{
    let d = query.len();
    if !limits::is_dimension_count(d) {
        return Err(Refusal::Dimension);
    }
    if vector.len() != d {
        return Err(Refusal::Length);
    }
    if !are_components(query) || !are_components(vector) {
        return Err(Refusal::Component);
    }
    let factors = [1u32; MAX_DIMENSIONS];
    Ok(weighed_distance(&factors, query, vector))
}

// The distance of a vector from a query over dimensions with these factors, in 64 bits: exact for components and for factors up to 255
// (specs/Small.antt). It is 0 where the two are not equally long or have more components than any query.
#[tactic(auto, unfolding(crate::specs::Distance::measured_of))]
pub fn weighed_distance(factors: &[u32; MAX_DIMENSIONS], query: &[i32], vector: &[i32]) -> u64
    ensures { result ≡ measured_of factors.now query.now vector.now }
{
    let d = query.len();
    if vector.len() != d || MAX_DIMENSIONS < d {
        return 0;
    }
    let mut products = [0u32; MAX_DIMENSIONS];
    multiply(factors, query, vector, &mut products[..d]);
    sum_squares(&products[..d])
}

// The product of each dimension. Without a test in the loop, and with the squares in a loop of their own, the compiler makes vector code of
// both.
fn multiply(factors: &[u32; MAX_DIMENSIONS], query: &[i32], vector: &[i32], products: &mut [u32])
    requires { (length products.old ≤ max_dimensions) × (length products.old ≤ length query.now)
        × (length products.old ≤ length vector.now) }
    ensures { products.new
        ≡ values_from (product_at factors.now query.now vector.now) 0 (length products.old) }
{
    for (t, product) in products.iter_mut().enumerate() {
        *product = step::product(factors[t], query[t], vector[t]);
    }
}

// The sum of squares, modulo 2^64.
fn sum_squares(numbers: &[u32]) -> u64
    ensures { result ≡ first_squares numbers.now (length numbers.now) % 2 ^ 64 }
{
    let mut sum = 0u64;
    for number in numbers {
        let number = u64::from(*number);
        sum = sum.wrapping_add(number * number);
    }
    sum
}
