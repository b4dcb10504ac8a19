// One dimension's steps. Differences are those of the numbers; that to the last value before a mark, which may be no number of 32 bits, is one
// of keys.
#![tactic(auto)]

ghost use Rattle.std.specs.Prelude.{◌≡◌, ◌+◌, ◌-◌, ◌^◌, ◌≤◌};
ghost use Rattle.std.proofs.Math.IntN.{pred_ℤ};
ghost use Rattle.step.specs.Step as Step;
ghost use Rattle.step.specs.Step.{product_word, weighed_word, shortest, longest, step_of};

// A cell's two bounds: its least distance and its greatest.
#[derive(Clone, Copy, Drop)]
pub enum Bound {
    Lower,
    Upper,
}

// A factor times how far two numbers are apart, modulo 2^32: its square is what a dimension with that factor adds to a distance.
pub fn product(factor: u32, a: i32, b: i32) -> u32
    ensures { result ≡ product_word factor (Step.gap a b) }
{
    (u64::from(factor) * u64::from(a.abs_diff(b)) % 0x1_0000_0000) as u32
}

// How far a number is from the last value before a mark.
fn gap_to_last(q: i32, high: i32) -> u64
    ensures { (result ≡ Step.gap q (pred_ℤ high)) × (result ≤ 2 ^ 32) }
{
    (signed::key(q) + 1).abs_diff(signed::key(high))
}

// What a dimension with a factor adds to a bound, by the step to the region from low up to, and without, high.
pub fn weighed_step(bound: Bound, factor: u32, q: i32, low: i32, high: i32) -> u64
    ensures { result ≡ weighed_word factor (step_of bound q low high) }
{
    match bound {
        Bound::Lower => weighed(factor, shortest_step(q, low, high)),
        Bound::Upper => weighed(factor, longest_step(q, low, high)),
    }
}

// The shortest step to that region.
fn shortest_step(q: i32, low: i32, high: i32) -> u64
    ensures { (result ≡ shortest q low high) × (result ≤ 2 ^ 32) }
{
    if q < low {
        return u64::from(low.abs_diff(q));
    }
    if high <= q {
        return gap_to_last(q, high);
    }
    0
}

// The longest step to that region.
fn longest_step(q: i32, low: i32, high: i32) -> u64
    ensures { (result ≡ longest q low high) × (result ≤ 2 ^ 32) }
{
    let first = u64::from(q.abs_diff(low));
    let last = gap_to_last(q, high);
    first.max(last)
}

// What a dimension with a factor adds by its step: the square of their product, which is taken modulo 2^32.
#[tactic(auto, unfolding(crate::specs::Step::weighed_word))]
fn weighed(factor: u32, step: u64) -> u64
    requires { step ≤ 2 ^ 32 }
    ensures { result ≡ weighed_word factor step }
{
    let product = u64::from(factor) * step % 0x1_0000_0000;
    product * product
}
