// The component of a value, from the value's bits.
ghost use Rattle.std.specs.Prelude.{◌≡◌, ◌*◌, ◌^◌, ◌≤◌, ◌<◌};
ghost use Rattle.std.specs.Float.{binary32};
ghost use Rattle.std.specs.Float.Ieee.{of_bits, nan_bits};
ghost use Rattle.reading.specs.Component.{unit};
ghost use Rattle.reading.specs.Intake.{value_intake, presence_of};
ghost use Rattle.reading.specs.Fields.{significand, scale, ranged, Magnitude};

use crate::Reading;
use limits::{GREATEST_COMPONENT, LEAST_COMPONENT};
use refusal::Refusal;

// A pattern's sign bit, the weight of its exponent field, and that field in an infinity or a NaN.
const SIGN: u32 = 0x8000_0000;

const LEADING: u32 = 0x80_0000;

const SPECIAL: u32 = 255;

// Below the least field a component is 0, and above the greatest it is out of range.
const LEAST_FIELD: u32 = 118;

const GREATEST_FIELD: u32 = 134;

// At the least field, a significand times the unit counts parts of a component.
const PARTS: u64 = 0x1_0000_0000;

// Whether a pattern is a NaN's: the exponent field is all ones, and the fraction is not zero.
fn is_nan(bits: u32) -> bool
    ensures { result ≡ nan_bits binary32 bits }
{
    bits % SIGN / LEADING == SPECIAL && bits % LEADING != 0
}

// The float of a pattern. Its bits decide whether it is a NaN. The language makes no float of a NaN's pattern, so the NaN comes from a
// division.
pub fn of_bits(bits: u32) -> f32
    ensures { result ≡ of_bits binary32 bits }
{
    if is_nan(bits) {
        return 0.0 / 0.0;
    }
    f32::from_bits(bits)
}

// The component of a value that is not too old, as present.
pub fn presence(x: f32) -> Result<Option<i32>, Refusal>
    ensures { result ≡ presence_of (Reading.Fresh x) }
{
    Ok(Some(component(x)?))
}

// The component of a value. The language gives the bits of a value only once it is known to be no NaN, so the two comparisons with 0 alone
// decide whether it is one: a NaN is neither at most 0 nor at least 0. Were they lost, a NaN would be refused as out of range. They stand
// apart, since the compiler makes one comparison of a value with itself of the two in one condition.
pub fn component(x: f32) -> Result<i32, Refusal>
    ensures { result ≡ value_intake x }
{
    if x <= 0.0 {
        return component_of_bits(f32::to_bits(x));
    }
    if 0.0 <= x {
        return component_of_bits(f32::to_bits(x));
    }
    Err(Refusal::NotANumber)
}

// The component of the value that a pattern stands for. The contract covers every pattern, so a NaN's is tested for here too; behind the
// comparisons of `component` that test never holds, and a compiler may leave it out.
fn component_of_bits(bits: u32) -> Result<i32, Refusal>
    ensures { result ≡ value_intake (of_bits binary32 bits) }
{
    if is_nan(bits) {
        return Err(Refusal::NotANumber);
    }
    let field = bits % SIGN / LEADING;
    if GREATEST_FIELD < field {
        return Err(Refusal::OutOfRange);
    }
    let m = magnitude(field, bits % LEADING) as i32;
    if bits < SIGN {
        in_range(m)
    } else {
        in_range(-m)
    }
}

// The size of a value by its fields, times the unit, to the nearest whole number, halves to even.
fn magnitude(field: u32, fraction: u32) -> u32
    requires { (field ≤ 134) × (fraction < 2 ^ 23) }
    ensures { Magnitude result (significand field fraction * 2 ^ scale field * unit) (2 ^ 149) }
{
    if field < LEAST_FIELD {
        return 0;
    }
    let significand = u64::from(LEADING + fraction);
    nearest((significand * Reading::UNIT) << (field - LEAST_FIELD))
}

// A number of parts as a number of wholes, to nearest, halves to even.
fn nearest(parts: u64) -> u32
    requires { parts < 2 ^ 48 }
    ensures { Magnitude result parts (2 ^ 32) }
{
    let whole = parts / PARTS;
    let rest = parts % PARTS;
    if rest < PARTS / 2 {
        return whole as u32;
    }
    if rest == PARTS / 2 {
        return (whole + whole % 2) as u32;
    }
    (whole + 1) as u32
}

// A whole number as a component.
#[tactic(auto, unfolding(crate::specs::Fields::ranged))]
fn in_range(z: i32) -> Result<i32, Refusal>
    ensures { result ≡ ranged z }
{
    if !(LEAST_COMPONENT..=GREATEST_COMPONENT).contains(&z) {
        return Err(Refusal::OutOfRange);
    }
    Ok(z)
}
