// Whether the numbers of a slice are components.
ghost use Rattle.std.specs.Prelude.{◌≡◌, ◌^◌, nat_lt};
ghost use Rattle.limits.specs.Limits.{is_component};
ghost use Rattle.signed.specs.Components.{are_components};

use crate::key;
use limits::LEAST_COMPONENT;

// Whether each of them is one. The bits of all are gathered, so that the loop has no branch.
pub fn are_components(s: &[i32]) -> bool
    ensures { result ≡ are_components s.now }
{
    let mut bits = 0;
    for z in s {
        bits |= above_least(*z);
    }
    bits < 0x1_0000
}

// How far a number is above the least component, modulo 2^32: 16 bits hold it for components alone.
fn above_least(z: i32) -> u32
    ensures { nat_lt result (2 ^ 16) ≡ is_component z }
{
    (key(z) as u32).wrapping_sub(key(LEAST_COMPONENT) as u32)
}
