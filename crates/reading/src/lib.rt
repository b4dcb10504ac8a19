// Readings, and the component of a reading (document 01, "Readings"; document 02, Slip 1).
#![tactic(auto)]

mod value;

ghost use Rattle.std.specs.Prelude.{◌≡◌};
ghost use Rattle.std.specs.Float.{binary32};
ghost use Rattle.std.specs.Float.Ieee.{of_bits};
ghost use Rattle.reading.specs.Intake.{intake_of, presence_of};

use refusal::Refusal;

// A reading is fresh, held with its age in tenths of a second, or lost.
#[derive(Drop)]
pub enum Reading {
    Fresh(f32),
    Held(f32, u8),
    Lost,
}

impl Reading {
    // Components to a whole: the component unit is 1/256.
    pub const UNIT: u64 = 256;
    // A held reading is good up to this age.
    pub const AGE_LIMIT: u8 = 20;

    // A fresh reading of the value whose 32 bits stand in a file.
    pub fn fresh_bits(bits: u32) -> Reading
        ensures { result ≡ Reading.Fresh (of_bits binary32 bits) }
    {
        Reading::Fresh(value::of_bits(bits))
    }

    // A held reading of the value whose 32 bits stand in a file.
    pub fn held_bits(bits: u32, age: u8) -> Reading
        ensures { result ≡ Reading.Held (of_bits binary32 bits) age }
    {
        Reading::Held(value::of_bits(bits), age)
    }

    // The reading's component, or why it has none.
    pub fn intake(self) -> Result<i32, Refusal>
        ensures { result ≡ intake_of self }
    {
        self.presence()?.ok_or(Refusal::Stale)
    }

    // The reading's component, or that it is absent, or why it is refused.
    #[tactic(auto, unfolding(crate::specs::Intake::presence_of))]
    pub fn presence(self) -> Result<Option<i32>, Refusal>
        ensures { result ≡ presence_of self }
    {
        match self {
            Reading::Fresh(x) => value::presence(x),
            Reading::Held(x, age) => {
                if Reading::AGE_LIMIT < age {
                    Ok(None)
                } else {
                    value::presence(x)
                }
            }
            Reading::Lost => Ok(None),
        }
    }
}
