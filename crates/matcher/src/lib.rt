// The matcher's C interface: thin functions over the public calls. A float is passed as its 32 bits, or as itself.
#![tactic(auto)]

pub mod approximations;
pub mod distances;
pub mod files;
pub mod marks;
pub mod neighbours;
pub mod program;
pub mod updates;

ghost use Rattle.std.specs.Float.{binary32};
ghost use Rattle.std.specs.Float.Ieee.{of_bits};
ghost use Rattle.reading.specs.declared.Reading.TheVariants.{Fresh, Held, Lost};
ghost use Rattle.reading.specs.Intake.{intake_of, presence_of};
ghost use Rattle.c_answers.specs.Answered.{Answered, AnsweredPresence};

use reading::Reading;

// A fresh reading of the value with these 32 bits.
#[unsafe(no_mangle)]
pub extern "C" fn matcher_fresh(bits: u32, component: &mut i32) -> u32
    ensures { Answered (intake_of (Fresh (of_bits binary32 bits))) result component.old component.new }
{
    c_answers::put_component(Reading::fresh_bits(bits), component)
}

// A held reading of the value with these 32 bits, of an age in tenths of a second.
#[unsafe(no_mangle)]
pub extern "C" fn matcher_held(bits: u32, age: u8, component: &mut i32) -> u32
    ensures { Answered (intake_of (Held (of_bits binary32 bits) age)) result component.old component.new }
{
    c_answers::put_component(Reading::held_bits(bits, age), component)
}

// A lost reading.
#[unsafe(no_mangle)]
pub extern "C" fn matcher_lost(component: &mut i32) -> u32
    ensures { Answered (intake_of Lost) result component.old component.new }
{
    c_answers::put_component(Reading::Lost, component)
}

// A fresh reading of a float.
#[unsafe(no_mangle)]
pub extern "C" fn matcher_fresh_value(value: f32, component: &mut i32) -> u32
    ensures { Answered (intake_of (Fresh value)) result component.old component.new }
{
    c_answers::put_component(Reading::Fresh(value), component)
}

// A held reading of a float, of an age in tenths of a second.
#[unsafe(no_mangle)]
pub extern "C" fn matcher_held_value(value: f32, age: u8, component: &mut i32) -> u32
    ensures { Answered (intake_of (Held value age)) result component.old component.new }
{
    c_answers::put_component(Reading::Held(value, age), component)
}

// The second intake (document 02, Slip 1) of a fresh reading of the value with these 32 bits.
#[unsafe(no_mangle)]
pub extern "C" fn matcher_fresh_present(bits: u32, component: &mut i32, present: &mut u32) -> u32
    ensures { AnsweredPresence (presence_of (Fresh (of_bits binary32 bits))) result
        component.old component.new present.new }
{
    c_answers::put_presence(Reading::fresh_bits(bits), component, present)
}

// The second intake of a held reading of the value with these 32 bits, of an age in tenths of a second.
#[unsafe(no_mangle)]
pub extern "C" fn matcher_held_present(
    bits: u32,
    age: u8,
    component: &mut i32,
    present: &mut u32,
) -> u32
    ensures { AnsweredPresence (presence_of (Held (of_bits binary32 bits) age)) result
        component.old component.new present.new }
{
    c_answers::put_presence(Reading::held_bits(bits, age), component, present)
}

// The second intake of a lost reading.
#[unsafe(no_mangle)]
pub extern "C" fn matcher_lost_present(component: &mut i32, present: &mut u32) -> u32
    ensures { AnsweredPresence (presence_of Lost) result
        component.old component.new present.new }
{
    c_answers::put_presence(Reading::Lost, component, present)
}

// The second intake of a fresh reading of a float.
#[unsafe(no_mangle)]
pub extern "C" fn matcher_fresh_value_present(
    value: f32,
    component: &mut i32,
    present: &mut u32,
) -> u32
    ensures { AnsweredPresence (presence_of (Fresh value)) result
        component.old component.new present.new }
{
    c_answers::put_presence(Reading::Fresh(value), component, present)
}

// The second intake of a held reading of a float, of an age in tenths of a second.
#[unsafe(no_mangle)]
pub extern "C" fn matcher_held_value_present(
    value: f32,
    age: u8,
    component: &mut i32,
    present: &mut u32,
) -> u32
    ensures { AnsweredPresence (presence_of (Held value age)) result
        component.old component.new present.new }
{
    c_answers::put_presence(Reading::Held(value, age), component, present)
}
