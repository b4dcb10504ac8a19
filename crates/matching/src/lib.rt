// A match (document 01, "The program"): the bytes of a library, k and a query in, text out. `run` is the whole program.
#![tactic(auto)]

mod answer;
mod lines;
mod parts;

ghost use Rattle.std.specs.Prelude.{◌≡◌, ◌≤◌, length};
ghost use Rattle.refusal.specs.First.{first};
ghost use Rattle.loading.specs.Load.{marks_room, settings_room, components_room, filled};
ghost use Rattle.text.specs.Puts.{Puts};
ghost use Rattle.matching.specs.Match.{match_text, room_causes, printed};
ghost use Rattle.matching.specs.Steps.{HoldsLibrary};

use crate::lines::put_refusal;
use crate::parts::match_rest;
use limits::MAX_NEIGHBOURS;
use loading::{COMPONENTS_ROOM, Loaded, MARKS_ROOM, SETTINGS_ROOM, load};
use refusal::Refusal;

// How many bytes k has.
pub const K_LENGTH: usize = 2;

// An upper bound on the length of a text, for which the output is lent: two counts, then for each entry a number, settings and a distance,
// each at its most digits with the byte behind it. No text needs all of it.
pub const TEXT_ROOM: usize = (4 + 4) + MAX_NEIGHBOURS * (4 + 11 + 13);

// The text of a match is written into the front of the output; the answer is how many bytes it has.
pub fn run(input: &[u8], output: &mut [u8]) -> Result<usize, Refusal>
    ensures value { result ≡ printed (first (room_causes (length output.old))) (match_text input.now) }
    ensures output_after { output.new
        ≡ filled (first (room_causes (length output.old))) (match_text input.now) output.old }
{
    if output.len() != TEXT_ROOM {
        return Err(Refusal::Length);
    }
    let mut marks = [0i32; MARKS_ROOM];
    let mut settings = [0u32; SETTINGS_ROOM];
    let mut components = [0i32; COMPONENTS_ROOM];
    let length = match_input(input, &mut marks, &mut settings, &mut components, output);
    Ok(length)
}

// The text of a match, with buffers for its library.
fn match_input(
    input: &[u8],
    marks: &mut [i32],
    settings: &mut [u32],
    components: &mut [i32],
    text: &mut [u8],
) -> usize
    requires marks_len { (length marks.old ≡ marks_room) × (length settings.old ≡ settings_room) × (length components.old ≡ components_room) }
    requires input_in_bounds { length (match_text input.now) ≤ length text.old }
    ensures { Puts (match_text input.now) 0 text.old text.new result }
{
    match load(input, marks, settings, components) {
        Ok(loaded) => match_loaded(input, loaded, marks, settings, components, text),
        Err(cause) => put_refusal(cause, text),
    }
}

// The text of a match whose library passes; the library stands in the fronts of its buffers.
fn match_loaded(
    input: &[u8],
    loaded: Loaded,
    marks: &[i32],
    settings: &[u32],
    components: &[i32],
    text: &mut [u8],
) -> usize
    requires holds_library { HoldsLibrary input.now loaded.d loaded.b loaded.n loaded.used marks.now settings.now components.now }
    requires input_in_bounds { length (match_text input.now) ≤ length text.old }
    ensures { Puts (match_text input.now) 0 text.old text.new result }
{
    let d = loaded.d;
    let b = loaded.b;
    let n = loaded.n;
    let used = loaded.used;
    let m = layout::marks_length(d, b);
    let count = n * d;
    match_rest(
        &input[used..],
        d,
        b,
        n,
        &marks[..m],
        &settings[..n],
        &components[..count],
        text,
    )
}
