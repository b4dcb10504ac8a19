// The kit program (document 01, "The program"): a match on standard input, its text on standard output. `matching::run` is all of it, on
// what was read.
#![tactic(auto)]

ghost use Rattle.std.specs.Prelude.{◌≡◌, suc, ◌≤◌, length, take};
ghost use Rattle.matching.specs.Match.{text_room};
ghost use Rattle.matching.specs.Longest.{longest_match, PrintsRead};

use limits::{KIT_VECTORS, MAX_DIMENSIONS};
use loading::MARKS_ROOM;
use matching::{K_LENGTH, TEXT_ROOM};
use records::{END_LENGTH, HEAD_LENGTH, HELD_LENGTH, MARK_LENGTH, VECTOR_LENGTH};

// The descriptors of standard input and standard output.
const STDIN_FILENO: i32 = 0;

const STDOUT_FILENO: i32 = 1;

// The length of the longest match that is accepted: the longest library, k, and a held reading for each dimension.
const LONGEST_MATCH: usize = HEAD_LENGTH
    + MARKS_ROOM * MARK_LENGTH
    + KIT_VECTORS * VECTOR_LENGTH
    + END_LENGTH
    + K_LENGTH
    + MAX_DIMENSIONS * HELD_LENGTH;

fn main() {
    let mut input = [0u8; LONGEST_MATCH + 1];
    let n = io::read_full(STDIN_FILENO, &mut input);
    let mut output = [0u8; TEXT_ROOM];
    let length = print(&input, n, &mut output);
    io::write_all(STDOUT_FILENO, &output[..length]);
}

// The text of an input of which n bytes were read, all of it or one byte more than the longest match has, into the front of the output. Its
// length.
fn print(input: &[u8], n: usize, output: &mut [u8]) -> usize
    requires { (length input.now ≡ suc longest_match) × (n ≤ suc longest_match) × (length output.old ≡ text_room) }
    ensures { PrintsRead (take n input.now) output.old output.new result }
{
    matching::run(&input[..n], output).unwrap()
}
