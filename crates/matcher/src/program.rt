// The whole program, for C. It gives 0; or, for an output of another length, the refusal's number, and the output is as it was and the
// count 0.
ghost use Rattle.std.specs.Prelude.{◌≡◌, length};
ghost use Rattle.refusal.specs.Refusal.{status_of};
ghost use Rattle.refusal.specs.First.{first, outcome};
ghost use Rattle.loading.specs.Load.{filled};
ghost use Rattle.matching.specs.Match.{match_text, room_causes};

// The text of a match, into the front of the output, and its length.
#[unsafe(no_mangle)]
pub extern "C" fn matcher_match(input: &[u8], output: &mut [u8], count: &mut usize) -> u32
    ensures { let v = first (room_causes (length output.old)) in
        let text = match_text input.now in
        (result ≡ status_of v) × (output.new ≡ filled v text output.old)
        × (count.new ≡ outcome v (length text) (λ _. 0)) }
{
    let printed = matching::run(input, output);
    *count = printed.unwrap_or(0);
    refusal::status(printed)
}
