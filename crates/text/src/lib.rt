// Lines of decimal numbers, at the front of a buffer: single spaces between the numbers, byte 10 at the end of a line. What does not fit
// into the buffer is not written; the result is the length of the whole text, whether it fits or not.
#![tactic(auto)]

ghost use Rattle.std.specs.Prelude.{◌≡◌, [], ◌∷◌, ◌+◌, ◌≤◌, ◌<◌, length};
ghost use Rattle.text.specs.Text.{at_front, refused_word, decimal, line, refused_line};
ghost use Rattle.text.specs.Puts.{Puts, last_index, field, field_room};

const SPACE: u8 = 32;

const LINE_END: u8 = 10;

const REFUSED: [u8; 8] = *b"refused ";

// A line of two numbers.
pub fn put_two(x: u64, y: u64, text: &mut [u8]) -> usize
    ensures value { result ≡ length (line x (y ∷ [])) }
    ensures text_after { text.new ≡ at_front (line x (y ∷ [])) text.old }
{
    let second = put_field(x, SPACE, text, 0);
    put_field(y, LINE_END, text, second)
}

// A line of three numbers.
pub fn put_three(x: u64, y: u64, z: u64, text: &mut [u8]) -> usize
    ensures value { result ≡ length (line x (y ∷ z ∷ [])) }
    ensures text_after { text.new ≡ at_front (line x (y ∷ z ∷ [])) text.old }
{
    let second = put_field(x, SPACE, text, 0);
    let third = put_field(y, SPACE, text, second);
    put_field(z, LINE_END, text, third)
}

// A line of the word "refused" and one number.
pub fn put_refused(x: u64, text: &mut [u8]) -> usize
    ensures value { result ≡ length (refused_line x) }
    ensures text_after { text.new ≡ at_front (refused_line x) text.old }
{
    let next = put_word(text);
    put_field(x, LINE_END, text, next)
}

// The word "refused" and a space; the index behind them.
fn put_word(text: &mut [u8]) -> usize
    ensures { Puts refused_word 0 text.old text.new result }
{
    let fitting = text.len().min(REFUSED.len());
    text[..fitting].copy_from_slice(&REFUSED[..fitting]);
    REFUSED.len()
}

// A number from an index on, and the byte that ends it; the index behind them.
#[tactic(auto, using(crate::specs::Puts::decimal_room))]
fn put_field(x: u64, end: u8, text: &mut [u8], at: usize) -> usize
    requires { at + field_room ≤ last_index }
    ensures { (Puts (field x end) at text.old text.new result) × (result ≤ at + field_room) }
{
    let next = put_number(x, text, at);
    put_byte(end, text, next)
}

// The digits of a number, from an index on; the index behind them.
fn put_number(x: u64, text: &mut [u8], at: usize) -> usize
    requires { at + length (decimal x) ≤ last_index }
    ensures { Puts (decimal x) at text.old text.new result }
{
    if x < 10 {
        return put_byte(48 + x as u8, text, at);
    }
    let next = put_number(x / 10, text, at);
    put_byte(48 + (x % 10) as u8, text, next)
}

// One byte, where the buffer has that index; the index behind it.
#[tactic(auto, using(crate::specs::Puts::puts_out))]
fn put_byte(x: u8, text: &mut [u8], at: usize) -> usize
    requires { at < last_index }
    ensures { Puts (x ∷ []) at text.old text.new result }
{
    if text.len() <= at {
        return at + 1;
    }
    text[at] = x;
    at + 1
}
