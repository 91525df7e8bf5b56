// Number columns: a number stands right-justified in a field of fixed width, spaces to its left, no zero in front.
#![tactic(auto)]

ghost use Rattle.std.specs.Prelude.{◌≡◌, ℕ, ◌+◌, ◌%◌, ◌^◌, ◌<◌, length, min, if◌then◌else◌, nat_eq, Decides, Some, codes};
ghost use Rattle.columns.specs.Columns.{column, Fits, Shows, Holds, Wrote};
ghost use Rattle.columns.specs.Reading.{Next};

use std::error::Error;
use std::fmt;

// The least number of ten digits: one too many.
const TOO_LONG: u32 = 1_000_000_000;

// What a field holds.
#[derive(Clone, Copy, PartialEq, Eq, Debug)]
pub enum Content {
    // Spaces only.
    Blank,
    // A number of at most nine digits, as it should be written.
    Number(u32),
    // Anything else.
    Fault,
}

// Reads a field of any width: what stands in it.
pub fn read(field: &[u8]) -> Content
    ensures tells { Holds field.now result }
    ensures reads_back { (n : ℕ) → Shows field.now n → result ≡ Content.Number n }
{
    let mut content = Content::Blank;
    for byte in field {
        content = next(content, *byte);
    }
    content
}

// What a field holds with one byte more at its right.
fn next(so_far: Content, byte: u8) -> Content
    ensures { Next so_far byte result }
{
    match so_far {
        Content::Blank => match byte {
            b' ' => Content::Blank,
            b'0'..=b'9' => Content::Number(u32::from(byte - b'0')),
            _ => Content::Fault,
        },
        Content::Number(n) => match byte {
            // A space right of a digit.
            b' ' => Content::Fault,
            // A zero in front of another digit.
            b'0'..=b'9' if n == 0 => Content::Fault,
            b'0'..=b'9' if n < TOO_LONG / 10 => Content::Number(10 * n + u32::from(byte - b'0')),
            // A tenth digit, or no digit.
            _ => Content::Fault,
        },
        Content::Fault => Content::Fault,
    }
}

// The memory is no field of that width, or the number does not fit into one.
#[derive(Clone, Copy, PartialEq, Eq, Debug)]
pub struct DoesNotFit;

impl fmt::Display for DoesNotFit {
    ghost output = { λ _. Some (codes "the number does not fit into the field") };

    fn fmt<W: fmt::Write>(&self, f: &mut fmt::Formatter<W>) -> fmt::Result {
        f.write_str("the number does not fit into the field")
    }
}

impl Error for DoesNotFit {}

// Writes a number into a field of `width` columns; where it does not fit, nothing is written.
pub fn write(field: &mut [u8], width: usize, number: u32) -> Result<(), DoesNotFit>
    ensures { Wrote width number field.old field.new result }
{
    if field.len() != width || !fits(width, number) {
        return Err(DoesNotFit);
    }
    fill(field, number);
    Ok(())
}

// The least number that does not go into so many columns. Digits are not counted, since most callers know the width, and
// this number with it.
fn too_long_for(width: usize) -> u32
    ensures { result ≡ (if nat_eq width 0 then 0 else 10 ^ min width 9) }
{
    match width {
        0 => 0,
        1 => 10,
        2 => 100,
        3 => 1_000,
        4 => 10_000,
        5 => 100_000,
        6 => 1_000_000,
        7 => 10_000_000,
        8 => 100_000_000,
        _ => TOO_LONG,
    }
}

// Whether a number has at most nine digits, and they go into `width` columns.
fn fits(width: usize, number: u32) -> bool
    ensures { Decides result (Fits width number) }
{
    number < too_long_for(width)
}

// Writes a number that fits into the whole field, the last digit first.
fn fill(field: &mut [u8], number: u32)
    requires { Fits (length field.old) number }
    ensures { field.new ≡ column (length field.old) number }
{
    // By place: the digits come from the right, the last one first.
    let last = field.len() - 1;
    field[last] = digit(number);
    let mut rest = number / 10;
    for place in (0..last).rev() {
        field[place] = byte_for(rest);
        rest /= 10;
    }
}

// The byte for what is left of a number: its last digit, or a space once nothing is left.
fn byte_for(rest: u32) -> u8
    ensures space { rest ≡ 0 → result ≡ 32 }
    ensures digit { 0 < rest → result ≡ 48 + rest % 10 }
{
    if rest == 0 { b' ' } else { digit(rest) }
}

// The last digit of a number.
fn digit(number: u32) -> u8
    ensures { result ≡ 48 + number % 10 }
{
    b'0' + (number % 10) as u8
}
