// The field reader: what one field of a page holds.
ghost use Rattle.std.specs.Prelude.{◌≡◌, [], ◌∷◌, length, IfOk, if◌then◌else◌, Decides, nat_eq};
ghost use Rattle.page.specs.Readers.{EntryTold, FieldTold, MayStand, NumberTold};
ghost use Rattle.page.specs.Rules.{letter as one_of};

use crate::layout::MOST;
use crate::letters::Lettered;
use book::{Class, State};
use columns::{Content, read};

// The field does not keep to its rule.
#[derive(Clone, Copy, PartialEq, Eq, Debug)]
pub struct FieldFault;

// The number that the field shows, where it is one from `low` to `high`.
fn number_in(field: &[u8], low: u16, high: u16) -> Result<u16, FieldFault>
    ensures { NumberTold low high field.now result }
{
    match read(field) {
        Content::Number(n) if n >= low as u32 && n <= high as u32 => Ok(n as u16),
        _ => Err(FieldFault),
    }
}

// The number of materials, or of units, that the field shows.
pub(crate) fn count_in(field: &[u8]) -> Result<u16, FieldFault>
    ensures { NumberTold 1 512 field.now result }
{
    number_in(field, 1, MOST)
}

// A line's running number, which the field should show.
pub(crate) fn running_in(field: &[u8], number: u16) -> Result<u16, FieldFault>
    ensures { NumberTold number number field.now result }
{
    number_in(field, number, number)
}

// Whether a number may stand in a list's field: it is at most the highest, and above the number in the field before.
fn may_stand(number: u32, highest: u16, above: Option<u16>) -> bool
    ensures { Decides result (MayStand highest above number) }
{
    match above {
        Some(last) => number > last as u32 && number <= highest as u32,
        None => false,
    }
}

// What a list's field holds: nothing, or a material up to `highest` and above the number `above`. No number may follow
// a blank field: there `above` is absent.
pub(crate) fn entry_in(
    field: &[u8],
    highest: u16,
    above: Option<u16>,
) -> Result<Option<u16>, FieldFault>
    requires { length field.now ≡ 5 }
    ensures { EntryTold highest above field.now result }
{
    match read(field) {
        Content::Blank => Ok(None),
        Content::Number(number) if may_stand(number, highest, above) => Ok(Some(number as u16)),
        _ => Err(FieldFault),
    }
}

// What a material is, by its letter: '-' plain, 'P' wanted, 'R' bought, 'B' both.
pub(crate) fn class_in(letter: u8) -> Result<Class, FieldFault>
    ensures { FieldTold (one_of (45 ∷ (80 ∷ (82 ∷ (66 ∷ []))))) (letter ∷ []) result }
{
    Class::of_letter(letter).ok_or(FieldFault)
}

// The highest material that a unit's line may name, by its letter: any of the page's `materials` where a unit stands ('S'),
// and none where the number is free ('-'), which is said as 0, since no material's number is at most 0. A withheld number
// ('W') is no part of a page that is read.
pub(crate) fn highest_named(letter: u8, materials: u16) -> Result<u16, FieldFault>
    ensures told { FieldTold (one_of (45 ∷ (83 ∷ []))) (letter ∷ []) result }
    ensures highest { IfOk result (λ h. h ≡ (if nat_eq letter 45 then 0 else materials)) }
{
    match State::of_letter(letter) {
        Some(State::Free) => Ok(0),
        Some(State::Standing) => Ok(materials),
        Some(State::Withheld) | None => Err(FieldFault),
    }
}

// Whether the byte is a newline.
pub(crate) fn newline_in(byte: u8) -> Result<(), FieldFault>
    ensures { FieldTold (one_of (10 ∷ [])) (byte ∷ []) result }
{
    if byte == b'\n' {
        Ok(())
    } else {
        Err(FieldFault)
    }
}
