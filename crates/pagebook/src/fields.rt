// What is read and written at a place in the bytes: numbers, lists and a unit's line.
ghost use Rattle.std.specs.Prelude.{◌≡◌, ◌+◌, ◌≤◌, length, take, drop};
ghost use Rattle.book.specs.Meaning.{FittedWithin};
ghost use Rattle.book.specs.Edits.{lists_given};
ghost use Rattle.columns.specs.Columns.{column};
ghost use Rattle.page.specs.Layout.{number_width, list_fields, list_width, most, line_length};
ghost use Rattle.page.specs.Layout.{unit as line_of_unit};
ghost use Rattle.page.specs.Format.{list_bytes};
ghost use Rattle.page.specs.Letters.{letter_of_state};
ghost use Rattle.pagebook.specs.Reading.{number_shown};
ghost use Rattle.pagebook.specs.Writes.{over, refitted};

use book::{Lists, State};
use columns::Content;
use page::layout::{INPUTS, LIST, NUMBER, OUTPUTS};
use page::letters::Lettered;

// The number that the field shows; 0 where it shows none, which no list and no count has.
pub(crate) fn number_in(field: &[u8]) -> u32
    requires { length field.now ≡ number_width }
    ensures { result ≡ number_shown field.now }
{
    match columns::read(field) {
        Content::Number(number) => number,
        _ => 0,
    }
}

// The number in the field that begins at `start`.
pub(crate) fn number_at(bytes: &[u8], start: usize) -> u32
    requires { start + number_width ≤ length bytes.now }
    ensures { result ≡ number_shown (take number_width (drop start bytes.now)) }
{
    number_in(&bytes[start..start + NUMBER])
}

// Writes a number into the field that begins at `start`.
fn put_number(bytes: &mut [u8], start: usize, number: u16)
    requires { start + number_width ≤ length bytes.old }
    ensures { bytes.new ≡ over start (column number_width number) bytes.old }
{
    columns::write(&mut bytes[start..start + NUMBER], NUMBER, u32::from(number)).unwrap();
}

// Writes a list into its fields: its numbers into the first of them, blanks into the others.
fn put_list(fields: &mut [u8], list: &[u16])
    requires within { length fields.old ≡ list_width }
    requires few { length list.now ≤ list_fields }
    ensures { fields.new ≡ list_bytes list.now }
{
    fields.fill(b' ');
    // A place: the parts that `chunks_exact_mut` lends tell nothing of the fields once they are written.
    for (place, number) in list.iter().enumerate() {
        put_number(fields, NUMBER * place, *number);
    }
}

// Writes the letter of a state and two lists into the unit's line that begins at `start`. Its number and its newline stay.
pub(crate) fn put_unit(bytes: &mut [u8], start: usize, state: State, lists: Lists<'_>)
    requires within { start + line_length (line_of_unit 0) ≤ length bytes.old }
    requires listed { FittedWithin most (lists_given lists) }
    ensures { bytes.new ≡ over start (refitted (letter_of_state state) (lists_given lists.entry) (take (line_length (line_of_unit 0)) (drop start bytes.old))) bytes.old }
{
    bytes[start] = state.letter();
    put_list(&mut bytes[start + INPUTS..start + OUTPUTS], lists.inputs);
    put_list(
        &mut bytes[start + OUTPUTS..start + OUTPUTS + LIST],
        lists.outputs,
    );
}
