// Puts the lines of a page, each into bytes of its own. The book is asked what stands on them.
ghost use Rattle.std.specs.Prelude.{◌≡◌, length};
ghost use Rattle.columns.specs.Columns.{column};
ghost use Rattle.page.specs.Format.{counts_line, list_bytes, material_line, state_letter, unit_line};
ghost use Rattle.page.specs.Letters.{letter_of_state};
ghost use Rattle.writing.specs.Told.{told_material, told_state, told_list, field_bytes};

use book::{Book, Class, Side, State};
use page::layout::{LETTER, LIST, LIST_FIELDS, NUMBER};
use page::letters::Lettered;

// Puts the line of the counts.
#[tactic(auto, using(crate::proofs::Putting::only_set))]
pub(crate) fn put_counts(line: &mut [u8], materials: u16, units: u16)
    requires { length line.old ≡ 11 }
    ensures { line.new ≡ counts_line materials units }
{
    let (first, rest) = line.split_at_mut(NUMBER);
    put_number(first, materials);
    let (second, newline) = rest.split_at_mut(NUMBER);
    put_number(second, units);
    newline[0] = b'\n';
}

// Puts the line of a material.
#[tactic(auto, using(crate::proofs::Putting::only_set))]
pub(crate) fn put_material<B: Book>(book: &mut B, line: &mut [u8], material: u16)
    requires { length line.old ≡ 7 }
    ensures put { line.new ≡ material_line material (told_material material (B.Book.meaning book.old)) }
    ensures same { book.new ≡ book.old }
{
    let (letter, rest) = line.split_at_mut(LETTER);
    letter[0] = class_of(book, material).letter();
    let (number, newline) = rest.split_at_mut(NUMBER);
    put_number(number, material);
    newline[0] = b'\n';
}

// Puts the line of a unit number: letter and number as on a material's, and two lists between them and the end.
#[tactic(auto, using(std::proofs::lemmas::Grind::common_steps, crate::proofs::Putting::only_set))]
pub(crate) fn put_unit<B: Book>(book: &mut B, line: &mut [u8], unit: u16)
    requires { length line.old ≡ 87 }
    ensures put { line.new ≡ unit_line unit (told_state unit (B.Book.meaning book.old)) }
    ensures same { book.new ≡ book.old }
{
    let (letter, rest) = line.split_at_mut(LETTER);
    letter[0] = state_of(book, unit).letter();
    let (number, rest) = rest.split_at_mut(NUMBER);
    put_number(number, unit);
    let (inputs, rest) = rest.split_at_mut(LIST);
    put_list(book, inputs, unit, Side::Inputs);
    let (outputs, newline) = rest.split_at_mut(LIST);
    put_list(book, outputs, unit, Side::Outputs);
    newline[0] = b'\n';
}

// Whether a material is wanted and whether it is bought, as its line says.
fn class_of<B: Book>(book: &mut B, material: u16) -> Class
    ensures wanted { result.wanted ≡ (told_material material (B.Book.meaning book.old)).wanted }
    ensures bought { result.bought ≡ (told_material material (B.Book.meaning book.old)).bought }
    ensures same { book.new ≡ book.old }
{
    let wanted = book.wanted(material).unwrap_or(false);
    let bought = book.bought(material).unwrap_or(false);
    Class { wanted, bought }
}

// Whether a unit stands at the number, as its line says: a withheld unit is written as a free number.
fn state_of<B: Book>(book: &mut B, unit: u16) -> State
    ensures answer { letter_of_state result ≡ state_letter (told_state unit (B.Book.meaning book.old)) }
    ensures same { book.new ≡ book.old }
{
    if book.stands(unit).unwrap_or(false) {
        State::Standing
    } else {
        State::Free
    }
}

// Puts all fields of a unit's list on one side.
// Inlined, since the side is known where it is called: which list is meant is then not asked again at each field.
#[inline(always)]
fn put_list<B: Book>(book: &mut B, list: &mut [u8], unit: u16, side: Side)
    requires { length list.old ≡ 40 }
    ensures put { list.new ≡ list_bytes (told_list side unit (B.Book.meaning book.old)) }
    ensures same { book.new ≡ book.old }
{
    // A range: of chunks that were lent for writing it is not known what they hold.
    for place in 1..=LIST_FIELDS as u16 {
        let entry = book.entry(unit, side, place);
        let start = NUMBER * usize::from(place - 1);
        put_field(&mut list[start..start + NUMBER], entry);
    }
}

// Puts a field of a list: its entry, or spaces where there is none.
fn put_field(field: &mut [u8], entry: Option<u16>)
    requires { length field.old ≡ 5 }
    ensures { field.new ≡ field_bytes entry }
{
    match entry {
        Some(number) => put_number(field, number),
        None => field.fill(b' '),
    }
}

// Puts a number into its columns, where it fits: a u16 has at most five digits.
#[tactic(auto, using(columns::proofs::Laws::fits_five))]
fn put_number(field: &mut [u8], number: u16)
    requires { length field.old ≡ 5 }
    ensures { field.new ≡ column 5 number }
{
    columns::write(field, NUMBER, u32::from(number)).unwrap();
}
