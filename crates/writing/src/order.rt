// Whether the lists of a book are in order.
ghost use Rattle.std.specs.Prelude.{◌≡◌};
ghost use Rattle.book.specs.Meaning.{unit_count};
ghost use Rattle.writing.specs.WrittenOut.{rises, lists_rise, all_rise};
ghost use Rattle.writing.specs.Told.{told_list, told_state};

use book::{Book, Side};
use page::layout::LIST_FIELDS;

// Whether the lists of every standing unit are strictly ascending, in a book with so many unit numbers.
pub(crate) fn lists_rise<B: Book>(book: &mut B, units: u16) -> bool
    requires { units ≡ unit_count (B.Book.meaning book.old) }
    ensures answer { result ≡ all_rise (B.Book.meaning book.old).units }
    ensures same { book.new ≡ book.old }
{
    // A loop: a closure that holds the book would not say that it is as before.
    for unit in 1..=units {
        if !unit_rises(book, unit) {
            return false;
        }
    }
    true
}

// Whether both lists of a unit are strictly ascending; so are those of a number that does not stand, which has none.
fn unit_rises<B: Book>(book: &mut B, unit: u16) -> bool
    ensures answer { result ≡ lists_rise (told_state unit (B.Book.meaning book.old)) }
    ensures same { book.new ≡ book.old }
{
    list_rises(book, unit, Side::Inputs) && list_rises(book, unit, Side::Outputs)
}

// Whether a unit's list on one side is strictly ascending.
fn list_rises<B: Book>(book: &mut B, unit: u16, side: Side) -> bool
    ensures answer { result ≡ rises 0 (told_list side unit (B.Book.meaning book.old)) }
    ensures same { book.new ≡ book.old }
{
    let mut last = 0;
    // A loop: a closure that holds the book would not say that it is as before.
    for place in 1..=LIST_FIELDS as u16 {
        if let Some(number) = book.entry(unit, side, place) {
            if number <= last {
                return false;
            }
            last = number;
        }
    }
    true
}
