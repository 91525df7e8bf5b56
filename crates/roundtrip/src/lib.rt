// From a page to a book and back, and from a book to a page and back.
#![tactic(auto)]

ghost use Rattle.std.specs.Prelude.{◌≡◌, IfOk};
ghost use Rattle.writing.specs.WrittenOut.{WrittenOut};
ghost use Rattle.roundtrip.specs.ThereAndBack.{Copied, ReadsBack, PageHidden, all_hidden};

use book::{Book, EditableBook, Refusal};
use pagebook::PageBook;
use writing::write_out;

// Opens the page as a book and writes that book out into the memory: an accepted page has its old bytes there.
pub fn copy_page(page: &mut [u8], memory: &mut [u8]) -> Result<usize, Refusal>
    ensures copied { Copied page.old memory.old memory.new result }
    ensures page_stays { page.new ≡ page.old }
{
    let mut book = PageBook::open(page);
    write_out(&mut book, memory)
}

// Writes the book out into the memory. The bytes of the answered length, opened, have the meaning of the book.
pub fn save<B: Book>(book: &mut B, memory: &mut [u8]) -> Result<usize, Refusal>
    ensures told { WrittenOut (B.Book.meaning book.old) memory.old memory.new result }
    ensures reads_back { IfOk result (λ size. ReadsBack (B.Book.meaning book.old) memory.new size) }
    ensures same { book.new ≡ book.old }
{
    write_out(book, memory)
}

// Withholds every unit that stands, in any book.
pub fn hide_all<B: EditableBook>(book: &mut B)
    ensures hidden { B.Book.meaning book.new ≡ all_hidden (B.Book.meaning book.old) }
    ensures held { B.Book.kept book.old book.new }
{
    for unit in 1..=book.units() {
        let _ = book.hide(unit);
    }
}

// Withholds every unit on a page, by code that knows nothing of pages. Whoever lent the bytes knows afterwards that they
// are exactly the page of that book.
pub fn hide_page(page: &mut [u8])
    ensures { PageHidden page.old page.new }
{
    let mut book = PageBook::open(page);
    hide_all(&mut book);
}
