// Writes any book out as a page.
#![tactic(auto)]

ghost use Rattle.std.specs.Prelude.{◌≡◌, ◌*◌, length};
ghost use Rattle.book.specs.Declined.{inside};
ghost use Rattle.book.specs.Meaning.{material_count, unit_count};
ghost use Rattle.page.specs.Layout.{most, page_length};
ghost use Rattle.page.specs.Format.{material_line, unit_line, numbered, page_of};
ghost use Rattle.writing.specs.WrittenOut.{as_written, WrittenOut};

use book::{Book, Refusal};
use page::layout::{COUNTS_LINE, MATERIAL_LINE, MOST, UNIT_LINE, page_length};

mod lines;
mod order;

// Puts the book onto a page at the start of the memory, units that do not stand as free numbers, and answers the page's
// length. Bytes after the page stay as they are; where the book is declined, all do.
pub fn write_out<B: Book>(book: &mut B, memory: &mut [u8]) -> Result<usize, Refusal>
    ensures told { WrittenOut (B.Book.meaning book.old) memory.old memory.new result }
    ensures same { book.new ≡ book.old }
{
    let materials = book.materials();
    let units = book.units();
    if !on_page(materials) || !on_page(units) {
        return Err(Refusal::OutOfRange);
    }
    if !order::lists_rise(book, units) {
        return Err(Refusal::BadList);
    }
    let size = page_length(materials, units);
    if memory.len() < size {
        return Err(Refusal::MemoryTooShort);
    }
    put_page(book, &mut memory[..size], materials, units);
    Ok(size)
}

// Whether a page can have so many materials, or so many units.
fn on_page(count: u16) -> bool
    ensures { result ≡ inside count most }
{
    (1..=MOST).contains(&count)
}

// Puts the whole page of a book with these counts.
fn put_page<B: Book>(book: &mut B, page: &mut [u8], materials: u16, units: u16)
    requires materials { materials ≡ material_count (B.Book.meaning book.old) }
    requires units { units ≡ unit_count (B.Book.meaning book.old) }
    requires size { length page.old ≡ page_length materials units }
    ensures put { page.new ≡ page_of (as_written (B.Book.meaning book.old)) }
    ensures same { book.new ≡ book.old }
{
    let (first, rest) = page.split_at_mut(COUNTS_LINE);
    lines::put_counts(first, materials, units);
    let (material_lines, unit_lines) = rest.split_at_mut(MATERIAL_LINE * usize::from(materials));
    put_materials(book, material_lines, materials);
    put_units(book, unit_lines, units);
}

// Puts the lines of all materials. One function for these and for the units' lines, which would be given how a line is
// put, would have to say again in its contract all that put_material and put_unit promise.
fn put_materials<B: Book>(book: &mut B, lines: &mut [u8], materials: u16)
    requires count { materials ≡ material_count (B.Book.meaning book.old) }
    requires size { length lines.old ≡ 7 * materials }
    ensures put { lines.new ≡ numbered material_line 1 (B.Book.meaning book.old).materials }
    ensures same { book.new ≡ book.old }
{
    // A range: of chunks that were lent for writing it is not known what they hold.
    for material in 1..=materials {
        let start = MATERIAL_LINE * usize::from(material - 1);
        lines::put_material(book, &mut lines[start..start + MATERIAL_LINE], material);
    }
}

// Puts the lines of all unit numbers.
fn put_units<B: Book>(book: &mut B, lines: &mut [u8], units: u16)
    requires count { units ≡ unit_count (B.Book.meaning book.old) }
    requires size { length lines.old ≡ 87 * units }
    ensures put { lines.new ≡ numbered unit_line 1 (as_written (B.Book.meaning book.old)).units }
    ensures same { book.new ≡ book.old }
{
    // A range: of chunks that were lent for writing it is not known what they hold.
    for unit in 1..=units {
        let start = UNIT_LINE * usize::from(unit - 1);
        lines::put_unit(book, &mut lines[start..start + UNIT_LINE], unit);
    }
}
