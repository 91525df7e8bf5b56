// How many materials and unit numbers a page book has. A book that is not open has none of either.
ghost use Rattle.std.specs.Prelude.{◌≡◌, ◌&&◌, nat_le};
ghost use Rattle.book.specs.Meaning.{material_count, unit_count};
ghost use Rattle.book.specs.Declined.{inside};
ghost use Rattle.page.specs.Layout.{most, page_length};
ghost use Rattle.pagebook.specs.Reading.{materials_on, units_on};
ghost use Rattle.pagebook.specs.PageBooks.{page_meaning};

use crate::PageBook;
use crate::fields::number_at;
use page::layout::{COUNTS_LINE, MOST, NUMBER, page_length};

// Whether a number is one of 1 to `count`.
pub(crate) fn within(number: u16, count: u16) -> bool
    ensures { result ≡ inside number count }
{
    (1..=count).contains(&number)
}

// Whether a page with these counts could stand in so many bytes.
fn has_room(size: usize, materials: u32, units: u32) -> bool
    ensures { result ≡ (nat_le materials most && (nat_le units most && nat_le (page_length materials units) size)) }
{
    materials <= MOST as u32
        && units <= MOST as u32
        && page_length(materials as u16, units as u16) <= size
}

// How many materials and unit numbers the first line shows. Where no page with such counts could stand in the bytes, there
// are none of either, as in the empty book.
fn counts_shown(bytes: &[u8]) -> (u16, u16)
    ensures materials { result.0 ≡ materials_on bytes.now }
    ensures units { result.1 ≡ units_on bytes.now }
{
    if bytes.len() < COUNTS_LINE {
        return (0, 0);
    }
    let materials = number_at(bytes, 0);
    let units = number_at(bytes, NUMBER);
    if has_room(bytes.len(), materials, units) {
        (materials as u16, units as u16)
    } else {
        (0, 0)
    }
}

impl PageBook<'_> {
    // How many materials and unit numbers the book has.
    pub(crate) fn counts(&self) -> (u16, u16)
        ensures materials { result.0 ≡ material_count (page_meaning self.now) }
        ensures units { result.1 ≡ unit_count (page_meaning self.now) }
    {
        if self.open {
            counts_shown(self.bytes)
        } else {
            (0, 0)
        }
    }
}
