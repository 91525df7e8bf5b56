// What a book means, what it can be asked and how it is edited, and why a call is declined.
#![tactic(auto)]

ghost use Rattle.std.specs.Prelude.{◌≡◌, Some, decimal};
ghost use Rattle.book.specs.Refusals.{told};

mod books;
mod lists;
mod numbers;

pub use books::{Book, Class, EditableBook, Lists, Side, State};
pub use numbers::{MOST_ENTRIES, MOST_NUMBERS, place_of};
use std::error::Error;
use std::fmt;

// Where the first fault of a page is. Lines and columns count from 1; column 0 is a line that the end of the bytes
// cuts short, or bytes after the last line.
#[derive(Clone, Copy, PartialEq, Eq, Debug)]
pub struct PageFault {
    pub line: u16,
    pub column: u16,
}

// Why a call was declined. A declined call changes nothing.
#[derive(Clone, Copy, PartialEq, Eq, Debug)]
pub enum Refusal {
    // The unit or material is 0 or above the count of the book.
    OutOfRange,
    // A list has over eight entries, names no material of the book, or is not strictly ascending.
    BadList,
    // A unit is to be fitted at a number that is not free.
    NotFree,
    // The number to be withheld does not stand.
    NotStanding,
    // Nothing is wanted, so there is nothing to draw.
    NothingWanted,
    // Nothing is bought, so there is nothing to draw from.
    NothingBought,
    // Some material is both wanted and bought.
    WantedAndBought,
    // The standing units hold no workable plant.
    Impossible,
    // The number to be shown or cleared is not withheld.
    NotWithheld,
    // The bytes are no page.
    BadPage(PageFault),
    // The book is too large to get feeders.
    NoRoomForFeeders,
    // The memory that was handed over is too short, or the waiting list is full.
    MemoryTooShort,
}

impl Refusal {
    // The number that stands for the refusal wherever one is printed.
    pub fn number(self) -> u8
        ensures { result ≡ (told self).number }
    {
        match self {
            Refusal::OutOfRange => 1,
            Refusal::BadList => 2,
            Refusal::NotFree => 3,
            Refusal::NotStanding => 4,
            Refusal::NothingWanted => 5,
            Refusal::NothingBought => 6,
            Refusal::WantedAndBought => 7,
            Refusal::Impossible => 8,
            Refusal::NotWithheld => 9,
            Refusal::BadPage(_) => 10,
            Refusal::NoRoomForFeeders => 11,
            Refusal::MemoryTooShort => 12,
        }
    }

    // Where the page is at fault; nothing for any other refusal.
    pub fn place(self) -> Option<PageFault>
        ensures { result ≡ (told self).place }
    {
        match self {
            Refusal::BadPage(fault) => Some(fault),
            _ => None,
        }
    }
}

// A refusal is printed as its number.
impl fmt::Display for Refusal {
    ghost output = { λ r. Some (decimal (told r).number) };

    fn fmt<W: fmt::Write>(&self, f: &mut fmt::Formatter<W>) -> fmt::Result {
        let number = self.number();
        write!(f, "{number}")
    }
}

impl Error for Refusal {}
