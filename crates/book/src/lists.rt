// Whether a unit may be fitted with two lists.
ghost use Rattle.std.specs.Prelude.{◌≡◌, ◌&&◌};
ghost use Rattle.book.specs.Declined.{climbs, fitting};

use crate::{Lists, MOST_ENTRIES};

impl Lists<'_> {
    // Whether a unit may be fitted with the lists in a book of so many materials: each has at most eight entries, each entry
    // is one of the materials, and they are strictly ascending.
    pub fn fit(self, materials: u16) -> bool
        ensures { result ≡ (fitting materials self.entry.inputs.now && fitting materials self.entry.outputs.now) }
    {
        is_fitting(self.inputs, materials) && is_fitting(self.outputs, materials)
    }
}

// Whether a unit may have the list.
fn is_fitting(list: &[u16], materials: u16) -> bool
    ensures { result ≡ fitting materials list.now }
{
    list.len() <= MOST_ENTRIES && is_climbing(list, materials)
}

// Whether each number is above the one before it, the first above 0, and none above the highest.
fn is_climbing(list: &[u16], highest: u16) -> bool
    ensures { result ≡ climbs 0 highest list.now }
{
    // A loop: each number is held against the one before it.
    let mut last = 0;
    for number in list {
        if *number <= last || *number > highest {
            return false;
        }
        last = *number;
    }
    true
}
