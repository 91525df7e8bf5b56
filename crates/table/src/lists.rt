// The lists of a unit as a row has them: numbers, then zeros.
ghost use Rattle.std.specs.Prelude.{◌≡◌, ◌≤◌, length};
ghost use Rattle.book.specs.Climbing.{climbing};
ghost use Rattle.table.specs.Rows.{entries_of};

use crate::rows::PLACES;

// The longest front that ascends strictly and holds only materials, in a table of so many.
pub(crate) fn front(numbers: &[u16], materials: u16) -> &[u16]
    ensures { result.now ≡ climbing 0 materials numbers.now }
{
    // The number before is carried along: the first that may not come after it ends the front.
    let mut last = 0;
    for (i, number) in numbers.iter().enumerate() {
        if *number <= last || *number > materials {
            return &numbers[..i];
        }
        last = *number;
    }
    numbers
}

// The entries of a row that hold the list.
pub(crate) fn entries_for(list: &[u16]) -> [u16; PLACES]
    requires { length list.now ≤ 8 }
    ensures { result ≡ entries_of list.now }
{
    let mut entries = [0; PLACES];
    entries[..list.len()].copy_from_slice(list);
    entries
}
