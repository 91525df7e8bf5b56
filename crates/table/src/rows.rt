// Rows of a table: what they hold, how many of them a table uses, and where a number's row is.
ghost use Rattle.std.specs.Prelude.{◌≡◌, ◌-◌, ◌≤◌, min, length, if◌then◌else◌, Some, None};
ghost use Rattle.std.specs.Option.{option_copied};
ghost use Rattle.book.specs.Declined.{inside};
ghost use Rattle.book.specs.Asked.{list_on};
ghost use Rattle.table.specs.Rows.{fitted_in, found};

use crate::lists::front;
use book::{MOST_ENTRIES, Side, place_of};

// The row of a material, and what a unit's row says of its number.
pub use book::{Class as MaterialRow, State as RowState};

// A table uses at most this many rows of a memory.
const MOST: usize = 512;

// A row has this many places for each list of its unit.
pub const PLACES: usize = MOST_ENTRIES;

// The row of a unit number: its state, and its lists in ascending order, with 0 in each place that is not used. A row is
// lent memory, so its size is fixed.
#[derive(Clone, Copy, PartialEq, Eq, Debug)]
pub struct UnitRow {
    pub state: RowState,
    pub inputs: [u16; PLACES],
    pub outputs: [u16; PLACES],
}

impl UnitRow {
    // The row of a free number.
    pub const FREE: UnitRow = UnitRow {
        state: RowState::Free,
        inputs: [0; PLACES],
        outputs: [0; PLACES],
    };

    // The list on a side, in a table of so many materials.
    #[tactic(auto, using(crate::specs::WellFormed::climbing_short, crate::proofs::Climbs::list_in_all))]
    pub(crate) fn list(&self, side: Side, materials: u16) -> &[u16]
        ensures list { result.now ≡ list_on side (fitted_in materials self.now) }
        ensures short { length result.now ≤ 8 }
    {
        match side {
            Side::Inputs => front(&self.inputs, materials),
            Side::Outputs => front(&self.outputs, materials),
        }
    }
}

// How many rows are used, of so many.
pub(crate) fn used(rows: usize) -> u16
    ensures { result ≡ min 512 rows }
{
    rows.min(MOST) as u16
}

// The place of the row with that number, from 1, among so many rows; absence where the table uses no such row.
pub(crate) fn row_place(number: u16, rows: usize) -> Option<usize>
    ensures { result ≡ (if inside number (min 512 rows) then Some (number - 1) else None) }
{
    place_of(number, used(rows))
}

// The row with that number, where the table uses one.
pub(crate) fn row_at<R>(rows: &[R], number: u16) -> Option<&R>
    ensures { option_copied result ≡ found number rows.now }
{
    let place = row_place(number, rows.len())?;
    rows.get(place)
}
