// A book in a table: rows of materials and rows of units, lent by the caller.
#![tactic(auto)]

ghost use Rattle.std.specs.Prelude.{◌≡◌};
ghost use Rattle.book.specs.Meaning.{free};
ghost use Rattle.book.specs.Edits.{Edited, lists_given, fit_edit};
ghost use Rattle.table.specs.Rows.{used, of_rows, Exact, RowsKept, plain_row, row_of, fresh, new_book};
ghost use Rattle.table.specs.Tables.{table_meaning};

use book::{EditableBook, Lists, Refusal};
use rows::used;

mod edits;
mod lists;
mod questions;
mod rows;

pub use rows::{MaterialRow, RowState, UnitRow};

// A book over lent rows. It uses at most the first 512 rows of each memory.
#[derive(Drop)]
pub struct TableBook<'a> {
    materials: &'a mut [MaterialRow],
    units: &'a mut [UnitRow],
}

impl<'a> TableBook<'a> {
    // A new book over these rows: every material is plain and every number free. Rows beyond those that it uses stay.
    pub fn open(materials: &'a mut [MaterialRow], units: &'a mut [UnitRow]) -> TableBook<'a>
        ensures materials_there { result.materials.ghost_name ≡ materials.entry.ghost_name }
        ensures units_there { result.units.ghost_name ≡ units.entry.ghost_name }
        ensures materials_fresh { result.materials.now ≡ fresh plain_row materials.old }
        ensures units_fresh { result.units.now ≡ fresh (row_of free) units.old }
        ensures meaning { table_meaning result ≡ new_book (used materials.old) (used units.old) }
        ensures exact { Exact (used result.materials.now) result.units.now }
    {
        let count = usize::from(used(materials.len()));
        materials[..count].fill(MaterialRow::PLAIN);
        let count = usize::from(used(units.len()));
        units[..count].fill(UnitRow::FREE);
        TableBook { materials, units }
    }
}

// Makes a new book over the rows and fits a unit at its number 1. Whoever lends the rows knows afterwards what they mean,
// that they hold exactly that, and that the rows beyond those of the book are as they were.
pub fn fit_first(
    materials: &mut [MaterialRow],
    units: &mut [UnitRow],
    lists: Lists<'_>,
) -> Result<(), Refusal>
    ensures told { Edited (λ m. m) (fit_edit 1 (lists_given lists.entry)) (new_book (used materials.old) (used units.old)) (of_rows materials.new units.new) result }
    ensures exact { Exact (used materials.new) units.new }
    ensures materials_kept { RowsKept materials.old materials.new }
    ensures units_kept { RowsKept units.old units.new }
{
    let mut table = TableBook::open(materials, units);
    table.fit(1, lists)
}
