// The questions of a table, answered from the row of the number. One outside its range is answered by absence.
ghost use Rattle.std.specs.Prelude.{◌≡◌};
ghost use Rattle.std.specs.Option.{option_map, option_copied};
ghost use Rattle.book.specs.Meaning.{material_count};
ghost use Rattle.book.specs.Asked.{fitted_at};
ghost use Rattle.table.specs.Rows.{fitted_in, found};
ghost use Rattle.table.specs.Tables.{table_meaning, TableKept, table_laws};

use crate::TableBook;
use crate::rows::{MaterialRow, RowState, UnitRow, row_at, used};
use book::{Book, Side};

impl<'a> Book for TableBook<'a> {
    ghost meaning = { table_meaning };

    ghost kept = { TableKept };

    ghost laws = { table_laws };

    fn materials(&mut self) -> u16 {
        used(self.materials.len())
    }

    fn units(&mut self) -> u16 {
        used(self.units.len())
    }

    fn wanted(&mut self, material: u16) -> Option<bool> {
        self.material_row(material).map(|row| row.wanted)
    }

    fn bought(&mut self, material: u16) -> Option<bool> {
        self.material_row(material).map(|row| row.bought)
    }

    fn stands(&mut self, unit: u16) -> Option<bool> {
        self.state(unit).map(|state| state == RowState::Standing)
    }

    fn entry_count(&mut self, unit: u16, side: Side) -> Option<u16> {
        let materials = self.materials();
        let row = self.standing_row(unit)?;
        Some(row.list(side, materials).len() as u16)
    }

    // Inlined, since whoever writes a page out asks for every entry.
    #[inline(always)]
    fn entry(&mut self, unit: u16, side: Side, place: u16) -> Option<u16> {
        let materials = self.materials();
        let row = self.standing_row(unit)?;
        let index = place.checked_sub(1)?;
        let list = row.list(side, materials);
        list.get(usize::from(index)).copied()
    }
}

impl<'a> TableBook<'a> {
    // The row of a material.
    fn material_row(&self, material: u16) -> Option<MaterialRow>
        ensures { result ≡ found material self.now.materials.now }
    {
        row_at(self.materials, material).copied()
    }

    // The state of a unit number.
    fn state(&self, unit: u16) -> Option<RowState>
        ensures { result ≡ option_map (λ row. row.state) (found unit self.now.units.now) }
    {
        row_at(self.units, unit).map(|row| row.state)
    }

    // The row of a standing unit.
    fn standing_row(&self, unit: u16) -> Option<&UnitRow>
        ensures { option_map (fitted_in (material_count (table_meaning self.now))) (option_copied result) ≡ fitted_at unit (table_meaning self.now) }
    {
        row_at(self.units, unit).filter(|row| row.state == RowState::Standing)
    }
}
