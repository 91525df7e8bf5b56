// The edits of a table. An accepted edit writes one row; a refused one writes nothing. Hiding and showing differ in what
// they ask, in what they write and in every refusal, so each says its own.
ghost use Rattle.std.specs.Prelude.{◌≡◌, ◌-◌, ◌<◌, length, IfSome, if◌then◌else◌, Some, None};
ghost use Rattle.book.specs.Declined.{withheld_at};
ghost use Rattle.table.specs.Tables.{table_meaning};

use crate::TableBook;
use crate::lists::entries_for;
use crate::rows::{RowState, UnitRow, row_place};
use book::{Book, Class, EditableBook, Lists, Refusal};

impl<'a> EditableBook for TableBook<'a> {
    fn fit(&mut self, unit: u16, lists: Lists<'_>) -> Result<(), Refusal> {
        let place = row_place(unit, self.units.len()).ok_or(Refusal::OutOfRange)?;
        if !lists.fit(self.materials()) {
            return Err(Refusal::BadList);
        }
        if self.units[place].state != RowState::Free {
            return Err(Refusal::NotFree);
        }
        self.units[place] = UnitRow {
            state: RowState::Standing,
            inputs: entries_for(lists.inputs),
            outputs: entries_for(lists.outputs),
        };
        Ok(())
    }

    fn class(&mut self, material: u16, class: Class) -> Result<(), Refusal> {
        let place = row_place(material, self.materials.len()).ok_or(Refusal::OutOfRange)?;
        self.materials[place] = class;
        Ok(())
    }

    fn hide(&mut self, unit: u16) -> Result<(), Refusal> {
        let place = row_place(unit, self.units.len()).ok_or(Refusal::OutOfRange)?;
        if self.units[place].state != RowState::Standing {
            return Err(Refusal::NotStanding);
        }
        self.units[place].state = RowState::Withheld;
        Ok(())
    }

    fn show(&mut self, unit: u16) -> Result<(), Refusal> {
        let place = self.withheld_place(unit).ok_or(Refusal::NotWithheld)?;
        self.units[place].state = RowState::Standing;
        Ok(())
    }

    fn clear(&mut self, unit: u16) -> Result<(), Refusal> {
        let place = self.withheld_place(unit).ok_or(Refusal::NotWithheld)?;
        self.units[place] = UnitRow::FREE;
        Ok(())
    }
}

impl<'a> TableBook<'a> {
    // The place of a withheld unit's row; absence where no withheld unit has the number.
    fn withheld_place(&self, unit: u16) -> Option<usize>
        ensures answer { result ≡ (if withheld_at (table_meaning self.now) unit then Some (unit - 1) else None) }
        ensures here { IfSome result (λ place. place < length self.now.units.now) }
    {
        let place = row_place(unit, self.units.len())?;
        let state = self.units[place].state;
        (state == RowState::Withheld).then_some(place)
    }
}
