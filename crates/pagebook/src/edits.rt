// A page book takes edits. Each makes sure that nothing refuses it before it writes, so that a refused edit writes nothing.
// Hiding and showing differ in what they ask, in what they write and in every refusal, so each says its own.
use crate::PageBook;
use crate::fields::put_unit;
use book::{Class, EditableBook, Lists, Refusal, State};
use page::letters::Lettered;

impl<'a> EditableBook for PageBook<'a> {
    fn fit(&mut self, unit: u16, lists: Lists<'_>) -> Result<(), Refusal> {
        let line = self.unit_line(unit).ok_or(Refusal::OutOfRange)?;
        if !lists.fit(line.materials) {
            return Err(Refusal::BadList);
        }
        if line.state != State::Free {
            return Err(Refusal::NotFree);
        }
        put_unit(self.bytes, line.start, State::Standing, lists);
        Ok(())
    }

    fn class(&mut self, material: u16, class: Class) -> Result<(), Refusal> {
        let start = self.material_line(material).ok_or(Refusal::OutOfRange)?;
        self.bytes[start] = class.letter();
        Ok(())
    }

    fn hide(&mut self, unit: u16) -> Result<(), Refusal> {
        let line = self.unit_line(unit).ok_or(Refusal::OutOfRange)?;
        if line.state != State::Standing {
            return Err(Refusal::NotStanding);
        }
        self.bytes[line.start] = State::Withheld.letter();
        Ok(())
    }

    fn show(&mut self, unit: u16) -> Result<(), Refusal> {
        let line = self.withheld_line(unit)?;
        self.bytes[line.start] = State::Standing.letter();
        Ok(())
    }

    fn clear(&mut self, unit: u16) -> Result<(), Refusal> {
        let line = self.withheld_line(unit)?;
        let none = Lists {
            inputs: &[],
            outputs: &[],
        };
        put_unit(self.bytes, line.start, State::Free, none);
        Ok(())
    }
}
