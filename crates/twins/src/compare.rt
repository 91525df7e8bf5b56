// Two books that are asked and edited alike, and whether they answer alike.
use crate::choice::Edit;
use book::{Book, EditableBook, Refusal, Side};
use writing::write_out;

#[derive(Drop)]
pub struct Twins<A, B> {
    pub first: A,
    pub second: B,
}

impl<A: Book, B: Book> Twins<A, B> {
    fn same_material(&mut self, material: u16) -> bool {
        self.first.wanted(material) == self.second.wanted(material)
            && self.first.bought(material) == self.second.bought(material)
    }

    // Also just outside of the places of the list.
    fn same_list(&mut self, unit: u16, side: Side) -> bool {
        self.first.entry_count(unit, side) == self.second.entry_count(unit, side)
            && (0..10).all(|place| {
                self.first.entry(unit, side, place) == self.second.entry(unit, side, place)
            })
    }

    fn same_unit(&mut self, unit: u16) -> bool {
        self.first.stands(unit) == self.second.stands(unit)
            && self.same_list(unit, Side::Inputs)
            && self.same_list(unit, Side::Outputs)
    }

    // Whether the books answer alike, also just outside of their ranges.
    pub(crate) fn same_answers(&mut self) -> bool {
        self.first.materials() == self.second.materials()
            && self.first.units() == self.second.units()
            && (0..8).all(|number| self.same_material(number) && self.same_unit(number))
    }

    // Whether both books are written out, and alike.
    pub(crate) fn same_pages(&mut self) -> bool {
        let mut first = [0u8; 500];
        let mut second = [0u8; 500];
        write_out(&mut self.first, &mut first) == Ok(488)
            && write_out(&mut self.second, &mut second) == Ok(488)
            && first == second
    }
}

impl<A: EditableBook, B: EditableBook> Twins<A, B> {
    // The edit, made on both books, and what both answered; absence where they answered otherwise.
    pub(crate) fn edit(&mut self, edit: &Edit) -> Option<Result<(), Refusal>> {
        let answer = edit.apply(&mut self.first);
        (edit.apply(&mut self.second) == answer).then_some(answer)
    }
}
