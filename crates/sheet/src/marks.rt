// What a sheet can be asked, and how it is written.
ghost use Rattle.std.specs.Prelude.{◌≡◌, ◌-◌, ◌≤◌, length, count_by};
ghost use Rattle.book.specs.Asked.{where_inside};
ghost use Rattle.structure.specs.Answers.{is_drawn, mark_of, rank_of};
ghost use Rattle.sheet.specs.Sheets.{contents, fresh, whole};

use crate::{PLACES, Sheet};
use structure::Mark;

// How many of the marks are drawn.
fn drawn_among(marks: &[Mark; PLACES]) -> u16
    ensures { result ≡ count_by is_drawn marks.now }
{
    // A loop: adapters of an iterator go mark by mark here, and take twice as long.
    let mut count = 0;
    for mark in marks {
        count += u16::from(mark.is_drawn());
    }
    count
}

// The place of a number from 1 to 1,024.
fn place_of(number: u16) -> Option<usize>
    ensures { result ≡ where_inside number 1024 (number - 1) }
{
    book::place_of(number, PLACES as u16)
}

// The questions of a sheet, one for each of its arrays and counts.
impl Sheet {
    // A new sheet is unasked throughout.
    pub fn new() -> Sheet
        ensures { contents result ≡ fresh }
    {
        Sheet {
            unit_marks: [Mark::Unasked; PLACES],
            material_marks: [Mark::Unasked; PLACES],
            ranks: [0; PLACES],
            units_drawn: 0,
            materials_drawn: 0,
        }
    }

    // The sheet written whole, with these marks and ranks; nothing of what it said before is left.
    pub fn written(
        self,
        unit_marks: [Mark; PLACES],
        material_marks: [Mark; PLACES],
        ranks: [u16; PLACES],
    ) -> Sheet
        ensures { contents result ≡ whole unit_marks material_marks ranks }
    {
        let units_drawn = drawn_among(&unit_marks);
        let materials_drawn = drawn_among(&material_marks);
        Sheet {
            unit_marks,
            material_marks,
            ranks,
            units_drawn,
            materials_drawn,
        }
    }

    // The mark of a unit number from 1 to 1,024.
    pub fn unit_mark(&self, unit: u16) -> Option<Mark>
        ensures { result ≡ where_inside unit 1024 (mark_of (contents self.now).unit_marks unit) }
    {
        Some(self.unit_marks[place_of(unit)?])
    }

    // The rank of a unit number from 1 to 1,024; 0 where it is not drawn.
    pub fn rank(&self, unit: u16) -> Option<u16>
        ensures { result ≡ where_inside unit 1024 (rank_of (contents self.now).ranks unit) }
    {
        Some(self.ranks[place_of(unit)?])
    }

    // The mark of a material from 1 to 1,024.
    pub fn material_mark(&self, material: u16) -> Option<Mark>
        ensures { result ≡ where_inside material 1024 (mark_of (contents self.now).material_marks material) }
    {
        Some(self.material_marks[place_of(material)?])
    }

    // How many unit numbers are marked drawn.
    pub fn units_drawn(&self) -> u16
        ensures value { result ≡ (contents self.now).units_drawn }
        ensures counted { result ≡ count_by is_drawn (contents self.now).unit_marks }
    {
        self.units_drawn
    }

    // How many materials are marked drawn.
    pub fn materials_drawn(&self) -> u16
        ensures value { result ≡ (contents self.now).materials_drawn }
        ensures counted { result ≡ count_by is_drawn (contents self.now).material_marks }
    {
        self.materials_drawn
    }
}
