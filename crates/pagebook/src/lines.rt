// The lines of a page book: where each begins, and what its letter and its lists say.
ghost use Rattle.std.specs.Prelude.{◌≡◌, ◌+◌, ◌≤◌, [], ◌∷◌, length, IfOk, IfSome, Some, None, MatchOption};
ghost use Rattle.book.specs.Meaning.{Fitted, material_count, unit_count};
ghost use Rattle.book.specs.Asked.{where_inside, fitted_at, list_on, material_at};
ghost use Rattle.page.specs.Layout.{list_width, line_length, line_start};
ghost use Rattle.page.specs.Layout.{material as line_of_material};
ghost use Rattle.pagebook.specs.Reading.{list_in, material_in, state_by};
ghost use Rattle.pagebook.specs.PageBooks.{page_meaning};
ghost use Rattle.pagebook.specs.Places.{class_of, kind_of, line_of, LineWithin, lists_in, side_column};
ghost use Rattle.pagebook.specs.Writes.{withheld_line};

use crate::PageBook;
use crate::counts::within;
use book::{Class, Refusal, Side, State};
use page::layout::{INPUTS, LIST, OUTPUTS, material_start, unit_start};
use page::letters::Lettered;

// The line of a unit number: where it begins, the state that its letter tells, and how many materials its lists may name.
#[derive(Clone, Copy)]
pub struct UnitLine {
    pub start: usize,
    pub state: State,
    pub materials: u16,
}

// The column of a unit's line at which a list begins, counted from 0.
fn column(side: Side) -> usize
    ensures { result ≡ side_column side }
{
    match side {
        Side::Inputs => INPUTS,
        Side::Outputs => OUTPUTS,
    }
}

// The class that the letter of a material's line tells; any other letter is plain.
fn class_told(letter: u8) -> Class
    ensures { result ≡ class_of (material_in (letter ∷ [])) }
{
    Class::of_letter(letter).unwrap_or(Class::PLAIN)
}

// The state that the letter of a unit's line tells; any other letter is free.
fn state_told(letter: u8) -> State
    ensures { (f : Fitted) → result ≡ kind_of (state_by letter f) }
{
    State::of_letter(letter).unwrap_or(State::Free)
}

impl PageBook<'_> {
    // Where the line of a material begins.
    pub(crate) fn material_line(&self, material: u16) -> Option<usize>
        ensures line { result ≡ where_inside material (material_count (page_meaning self.now)) (line_start 0 (line_of_material material)) }
        ensures whole { IfSome result (λ start. start + line_length (line_of_material material) ≤ length self.now.bytes.now) }
    {
        let (materials, _) = self.counts();
        if !within(material, materials) {
            return None;
        }
        Some(material_start(material))
    }

    // The class of a material.
    pub(crate) fn class_of(&self, material: u16) -> Option<Class>
        ensures { result ≡ where_inside material (material_count (page_meaning self.now)) (class_of (material_at (page_meaning self.now) material)) }
    {
        let start = self.material_line(material)?;
        Some(class_told(self.bytes[start]))
    }

    // The line of a unit number.
    pub(crate) fn unit_line(&self, unit: u16) -> Option<UnitLine>
        ensures line { result ≡ where_inside unit (unit_count (page_meaning self.now)) (line_of (page_meaning self.now) unit) }
        ensures whole { IfSome result (LineWithin self.now.bytes.now) }
    {
        let (materials, units) = self.counts();
        if !within(unit, units) {
            return None;
        }
        let start = unit_start(materials, unit);
        let state = state_told(self.bytes[start]);
        Some(UnitLine {
            start,
            state,
            materials,
        })
    }

    // The line of a standing unit.
    pub(crate) fn standing_line(&self, unit: u16) -> Option<UnitLine>
        ensures lists { MatchOption result (fitted_at unit (page_meaning self.now) ≡ None) (λ line. fitted_at unit (page_meaning self.now) ≡ Some (lists_in self.now.bytes.now line)) }
        ensures whole { IfSome result (LineWithin self.now.bytes.now) }
    {
        self.unit_line(unit)
            .filter(|line| line.state == State::Standing)
    }

    // The line of a withheld unit. Any other number is refused, one outside the book too.
    pub(crate) fn withheld_line(&self, unit: u16) -> Result<UnitLine, Refusal>
        ensures line { result ≡ withheld_line (page_meaning self.now) unit }
        ensures whole { IfOk result (LineWithin self.now.bytes.now) }
    {
        self.unit_line(unit)
            .filter(|line| line.state == State::Withheld)
            .ok_or(Refusal::NotWithheld)
    }

    // The fields of one of a unit's lists.
    pub(crate) fn list(&self, line: UnitLine, side: Side) -> &[u8]
        requires { LineWithin self.now.bytes.now line }
        ensures whole { length result.now ≡ list_width }
        ensures read { list_in line.materials result.now ≡ list_on side (lists_in self.now.bytes.now line) }
    {
        let start = line.start + column(side);
        &self.bytes[start..start + LIST]
    }
}
