// Books as their users see them: one that can be asked, and one that can be edited besides.
ghost use Rattle.std.specs.Prelude.{◌≡◌};
ghost use Rattle.book.specs.Meaning.{Meaning, material_count, unit_count};
ghost use Rattle.book.specs.Asked.{wanted_at, bought_at, stands_at, entry_count_at, entry_at};
ghost use Rattle.book.specs.Edits.{Edited, lists_given, fit_edit, class_edit, hide_edit, show_edit, clear_edit};
ghost use Rattle.book.specs.Laws.{Laws, lent_laws};

use crate::Refusal;

// What is known of a material.
#[derive(Clone, Copy, PartialEq, Eq, Debug)]
pub struct Class {
    pub wanted: bool,
    pub bought: bool,
}

impl Class {
    pub const PLAIN: Class = Class {
        wanted: false,
        bought: false,
    };

    pub const WANTED: Class = Class {
        wanted: true,
        bought: false,
    };

    pub const BOUGHT: Class = Class {
        wanted: false,
        bought: true,
    };

    pub const BOTH: Class = Class {
        wanted: true,
        bought: true,
    };
}

// What is known of a unit number: nothing is fitted there, a unit stands there, or a unit is there and withheld from use.
#[derive(Clone, Copy, PartialEq, Eq, Debug)]
pub enum State {
    Free,
    Standing,
    Withheld,
}

// One of a unit's two lists: what it takes, or what it makes.
#[derive(Clone, Copy, PartialEq, Eq, Debug)]
pub enum Side {
    Inputs,
    Outputs,
}

// The lists of a unit that is to be fitted.
#[derive(Clone, Copy)]
pub struct Lists<'a> {
    pub inputs: &'a [u16],
    pub outputs: &'a [u16],
}

// A book that can be asked. A question takes the book for writing, as an edit does, and changes nothing at all. One outside
// its range is answered by absence.
pub trait Book {
    // What the book means.
    ghost meaning: { Self → Meaning };

    // What no call changes, said of the book before and after.
    ghost kept: { Self → Self → Type 0 };

    // What every book owes of these two.
    ghost laws: { Laws meaning kept };

    // How many materials there are.
    fn materials(&mut self) -> u16
        ensures answer { result ≡ material_count (meaning self.old) }
        ensures same { self.new ≡ self.old };

    // How many unit numbers there are.
    fn units(&mut self) -> u16
        ensures answer { result ≡ unit_count (meaning self.old) }
        ensures same { self.new ≡ self.old };

    // Whether the material is wanted.
    fn wanted(&mut self, material: u16) -> Option<bool>
        ensures answer { result ≡ wanted_at material (meaning self.old) }
        ensures same { self.new ≡ self.old };

    // Whether the material is bought.
    fn bought(&mut self, material: u16) -> Option<bool>
        ensures answer { result ≡ bought_at material (meaning self.old) }
        ensures same { self.new ≡ self.old };

    // Whether a unit stands at the number.
    fn stands(&mut self, unit: u16) -> Option<bool>
        ensures answer { result ≡ stands_at unit (meaning self.old) }
        ensures same { self.new ≡ self.old };

    // How many entries a list of a standing unit has.
    fn entry_count(&mut self, unit: u16, side: Side) -> Option<u16>
        ensures answer { result ≡ entry_count_at unit side (meaning self.old) }
        ensures same { self.new ≡ self.old };

    // The entry at a place, from 1, of a standing unit's list.
    fn entry(&mut self, unit: u16, side: Side, place: u16) -> Option<u16>
        ensures answer { result ≡ entry_at unit side place (meaning self.old) }
        ensures same { self.new ≡ self.old };
}

// A book that is lent is a book.
impl<B: Book> Book for &mut B {
    ghost meaning = { λ s. B.Book.meaning s.now };

    ghost kept = { λ s t. (t.ghost_name ≡ s.ghost_name) × B.Book.kept s.now t.now };

    ghost laws = { lent_laws (λ x. x.ghost_name) (λ x. x.now) B.Book.laws };

    fn materials(&mut self) -> u16 {
        (**self).materials()
    }

    fn units(&mut self) -> u16 {
        (**self).units()
    }

    fn wanted(&mut self, material: u16) -> Option<bool> {
        (**self).wanted(material)
    }

    fn bought(&mut self, material: u16) -> Option<bool> {
        (**self).bought(material)
    }

    fn stands(&mut self, unit: u16) -> Option<bool> {
        (**self).stands(unit)
    }

    fn entry_count(&mut self, unit: u16, side: Side) -> Option<u16> {
        (**self).entry_count(unit, side)
    }

    fn entry(&mut self, unit: u16, side: Side, place: u16) -> Option<u16> {
        (**self).entry(unit, side, place)
    }
}

// A book that can be edited. An edit alters only the number that it names; a refused one alters nothing.
pub trait EditableBook: Book {
    // Fits a unit at a free number.
    fn fit(&mut self, unit: u16, lists: Lists<'_>) -> Result<(), Refusal>
        ensures told { Edited Self.Book.meaning (fit_edit unit (lists_given lists.entry)) self.old self.new result }
        ensures held { Self.Book.kept self.old self.new };

    // Sets whether a material is wanted and whether it is bought.
    fn class(&mut self, material: u16, class: Class) -> Result<(), Refusal>
        ensures told { Edited Self.Book.meaning (class_edit material class.wanted class.bought) self.old self.new result }
        ensures held { Self.Book.kept self.old self.new };

    // Withholds a standing unit.
    fn hide(&mut self, unit: u16) -> Result<(), Refusal>
        ensures told { Edited Self.Book.meaning (hide_edit unit) self.old self.new result }
        ensures held { Self.Book.kept self.old self.new };

    // Makes a withheld unit stand again, with its lists.
    fn show(&mut self, unit: u16) -> Result<(), Refusal>
        ensures told { Edited Self.Book.meaning (show_edit unit) self.old self.new result }
        ensures held { Self.Book.kept self.old self.new };

    // Frees the number of a withheld unit.
    fn clear(&mut self, unit: u16) -> Result<(), Refusal>
        ensures told { Edited Self.Book.meaning (clear_edit unit) self.old self.new result }
        ensures held { Self.Book.kept self.old self.new };
}

impl<B: EditableBook> EditableBook for &mut B {
    fn fit(&mut self, unit: u16, lists: Lists<'_>) -> Result<(), Refusal> {
        (**self).fit(unit, lists)
    }

    fn class(&mut self, material: u16, class: Class) -> Result<(), Refusal> {
        (**self).class(material, class)
    }

    fn hide(&mut self, unit: u16) -> Result<(), Refusal> {
        (**self).hide(unit)
    }

    fn show(&mut self, unit: u16) -> Result<(), Refusal> {
        (**self).show(unit)
    }

    fn clear(&mut self, unit: u16) -> Result<(), Refusal> {
        (**self).clear(unit)
    }
}
