// A page book answers questions.
ghost use Rattle.pagebook.specs.PageBooks.{page_meaning, PageKept};
ghost use Rattle.pagebook.specs.PageLaws.{page_laws};

use crate::PageBook;
use crate::lists::{list_entry, list_length};
use book::{Book, Side, State};

impl<'a> Book for PageBook<'a> {
    ghost meaning = { page_meaning };

    ghost kept = { PageKept };

    ghost laws = { page_laws };

    fn materials(&mut self) -> u16 {
        self.counts().0
    }

    fn units(&mut self) -> u16 {
        self.counts().1
    }

    fn wanted(&mut self, material: u16) -> Option<bool> {
        self.class_of(material).map(|class| class.wanted)
    }

    fn bought(&mut self, material: u16) -> Option<bool> {
        self.class_of(material).map(|class| class.bought)
    }

    fn stands(&mut self, unit: u16) -> Option<bool> {
        self.unit_line(unit)
            .map(|line| line.state == State::Standing)
    }

    fn entry_count(&mut self, unit: u16, side: Side) -> Option<u16> {
        let line = self.standing_line(unit)?;
        Some(list_length(self.list(line, side), line.materials))
    }

    fn entry(&mut self, unit: u16, side: Side, place: u16) -> Option<u16> {
        let line = self.standing_line(unit)?;
        list_entry(self.list(line, side), line.materials, place)
    }
}
