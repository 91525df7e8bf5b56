// The kinds of book, each said by a word.
use crate::books::{chain, dense};
use anyhow::bail;
use book::{EditableBook, Refusal};
use std::fmt;
use std::str::FromStr;

#[derive(Clone, Copy)]
pub enum Kind {
    // A chain from a bought material to a wanted one.
    Chain,
    // A chain that nothing feeds.
    Starved,
    // A book in which every list has eight entries.
    Dense,
}

impl Kind {
    // Makes the book of the kind.
    pub(crate) fn make<B: EditableBook>(self, book: &mut B, units: u16) -> Result<(), Refusal> {
        match self {
            Kind::Chain => chain(book, units, 511, units.min(511) + 1),
            Kind::Starved => chain(book, units, 510, 512),
            Kind::Dense => dense(book, units),
        }
    }
}

impl FromStr for Kind {
    type Err = anyhow::Error;

    fn from_str(word: &str) -> anyhow::Result<Kind> {
        match word {
            "chain" => Ok(Kind::Chain),
            "starved" => Ok(Kind::Starved),
            "dense" => Ok(Kind::Dense),
            _ => bail!("the kinds are chain, starved and dense"),
        }
    }
}

impl fmt::Display for Kind {
    fn fmt<W: fmt::Write>(&self, f: &mut fmt::Formatter<W>) -> fmt::Result {
        f.write_str(match self {
            Kind::Chain => "chain",
            Kind::Starved => "starved",
            Kind::Dense => "dense",
        })
    }
}
