// Draws the maximal structure of any book.
ghost use Rattle.std.specs.Prelude.{◌≡◌, ℕ, ◌<◌, ◌≤◌, true, Decides, Result, slice_index};
ghost use Rattle.book.specs.declared.Refusal.{Refusal as Declined};
ghost use Rattle.structure.specs.Problem.{Member, problem};
ghost use Rattle.structure.specs.Answers.{Drawing, Draws, ImpossibleExactly, DrawnHoldsEvery, DrawnExactlyInSome};
ghost use Rattle.drawing.specs.Flags.{flagged};
ghost use Rattle.drawing.specs.Network.{taken_down};
ghost use Rattle.drawing.specs.Picture.{answer_of};
ghost use Rattle.drawing.specs.Ready.{Readied, MeetBelow};

use crate::composition::compose;
use crate::flags::NUMBERS;
use crate::network::Network;
use crate::picture::pictured;
use crate::reduction::reduce;
use crate::takedown::{take_lists, take_numbers};
use book::{Book, Refusal};
use sheet::Sheet;

// Whether some number up to the last is in both sets.
fn meet(some: &[bool; NUMBERS], others: &[bool; NUMBERS], last: u16) -> bool
    requires { last ≤ 1024 }
    ensures { Decides result (MeetBelow (flagged some.now) (flagged others.now) last) }
{
    some[..last as usize + 1]
        .iter()
        .zip(others)
        .any(|(some, other)| *some && *other)
}

// Refuses what cannot be drawn at all: nothing wanted, nothing bought, or some material both.
fn ready(network: &Network) -> Result<(), Refusal>
    ensures { Readied (taken_down network.now) result }
{
    if !meet(&network.wanted, &network.wanted, network.materials) {
        return Err(Refusal::NothingWanted);
    }
    if !meet(&network.bought, &network.bought, network.materials) {
        return Err(Refusal::NothingBought);
    }
    if meet(&network.wanted, &network.bought, network.materials) {
        return Err(Refusal::WantedAndBought);
    }
    Ok(())
}

// Whether each wanted material has a maker.
fn all_made(network: &Network, makers: &[u16; NUMBERS]) -> bool
    ensures { Decides result ((x : ℕ) → Member (flagged network.now.wanted) x → 0 < slice_index makers.now x) }
{
    network.wanted[..network.materials as usize + 1]
        .iter()
        .zip(makers)
        .all(|(wanted, makers)| !*wanted || *makers > 0)
}

// Draws what was taken down.
fn draw_network(network: &Network, sheet: Sheet) -> Result<Sheet, Refusal>
    ensures { Draws (taken_down network.now) (answer_of result) }
{
    ready(network)?;
    let reduced = reduce(network);
    if !all_made(network, &reduced.makers) {
        return Err(Refusal::Impossible);
    }
    let ranks = compose(network, &reduced.live);
    Ok(pictured(network, &ranks, sheet))
}

// Draws the maximal structure of the book onto the sheet: every unit that some workable plant could use, and no other.
pub fn draw<B: Book>(book: &mut B, sheet: Sheet) -> Result<Sheet, Refusal>
    ensures told { Draws (problem (B.Book.meaning book.old)) (answer_of result) }
    ensures only { (other : Result Drawing Declined) → Draws (problem (B.Book.meaning book.old)) other → other ≡ answer_of result }
    ensures impossible_exactly { ImpossibleExactly (problem (B.Book.meaning book.old)) (answer_of result) }
    ensures drawn_holds_every { DrawnHoldsEvery (problem (B.Book.meaning book.old)) (answer_of result) }
    ensures drawn_exactly_in_some { DrawnExactlyInSome (problem (B.Book.meaning book.old)) (answer_of result) }
    ensures same { book.new ≡ book.old }
{
    let mut network = take_numbers(book);
    take_lists(book, &mut network);
    draw_network(&network, sheet)
}
