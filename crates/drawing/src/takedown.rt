// Takes a book down into a network. Each question is asked once.
ghost use Rattle.std.specs.Prelude.{◌≡◌, ℕ, ◌-◌, ◌<◌, ◌≤◌, false, [], length, slice_index};
ghost use Rattle.book.specs.Meaning.{material_count, unit_count};
ghost use Rattle.structure.specs.Problem.{problem};
ghost use Rattle.drawing.specs.Flags.{Flags};
ghost use Rattle.drawing.specs.Lists.{with_list};
ghost use Rattle.drawing.specs.Sides.{Holds, list_at};
ghost use Rattle.drawing.specs.Network.{taken_down};
ghost use Rattle.drawing.specs.TakingDown.{NumbersTold, list_told};

use crate::flags::{NUMBERS, no_flags};
use crate::lists::SideLists;
use crate::network::Network;
use book::{Book, Side};

// Takes down the numbers of a book: how many there are, which materials are wanted and bought, and which units stand.
pub(crate) fn take_numbers<B: Book>(book: &mut B) -> Network
    ensures told { NumbersTold (B.Book.meaning book.old) result }
    ensures same { book.new ≡ book.old }
{
    let materials = book.materials();
    let units = book.units();
    let mut wanted = no_flags();
    let mut bought = no_flags();
    read_materials(book, materials, &mut wanted, &mut bought);
    Network {
        materials,
        units,
        wanted,
        bought,
        standing: read_standing(book, units),
        inputs: SideLists::empty(),
        outputs: SideLists::empty(),
    }
}

// Takes down what each unit of the book takes and makes, where its numbers are taken down.
pub(crate) fn take_lists<B: Book>(book: &mut B, network: &mut Network)
    requires { NumbersTold (B.Book.meaning book.old) network.old }
    ensures seen { taken_down network.new ≡ problem (B.Book.meaning book.old) }
    ensures same { book.new ≡ book.old }
{
    let units = network.units;
    let standing = network.standing;
    read_lists(book, Side::Inputs, units, &standing, &mut network.inputs);
    read_lists(book, Side::Outputs, units, &standing, &mut network.outputs);
}

// Reads which materials are wanted and which are bought. No flag is set yet.
fn read_materials<B: Book>(
    book: &mut B,
    materials: u16,
    wanted: &mut [bool; NUMBERS],
    bought: &mut [bool; NUMBERS],
)
    requires counted { materials ≡ material_count (B.Book.meaning book.old) }
    requires none_wanted { Flags wanted.old (λ _. false) }
    requires none_bought { Flags bought.old (λ _. false) }
    ensures wanted { Flags wanted.new (problem (B.Book.meaning book.old)).wanted }
    ensures bought { Flags bought.new (problem (B.Book.meaning book.old)).bought }
    ensures same { book.new ≡ book.old }
{
    for material in 1..=materials {
        let place = material as usize;
        wanted[place] = book.wanted(material).unwrap_or(false);
        bought[place] = book.bought(material).unwrap_or(false);
    }
}

// Reads which units stand.
fn read_standing<B: Book>(book: &mut B, units: u16) -> [bool; NUMBERS]
    requires { units ≡ unit_count (B.Book.meaning book.old) }
    ensures standing { Flags result (problem (B.Book.meaning book.old)).standing }
    ensures same { book.new ≡ book.old }
{
    let mut standing = no_flags();
    for unit in 1..=units {
        standing[unit as usize] = book.stands(unit).unwrap_or(false);
    }
    standing
}

// Reads one side of the units that stand. Nothing is read of it yet.
fn read_lists<B: Book>(
    book: &mut B,
    side: Side,
    units: u16,
    standing: &[bool; NUMBERS],
    lists: &mut SideLists,
)
    requires counted { units ≡ unit_count (B.Book.meaning book.old) }
    requires standing { Flags standing.now (problem (B.Book.meaning book.old)).standing }
    requires none { Holds lists.old (λ _. []) }
    ensures held { Holds lists.new (λ u. list_told side u (B.Book.meaning book.old)) }
    ensures same { book.new ≡ book.old }
{
    for unit in 1..=units {
        if standing[unit as usize] {
            read_list(book, side, unit, lists);
        }
    }
}

// Reads one list of a unit. That unit and those after it have no entry yet.
fn read_list<B: Book>(book: &mut B, side: Side, unit: u16, lists: &mut SideLists)
    requires known { unit ≤ 1024 }
    requires last { (v : ℕ) → unit ≤ v → list_at lists.old v ≡ [] }
    ensures held { Holds lists.new (with_list (list_at lists.old) unit (list_told side unit (B.Book.meaning book.old))) }
    ensures same { book.new ≡ book.old }
{
    let count = entry_count(book, side, unit);
    for place in 1..=count {
        lists.push(unit, entry(book, side, unit, place));
    }
}

// How many entries the list of a unit has; none where the unit does not stand.
fn entry_count<B: Book>(book: &mut B, side: Side, unit: u16) -> u16
    ensures answer { result ≡ length (list_told side unit (B.Book.meaning book.old)) }
    ensures same { book.new ≡ book.old }
{
    book.entry_count(unit, side).unwrap_or(0)
}

// The entry at a place of a unit's list, from 1.
fn entry<B: Book>(book: &mut B, side: Side, unit: u16, place: u16) -> u16
    requires from_one { 1 ≤ place }
    requires there { place ≤ length (list_told side unit (B.Book.meaning book.old)) }
    ensures answer { result ≡ slice_index (list_told side unit (B.Book.meaning book.old)) (place - 1) }
    ensures same { book.new ≡ book.old }
{
    book.entry(unit, side, place).unwrap()
}
