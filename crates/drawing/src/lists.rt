// The lists of one side of all units, of what they take or of what they make, walked by unit and by material.
ghost use Rattle.std.specs.Prelude.{◌≡◌, ℕ, ◌<◌, ◌≤◌, ◌↔◌, true, [], length, slice_index};
ghost use Rattle.std.specs.Option.{ForSome};
ghost use Rattle.std.specs.Iterator.{YieldsFirst, item_count};
ghost use Rattle.book.specs.Layers.{names};
ghost use Rattle.drawing.specs.Lists.{Walkable, Placed, after, with_entry};

use crate::flags::NUMBERS;
use book::MOST_ENTRIES;

// The most entries that a list has, and the places for all lists of one side.
const LIST: usize = MOST_ENTRIES;

const ENTRIES: usize = LIST * NUMBERS;

// The lists of one side. A draw never allocates, so they stand in fixed arrays, and entries that are one material are
// linked by their places.
#[derive(Drop)]
pub(crate) struct SideLists {
    // How many entries each unit has.
    counts: [u16; NUMBERS],
    // The entries of unit u, from place 8 u on; 0 where there is none.
    entries: [u16; ENTRIES],
    // For each entry, one more than the place of the last entry before it that is the same material; 0 where there is none.
    // A number and not an Option: arrays of Option<u16> are not cleared as zeros are, which takes 74,000 instructions in each
    // draw.
    links: [u16; ENTRIES],
    // For each material, one more than the place of its last entry; 0 where there is none.
    heads: [u16; NUMBERS],
    ghost walkable: { Walkable counts entries links heads },
}

// The place to which a link leads.
fn linked_place(link: u16) -> Option<u16>
    ensures { after result ≡ link }
{
    link.checked_sub(1)
}

impl SideLists {
    ghost use Rattle.drawing.specs.Sides.{list_at, Holds};
    ghost use Rattle.drawing.specs.Units.{units_left};

    // Lists that have no entry.
    pub(crate) fn empty() -> Self
        ensures { Holds result (λ _. []) }
    {
        SideLists {
            counts: [0; NUMBERS],
            entries: [0; ENTRIES],
            links: [0; ENTRIES],
            heads: [0; NUMBERS],
        }
    }

    // The list of a unit.
    pub(crate) fn list(&self, unit: usize) -> &[u16]
        requires { unit ≤ 1024 }
        ensures same { result.now ≡ list_at self.now unit }
        ensures placed { Placed result.now }
        ensures few { length result.now ≤ 8 }
    {
        let first = LIST * unit;
        &self.entries[first..first + self.counts[unit] as usize]
    }

    // The units whose lists name a material.
    pub(crate) fn units_with(&self, material: u16) -> UnitsWith<'_>
        requires some { 1 ≤ material }
        requires known { material ≤ 1024 }
        ensures { (u : ℕ) → (names u (units_left result) ≡ true) ↔ (names material (list_at self.now u) ≡ true) }
    {
        UnitsWith {
            lists: self,
            next: linked_place(self.heads[material as usize]),
        }
    }

    // Puts one more entry at the end of a unit's list. The units after it have no entry yet.
    pub(crate) fn push(&mut self, unit: u16, material: u16)
        requires known { unit ≤ 1024 }
        requires some { 1 ≤ material }
        requires small { material ≤ 1024 }
        requires room { length (list_at self.old unit) < 8 }
        requires last { (v : ℕ) → unit < v → list_at self.old v ≡ [] }
        ensures { Holds self.new (with_entry (list_at self.old) unit material) }
    {
        let own = unit as usize;
        let kind = material as usize;
        let place = LIST * own + self.counts[own] as usize;
        self.entries[place] = material;
        self.links[place] = self.heads[kind];
        self.heads[kind] = (place + 1) as u16;
        self.counts[own] += 1;
    }
}

// The units whose lists name one material, from its last entry to its first.
#[derive(Drop)]
pub(crate) struct UnitsWith<'a> {
    lists: &'a SideLists,
    // The place of the entry that comes next.
    next: Option<u16>,
    ghost within: { ForSome next (λ place. place < 8200) },
    ghost some: { ForSome next (λ place. 1 ≤ slice_index lists.now.entries place) },
}

impl Iterator for UnitsWith<'_> {
    ghost use Rattle.drawing.specs.Units.{units_left};

    type Item = usize;

    ghost next_gives = { YieldsFirst units_left };

    ghost remaining = { item_count units_left };

    fn next(&mut self) -> Option<usize> {
        let place = self.next? as usize;
        self.next = linked_place(self.lists.links[place]);
        Some(place / LIST)
    }
}
