// Writes a sheet from ranks: what has a rank is drawn, with all that it takes and makes.
ghost use Rattle.std.specs.Prelude.{◌≡◌, ℕ, ◌<◌, ◌≤◌, true, ◌⊎◌, length, drop, Decides};
ghost use Rattle.book.specs.Layers.{names};
ghost use Rattle.structure.specs.Problem.{Member, Within};
ghost use Rattle.structure.specs.Supported.{Spanned};
ghost use Rattle.structure.specs.Answers.{mark_for};
ghost use Rattle.sheet.specs.Sheets.{contents};
ghost use Rattle.drawing.specs.Flags.{flagged};
ghost use Rattle.drawing.specs.Lists.{Placed};
ghost use Rattle.drawing.specs.Network.{taken_down};
ghost use Rattle.drawing.specs.Picture.{MarksFor, ranked as ranked_in, UpTo, Pictured};

use crate::flags::{NUMBERS, no_flags};
use crate::network::Network;
use sheet::{PLACES, Sheet};
use structure::Mark;

// The mark of a number that is drawn or not, and that the book has or not.
fn mark_for(drawn: bool, there: bool) -> Mark
    ensures { result ≡ mark_for drawn there }
{
    if drawn {
        Mark::Drawn
    } else if there {
        Mark::Idle
    } else {
        Mark::Unasked
    }
}

// A mark for each number from 1 to 1,024.
fn marks_for(drawn: &[bool; NUMBERS], there: &[bool; NUMBERS]) -> [Mark; PLACES]
    ensures { MarksFor (flagged drawn.now) (flagged there.now) result }
{
    let mut marks = [Mark::Unasked; PLACES];
    // By place: a proof knows nothing of items that stand beside lent ones.
    for (place, mark) in marks.iter_mut().enumerate() {
        *mark = mark_for(drawn[place + 1], there[place + 1]);
    }
    marks
}

// The flags of the numbers that have a rank.
fn ranked(ranks: &[u16; NUMBERS]) -> [bool; NUMBERS]
    ensures long { length result ≡ 1025 }
    ensures each { (u : ℕ) → flagged result u ≡ ranked_in ranks.now u }
{
    let mut flags = no_flags();
    for (unit, rank) in ranks.iter().enumerate() {
        flags[unit] = *rank > 0;
    }
    flags
}

// The flags of the numbers from 1 to the last.
fn up_to(last: u16) -> [bool; NUMBERS]
    requires { last ≤ 1024 }
    ensures { UpTo last (flagged result) }
{
    let mut flags = no_flags();
    flags[1..last as usize + 1].fill(true);
    flags
}

// Sets the flag of each material in a list.
fn flag_list(list: &[u16], flags: &mut [bool; NUMBERS])
    requires { Placed list.now }
    ensures { (x : ℕ) → Decides (flagged flags.new x) (Member (flagged flags.old) x ⊎ (names x list.now ≡ true)) }
{
    for x in list {
        flags[*x as usize] = true;
    }
}

// The flags of the materials that the units take and make.
fn touched(network: &Network, units: &[bool; NUMBERS]) -> [bool; NUMBERS]
    requires { Within (flagged units.now) (flagged network.now.standing) }
    ensures { Spanned (taken_down network.now) (flagged units.now) (flagged result) }
{
    let mut flags = no_flags();
    for unit in 1..=network.units as usize {
        if units[unit] {
            flag_list(network.inputs.list(unit), &mut flags);
            flag_list(network.outputs.list(unit), &mut flags);
        }
    }
    flags
}

// The ranks of the numbers from 1 on.
fn from_first(ranks: &[u16; NUMBERS]) -> [u16; PLACES]
    ensures { result ≡ drop 1 ranks.now }
{
    let mut places = [0; PLACES];
    places.copy_from_slice(&ranks[1..NUMBERS]);
    places
}

// The sheet that shows the units that have a rank.
pub(crate) fn pictured(network: &Network, ranks: &[u16; NUMBERS], sheet: Sheet) -> Sheet
    requires { Within (ranked_in ranks.now) (flagged network.now.standing) }
    ensures { Pictured (taken_down network.now) ranks.now (contents result) }
{
    let drawn = ranked(ranks);
    let unit_marks = marks_for(&drawn, &network.standing);
    let material_marks = marks_for(&touched(network, &drawn), &up_to(network.materials));
    sheet.written(unit_marks, material_marks, from_first(ranks))
}
