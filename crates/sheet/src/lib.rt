// The sheet: what the last draw said of every unit number and every material.
#![tactic(auto)]

ghost use Rattle.std.specs.Prelude.{◌≡◌, length, count_by};
ghost use Rattle.structure.specs.Answers.{is_drawn};

use book::MOST_NUMBERS;
use structure::Mark;

mod marks;

// How many unit numbers, and how many materials, a sheet has a mark for.
pub const PLACES: usize = MOST_NUMBERS;

// A mark for each unit number and each material, a rank for each unit number, and how many marks are drawn. It is changed
// by value, or written whole.
#[derive(Clone, Copy)]
pub struct Sheet {
    unit_marks: [Mark; PLACES],
    material_marks: [Mark; PLACES],
    // 0 for a number that is not drawn.
    ranks: [u16; PLACES],
    units_drawn: u16,
    materials_drawn: u16,
    ghost unit_places: { length unit_marks ≡ 1024 },
    ghost material_places: { length material_marks ≡ 1024 },
    ghost rank_places: { length ranks ≡ 1024 },
    ghost units_counted: { units_drawn ≡ count_by is_drawn unit_marks },
    ghost materials_counted: { materials_drawn ≡ count_by is_drawn material_marks },
}
