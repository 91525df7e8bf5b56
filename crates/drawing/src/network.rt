// What a draw takes down of a book: each question is asked once.
ghost use Rattle.std.specs.Prelude.{◌≤◌};
ghost use Rattle.structure.specs.Problem.{Bounded};
ghost use Rattle.drawing.specs.Sides.{problem_of};

use crate::flags::NUMBERS;
use crate::lists::SideLists;

// The materials and the units of a book: which are wanted, bought and standing, and what each unit takes and makes.
#[derive(Drop)]
pub(crate) struct Network {
    pub(crate) materials: u16,
    pub(crate) units: u16,
    pub(crate) wanted: [bool; NUMBERS],
    pub(crate) bought: [bool; NUMBERS],
    pub(crate) standing: [bool; NUMBERS],
    pub(crate) inputs: SideLists,
    pub(crate) outputs: SideLists,
    ghost few_materials: { materials ≤ 1024 },
    ghost few_units: { units ≤ 1024 },
    ghost bounded: { Bounded (problem_of materials units wanted bought standing inputs outputs) },
}
