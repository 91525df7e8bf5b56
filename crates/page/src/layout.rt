// The layout of a page, said once for all code that reads or writes one: how wide each field is, how long each line is,
// where each field and each line begins.
ghost use Rattle.std.specs.Prelude.{◌≡◌};
ghost use Rattle.page.specs.Layout.{line_start, material, page_length, unit};

use book::MOST_ENTRIES;

// How many columns a letter, a number and a newline take.
pub const LETTER: usize = 1;

pub const NUMBER: usize = 5;

pub const NEWLINE: usize = 1;

// How many fields each of a unit's two lists has, and how many columns they take together.
pub const LIST_FIELDS: usize = MOST_ENTRIES;

pub const LIST: usize = LIST_FIELDS * NUMBER;

// How many columns stand before the two lists of a unit's line.
pub const INPUTS: usize = LETTER + NUMBER;

pub const OUTPUTS: usize = INPUTS + LIST;

// How many bytes a line has, the newline too.
pub const COUNTS_LINE: usize = NUMBER + NUMBER + NEWLINE;

pub const MATERIAL_LINE: usize = LETTER + NUMBER + NEWLINE;

pub const UNIT_LINE: usize = OUTPUTS + LIST + NEWLINE;

// The columns, counted from 1, at which the fields of a line begin. Line 1 has the two counts.
pub const MATERIALS_COLUMN: u16 = 1;

pub const UNITS_COLUMN: u16 = MATERIALS_COLUMN + NUMBER as u16;

pub const COUNTS_END: u16 = UNITS_COLUMN + NUMBER as u16;

// A material's line has a letter, its number and the end; a unit's line has its two lists before the end.
pub const LETTER_COLUMN: u16 = 1;

pub const NUMBER_COLUMN: u16 = LETTER_COLUMN + LETTER as u16;

pub const MATERIAL_END: u16 = NUMBER_COLUMN + NUMBER as u16;

pub const INPUTS_COLUMN: u16 = NUMBER_COLUMN + NUMBER as u16;

pub const OUTPUTS_COLUMN: u16 = INPUTS_COLUMN + LIST as u16;

pub const UNIT_END: u16 = OUTPUTS_COLUMN + LIST as u16;

// The most materials, and the most units, that a page can have.
pub const MOST: u16 = 512;

// Where the line of a material begins.
pub fn material_start(number: u16) -> usize
    ensures { result ≡ line_start 0 (material number) }
{
    COUNTS_LINE + MATERIAL_LINE * number.saturating_sub(1) as usize
}

// Where the line of a unit number begins, on a page with this many materials.
pub fn unit_start(materials: u16, number: u16) -> usize
    ensures { result ≡ line_start materials (unit number) }
{
    COUNTS_LINE + MATERIAL_LINE * materials as usize + UNIT_LINE * number.saturating_sub(1) as usize
}

// How many bytes a page with these counts has.
pub fn page_length(materials: u16, units: u16) -> usize
    ensures { result ≡ page_length materials units }
{
    COUNTS_LINE + MATERIAL_LINE * materials as usize + UNIT_LINE * units as usize
}
