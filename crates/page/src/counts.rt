// How many materials and units a page has.
ghost use Rattle.std.specs.Prelude.{◌≤◌};

// The counts that the first line of a page shows.
#[derive(Clone, Copy)]
pub(crate) struct Counts {
    pub(crate) materials: u16,
    pub(crate) units: u16,
    ghost few_materials: { materials ≤ 512 },
    ghost few_units: { units ≤ 512 },
}
