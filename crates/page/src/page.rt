// The check of a page: its lines one after another, from the top.
ghost use Rattle.std.specs.Prelude.{◌≡◌, ℕ, ◌+◌, ◌^◌, ◌<◌, ◌≤◌, take, MatchResult};
ghost use Rattle.page.specs.Checked.{Checked, FaultlessIsPage};
ghost use Rattle.page.specs.Layout.{material, unit};
ghost use Rattle.page.specs.Readers.{CutShort, EachAnswered, LineChecked, LinesChecked, LineThere, on_line};

use crate::counts::Counts;
use crate::layout::{
    COUNTS_LINE, MATERIAL_LINE, UNIT_LINE, material_start, page_length, unit_start,
};
use crate::line::{LineFault, counts_line, material_line, unit_line};
use book::PageFault;

// What was read from a line, or the fault of the page whose line has this number.
fn on_line<T>(line: u16, read: Result<T, LineFault>) -> Result<T, PageFault>
    ensures { result ≡ on_line line read }
{
    read.map_err(|fault| PageFault {
        line,
        column: fault.column,
    })
}

// The bytes of the line that begins at `start`, or the fault of a line that the end of the bytes cuts short.
fn whole_line(bytes: &[u8], start: usize, width: usize, line: u16) -> Result<&[u8], PageFault>
    requires { start + width < 2 ^ 64 }
    ensures { MatchResult result (λ part. LineThere bytes.now start width part.now) (CutShort bytes.now start width line) }
{
    bytes
        .get(start..start + width)
        .ok_or(PageFault { line, column: 0 })
}

// Checks lines numbered from 1 to `count`, one after another, each by `check_line`.
fn each_line<F: Fn(u16) -> Result<(), PageFault>>(
    count: u16,
    check_line: F,
) -> Result<(), PageFault>
    requires { (number : ℕ) → 1 ≤ number → number ≤ count → F.pre check_line number }
    ensures { EachAnswered (F.post check_line) count result }
{
    for number in 1..=count {
        check_line(number)?;
    }
    Ok(())
}

impl Counts {
    // Checks the line of the material with this number.
    fn check_material(self, bytes: &[u8], number: u16) -> Result<(), PageFault>
        requires { number ≤ self.materials }
        ensures { LineChecked bytes.now self.materials (material number) result }
    {
        let line_number = 1 + number;
        let line = whole_line(bytes, material_start(number), MATERIAL_LINE, line_number)?;
        on_line(line_number, material_line(line, number))
    }

    // Checks the lines of the materials.
    fn check_materials(self, bytes: &[u8]) -> Result<(), PageFault>
        ensures { LinesChecked bytes.now self.materials material self.materials result }
    {
        each_line(self.materials, |number| self.check_material(bytes, number))
    }

    // Checks the line of the unit with this number.
    fn check_unit(self, bytes: &[u8], number: u16) -> Result<(), PageFault>
        requires { number ≤ self.units }
        ensures { LineChecked bytes.now self.materials (unit number) result }
    {
        let line_number = 1 + self.materials + number;
        let start = unit_start(self.materials, number);
        let line = whole_line(bytes, start, UNIT_LINE, line_number)?;
        on_line(line_number, unit_line(line, number, self.materials))
    }

    // Checks the lines of the units.
    fn check_units(self, bytes: &[u8]) -> Result<(), PageFault>
        ensures { LinesChecked bytes.now self.materials unit self.units result }
    {
        each_line(self.units, |number| self.check_unit(bytes, number))
    }

    // The fault of bytes that go on after the last line.
    fn bytes_after(self) -> PageFault
        ensures { result ≡ record { line = self.materials + self.units + 2; column = 0 } }
    {
        PageFault {
            line: self.materials + self.units + 2,
            column: 0,
        }
    }
}

// The numbers of materials and of units of the page that the bytes are, or the first fault.
pub fn check(bytes: &[u8]) -> Result<(u16, u16), PageFault>
    ensures told { Checked bytes.now result }
    ensures only { (other : _) → Checked bytes.now other → other ≡ result }
    ensures faultless_is_page { FaultlessIsPage bytes.now }
    ensures first_bytes_decide { Checked (take 48140 bytes.now) result }
{
    let first = whole_line(bytes, 0, COUNTS_LINE, 1)?;
    let counts = on_line(1, counts_line(first))?;
    counts.check_materials(bytes)?;
    counts.check_units(bytes)?;
    if bytes.len() > page_length(counts.materials, counts.units) {
        return Err(counts.bytes_after());
    }
    Ok((counts.materials, counts.units))
}
