// The line reader: whether a line keeps to the rules of its kind, and the column of the first field that does not.
ghost use Rattle.std.specs.Prelude.{◌≡◌, ◌+◌, ◌^◌, ◌<◌, length, IfOk};
ghost use Rattle.page.specs.Faults.{Counts as Counted};
ghost use Rattle.page.specs.Layout.{counts, material, unit};
ghost use Rattle.page.specs.Readers.{LineTold, ListTold, at_column};
ghost use Rattle.page.specs.Rules.{entry_fields, fields as fields_of};

use crate::counts::Counts;
use crate::field::{
    FieldFault, class_in, count_in, entry_in, highest_named, newline_in, running_in,
};
use crate::layout::{
    COUNTS_END, INPUTS_COLUMN, LETTER_COLUMN, LIST, MATERIAL_END, MATERIALS_COLUMN, NUMBER,
    NUMBER_COLUMN, OUTPUTS_COLUMN, UNIT_END, UNITS_COLUMN,
};

// The column, counted from 1, at which the first field begins that does not keep to its rule.
#[derive(Clone, Copy, PartialEq, Eq, Debug)]
pub struct LineFault {
    pub column: u16,
}

// What was read from a field, or the fault of the line whose field begins at this column. A function, so that ten calls
// share one closure.
fn at_column<T>(column: u16, read: Result<T, FieldFault>) -> Result<T, LineFault>
    ensures { result ≡ at_column column read }
{
    read.map_err(|_| LineFault { column })
}

// The counts of materials and units that the first line shows.
pub(crate) fn counts_line(line: &[u8]) -> Result<Counts, LineFault>
    requires { length line.now ≡ 11 }
    ensures told { LineTold (fields_of 0 counts line.now) line.now result }
    ensures counted { IfOk result (λ c. Counted line.now c.materials c.units) }
{
    let (first, rest) = line.split_at(NUMBER);
    let materials = at_column(MATERIALS_COLUMN, count_in(first))?;
    let (second, rest) = rest.split_at(NUMBER);
    let units = at_column(UNITS_COLUMN, count_in(second))?;
    at_column(COUNTS_END, newline_in(rest[0]))?;
    Ok(Counts { materials, units })
}

// Reads the line of the material with this number.
pub(crate) fn material_line(line: &[u8], number: u16) -> Result<(), LineFault>
    requires { length line.now ≡ 7 }
    ensures { LineTold (fields_of 0 (material number) line.now) line.now result }
{
    let [letter, rest @ ..] = line else {
        return Err(LineFault {
            column: LETTER_COLUMN,
        });
    };
    at_column(LETTER_COLUMN, class_in(*letter))?;
    let (shown, rest) = rest.split_at(NUMBER);
    at_column(NUMBER_COLUMN, running_in(shown, number))?;
    at_column(MATERIAL_END, newline_in(rest[0]))
}

// The column of a field with so many columns of its list before it, where the list begins at the column `first`.
fn field_column(first: u16, before: usize) -> u16
    requires { first + before < 2 ^ 16 }
    ensures { result ≡ first + before }
{
    first + before as u16
}

// Reads a list's eight fields, the first of which begins at the column `first`.
// Inlined, since a list's width is known where it is called: how many fields there are is then not worked out again.
#[inline(always)]
fn list_in(list: &[u8], highest: u16, first: u16) -> Result<(), LineFault>
    requires whole { length list.now ≡ 40 }
    requires fits { first + 40 < 2 ^ 16 }
    ensures { ListTold first (entry_fields highest list.now) list.now result }
{
    let mut above = Some(0);
    for (i, field) in list.chunks_exact(NUMBER).enumerate() {
        let column = field_column(first, NUMBER * i);
        above = at_column(column, entry_in(field, highest, above))?;
    }
    Ok(())
}

// Reads the line of the unit with this number, on a page with this many materials.
pub(crate) fn unit_line(line: &[u8], number: u16, materials: u16) -> Result<(), LineFault>
    requires { length line.now ≡ 87 }
    ensures { LineTold (fields_of materials (unit number) line.now) line.now result }
{
    let [letter, rest @ ..] = line else {
        return Err(LineFault {
            column: LETTER_COLUMN,
        });
    };
    let highest = at_column(LETTER_COLUMN, highest_named(*letter, materials))?;
    let (running, rest) = rest.split_at(NUMBER);
    at_column(NUMBER_COLUMN, running_in(running, number))?;
    let (inputs, rest) = rest.split_at(LIST);
    list_in(inputs, highest, INPUTS_COLUMN)?;
    let (outputs, rest) = rest.split_at(LIST);
    list_in(outputs, highest, OUTPUTS_COLUMN)?;
    at_column(UNIT_END, newline_in(rest[0]))
}
