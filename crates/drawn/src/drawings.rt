// A farm drawn: what each unit and each material is marked.
use book::Book;
use drawing::draw;
use sheet::Sheet;
use telling::tell_answer;

// Tells the mark and the rank of each unit, the mark of each material, and how many of both are drawn. Of a number that the
// sheet has no place for there is nothing to tell.
fn tell_sheet(rt: &HostRuntime, sheet: &Sheet, units: u16, materials: u16) -> anyhow::Result<()> {
    // Two loops: only a unit has a rank.
    for unit in 1..=units {
        if let (Some(mark), Some(rank)) = (sheet.unit_mark(unit), sheet.rank(unit)) {
            println!(rt; "  unit {unit}: {mark}, rank {rank}")?;
        }
    }
    for material in 1..=materials {
        if let Some(mark) = sheet.material_mark(material) {
            println!(rt; "  material {material}: {mark}")?;
        }
    }
    let units_drawn = sheet.units_drawn();
    let materials_drawn = sheet.materials_drawn();
    println!(rt; "  in all {units_drawn} units and {materials_drawn} materials are drawn")?;
    Ok(())
}

// Draws any book on a new sheet and tells what it shows.
pub(crate) fn draw_and_tell<B: Book>(rt: &HostRuntime, book: &mut B) -> anyhow::Result<()> {
    let units = book.units();
    let materials = book.materials();
    tell_answer(rt, draw(book, Sheet::new()), |sheet| {
        tell_sheet(rt, &sheet, units, materials)
    })
}
