// What a drawing says, in words.
use book::Book;
use drawing::draw;
use sheet::Sheet;
use structure::Mark;
use telling::tell_answer;

// Tells each number from 1 to the last that has the mark.
fn tell_marked<F: Fn(u16) -> Option<Mark>>(
    rt: &HostRuntime,
    last: u16,
    mark_of: F,
    mark: Mark,
) -> anyhow::Result<()>
    requires { F.IsAlwaysCallable mark_of }
{
    for number in 1..=last {
        if mark_of(number) == Some(mark) {
            print!(rt; " {number}")?;
        }
    }
    Ok(())
}

fn tell_units(rt: &HostRuntime, sheet: &Sheet, units: u16) -> anyhow::Result<()> {
    print!(rt; "  units drawn, each with its rank:")?;
    // A loop of its own: the rank stands beside the number.
    for unit in 1..=units {
        if let (Some(Mark::Drawn), Some(rank)) = (sheet.unit_mark(unit), sheet.rank(unit)) {
            print!(rt; " {unit}:{rank}")?;
        }
    }
    print!(rt; "; idle:")?;
    tell_marked(rt, units, |unit| sheet.unit_mark(unit), Mark::Idle)?;
    println!(rt; "")?;
    Ok(())
}

fn tell_materials(rt: &HostRuntime, sheet: &Sheet, materials: u16) -> anyhow::Result<()> {
    let mark_of = |material| sheet.material_mark(material);
    print!(rt; "  materials drawn:")?;
    tell_marked(rt, materials, mark_of, Mark::Drawn)?;
    print!(rt; "; idle:")?;
    tell_marked(rt, materials, mark_of, Mark::Idle)?;
    println!(rt; "")?;
    Ok(())
}

// How many are drawn.
pub(crate) fn tell_counts(rt: &HostRuntime, sheet: &Sheet) -> anyhow::Result<()> {
    let units = sheet.units_drawn();
    let materials = sheet.materials_drawn();
    println!(rt; "  {units} units and {materials} materials drawn")?;
    Ok(())
}

// Draws the book and tells every mark.
pub(crate) fn tell_drawing<B: Book>(rt: &HostRuntime, book: &mut B) -> anyhow::Result<()> {
    let materials = book.materials();
    let units = book.units();
    tell_answer(rt, draw(book, Sheet::new()), |sheet| {
        tell_units(rt, &sheet, units)?;
        tell_materials(rt, &sheet, materials)?;
        tell_counts(rt, &sheet)
    })
}

// Draws the book and tells how many are drawn.
pub(crate) fn tell_drawn<B: Book>(rt: &HostRuntime, book: &mut B) -> anyhow::Result<()> {
    tell_answer(rt, draw(book, Sheet::new()), |sheet| {
        tell_counts(rt, &sheet)
    })
}
