// Edits of a book, whatever book it is, and what it says of itself.
use book::{Book, Class, EditableBook, Side};
use telling::{lists, say};

// Edits of the small farm that are done.
fn edit_farm<B: EditableBook>(rt: &HostRuntime, book: &mut B) -> anyhow::Result<()> {
    say(rt, "material 3 is wanted too", book.class(3, Class::WANTED))?;
    say(rt, "hide 1", book.hide(1))?;
    say(rt, "show 1", book.show(1))?;
    say(rt, "hide 2", book.hide(2))?;
    say(rt, "clear 2", book.clear(2))?;
    say(
        rt,
        "fit at 2: takes 3 and 4, makes 1",
        book.fit(2, lists(&[3, 4], &[1])),
    )?;
    Ok(())
}

// Edits that are refused.
fn refuse_edits<B: EditableBook>(rt: &HostRuntime, book: &mut B) -> anyhow::Result<()> {
    say(rt, "fit at 3 of 2", book.fit(3, lists(&[], &[])))?;
    say(
        rt,
        "fit at 1: takes 4 and then 3",
        book.fit(1, lists(&[4, 3], &[1])),
    )?;
    say(
        rt,
        "fit at 1, where a unit stands",
        book.fit(1, lists(&[2], &[1])),
    )?;
    say(
        rt,
        "material 5 of 4 is wanted",
        book.class(5, Class::WANTED),
    )?;
    say(rt, "hide 0", book.hide(0))?;
    say(rt, "show 1, which stands", book.show(1))?;
    say(rt, "clear 3 of 2", book.clear(3))?;
    Ok(())
}

// One list of a unit.
fn tell_list<B: Book>(rt: &HostRuntime, book: &mut B, unit: u16, side: Side) -> anyhow::Result<()> {
    for material in (1..=u16::MAX).map_while(|place| book.entry(unit, side, place)) {
        print!(rt; " {material}")?;
    }
    Ok(())
}

// The word, where it is true.
fn word_if(truth: Option<bool>, word: &str) -> &str {
    if truth == Some(true) { word } else { "" }
}

// What the book says of its materials.
fn tell_materials<B: Book>(rt: &HostRuntime, book: &mut B) -> anyhow::Result<()> {
    for material in 1..=book.materials() {
        let wanted = word_if(book.wanted(material), " wanted");
        let bought = word_if(book.bought(material), " bought");
        println!(rt; "  material {material}:{wanted}{bought}")?;
    }
    Ok(())
}

// What the book says of its units.
fn tell_units<B: Book>(rt: &HostRuntime, book: &mut B) -> anyhow::Result<()> {
    for unit in 1..=book.units() {
        if book.stands(unit) == Some(true) {
            print!(rt; "  unit {unit}: takes")?;
            tell_list(rt, book, unit, Side::Inputs)?;
            print!(rt; ", makes")?;
            tell_list(rt, book, unit, Side::Outputs)?;
            println!(rt; "")?;
        }
    }
    Ok(())
}

// The edits of the tour, on any book that holds the small farm, and what the book says afterwards.
pub(crate) fn edit_and_tell<B: EditableBook>(rt: &HostRuntime, book: &mut B) -> anyhow::Result<()> {
    edit_farm(rt, book)?;
    refuse_edits(rt, book)?;
    tell_materials(rt, book)?;
    tell_units(rt, book)
}
