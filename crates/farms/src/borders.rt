// Drawings at the borders of what a table holds.
use crate::drawings::{tell_counts, tell_drawn};
use anyhow::Context;
use book::{Class, EditableBook, Refusal};
use drawing::draw;
use sheet::Sheet;
use table::{MaterialRow, TableBook, UnitRow};
use telling::{lists, tell_answer};

// Unit k takes material k + 1 and makes material k, for so many units; material 1 is wanted, and 512 is bought.
fn make_chain<B: EditableBook>(book: &mut B, units: u16) -> Result<(), Refusal> {
    for unit in 1..=units {
        book.fit(unit, lists(&[unit.saturating_add(1)], &[unit]))?;
    }
    book.class(1, Class::WANTED)?;
    book.class(512, Class::BOUGHT)
}

// The ranks at both ends of a chain of so many units, and how many are drawn.
fn tell_ends(rt: &HostRuntime, sheet: &Sheet, units: u16) -> anyhow::Result<()> {
    let first = sheet.rank(1).unwrap_or(0);
    let last = sheet.rank(units).unwrap_or(0);
    println!(rt; "  rank {first} at its near end, {last} at its far end")?;
    tell_counts(rt, sheet)
}

// A chain of 511 units from material 512, which is bought, to material 1, which is wanted; its far end stands or not.
fn draw_chain(rt: &HostRuntime, title: &str, fitted: u16) -> anyhow::Result<()> {
    println!(rt; "{title}")?;
    let mut material_rows = [MaterialRow::PLAIN; 512];
    let mut unit_rows = [UnitRow::FREE; 512];
    let mut book = TableBook::open(&mut material_rows, &mut unit_rows);
    make_chain(&mut book, fitted).context("the chain could not be made")?;
    tell_answer(rt, draw(&mut book, Sheet::new()), |sheet| {
        tell_ends(rt, &sheet, fitted)
    })
}

// A table without rows, and one without units.
fn draw_empty(rt: &HostRuntime) -> anyhow::Result<()> {
    println!(rt; "No rows at all")?;
    let mut no_materials: [MaterialRow; 0] = [];
    let mut no_units: [UnitRow; 0] = [];
    let mut nothing = TableBook::open(&mut no_materials, &mut no_units);
    tell_drawn(rt, &mut nothing)?;
    println!(rt; "One material, wanted, and no units")?;
    let mut materials = [MaterialRow::PLAIN; 2];
    let mut book = TableBook::open(&mut materials, &mut no_units);
    book.class(1, Class::WANTED)?;
    tell_drawn(rt, &mut book)?;
    println!(rt; "The same, and bought")?;
    book.class(1, Class::BOTH)?;
    tell_drawn(rt, &mut book)?;
    println!(rt; "One material wanted, another bought, and no units")?;
    book.class(1, Class::WANTED)?;
    book.class(2, Class::BOUGHT)?;
    tell_drawn(rt, &mut book)
}

pub(crate) fn draw_borders(rt: &HostRuntime) -> anyhow::Result<()> {
    draw_chain(rt, "A chain of 511 units", 511)?;
    draw_chain(rt, "A chain of 510 units, starved from its far end", 510)?;
    draw_empty(rt)
}
