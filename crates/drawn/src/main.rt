// The small farm drawn from its page and from a table, then with its only useful unit hidden, then with nothing bought.
#![tactic(auto)]

mod drawings;

use book::{Class, EditableBook};
use drawings::draw_and_tell;
use pagebook::PageBook;
use samples::SMALL_FARM;
use table::{MaterialRow, TableBook, UnitRow};
use telling::make_farm;

// The small farm drawn, from whatever book it stands in; then with its only useful unit hidden, and with nothing bought.
fn tour_drawing<B: EditableBook>(rt: &HostRuntime, book: &mut B) -> anyhow::Result<()> {
    draw_and_tell(rt, book)?;
    println!(rt; "The same, unit 1 hidden")?;
    let _ = book.hide(1);
    draw_and_tell(rt, book)?;
    println!(rt; "The same, nothing bought")?;
    let _ = book.class(2, Class::PLAIN);
    draw_and_tell(rt, book)
}

// The small farm drawn from its page, and from a table.
fn tour_drawings(rt: &HostRuntime) -> anyhow::Result<()> {
    println!(rt; "The small farm, drawn from its page")?;
    let mut page = SMALL_FARM.to_vec(rt.alloc())?;
    tour_drawing(rt, &mut PageBook::open(page.as_mut_slice()))?;
    println!(rt; "The small farm, made in a table and drawn")?;
    let mut materials = [MaterialRow::PLAIN; 4];
    let mut units = [UnitRow::FREE; 2];
    let mut book = TableBook::open(&mut materials, &mut units);
    make_farm(rt, &mut book)?;
    tour_drawing(rt, &mut book)
}

fn main(rt: HostRuntime) -> anyhow::Result<()> {
    tour_drawings(&rt)
}
