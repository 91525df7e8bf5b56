// A tour of the planner: pages through the check, and one farm as a book on a page and in a table.
#![tactic(auto)]

mod edits;
mod pages;

use book::Refusal;
use edits::edit_and_tell;
use pagebook::PageBook;
use pages::{check_pages, tell};
use roundtrip::{copy_page, hide_page, save};
use samples::SMALL_FARM;
use table::{MaterialRow, TableBook, UnitRow};
use telling::{make_farm, tell_answer};

// What came of writing a page: its length, or the refusal.
fn tell_written(rt: &HostRuntime, answer: Result<usize, Refusal>) -> anyhow::Result<()> {
    tell_answer(rt, answer, |length| {
        println!(rt; "  written: {length} bytes")?;
        Ok(())
    })
}

// The small farm on its page: edited, and written out.
fn tour_page(rt: &HostRuntime, copy: &mut [u8]) -> anyhow::Result<()> {
    let mut page = SMALL_FARM.to_vec(rt.alloc())?;
    println!(rt; "The small farm, copied through a book")?;
    tell_written(rt, copy_page(page.as_mut_slice(), copy))?;
    println!(rt; "The small farm on its page, edited")?;
    let mut book = PageBook::open(page.as_mut_slice());
    edit_and_tell(rt, &mut book)?;
    tell_written(rt, save(&mut book, copy))?;
    hide_page(page.as_mut_slice());
    tell(rt, "The same page, every unit withheld", page.as_slice())
}

// The small farm in a table: made, edited, and written out.
fn tour_table(rt: &HostRuntime, copy: &mut [u8]) -> anyhow::Result<()> {
    let mut materials = [MaterialRow::PLAIN; 4];
    let mut units = [UnitRow::FREE; 2];
    let mut book = TableBook::open(&mut materials, &mut units);
    println!(rt; "The small farm, made in a table")?;
    make_farm(rt, &mut book)?;
    println!(rt; "The small farm in the table, edited")?;
    edit_and_tell(rt, &mut book)?;
    tell_written(rt, save(&mut book, copy))
}

fn main(rt: HostRuntime) -> anyhow::Result<()> {
    check_pages(&rt)?;
    let mut from_page = [0u8; 300];
    let mut from_table = [0u8; 300];
    tour_page(&rt, &mut from_page)?;
    tour_table(&rt, &mut from_table)?;
    let same = if from_page == from_table {
        "the same"
    } else {
        "not the same"
    };
    println!(rt; "What the page book and the table book wrote is {same}")?;
    println!(rt; "The same table into memory that is too short")?;
    let mut materials = [MaterialRow::PLAIN; 4];
    let mut units = [UnitRow::FREE; 2];
    let mut book = TableBook::open(&mut materials, &mut units);
    tell_written(&rt, save(&mut book, &mut [0u8; 212]))
}
