// The borders of what a book can hold, on both books: the first and the last number, the longest list, no rows at all.
#![tactic(auto)]

use anyhow::ensure;
use book::{Book, Class, EditableBook};
use pagebook::PageBook;
use samples::FULL_LINE;
use table::{MaterialRow, RowState, TableBook, UnitRow};
use telling::{lists, say};
use writing::write_out;

const EIGHT: [u16; 8] = [1, 2, 3, 4, 5, 6, 7, 8];

const NINE: [u16; 9] = [1, 2, 3, 4, 5, 6, 7, 8, 9];

// Lists at number 1 of a book with eight materials, where a unit stands that fills all places.
fn try_lists<B: EditableBook>(rt: &HostRuntime, book: &mut B) -> anyhow::Result<()> {
    say(rt, "hide 1", book.hide(1))?;
    say(rt, "clear 1", book.clear(1))?;
    say(rt, "nine inputs", book.fit(1, lists(&NINE, &EIGHT)))?;
    say(rt, "nine outputs", book.fit(1, lists(&EIGHT, &NINE)))?;
    say(rt, "input 9 of 8", book.fit(1, lists(&[9], &[])))?;
    say(rt, "input 0", book.fit(1, lists(&[0], &[])))?;
    say(rt, "output 3 twice", book.fit(1, lists(&[], &[3, 3])))?;
    say(rt, "empty lists", book.fit(1, lists(&[], &[])))?;
    say(rt, "hide 1", book.hide(1))?;
    say(rt, "clear 1", book.clear(1))?;
    say(
        rt,
        "eight inputs and eight outputs",
        book.fit(1, lists(&EIGHT, &EIGHT)),
    )?;
    Ok(())
}

// Numbers around the ends of a book.
fn try_numbers<B: EditableBook>(
    rt: &HostRuntime,
    book: &mut B,
    last: u16,
    past: u16,
) -> anyhow::Result<()> {
    let (materials, units) = (book.materials(), book.units());
    println!(rt; "  {materials} materials, {units} unit numbers")?;
    say(rt, "fit at 0", book.fit(0, lists(&[], &[])))?;
    say(rt, "fit at the last", book.fit(last, lists(&[], &[])))?;
    say(rt, "fit past the last", book.fit(past, lists(&[], &[])))?;
    say(rt, "class the last", book.class(last, Class::BOTH))?;
    say(rt, "class past the last", book.class(past, Class::BOTH))?;
    say(rt, "hide past the last", book.hide(past))?;
    say(rt, "show past the last", book.show(past))?;
    say(rt, "clear past the last", book.clear(past))?;
    Ok(())
}

// A table that is larger than a book can be.
fn run_large(rt: &HostRuntime) -> anyhow::Result<()> {
    let mut materials = vec![in rt.alloc(); MaterialRow::PLAIN; 513]?;
    let mut units = vec![in rt.alloc(); UnitRow::FREE; 514]?;
    println!(rt; "A table of 513 and 514 rows")?;
    let mut large = TableBook::open(materials.as_mut_slice(), units.as_mut_slice());
    try_numbers(rt, &mut large, 512, 513)
}

// A table of no rows.
fn run_none(rt: &HostRuntime) -> anyhow::Result<()> {
    let mut materials = [MaterialRow::PLAIN; 0];
    let mut units = [UnitRow::FREE; 0];
    println!(rt; "A table of no rows")?;
    let mut none = TableBook::open(&mut materials, &mut units);
    try_numbers(rt, &mut none, 1, 1)
}

// Rows past the 512th stay as the caller had them.
fn run_beyond(rt: &HostRuntime) -> anyhow::Result<()> {
    let mut materials = vec![in rt.alloc(); MaterialRow::BOTH; 513]?;
    let mut units = vec![in rt.alloc(); UnitRow {
        state: RowState::Withheld,
        inputs: [7; 8],
        outputs: [7; 8]
    }; 513]?;
    {
        let mut book = TableBook::open(materials.as_mut_slice(), units.as_mut_slice());
        let _ = book.fit(512, lists(&[1], &[2]));
    }
    let material = materials.last().copied().unwrap_or(MaterialRow::PLAIN);
    let unit = units.last().copied().unwrap_or(UnitRow::FREE);
    ensure!(
        material.wanted && unit.inputs[0] == 7,
        "a row past the 512th was written"
    );
    println!(rt; "Row 513 is as the caller had it")?;
    Ok(())
}

// The longest lists on a page and in a table.
fn run_lists(rt: &HostRuntime) -> anyhow::Result<()> {
    let mut page = FULL_LINE.to_vec(rt.alloc())?;
    println!(rt; "Lists on a page")?;
    let mut on_page = PageBook::open(page.as_mut_slice());
    try_lists(rt, &mut on_page)?;
    println!(rt; "Lists in a table")?;
    let mut materials = [MaterialRow::PLAIN; 8];
    let mut units = [UnitRow::FREE; 1];
    let mut in_table = TableBook::open(&mut materials, &mut units);
    say(
        rt,
        "eight inputs and eight outputs",
        in_table.fit(1, lists(&EIGHT, &EIGHT)),
    )?;
    try_lists(rt, &mut in_table)
}

// A book over bytes that are no page, and memory of the length of a page and one byte less.
fn run_pages(rt: &HostRuntime) -> anyhow::Result<()> {
    println!(rt; "A book over bytes that are no page")?;
    let mut bytes = [b'x'; 20];
    let mut empty = PageBook::open(&mut bytes);
    try_numbers(rt, &mut empty, 1, 1)?;
    let mut memory = [0u8; 154];
    let refused = write_out(&mut empty, &mut memory).is_err();
    let mut page = FULL_LINE.to_vec(rt.alloc())?;
    let mut book = PageBook::open(page.as_mut_slice());
    let exact = write_out(&mut book, &mut memory).is_ok();
    let short = write_out(&mut book, &mut [0u8; 153]).is_err();
    println!(rt;
        "Writing out: empty book refused {refused}, exact memory enough {exact}, one byte less refused {short}"
    )?;
    Ok(())
}

fn main(rt: HostRuntime) -> anyhow::Result<()> {
    run_large(&rt)?;
    run_none(&rt)?;
    run_beyond(&rt)?;
    run_lists(&rt)?;
    run_pages(&rt)
}
