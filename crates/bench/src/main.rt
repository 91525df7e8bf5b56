// Draws one made-up book so many times, for counting what a draw costs: bench KIND UNITS TIMES.
#![tactic(auto)]

mod books;
mod kind;

use anyhow::{anyhow, bail};
use drawing::draw;
use kind::Kind;
use sheet::Sheet;
use std::env;
use table::{MaterialRow, TableBook, UnitRow};

fn run(rt: &HostRuntime, kind: &str, units: u16, times: u16) -> anyhow::Result<()> {
    let mut material_rows = vec![in rt.alloc(); MaterialRow::PLAIN; 512]?;
    let mut unit_rows = vec![in rt.alloc(); UnitRow::FREE; units as usize]?;
    let mut book = TableBook::open(material_rows.as_mut_slice(), unit_rows.as_mut_slice());
    // The kind is read last of the three words, so that a number that is none is told first.
    let kind = kind.parse::<Kind>()?;
    // Said alone: by what the book was refused is not told.
    kind.make(&mut book, units)
        .map_err(|_| anyhow!("the book could not be made"))?;
    let mut drawn = 0u32;
    let mut refused = 0u32;
    for _ in 0..times {
        match draw(&mut book, Sheet::new()) {
            Ok(sheet) => drawn = drawn.saturating_add(sheet.units_drawn() as u32),
            Err(_) => refused = refused.saturating_add(1),
        }
    }
    println!(rt; "{kind} {units}: {drawn} units drawn and {refused} refusals in {times} draws")?;
    Ok(())
}

fn main(rt: HostRuntime) -> anyhow::Result<()> {
    let mut words = env::args(&rt)?;
    let _ = words.next();
    let (Some(kind), Some(units), Some(times)) = (words.next(), words.next(), words.next()) else {
        bail!("three words are wanted: the kind, how many units, how many times");
    };
    run(
        &rt,
        kind.as_str(),
        units.as_str().parse::<u16>()?,
        times.as_str().parse::<u16>()?,
    )
}
