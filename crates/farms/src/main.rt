// Worked farms, drawn. What each should print was worked out by hand.
#![tactic(auto)]

mod borders;
mod drawings;
mod reading;

use borders::draw_borders;
use drawings::tell_drawing;
use reading::{fill, unit_count};
use table::{MaterialRow, TableBook, UnitRow};

// Makes the farm in a table and tells what its drawing is. Each letter is a material's, as on a page; each unit is what
// it takes, `>`, what it makes, and `;`.
fn show(rt: &HostRuntime, title: &str, letters: &str, units: &str) -> anyhow::Result<()> {
    println!(rt; "{title}")?;
    let mut material_rows = vec![in rt.alloc(); MaterialRow::PLAIN; letters.len()]?;
    let mut unit_rows = vec![in rt.alloc(); UnitRow::FREE; unit_count(units)]?;
    let mut book = TableBook::open(material_rows.as_mut_slice(), unit_rows.as_mut_slice());
    fill(rt, &mut book, letters, units)?;
    tell_drawing(rt, &mut book)
}

fn main(rt: HostRuntime) -> anyhow::Result<()> {
    show(&rt, "The small farm", "PR--", "2>1 3;4>1;")?;
    show(&rt, "The small farm, 3 wanted too", "PRP-", "2>1 3;4>1;")?;
    show(
        &rt,
        "The small farm, 4 wanted in the place of 1",
        "-R-P",
        "2>1 3;4>1;",
    )?;
    show(&rt, "A unit that takes what it makes", "PR", "1>1;")?;
    show(&rt, "A unit that takes nothing", "PR", ">1;")?;
    show(&rt, "A unit that makes nothing", "PR", "1>;")?;
    show(&rt, "The only unit makes what is bought", "PRR", "3>1 2;")?;
    show(
        &rt,
        "A second unit makes what is bought",
        "PR-",
        "2>1 3;3>2;",
    )?;
    show(&rt, "Starved one after the other", "PR--", "2>1;3>4;4>1;")?;
    show(&rt, "Two equal units", "PR", "2>1;2>1;")?;
    show(
        &rt,
        "Eleven units",
        "-P---R-R----R--R--",
        "3 4 6>1;4>2 7;5>2 17;6 7>3 4;7 8>4;8 9>5;10 11>5;13>7;14 15>8;16 17>9;18>10;",
    )?;
    show(
        &rt,
        "Twenty units",
        "RRRRRRRRRP----------------------",
        "1 2 3>11;2 3 4 6>12;2 3 15>13;2 3 15>14;5>15;13>16 17;14>16 18;6 11>19 20 21;6 12>20 21 22;7 20>23;15 21>24;4 19>25;24>23 26;27>23 26;8 23>15 28;9 23>15 29;6 17>30 31;6 15 18>30 31;6 15 16>22 27 32;26>10;",
    )?;
    draw_borders(&rt)
}
