// Good and damaged pages through the check, each with the answer that was worked out by hand from the page's rules.
// Ends with an error at the first page that is answered otherwise.
#![tactic(auto)]

mod largest;
mod table;
mod trial;

use book::PageFault;
use largest::largest_page;
use samples::{FULL_LINE, SMALL_FARM, front};
use trial::Trial;

// Pages that can be read.
fn run_good(trial: &mut Trial) -> anyhow::Result<()> {
    trial.accepted("the small farm", SMALL_FARM, (4, 2))?;
    trial.accepted(
        "a unit with eight inputs and eight outputs",
        FULL_LINE,
        (8, 1),
    )
}

// Pages of the tables.
fn run_damaged(trial: &mut Trial) -> anyhow::Result<()> {
    trial.damaged(SMALL_FARM, &table::FIRST_LINE)?;
    trial.damaged(SMALL_FARM, &table::MATERIALS)?;
    trial.damaged(SMALL_FARM, &table::UNITS)?;
    trial.damaged(SMALL_FARM, &table::LISTS)?;
    trial.damaged(SMALL_FARM, &table::ENDS)?;
    trial.damaged(SMALL_FARM, &table::CUT)?;
    trial.damaged(FULL_LINE, &table::FULL_LISTS)?;
    trial.damaged(front(SMALL_FARM, 100), &table::WRONG_AND_CUT)
}

// The longest page there is, and the same with one byte more.
fn run_largest(trial: &mut Trial) -> anyhow::Result<()> {
    let mut page = largest_page(trial.rt.alloc())?;
    trial.accepted("the longest page", page.as_slice(), (512, 512))?;
    page.push(b'\n')?;
    let fault = PageFault {
        line: 1026,
        column: 0,
    };
    trial.refused("the longest page and a byte", page.as_slice(), fault)
}

fn main(rt: HostRuntime) -> anyhow::Result<()> {
    let mut trial = Trial { rt: &rt, count: 0 };
    run_good(&mut trial)?;
    run_damaged(&mut trial)?;
    run_largest(&mut trial)?;
    let count = trial.count;
    println!(rt; "{count} pages, each answered as worked out by hand")?;
    Ok(())
}
