// The same edits on a page book and on a table book, chosen by a fixed generator: every answer, every question and every
// page that is written out has to be the same. Ends with an error where one is not.
#![tactic(auto)]

mod choice;
mod compare;
mod generator;

use anyhow::{Context, ensure};
use book::{EditableBook, Refusal};
use choice::Edit;
use compare::Twins;
use generator::Generator;
use pagebook::PageBook;
use samples::BLANK_FARM;
use table::{MaterialRow, TableBook, UnitRow};

// The answers that an edit can meet.
const ANSWERS: [Result<(), Refusal>; 6] = [
    Ok(()),
    Err(Refusal::OutOfRange),
    Err(Refusal::BadList),
    Err(Refusal::NotFree),
    Err(Refusal::NotStanding),
    Err(Refusal::NotWithheld),
];

// So many edits on both books, and whether they met every answer.
fn run<A: EditableBook, B: EditableBook>(
    books: &mut Twins<A, B>,
    turns: u32,
) -> anyhow::Result<bool> {
    let mut generator = Generator::new();
    let mut met = [false; ANSWERS.len()];
    for _ in 0..turns {
        let edit = Edit::choose(&mut generator);
        let answer = books.edit(&edit).context("an edit was answered otherwise")?;
        ensure!(books.same_answers(), "a question was answered otherwise");
        ensure!(books.same_pages(), "a page was written otherwise");
        for (met, one) in met.iter_mut().zip(&ANSWERS) {
            *met = *met || *one == answer;
        }
    }
    Ok(met.iter().all(|met| *met))
}

fn main(rt: HostRuntime) -> anyhow::Result<()> {
    let mut page = BLANK_FARM.to_vec(rt.alloc())?;
    let mut materials = [MaterialRow::PLAIN; 6];
    let mut units = [UnitRow::FREE; 5];
    let mut books = Twins {
        first: PageBook::open(page.as_mut_slice()),
        second: TableBook::open(&mut materials, &mut units),
    };
    ensure!(
        run(&mut books, 5000)?,
        "the edits did not meet every answer"
    );
    println!(rt;
        "5000 edits on a page and in a table: every answer, every question and every page alike"
    )?;
    Ok(())
}
