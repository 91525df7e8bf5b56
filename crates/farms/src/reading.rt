// Farms from short texts.
use anyhow::Context;
use book::{Class, EditableBook, Refusal};
use page::letters::Lettered;
use std::alloc::Global;
use telling::lists;

// Says what a farm's text asked for and did not get.
fn told(rt: &HostRuntime, number: u16, answer: Result<(), Refusal>) -> anyhow::Result<()> {
    if let Err(refusal) = answer {
        println!(rt; "  {number} was refused with {refusal}")?;
    }
    Ok(())
}

// Classes the materials by their letters.
fn class_all<B: EditableBook>(rt: &HostRuntime, book: &mut B, letters: &str) -> anyhow::Result<()> {
    for (material, letter) in (1..=u16::MAX).zip(letters.bytes()) {
        let class = Class::of_letter(letter).unwrap_or(Class::PLAIN);
        told(rt, material, book.class(material, class))?;
    }
    Ok(())
}

// The numbers of a text, with spaces between them.
fn numbers(heap: Global, text: &str) -> anyhow::Result<Vec<u16>> {
    let mut numbers = Vec::new(heap);
    for word in text.split_whitespace() {
        numbers.push(word.parse::<u16>()?)?;
    }
    Ok(numbers)
}

// Fits one unit after another.
fn fit_all<B: EditableBook>(rt: &HostRuntime, book: &mut B, units: &str) -> anyhow::Result<()> {
    for (unit, text) in (1..=u16::MAX).zip(units.split_terminator(';')) {
        let (takes, makes) = text
            .split_once('>')
            .context("a unit is what it takes, `>`, and what it makes")?;
        let takes = numbers(rt.alloc(), takes)?;
        let makes = numbers(rt.alloc(), makes)?;
        let answer = book.fit(unit, lists(takes.as_slice(), makes.as_slice()));
        told(rt, unit, answer)?;
    }
    Ok(())
}

// How many units the text has.
pub(crate) fn unit_count(units: &str) -> usize {
    units.split_terminator(';').count()
}

// Makes the farm that the texts say.
pub(crate) fn fill<B: EditableBook>(
    rt: &HostRuntime,
    book: &mut B,
    letters: &str,
    units: &str,
) -> anyhow::Result<()> {
    class_all(rt, book, letters)?;
    fit_all(rt, book, units)
}
