// What came of an edit, in words, and the small farm made by edits.
#![tactic(auto)]

ghost use Rattle.std.specs.Prelude.{◌≡◌, IfOk, OnOk, is_ok};
ghost use Rattle.telling.specs.SmallFarm.{blank_farm, small_farm};

use book::{Class, EditableBook, Lists, Refusal};

// Tells what came of an edit, and answers whether it was done.
pub fn say(rt: &HostRuntime, edit: &str, answer: Result<(), Refusal>) -> anyhow::Result<bool>
    ensures { IfOk result (λ done. done ≡ is_ok answer) }
{
    match answer {
        Ok(()) => println!(rt; "  {edit}: done")?,
        Err(refusal) => println!(rt; "  {edit}: refused with {refusal}")?,
    }
    Ok(answer.is_ok())
}

// Tells what a call answered, in words of the caller, or with what it was refused.
pub fn tell_answer<T, F: FnOnce(T) -> anyhow::Result<()>>(
    rt: &HostRuntime,
    answer: Result<T, Refusal>,
    tell: F,
) -> anyhow::Result<()>
    requires { F.IsAlwaysCallable tell }
    ensures { IfOk answer (λ value. F.post tell value result) }
{
    match answer {
        Ok(value) => tell(value),
        Err(refusal) => {
            println!(rt; "  refused with {refusal}")?;
            Ok(())
        }
    }
}

// The lists of a unit that takes the inputs and makes the outputs.
pub fn lists<'a>(inputs: &'a [u16], outputs: &'a [u16]) -> Lists<'a>
    ensures takes { result.inputs.now ≡ inputs.now }
    ensures makes { result.outputs.now ≡ outputs.now }
{
    Lists { inputs, outputs }
}

// Makes the small farm in a book of four plain materials and two free numbers, and tells what came of each edit.
pub fn make_farm<B: EditableBook>(rt: &HostRuntime, book: &mut B) -> anyhow::Result<()>
    ensures made { OnOk result (B.Book.meaning book.old ≡ blank_farm → B.Book.meaning book.new ≡ small_farm) }
    ensures held { B.Book.kept book.old book.new }
{
    say(rt, "material 1 is wanted", book.class(1, Class::WANTED))?;
    say(rt, "material 2 is bought", book.class(2, Class::BOUGHT))?;
    say(
        rt,
        "fit at 1: takes 2, makes 1 and 3",
        book.fit(1, lists(&[2], &[1, 3])),
    )?;
    say(
        rt,
        "fit at 2: takes 4, makes 1",
        book.fit(2, lists(&[4], &[1])),
    )?;
    Ok(())
}
