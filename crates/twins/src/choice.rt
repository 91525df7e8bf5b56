// An edit chosen by the generator, often one that has to be refused.
use crate::generator::Generator;
use book::{Class, EditableBook, Refusal};
use samples::front;
use telling::lists;

// A list to fit a unit with: so many of the entries. No vector, since a choice can then run out of memory.
#[derive(Clone, Copy)]
pub struct ListChoice {
    entries: [u16; 9],
    count: usize,
}

#[derive(Clone, Copy)]
pub enum Edit {
    Fit {
        unit: u16,
        inputs: ListChoice,
        outputs: ListChoice,
    },
    Class(u16, Class),
    Hide(u16),
    Show(u16),
    Clear(u16),
}

// A list of up to nine entries, each a little above the one before it, or equal to it.
fn chosen_list(generator: &mut Generator) -> ListChoice {
    let mut entries = [0u16; 9];
    let mut last = 0u16;
    for entry in entries.iter_mut() {
        last = last.saturating_add((generator.next() % 9 + 3) / 4);
        *entry = last;
    }
    let most = if generator.next() % 16 == 0 { 10 } else { 4 };
    let count = usize::from(generator.next() % most);
    ListChoice { entries, count }
}

impl ListChoice {
    fn as_slice(&self) -> &[u16] {
        front(&self.entries, self.count)
    }
}

impl Edit {
    pub(crate) fn choose(generator: &mut Generator) -> Edit {
        let number = generator.next() % 8;
        match generator.next() % 6 {
            0 | 1 => Edit::Fit {
                unit: number,
                inputs: chosen_list(generator),
                outputs: chosen_list(generator),
            },
            2 => Edit::Class(
                number,
                Class {
                    wanted: generator.next() % 2 == 0,
                    bought: generator.next() % 2 == 0,
                },
            ),
            3 => Edit::Hide(number),
            4 => Edit::Show(number),
            _ => Edit::Clear(number),
        }
    }

    // The edit, made on a book.
    pub(crate) fn apply<B: EditableBook>(&self, book: &mut B) -> Result<(), Refusal> {
        match self {
            Edit::Fit {
                unit,
                inputs,
                outputs,
            } => book.fit(*unit, lists(inputs.as_slice(), outputs.as_slice())),
            Edit::Class(material, class) => book.class(*material, *class),
            Edit::Hide(unit) => book.hide(*unit),
            Edit::Show(unit) => book.show(*unit),
            Edit::Clear(unit) => book.clear(*unit),
        }
    }
}
