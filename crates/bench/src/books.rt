// Books to count by.
use book::{Class, EditableBook, Lists, Refusal};

// Unit k takes material k + 1 and makes material k; units past the last of the chain are copies of that. Material 1 is
// wanted; what is bought feeds the chain from its far end, or is taken by nobody. The loop stands here, and a plainer one
// in the program of worked farms: shared, it would have to promise more than it does.
pub(crate) fn chain<B: EditableBook>(
    book: &mut B,
    units: u16,
    last: u16,
    bought: u16,
) -> Result<(), Refusal> {
    for unit in 1..=units {
        let link = unit.min(last);
        let lists = Lists {
            inputs: &[link.saturating_add(1)],
            outputs: &[link],
        };
        book.fit(unit, lists)?;
    }
    book.class(1, Class::WANTED)?;
    book.class(bought, Class::BOUGHT)
}

// Eight materials in a row.
fn eight(first: u16) -> [u16; 8] {
    let mut materials = [first; 8];
    for (place, material) in materials.iter_mut().zip(first..=u16::MAX) {
        *place = material;
    }
    materials
}

// Unit k makes the eight materials from k on and takes the eight after those; the last eight are bought.
pub(crate) fn dense<B: EditableBook>(book: &mut B, units: u16) -> Result<(), Refusal> {
    let steps = units.clamp(1, 488);
    for unit in 1..=units {
        let first = (unit - 1) % steps + 1;
        let lists = Lists {
            inputs: &eight(first.saturating_add(8)),
            outputs: &eight(first),
        };
        book.fit(unit, lists)?;
    }
    book.class(1, Class::WANTED)?;
    for material in steps + 8..steps + 16 {
        book.class(material, Class::BOUGHT)?;
    }
    Ok(())
}
