// The longest page: 512 plain materials and 512 free numbers.
ghost use Rattle.std.specs.Prelude.{◌≡◌, ◌+◌, IfOk, length, vec_len, OnOk};

use columns::write;
use std::alloc::{AllocError, Global};

// Adds a number in five columns.
fn push_number(page: &mut Vec<u8>, number: u16) -> Result<(), AllocError>
    ensures { OnOk result (vec_len page.new ≡ vec_len page.old + 5) }
{
    let mut field = [b' '; 5];
    write(&mut field, 5, u32::from(number)).unwrap();
    page.extend_from_slice(&field)
}

// Adds a line that has no letter: its number, and its other fields.
fn push_line(page: &mut Vec<u8>, number: u16, fields: &[u8]) -> Result<(), AllocError>
    ensures { OnOk result (vec_len page.new ≡ vec_len page.old + 7 + length fields.now) }
{
    page.push(b'-')?;
    push_number(page, number)?;
    page.extend_from_slice(fields)?;
    page.push(b'\n')?;
    Ok(())
}

pub(crate) fn largest_page(heap: Global) -> Result<Vec<u8>, AllocError>
    ensures { IfOk result (λ v. vec_len v ≡ 48139) }
{
    let mut page = Vec::new(heap);
    push_number(&mut page, 512)?;
    push_number(&mut page, 512)?;
    page.push(b'\n')?;
    for material in 1..=512 {
        push_line(&mut page, material, b"")?;
    }
    for unit in 1..=512 {
        push_line(&mut page, unit, &[b' '; 80])?;
    }
    Ok(page)
}
