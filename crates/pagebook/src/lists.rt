// The list that stands in the fields of one of a unit's lists.
ghost use Rattle.std.specs.Prelude.{◌≡◌, ◌-◌, length, slice_index};
ghost use Rattle.book.specs.Asked.{where_inside};
ghost use Rattle.page.specs.Layout.{list_width};
ghost use Rattle.pagebook.specs.Reading.{list_in};

use crate::counts::within;
use crate::fields::{number_at, number_in};
use page::layout::{LIST_FIELDS, NUMBER};

// How many entries the list has: as many of its fields as hold materials in ascending order.
pub(crate) fn list_length(list: &[u8], highest: u16) -> u16
    requires { length list.now ≡ list_width }
    ensures { result ≡ length (list_in highest list.now) }
{
    let mut last = 0;
    for (place, field) in list.chunks_exact(NUMBER).enumerate() {
        let number = number_in(field);
        if number <= last || number > highest as u32 {
            return place as u16;
        }
        last = number;
    }
    LIST_FIELDS as u16
}

// The entry of the list at a place, from 1.
pub(crate) fn list_entry(list: &[u8], highest: u16, place: u16) -> Option<u16>
    requires { length list.now ≡ list_width }
    ensures { result ≡ where_inside place (length (list_in highest list.now)) (slice_index (list_in highest list.now) (place - 1)) }
{
    if !within(place, list_length(list, highest)) {
        return None;
    }
    Some(number_at(list, NUMBER * (place as usize - 1)) as u16)
}
