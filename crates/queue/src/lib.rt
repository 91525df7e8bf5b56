// The waiting list: first in, first out, in a ring of places that the caller lends.
#![tactic(auto)]

ghost use Rattle.std.specs.Prelude.{◌-◌, ◌≤◌, length};

mod ring;

// Entries that wait, and the places that they wait at.
#[derive(Drop)]
pub struct WaitingList<'a, T: Copy> {
    places: &'a mut [T],
    // The place of the oldest entry, or of the next one while nothing waits; 0 where there are no places.
    head: usize,
    // How many wait.
    count: usize,
    ghost head_within: { head ≤ length places.now - 1 },
    ghost count_within: { count ≤ length places.now },
}
