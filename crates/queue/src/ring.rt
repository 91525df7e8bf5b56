// What a waiting list does.
ghost use Rattle.std.specs.Prelude.{◌≡◌, ◌+◌, ◌%◌, ◌<◌, ◌≤◌, [], length};
ghost use Rattle.queue.specs.Waiting.{waits, memory, first_place, Pushed, Popped, Room};

use crate::WaitingList;
use book::Refusal;

// The place so many places on from another, round the end.
// A sum that goes past the end is not formed, since it may be too large.
fn round(place: usize, on: usize, end: usize) -> usize
    requires there { place < end }
    requires once_round { on ≤ end }
    ensures { result ≡ (place + on) % end }
{
    if on < end - place {
        place + on
    } else {
        on - (end - place)
    }
}

impl<'a, T: Copy> WaitingList<'a, T> {
    // A list over these places, at which nothing waits yet. What the places hold stays until entries are added.
    pub fn new(places: &'a mut [T]) -> Self
        ensures empty { waits result ≡ [] }
        ensures memory { memory result ≡ places.old }
        ensures start { first_place result ≡ 0 }
        ensures there { result.places.ghost_name ≡ places.entry.ghost_name }
    {
        WaitingList {
            places,
            head: 0,
            count: 0,
        }
    }

    // How many wait.
    pub fn len(&self) -> usize
        ensures { result ≡ length (waits self.now) }
    {
        self.count
    }

    // Adds an entry behind all that wait. Refused exactly while as many wait as there are places, so always where there
    // are none.
    pub fn push(&mut self, entry: T) -> Result<(), Refusal>
        ensures told { Pushed self.old self.new entry result }
        ensures room { Room self.old self.new }
        ensures there { self.new.places.ghost_name ≡ self.old.places.ghost_name }
    {
        let end = self.places.len();
        if self.count >= end {
            return Err(Refusal::MemoryTooShort);
        }
        let free = round(self.head, self.count, end);
        self.places[free] = entry;
        self.count += 1;
        Ok(())
    }

    // Takes out the entry that has waited longest; its place can be used again.
    pub fn pop(&mut self) -> Option<T>
        ensures told { Popped self.old self.new result }
        ensures room { Room self.old self.new }
        ensures there { self.new.places.ghost_name ≡ self.old.places.ghost_name }
    {
        if self.count == 0 {
            return None;
        }
        let oldest = self.places[self.head];
        self.head = round(self.head, 1, self.places.len());
        self.count -= 1;
        Some(oldest)
    }
}
