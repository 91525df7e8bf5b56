// Numbers of materials and units, which count from 1, and the borders of a book.
ghost use Rattle.std.specs.Prelude.{◌≡◌, ◌-◌};
ghost use Rattle.book.specs.Asked.{where_inside};

// The most materials, and the most unit numbers, that a book has.
pub const MOST_NUMBERS: usize = 1024;

// The most entries that a list of a unit has.
pub const MOST_ENTRIES: usize = 8;

// The place, from 0, of a number from 1 to the count; absence for any other number.
pub fn place_of(number: u16, count: u16) -> Option<usize>
    ensures { result ≡ where_inside number count (number - 1) }
{
    (1..=count)
        .contains(&number)
        .then(|| usize::from(number) - 1)
}
