// Flags, one for each number.
ghost use Rattle.std.specs.Prelude.{false};
ghost use Rattle.drawing.specs.Flags.{Flags};

use book::MOST_NUMBERS;

// Places for numbers 0 to 1,024, of which 0 is nobody's.
pub const NUMBERS: usize = MOST_NUMBERS + 1;

// Flags of which none is set.
pub(crate) fn no_flags() -> [bool; NUMBERS]
    ensures { Flags result (λ _. false) }
{
    [false; NUMBERS]
}
