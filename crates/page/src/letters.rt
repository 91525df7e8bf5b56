// The letters that begin a page's lines, and what each stands for.
ghost use Rattle.std.specs.Prelude.{◌≡◌, ℕ};
ghost use Rattle.page.specs.Format.{class_letter};
ghost use Rattle.page.specs.Letters.{letter_of_state, StandsFor};

use book::{Class, State};

// What a line's first letter can stand for.
pub trait Lettered {
    // The letter of each value.
    ghost written: { Self → ℕ };

    // The letter of the value.
    fn letter(self) -> u8
        ensures { result ≡ written self };

    // The value whose letter this is; absence where it is the letter of none.
    fn of_letter(letter: u8) -> Option<Self>
        ensures { StandsFor written letter result };
}

impl Lettered for Class {
    ghost written = { λ c. class_letter c.wanted c.bought };

    fn letter(self) -> u8 {
        match (self.wanted, self.bought) {
            (false, false) => b'-',
            (true, false) => b'P',
            (false, true) => b'R',
            (true, true) => b'B',
        }
    }

    fn of_letter(letter: u8) -> Option<Class> {
        match letter {
            b'-' => Some(Class::PLAIN),
            b'P' => Some(Class::WANTED),
            b'R' => Some(Class::BOUGHT),
            b'B' => Some(Class::BOTH),
            _ => None,
        }
    }
}

impl Lettered for State {
    ghost written = { letter_of_state };

    fn letter(self) -> u8 {
        match self {
            State::Free => b'-',
            State::Standing => b'S',
            State::Withheld => b'W',
        }
    }

    fn of_letter(letter: u8) -> Option<State> {
        match letter {
            b'-' => Some(State::Free),
            b'S' => Some(State::Standing),
            b'W' => Some(State::Withheld),
            _ => None,
        }
    }
}
