// Numbers that look chosen at random, and are the same at every run.
ghost use Rattle.std.specs.Prelude.{◌<◌};

#[derive(Drop)]
pub struct Generator {
    state: u32,
}

impl Generator {
    pub(crate) fn new() -> Self {
        Generator {
            state: 2_463_534_242,
        }
    }

    // A number from 0 to 999.
    pub(crate) fn next(&mut self) -> u16
        ensures { result < 1000 }
    {
        self.state = self
            .state
            .wrapping_mul(1_664_525)
            .wrapping_add(1_013_904_223);
        (self.state / 65_536 % 1000) as u16
    }
}
