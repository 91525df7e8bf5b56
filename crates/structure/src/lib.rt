// The subject itself: solution-structures, the maximal structure, ranks, and what a drawing answers.
#![tactic(auto)]

ghost use Rattle.std.specs.Prelude.{◌≡◌, Some};
ghost use Rattle.structure.specs.Answers.{is_drawn, word_of};
ghost use Rattle.structure.specs.Farms.{WorkedFarms};
ghost use Rattle.structure.specs.Theory.{UnionIsLargest, CollectedSolves, LargestIsMaximal, AnswerIsSettled};

use std::fmt;

// What is known of a unit number or a material after a draw.
#[derive(Clone, Copy, PartialEq, Eq, Debug)]
pub enum Mark {
    // No draw has asked for it since it last changed.
    Unasked,
    // No workable plant can use it.
    Idle,
    // Some workable plant uses it.
    Drawn,
}

impl Mark {
    // Whether some workable plant uses it.
    pub fn is_drawn(self) -> bool
        ensures { result ≡ is_drawn self }
    {
        self == Mark::Drawn
    }
}

impl fmt::Display for Mark {
    ghost output = { λ mark. Some (word_of mark) };

    fn fmt<W: fmt::Write>(&self, f: &mut fmt::Formatter<W>) -> fmt::Result {
        f.write_str(match self {
            Mark::Unasked => "unasked",
            Mark::Idle => "idle",
            Mark::Drawn => "drawn",
        })
    }
}

// The union of all solution-structures is itself one, and the one that holds every other.
pub fn union_is_largest()
    ensures { UnionIsLargest }
{}

// What leads from a supported set to the wanted materials is a solution-structure.
pub fn collected_solves()
    ensures { CollectedSolves }
{}

// What leads from the largest supported set to the wanted materials is the maximal structure.
pub fn largest_is_maximal()
    ensures { LargestIsMaximal }
{}

// The answer of a draw leaves no choice, and says what the names of its promises say.
pub fn answer_is_settled()
    ensures { AnswerIsSettled }
{}

// The rules of a drawing give the results that were worked out by hand for seventeen farms.
pub fn worked_farms()
    ensures { WorkedFarms }
{}
