// Which live units lead to a wanted material, and by how many units: breadth first, against the arcs.
ghost use Rattle.std.specs.Prelude.{◌≡◌, ◌+◌, ◌≤◌, [], ◌∷◌, length, true, false};
ghost use Rattle.book.specs.Layers.{names};
ghost use Rattle.structure.specs.Problem.{Member};
ghost use Rattle.queue.specs.Waiting.{waits, capacity};
ghost use Rattle.drawing.specs.Flags.{Flags, flagged};
ghost use Rattle.drawing.specs.Lists.{Placed};
ghost use Rattle.drawing.specs.Network.{taken_down};
ghost use Rattle.drawing.specs.Composition.{Composed, Asked, Spreading, asked_for};

use crate::flags::{NUMBERS, no_flags};
use crate::network::Network;
use queue::WaitingList;

// A material that is needed, and the rank of the units that make it for that need.
#[derive(Clone, Copy)]
pub(crate) struct Need {
    material: u16,
    rank: u16,
}

// What was asked for, and what of it still waits.
#[derive(Drop)]
struct Needs<'a> {
    asked: [bool; NUMBERS],
    waiting: WaitingList<'a, Need>,
    ghost long: { length asked ≡ 1025 },
    ghost places: { capacity waiting ≡ 1025 },
    ghost asked_once: { length (waits waiting) ≤ asked_for asked },
}

impl<'a> Needs<'a> {
    // Nothing was asked for yet.
    fn new(places: &'a mut [Need; NUMBERS]) -> Self
        ensures asked { Flags result.asked (λ _. false) }
        ensures waiting { waits result.waiting ≡ [] }
    {
        Needs {
            asked: no_flags(),
            waiting: WaitingList::new(places),
        }
    }

    // Asks for a material: it waits with this rank, unless it was asked for before.
    fn ask(&mut self, material: u16, rank: u16)
        requires { material ≤ 1024 }
        ensures { Asked (λ x. x ≡ material) rank self.old.asked (waits self.old.waiting) self.new.asked (waits self.new.waiting) }
    {
        if !self.asked[material as usize] {
            self.asked[material as usize] = true;
            self.waiting.push(Need { material, rank }).unwrap();
        }
    }

    // Asks for each wanted material, for units of rank 1.
    fn ask_wanted(&mut self, network: &Network)
        ensures { Asked (Member (taken_down network.now).wanted) 1 self.old.asked (waits self.old.waiting) self.new.asked (waits self.new.waiting) }
    {
        for x in 1..=network.materials {
            if network.wanted[x as usize] {
                self.ask(x, 1);
            }
        }
    }

    // Asks for each material of a list, for units of this rank.
    fn ask_each(&mut self, materials: &[u16], rank: u16)
        requires { Placed materials.now }
        ensures { Asked (λ x. names x materials.now ≡ true) rank self.old.asked (waits self.old.waiting) self.new.asked (waits self.new.waiting) }
    {
        for x in materials {
            self.ask(*x, rank);
        }
    }
}

// Gives the rank of a need to each live unit that makes its material and has none, and asks for what that unit takes. The
// network and what is live stand apart from what changes, so that nothing has to promise that they stay.
fn rank_makers(
    network: &Network,
    live: &[bool; NUMBERS],
    need: Need,
    ranks: &mut [u16; NUMBERS],
    needs: &mut Needs,
)
    requires spreading { Spreading (taken_down network.now) (flagged live.now) needs.old.asked ranks.old (need ∷ waits needs.old.waiting) need.rank }
    requires room { need.rank + length (waits needs.old.waiting) ≤ 1 + asked_for needs.old.asked }
    ensures spreading { Spreading (taken_down network.now) (flagged live.now) needs.new.asked ranks.new (waits needs.new.waiting) need.rank }
    ensures equally { length (waits needs.new.waiting) + asked_for needs.old.asked ≡ length (waits needs.old.waiting) + asked_for needs.new.asked }
{
    for unit in network.outputs.units_with(need.material) {
        if live[unit] && ranks[unit] == 0 {
            ranks[unit] = need.rank;
            needs.ask_each(network.inputs.list(unit), need.rank + 1);
        }
    }
}

// Meets the needs in the order in which they wait, until none does.
fn spread(network: &Network, live: &[bool; NUMBERS], ranks: &mut [u16; NUMBERS], needs: &mut Needs)
    requires { Spreading (taken_down network.now) (flagged live.now) needs.old.asked ranks.old (waits needs.old.waiting) 1 }
    ensures { Composed (taken_down network.now) (flagged live.now) ranks.new }
{
    while let Some(need) = needs.waiting.pop() {
        rank_makers(network, live, need, ranks, needs);
    }
}

// The rank of each live unit from which a path through live units leads to a wanted material; 0 for every other number, as
// a sheet has it.
pub(crate) fn compose(network: &Network, live: &[bool; NUMBERS]) -> [u16; NUMBERS]
    ensures { Composed (taken_down network.now) (flagged live.now) result }
{
    let mut ranks = [0; NUMBERS];
    let mut places = [Need {
        material: 0,
        rank: 0,
    }; NUMBERS];
    let mut needs = Needs::new(&mut places);
    needs.ask_wanted(network);
    spread(network, live, &mut ranks, &mut needs);
    ranks
}
