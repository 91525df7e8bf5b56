// The reduction: which units can go on working, each fed by what is bought or by other such units.
ghost use Rattle.std.specs.Prelude.{◌≡◌, ℕ, ◌+◌, ◌<◌, ◌≤◌, [], ◌∷◌, length, Decides, nat_lt, slice_index};
ghost use Rattle.structure.specs.Problem.{Member, MadeIn};
ghost use Rattle.structure.specs.Supported.{Largest};
ghost use Rattle.queue.specs.Waiting.{waits, capacity};
ghost use Rattle.drawing.specs.Flags.{flagged};
ghost use Rattle.drawing.specs.Lists.{Placed};
ghost use Rattle.drawing.specs.Network.{taken_down};
ghost use Rattle.drawing.specs.Reduction.{Among, times, zeros, Enlisted, Seeded, Reducing, Released};

use crate::flags::{NUMBERS, no_flags};
use crate::network::Network;
use queue::WaitingList;

// The units that can go on working, and how many entries of their outputs make each material.
#[derive(Drop)]
pub(crate) struct Reduced {
    pub(crate) live: [bool; NUMBERS],
    pub(crate) makers: [u16; NUMBERS],
    ghost live_long: { length live ≡ 1025 },
    ghost makers_long: { length makers ≡ 1025 },
}

// Is one of these bought?
fn any_bought(entries: &[u16], bought: &[bool; NUMBERS]) -> bool
    requires { Placed entries.now }
    ensures { Decides result ((x : ℕ) × Among x entries.now × Member (flagged bought.now) x) }
{
    // A loop: what is known of the entries is not known in a closure.
    for x in entries {
        if bought[*x as usize] {
            return true;
        }
    }
    false
}

// One more maker for each entry.
fn count_entries(entries: &[u16], makers: &mut [u16])
    requires placed { Placed entries.now }
    requires places { length makers.old ≡ 1025 }
    requires few { length entries.now ≤ 8 }
    requires low { (x : ℕ) → slice_index makers.old x ≤ 8200 }
    ensures { (x : ℕ) → slice_index makers.new x ≡ slice_index makers.old x + times x entries.now }
{
    for x in entries {
        makers[*x as usize] += 1;
    }
}

// Makes a unit live if it stands and makes nothing bought.
fn enlist_unit(network: &Network, unit: usize, reduced: &mut Reduced)
    requires known { unit < 1025 }
    requires before { Enlisted (taken_down network.now) reduced.old.live reduced.old.makers unit }
    ensures { Enlisted (taken_down network.now) reduced.new.live reduced.new.makers (unit + 1) }
{
    let outputs = network.outputs.list(unit);
    if network.standing[unit] && !any_bought(outputs, &network.bought) {
        reduced.live[unit] = true;
        count_entries(outputs, &mut reduced.makers);
    }
}

// All standing units that make nothing bought.
fn enlist(network: &Network) -> Reduced
    ensures { Enlisted (taken_down network.now) result.live result.makers (network.now.units + 1) }
{
    let mut reduced = Reduced {
        live: no_flags(),
        makers: [0; NUMBERS],
    };
    for unit in 1..=network.units as usize {
        enlist_unit(network, unit, &mut reduced);
    }
    reduced
}

// A reduction under way: what is reduced so far, and the materials that wait to be taken up.
#[derive(Drop)]
struct Reduction<'a> {
    reduced: Reduced,
    waiting: WaitingList<'a, u16>,
    ghost places: { capacity waiting ≡ 1025 },
}

impl<'a> Reduction<'a> {
    // Lets a material wait if it is neither bought nor made.
    fn seed_material(&mut self, network: &Network, material: u16)
        requires some { 1 ≤ material }
        requires known { material ≤ network.now.materials }
        requires before { Seeded (taken_down network.now) self.old.reduced.makers (waits self.old.waiting) material }
        ensures after { Seeded (taken_down network.now) self.old.reduced.makers (waits self.new.waiting) (material + 1) }
        ensures same { self.new.reduced ≡ self.old.reduced }
    {
        if !network.bought[material as usize] && self.reduced.makers[material as usize] == 0 {
            self.waiting.push(material).unwrap();
        }
    }

    // Lets each material wait that is neither bought nor made.
    fn seed(&mut self, network: &Network)
        requires { waits self.old.waiting ≡ [] }
        ensures seeded { Seeded (taken_down network.now) self.old.reduced.makers (waits self.new.waiting) (network.now.materials + 1) }
        ensures same { self.new.reduced ≡ self.old.reduced }
    {
        for material in 1..=network.materials {
            self.seed_material(network, material);
        }
    }

    // One maker less for each entry; what has none left waits.
    fn release(&mut self, entries: &[u16])
        requires placed { Placed entries.now }
        requires room { length (waits self.old.waiting) ≤ zeros self.old.reduced.makers }
        requires counted { (x : ℕ) → times x entries.now ≤ slice_index self.old.reduced.makers x }
        ensures done { Released entries.now self.old.reduced.makers (waits self.old.waiting) self.new.reduced.makers (waits self.new.waiting) }
        ensures same { self.new.reduced.live ≡ self.old.reduced.live }
    {
        for x in entries {
            self.reduced.makers[*x as usize] -= 1;
            if self.reduced.makers[*x as usize] == 0 {
                self.waiting.push(*x).unwrap();
            }
        }
    }

    // Removes each live unit that takes a material which nobody makes.
    fn sweep(&mut self, network: &Network, material: u16)
        requires { Reducing (taken_down network.now) self.old.reduced.live self.old.reduced.makers (material ∷ waits self.old.waiting) }
        ensures after { Reducing (taken_down network.now) self.new.reduced.live self.new.reduced.makers (waits self.new.waiting) }
        ensures grown { length (waits self.new.waiting) + zeros self.old.reduced.makers ≤ length (waits self.old.waiting) + zeros self.new.reduced.makers }
    {
        for unit in network.inputs.units_with(material) {
            if self.reduced.live[unit] {
                self.reduced.live[unit] = false;
                self.release(network.outputs.list(unit));
            }
        }
    }

    // Takes up what waits until nothing does.
    fn drain(&mut self, network: &Network)
        requires { Reducing (taken_down network.now) self.old.reduced.live self.old.reduced.makers (waits self.old.waiting) }
        ensures { Reducing (taken_down network.now) self.new.reduced.live self.new.reduced.makers [] }
    {
        while let Some(material) = self.waiting.pop() {
            self.sweep(network, material);
        }
    }
}

// Leaves the largest supported set of units.
pub(crate) fn reduce(network: &Network) -> Reduced
    ensures largest { Largest (taken_down network.now) (flagged result.live) }
    ensures counted { (x : ℕ) → Decides (nat_lt 0 (slice_index result.makers x)) (MadeIn (taken_down network.now) (flagged result.live) x) }
{
    let mut places = [0; NUMBERS];
    let mut reduction = Reduction {
        reduced: enlist(network),
        waiting: WaitingList::new(&mut places),
    };
    reduction.seed(network);
    reduction.drain(network);
    reduction.reduced
}
