// The open nets of a row while it is gone through: a net is found by its label at once.
ghost use Rattle.std.specs.Prelude.{◌≡◌, [], ◌∷◌, suc, ◌≤◌, ◌<◌, length};
ghost use Rattle.rules.specs.Basic.{cut};
ghost use Rattle.rules.specs.Row.{before};
ghost use Rattle.street.specs.Order.{capacity};
ghost use Rattle.script.specs.Open.{Lined, Closed};

use std::marker::Model;
use street::CAPACITY;

// Seen as the labels of the open nets, youngest first. The labels stand oldest first, and each knows how many are older. They stand in an array with a count, since
// `close` moves each younger label and renumbers it in one turn: after `remove` of an `ArrayVec` they would be gone through once more.
#[derive(Drop)]
pub struct OpenNets {
    labels: [u8; CAPACITY],
    elders: [u8; 256],
    count: usize,
}

impl Model for OpenNets {
    ghost use Rattle.std.specs.Prelude.{List, ℕ};
    ghost use Rattle.script.specs.Open.{lined, Lined};

    ghost Value = { List ℕ };

    ghost view = { λ nets. lined nets.labels nets.count };

    ghost invariant = { λ nets. Lined nets.labels nets.elders nets.count };
}

impl OpenNets {
    // No net is open.
    pub fn new() -> OpenNets
        ensures { result ≡ [] }
    {
        OpenNets {
            labels: [0; CAPACITY],
            elders: [0; 256],
            count: 0,
        }
    }

    // How many are open.
    pub fn count(&self) -> usize
        ensures all { result ≡ length self.now }
        ensures few { result ≤ capacity }
    {
        self.count
    }

    // How many are younger than the net with this label.
    pub fn age(&self, label: u8) -> u8
        requires { before label self.now < length self.now }
        ensures { result ≡ before label self.now }
    {
        let elders = usize::from(self.elders[usize::from(label)]);
        (self.count - 1 - elders) as u8
    }

    // Opens the net with this label.
    pub fn begin(&mut self, label: u8)
        requires room { length self.old < capacity }
        requires fresh { length self.old ≤ before label self.old }
        ensures { self.new ≡ label ∷ self.old }
    {
        self.labels[self.count] = label;
        self.elders[usize::from(label)] = self.count as u8;
        self.count += 1;
    }

    // Closes the net with this label.
    pub fn end(&mut self, label: u8)
        requires { before label self.old < length self.old }
        ensures { self.new ≡ cut (before label self.old) self.old }
    {
        let elders = usize::from(self.elders[usize::from(label)]);
        self.count -= 1;
        close(&mut self.labels, &mut self.elders, elders, self.count);
    }
}

// Takes the net with e elders out, which leaves b: the younger ones move up.
fn close(labels: &mut [u8; CAPACITY], elders: &mut [u8; 256], e: usize, b: usize)
    requires { Lined labels.old elders.old (suc b) × (e ≤ b) }
    ensures { Closed labels.old e b labels.new elders.new }
{
    // By index: k is a cell of one array, and what the other gets. After copy_within the labels would be gone through once more.
    for k in e..b {
        let label = labels[k + 1];
        labels[k] = label;
        elders[usize::from(label)] = k as u8;
    }
}
