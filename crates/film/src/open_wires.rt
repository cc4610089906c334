// The open wires: of each its net, its level and the column where its present run began.
ghost use Rattle.std.specs.Prelude.{◌≡◌, true, [], ◌≤◌, ◌<◌, length, set};
ghost use Rattle.rules.specs.Basic.{put, cut};
ghost use Rattle.rules.specs.Film.{bent};
ghost use Rattle.street.specs.Order.{capacity};
ghost use Rattle.slots.specs.Stamps.{columns};
ghost use Rattle.film.specs.Wires.{missing, wire_at};

use slots::levels::{Level, level_of_pins};
use std::marker::Model;
use street::CAPACITY;

// An open wire. Contracts see it as the wire of which the film's definition speaks.
#[derive(Clone, Copy)]
pub struct Wire {
    pub net: u8,
    pub level: Level,
    pub start: u16,
}

impl Model for Wire {
    ghost use Rattle.std.specs.Prelude.{◌<◌};
    ghost use Rattle.rules.specs.Film.{Wire};
    ghost use Rattle.slots.specs.Stamps.{columns};

    ghost Value = { Wire };

    ghost view = { λ a. record { net = a.net; height = a.level; since = a.start } };

    ghost invariant = { λ a. a.start < columns };

    ghost inverse = { λ w. record { net = w.net; level = w.height; start = w.since } };
}

// The open wires, which a contract sees as their list, from top to bottom. They are counted, and the cells behind them are free; an `ArrayVec` has no copy.
#[derive(Clone, Copy)]
pub struct Wires {
    cells: [Wire; CAPACITY],
    count: usize,
}

impl Model for Wires {
    ghost use Rattle.std.specs.Prelude.{◌≡◌, List, ◌≤◌, length, take};
    ghost use Rattle.std.proofs.Common.{arith, sym, length-take-le};
    ghost use Rattle.rules.specs.Film.{Wire};
    ghost use Rattle.film.specs.Wires.{cells_with, Sound};

    ghost Value = { List Wire };

    ghost view = { λ a. take a.count a.cells };

    ghost invariant = { λ a. Sound a.cells a.count };

    ghost inverse = { λ l. record { cells = cells_with l; count = length l } };

    ghost inverse_ok = { λ a h i. record {
      cells = sym h.free i;
      count = length-take-le a.count a.cells (omega (arith, h.long, h.few)) i;
    } };
}

impl Wires {
    // No open wires.
    pub fn new() -> Wires
        ensures { result ≡ [] }
    {
        Wires {
            cells: [free(); CAPACITY],
            count: 0,
        }
    }

    // The wires, from top to bottom.
    pub fn as_slice(&self) -> &[Wire]
        ensures { result.now ≡ self.now }
    {
        &self.cells[..self.count]
    }

    // Their number.
    pub fn len(&self) -> usize
        ensures { result ≡ length self.now }
    {
        self.as_slice().len()
    }

    // The wire behind k others.
    pub fn at(&self, k: usize) -> Wire
        requires { k < length self.now }
        ensures { result ≡ wire_at self.now k }
    {
        let wires = self.as_slice();
        wires[k]
    }

    // Puts one more wire in behind k others.
    pub fn insert(&mut self, k: usize, wire: Wire)
        requires { (length self.old < capacity) × (k ≤ length self.old) }
        ensures { self.new ≡ put k wire self.old }
    {
        self.cells.copy_within(k..self.count, k + 1);
        self.cells[k] = wire;
        self.count += 1;
    }

    // Takes out the wire behind k others.
    pub fn remove(&mut self, k: usize)
        requires { k < length self.old }
        ensures { self.new ≡ cut k self.old }
    {
        self.cells.copy_within(k + 1..self.count, k);
        self.count -= 1;
        self.cells[self.count] = free();
    }

    // Puts the wire behind k others on another level, where its run begins.
    pub fn bend(&mut self, k: usize, level: Level, start: u16)
        requires { (k < length self.old) × (start < columns) }
        ensures { self.new ≡ set self.old k (bent true level start (wire_at self.old k)) }
    {
        let net = self.at(k).net;
        self.cells[k] = Wire { net, level, start };
    }
}

// What a free cell holds.
fn free() -> Wire
    ensures { result ≡ missing }
{
    Wire {
        net: 0,
        level: level_of_pins(),
        start: 0,
    }
}
