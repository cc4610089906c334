// The state of the street rules: an order of open nets by value, and the limits at a node.
#![tactic(auto)]

pub mod places;

ghost use Rattle.std.specs.Prelude.{◌≡◌, [], suc, ◌^◌, ◌≤◌, ◌<◌, length, get_or};
ghost use Rattle.rules.specs.Basic.{pick, put, cut};
ghost use Rattle.rules.specs.Row.{before};
ghost use Rattle.rules.specs.Street.{limits, blank_limits};
ghost use Rattle.street.specs.Order.{capacity};
ghost use Rattle.street.specs.Number.{Numbered};

use rules::Limit;
use std::marker::Model;

// The most nets that can be open: the tracks of two streets of three.
pub const CAPACITY: usize = 6;

// The cells of an order: as many bytes as one number has.
const CELLS: usize = 8;

// An order, which a contract sees as the list of the labels of the open nets, from top to bottom: they are counted, and the cells behind them are free.
// A struct by value with an array of labels and a count: the exact rules name this form. The drawer's open wires are no bytes, of which one number holds
// eight, so that they are a list of their own.
#[derive(Clone, Copy)]
pub struct Order {
    nets: [u8; CELLS],
    count: usize,
}

impl Model for Order {
    ghost use Rattle.std.specs.Prelude.{ℕ, List, length, take};
    ghost use Rattle.std.proofs.Common.{arith, sym, length-take-le};
    ghost use Rattle.street.specs.Order.{cells_with, Sound};

    ghost Value = { List ℕ };

    ghost view = { λ o. take o.count o.nets };

    ghost invariant = { λ o. Sound o.nets o.count };

    ghost inverse = { λ l. record { nets = cells_with l; count = length l } };

    ghost inverse_ok = { λ o h i. record {
      nets = sym h.free i;
      count = length-take-le o.count o.nets (omega (arith, h.long, h.few)) i;
    } };
}

impl Order {
    // No open nets.
    pub fn new() -> Order
        ensures { result ≡ [] }
    {
        Order {
            nets: [0u8; CELLS],
            count: 0,
        }
    }

    // The number of labels.
    pub fn len(self) -> usize
        ensures { result ≡ length self }
    {
        self.count
    }

    // The order with the label x behind k others. By its number, with no loop and no branch, here, in `remove` and in `label`: with `copy_within` routing takes 225
    // instructions a node and reading 71, over the limits of 210 and 60.
    pub fn insert(self, k: usize, x: u8) -> Order
        requires { (length self < capacity) × (k ≤ length self) }
        ensures { result ≡ put k x self }
    {
        let o = self.number();
        let unit = power(8 * k);
        let after = o % unit + (u64::from(x) + 256 * (o / unit)) * unit;
        Order {
            nets: after.to_le_bytes(),
            count: self.count + 1,
        }
    }

    // How many labels stand before the first x, which is open: it is in the last of the six cells that a label can have, where it is in none before.
    // All tests are made, whichever passes, so that none needs a branch.
    pub fn find(self, x: u8) -> usize
        requires { before x self < length self }
        ensures { result ≡ before x self }
    {
        let nets = self.nets;
        let fifth = nearer(nets[4] == x, 4, 5);
        let third = nearer(nets[2] == x, 2, nearer(nets[3] == x, 3, fifth));
        nearer(nets[0] == x, 0, nearer(nets[1] == x, 1, third))
    }

    // The order without the label behind k others.
    pub fn remove(self, k: usize) -> Order
        requires { k < length self }
        ensures { result ≡ cut k self }
    {
        let o = self.number();
        let unit = power(8 * k);
        let without = o % unit + o / 256 / unit * unit;
        Order {
            nets: without.to_le_bytes(),
            count: self.count - 1,
        }
    }

    // The label behind k others.
    pub fn label(self, k: usize) -> u8
        requires { k < length self }
        ensures { result ≡ get_or self k 0 }
    {
        (self.number() / power(8 * k) % 256) as u8
    }

    // The labels as one number, the first lowest.
    fn number(self) -> u64
        ensures { Numbered self result }
    {
        u64::from_le_bytes(self.nets)
    }
}

// Two to the n.
fn power(n: usize) -> u64
    requires { n < 64 }
    ensures { result ≡ 2 ^ n }
{
    1u64 << n
}

// Place i, where the label is there, and else the later place p.
#[tactic(auto, unfolding(rules::specs::Basic::pick))]
fn nearer(here: bool, i: usize, p: usize) -> usize
    ensures { result ≡ pick here i p }
{
    if here { i } else { p }
}

// Which of the three limits a wire with `above` wires over it, of b at the node, breaks, if any. Any two numbers of tracks serve, where `Streets` has at most three in each.
// The first two are those of a blank in its place, among the other wires.
#[tactic(auto, unfolding(rules::specs::Limits::limits, rules::specs::Limits::blank_limits, rules::specs::Basic::pick))]
pub fn street_limits(ku: u8, kl: u8, above: usize, b: usize) -> Option<Limit>
    requires { above < b }
    ensures { result ≡ limits ku kl (suc above) b }
{
    if let Some(limit) = blank_limits(ku, kl, above, b - 1) {
        return Some(limit);
    }
    if usize::from(ku) + usize::from(kl) < b {
        return Some(Limit::Sum);
    }
    None
}

// Which limit a blank with `above` of b wires over it breaks, of the two streets, if any; where neither, b ≤ Ku + Kl follows.
#[tactic(auto, unfolding(rules::specs::Limits::blank_limits, rules::specs::Basic::pick))]
pub fn blank_limits(ku: u8, kl: u8, above: usize, b: usize) -> Option<Limit>
    requires { above ≤ b }
    ensures { result ≡ blank_limits ku kl above b }
{
    if usize::from(ku) < above {
        return Some(Limit::Upper);
    }
    if usize::from(kl) < b - above {
        return Some(Limit::Lower);
    }
    None
}
