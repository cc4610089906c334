// A node that touches a net, forward: the ranks that are kept, a word of them at a time.
ghost use Rattle.std.specs.Prelude.{◌≡◌, suc, ◌*◌, ◌≤◌, ◌<◌, length};
ghost use Rattle.steps.specs.Masks.{Sifted, InSix};
ghost use Rattle.steps.specs.Nodes.{ToSpread};
ghost use Rattle.steps.specs.Leading.{Reached};
ghost use Rattle.steps.specs.Stops.{meeting};
ghost use Rattle.steps.specs.Sets.{stretch, slots, Bare, Exactly};

use crate::net::Net;
use crate::tables::{ALL, few_at, five_at, legal};
use crate::word::{put_word, word};

// Marks in gap g, which is empty, every rank before it that node g, which touches a net, leads to, and tells whether there is none.
pub fn touch(work: &mut [u8], g: usize, net: Net) -> bool
    requires given { ToSpread (meeting net) work.old g }
    requires behind { 0 < g }
    ensures exactly { Exactly work.old g (Reached (meeting net) work.old g) work.new }
    ensures bare { Bare work.new g result }
{
    // A function for each: they go over other slots, and the orders where the net has room are told otherwise in each; as one they would be these branches again.
    // Each asks for its count again, which says in what slots its words are.
    match net.count {
        0..=4 => touch_few(work, g, net),
        5 => touch_five(work, g, net),
        _ => touch_six(work, g, net),
    }
}

// At most four nets: one word.
fn touch_few(work: &mut [u8], g: usize, net: Net) -> bool
    requires given { ToSpread (meeting net) work.old g }
    requires behind { 0 < g }
    requires count { net.count < 5 }
    ensures exactly { Exactly work.old g (Reached (meeting net) work.old g) work.new }
    ensures bare { Bare work.new g result }
{
    let b = net.count as usize;
    let a = net.age as usize;
    let l = legal(net.streets, b);
    let m = few_at(b, a, l);
    sift(work, g, 0, m) == 0
}

// Five nets: a word for each place of the youngest, which has one, two or three above it.
fn touch_five(work: &mut [u8], g: usize, net: Net) -> bool
    requires given { ToSpread (meeting net) work.old g }
    requires behind { 0 < g }
    requires count { net.count ≡ 5 }
    ensures exactly { Exactly work.old g (Reached (meeting net) work.old g) work.new }
    ensures bare { Bare work.new g result }
{
    let a = net.age as usize;
    let l = legal(net.streets, 5);
    let mut any: u32 = 0;
    // By number: e is the place of the youngest, for which the orders are told, and names a slot.
    for e in 1..4 {
        let m = five_at(a, l, e);
        any |= sift(work, g, e, m);
    }
    any == 0
}

// Six nets: the youngest has two or three above it, and the net that is touched is the other of the two in the middle.
fn touch_six(work: &mut [u8], g: usize, net: Net) -> bool
    requires given { ToSpread (meeting net) work.old g }
    requires behind { 0 < g }
    requires count { net.count ≡ 6 }
    ensures exactly { Exactly work.old g (Reached (meeting net) work.old g) work.new }
    ensures bare { Bare work.new g result }
{
    if net.streets.upper + net.streets.lower < 6 {
        return true;
    }
    let a = net.age as usize;
    let mut any: u32 = 0;
    // By number, as in `touch_five`.
    for e in 1..4 {
        let m = six_at(a, e);
        any |= sift(work, g, 5 + e, m);
        any |= sift(work, g, 10 + e, m);
    }
    any == 0
}

// The orders of four older nets, with the youngest of six at one of the two places in the middle and the next at e of the others, in which the net of
// age a is there too: it is the youngest, or stands third without it.
fn six_at(a: usize, e: usize) -> u32
    requires { (a < 6) × (e < 5) }
    ensures { InSix a e result }
{
    if a == 0 {
        return ALL;
    }
    five_at(a - 1, 4, e)
}

// Puts into slot k of gap g those bits of the gap before it that m has too, and gives them.
fn sift(work: &mut [u8], g: usize, k: usize, m: u32) -> u32
    requires { (stretch * suc g ≤ length work.old) × (0 < g) × (k < slots) }
    ensures { Sifted work.old g k m result work.new }
{
    let w = word(work, g - 1, k) & m;
    put_word(work, g, k, w);
    w
}
