// One net's ending, forward and back, by words: the sets before and after it in a few operations.
ghost use Rattle.std.specs.Prelude.{◌≡◌, true, ◌&&◌, ℕ, suc, ◌+◌, ◌-◌, ◌*◌, ◌^◌, ◌≤◌, ◌<◌, length, eqb};
ghost use Rattle.std.specs.Int.Bits.{bit_or};
ghost use Rattle.rules.specs.Basic.{pick};
ghost use Rattle.steps.specs.Ranks.{fact};
ghost use Rattle.steps.specs.Sets.{stretch, bit, Bare, Exactly, Loses};
ghost use Rattle.steps.specs.Stops.{Sound, ending};
ghost use Rattle.steps.specs.Leading.{Reached, Onward};
ghost use Rattle.steps.specs.Masks.{between, Sources};
ghost use Rattle.steps.specs.Nodes.{ToSpread, ToPrune};
ghost use Rattle.steps.specs.Four.{Changed, SixLeft, SixBack, none, left_of, word_before, Gone, comes, Anded, nth, within, over_at, under_at, Passing, Piece, Inside};

use crate::net::Net;
use crate::older::Older;
use crate::tables::{back, few_at, legal, taken, without};
use crate::word::{before, keep_word, put_word, word};

// Orders of five nets, a word of them for each place of the youngest: it has one, two or three above it.
#[derive(Clone, Copy)]
pub struct Five {
    pub second: u32,
    pub third: u32,
    pub fourth: u32,
}

// Marks in gap g, which is empty, every rank that a node that ends the net leads to, and tells whether there is none.
pub fn end(work: &mut [u8], g: usize, net: Net) -> bool
    requires given { ToSpread (ending net) work.old g }
    ensures exactly { Exactly work.old g (Reached (ending net) work.old g) work.new }
    ensures bare { Bare work.new g result }
{
    // A function for each: up to four nets are one word, five are three, and six have the two nets in the middle alone; as one they would be these branches again.
    // Each asks for its count again, which says in what slots its words are.
    match net.count {
        0..=4 => end_few(work, g, net),
        5 => end_five(work, g, net),
        _ => end_six(work, g, net),
    }
}

// Leaves in gap g only the ranks from which a node after it that ends the net leads to a marked rank.
pub fn unend(work: &mut [u8], g: usize, net: Net)
    requires given { ToPrune (ending net) work.old g }
    ensures { Loses work.old g (Onward (ending net) work.old (suc g)) work.new }
{
    // A function for each, as in `end`.
    match net.count {
        0..=4 => unend_few(work, g, net),
        5 => unend_five(work, g, net),
        _ => unend_six(work, g, net),
    }
}

// A net ends with at most four open.
fn end_few(work: &mut [u8], g: usize, net: Net) -> bool
    requires given { ToSpread (ending net) work.old g }
    requires count { net.count ≤ 4 }
    ensures exactly { Exactly work.old g (Reached (ending net) work.old g) work.new }
    ensures bare { Bare work.new g result }
{
    let b = net.count as usize;
    let a = net.age as usize;
    let l = legal(net.streets, b);
    let w = before(work, g, 0);
    let n = few_left(b, a, l, w);
    put_word(work, g, 0, n);
    n == 0
}

// Back over such an ending.
fn unend_few(work: &mut [u8], g: usize, net: Net)
    requires given { ToPrune (ending net) work.old g }
    requires count { net.count ≤ 4 }
    ensures { Loses work.old g (Onward (ending net) work.old (suc g)) work.new }
{
    let b = net.count as usize;
    let a = net.age as usize;
    let l = legal(net.streets, b);
    let n = word(work, g + 1, 0);
    keep_word(work, g, 0, few_back(b, a, l, n));
}

// The orders left of those of w where the net of age a of b, at most four, ends at a place of l.
fn few_left(b: usize, a: usize, l: u32, w: u32) -> u32
    requires few { (a < b) × (b ≤ 4) × (l < 2 ^ b) }
    requires by_index { (r : ℕ) → r < 24 → bit w r ≡ true → r < fact b }
    ensures { Gone b a l (bit w) result }
{
    let z = few_at(b, a, l);
    without(b - 1 - a, w & z)
}

// The orders that leave one of n.
fn few_back(b: usize, a: usize, l: u32, n: u32) -> u32
    requires { (a < b) × (b ≤ 4) × (l < 2 ^ b) }
    ensures { (r : ℕ) → r < fact b → bit result r ≡ comes b a l n r }
{
    let z = few_at(b, a, l);
    z & back(b - 1 - a, n % 64)
}

// A net ends with five open.
fn end_five(work: &mut [u8], g: usize, net: Net) -> bool
    requires given { ToSpread (ending net) work.old g }
    requires count { net.count ≡ 5 }
    ensures exactly { Exactly work.old g (Reached (ending net) work.old g) work.new }
    ensures bare { Bare work.new g result }
{
    let a = net.age as usize;
    let l = legal(net.streets, 5);
    let five = five_before(work, g, 0);
    let n = five_left(a, l, five);
    put_word(work, g, 0, n);
    n == 0
}

// Back over such an ending.
fn unend_five(work: &mut [u8], g: usize, net: Net)
    requires given { ToPrune (ending net) work.old g }
    requires count { net.count ≡ 5 }
    ensures { Loses work.old g (Onward (ending net) work.old (suc g)) work.new }
{
    let a = net.age as usize;
    let l = legal(net.streets, 5);
    let n = word(work, g + 1, 0);
    keep_five(work, g, 0, five_back(a, l, n));
}

// A net ends with six open.
fn end_six(work: &mut [u8], g: usize, net: Net) -> bool
    requires given { ToSpread (ending net) work.old g }
    requires count { net.count ≡ 6 }
    ensures exactly { Exactly work.old g (Reached (ending net) work.old g) work.new }
    ensures bare { Bare work.new g result }
{
    let five = six_left(work, g, net);
    put_five(work, g, five)
}

// Back over such an ending.
fn unend_six(work: &mut [u8], g: usize, net: Net)
    requires given { ToPrune (ending net) work.old g }
    requires count { net.count ≡ 6 }
    ensures { Loses work.old g (Onward (ending net) work.old (suc g)) work.new }
{
    let five = six_back(work, g, net);
    keep_five(work, g, 5, five);
    keep_five(work, g, 10, five);
}

// The orders of five that are left. The youngest of six, if it stays, and the net that ends are the two in the middle: without either the other is
// third of five.
fn six_left(work: &[u8], g: usize, net: Net) -> Five
    requires sound { Sound (ending net) × (stretch * g ≤ length work.now) }
    requires sources { Sources (ending net) work.now g }
    requires count { net.count ≡ 6 }
    ensures { SixLeft (ending net) work.now g result }
{
    let a = net.age as usize;
    if net.streets.upper + net.streets.lower < 6 {
        return third_alone(0);
    }
    let five = either(five_before(work, g, 5), five_before(work, g, 10));
    if a == 0 {
        return five;
    }
    third_alone(five_left(a - 1, 4, five))
}

// The orders of the five older nets that lead on.
fn six_back(work: &[u8], g: usize, net: Net) -> Five
    requires sound { Sound (ending net) × (stretch * suc (suc g) ≤ length work.now) }
    requires count { net.count ≡ 6 }
    ensures { SixBack (ending net) work.now g result }
{
    let a = net.age as usize;
    if net.streets.upper + net.streets.lower < 6 {
        return third_alone(0);
    }
    if a == 0 {
        return five_before(work, g + 2, 0);
    }
    let n = word(work, g + 1, 2);
    five_back(a - 1, 4, n)
}

// The word n for the youngest at place 2, and no order with it elsewhere.
fn third_alone(n: u32) -> Five
    ensures { (k : ℕ) → nth result k ≡ pick (eqb k 2) n 0 }
{
    Five {
        second: 0,
        third: n,
        fourth: 0,
    }
}

// The orders of x and of y.
fn either(x: Five, y: Five) -> Five
    ensures { (k : ℕ) → nth result k ≡ bit_or (nth x k) (nth y k) }
{
    Five {
        second: x.second | y.second,
        third: x.third | y.third,
        fourth: x.fourth | y.fourth,
    }
}

// The orders of four left of those of five where the net of age a of five ends at a place of l.
fn five_left(a: usize, l: u32, five: Five) -> u32
    requires { (a < 5) × Inside l }
    ensures { Gone 5 a l (within five) result }
{
    if a == 0 {
        return youngest_left(l, five);
    }
    let older = Older {
        elders: 4 - a,
        places: l,
    };
    older.left(five)
}

// The same where it is the youngest: the others stay as they are.
fn youngest_left(l: u32, five: Five) -> u32
    ensures { Gone 5 0 l (within five) result }
{
    let a = taken(l, 1, five.second) | taken(l, 2, five.third);
    (a | taken(l, 3, five.fourth)) % 16777216
}

// The orders of five that leave one of n.
fn five_back(a: usize, l: u32, n: u32) -> Five
    requires { (a < 5) × Inside l }
    ensures { (r : ℕ) → 24 ≤ r → r < 96 → within result r ≡ comes 5 a l n r }
{
    if a == 0 {
        return Five {
            second: taken(l, 1, n),
            third: taken(l, 2, n),
            fourth: taken(l, 3, n),
        };
    }
    let older = Older {
        elders: 4 - a,
        places: l,
    };
    older.back(n)
}

// The orders of five in the words before node g, of which slot k would be the one of the youngest on top.
fn five_before(work: &[u8], g: usize, k: usize) -> Five
    requires { (stretch * g ≤ length work.now) × (k ≤ 10) }
    ensures { (j : ℕ) → 1 ≤ j → j < 4 → nth result j ≡ word_before work.now g (k + j) }
{
    Five {
        second: before(work, g, k + 1),
        third: before(work, g, k + 2),
        fourth: before(work, g, k + 3),
    }
}

// Puts orders of five nets into gap g, and tells whether there is none.
fn put_five(work: &mut [u8], g: usize, five: Five) -> bool
    requires { stretch * suc g ≤ length work.old }
    ensures changed { Changed work.old g (nth five) (between 1 4) work.new }
    ensures value { result ≡ none five }
{
    put_word(work, g, 1, five.second);
    put_word(work, g, 2, five.third);
    put_word(work, g, 3, five.fourth);
    (five.second | five.third | five.fourth) % 16777216 == 0
}

// Leaves in gap g only these orders of five, in the words of which slot k would be the one of the youngest on top.
fn keep_five(work: &mut [u8], g: usize, k: usize, five: Five)
    requires { (stretch * suc g ≤ length work.old) × (k ≤ 10) }
    ensures { Anded work.old g (λ j. nth five (j - k)) (between (k + 1) (k + 4)) work.new }
{
    keep_word(work, g, k + 1, five.second);
    keep_word(work, g, k + 2, five.third);
    keep_word(work, g, k + 3, five.fourth);
}
