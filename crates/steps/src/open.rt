// An opening by words: the set after it from the set before it, and back.
//
// A new net at place p among b others, over an order of rank r, makes rank p · b! + r. Up to three others a set is one word, which holds
// the old one once for each place; from four on each place has words of its own.
ghost use Rattle.std.specs.Prelude.{◌≡◌, true, ℕ, suc, ◌+◌, ◌*◌, ◌≤◌, ◌<◌, length};
ghost use Rattle.steps.specs.Ranks.{fact, RankOf};
ghost use Rattle.steps.specs.Sets.{ranks, stretch, marked, source, Empty, Exactly, Bare, Loses};
ghost use Rattle.steps.specs.Nodes.{ToSpread, ToPrune};
ghost use Rattle.steps.specs.Leading.{Reached, Onward};
ghost use Rattle.steps.specs.Stops.{opening};
ghost use Rattle.steps.specs.Opening.{Places, Under, Copies, Joined, Opened, Entered};

use crate::rank::factorial;
use crate::word::{STRETCH, keep_word, only, put_word, ranks_before, word};
use rules::Streets;

// By how many others there are and the tracks of the upper and of the lower street: the places that are left to a new net.
static PLACES: [[[u32; 4]; 4]; 4] = [
    [[0, 1, 1, 1], [1, 1, 1, 1], [1, 1, 1, 1], [1, 1, 1, 1]],
    [[0, 0, 1, 1], [0, 3, 3, 3], [2, 3, 3, 3], [2, 3, 3, 3]],
    [
        [0, 0, 0, 3],
        [0, 0, 15, 15],
        [0, 60, 63, 63],
        [48, 60, 63, 63],
    ],
    [
        [0, 0, 0, 0],
        [0, 0, 0, 4095],
        [0, 0, 262080, 262143],
        [0, 16773120, 16777152, 16777215],
    ],
];

// b and the streets are two parameters, here and at `unopen` and `rest`, and not the caller's `Stop`: of that it would be asked again that it begins a net.
//
// Marks in gap g, which is empty, every rank that a node that begins a net among b others leads to, and tells whether there is none.
pub fn open(work: &mut [u8], g: usize, b: u8, streets: Streets) -> bool
    requires given { ToSpread (opening b streets) work.old g }
    ensures exactly { Exactly work.old g (Reached (opening b streets) work.old g) work.new }
    ensures bare { Bare work.new g result }
{
    // A function for each: up to four nets are one word with a copy for each place, five have a word for each place, and six two places with three words each.
    // Each asks for its count and an empty gap again, which say what its words are.
    match b {
        0..=3 => open_few(work, g, streets, b as usize),
        _ if streets.upper + streets.lower <= b => true,
        4 => open_fifth(work, g, streets),
        _ => open_sixth(work, g),
    }
}

// A net among at most three others.
fn open_few(work: &mut [u8], g: usize, streets: Streets, b: usize) -> bool
    requires b_bound { (b ≤ 3) × (stretch * suc g ≤ length work.old) }
    requires empty { Empty work.old g }
    requires by_index { (x : ℕ) → x < ranks → source work.old g x ≡ true → x < fact b }
    ensures opened { Opened streets.upper streets.lower b work.old g work.new }
    ensures bare { Bare work.new g result }
{
    let w = ranks_before(work, g, 0);
    let x = copies(w, factorial(b)) & places(streets, b);
    put_word(work, g, 0, x);
    x == 0
}

// A fifth net: place 2 is left to it, and 1 and 3 where the street on the other side has three tracks.
fn open_fifth(work: &mut [u8], g: usize, streets: Streets) -> bool
    requires fifth { (5 ≤ streets.upper + streets.lower) × (stretch * suc g ≤ length work.old) }
    requires empty { Empty work.old g }
    ensures opened { Opened streets.upper streets.lower 4 work.old g work.new }
    ensures bare { Bare work.new g result }
{
    let w = ranks_before(work, g, 0);
    let x = only(streets.lower == 3, w);
    let z = only(streets.upper == 3, w);
    put_word(work, g, 1, x);
    put_word(work, g, 2, w);
    put_word(work, g, 3, z);
    (x | w | z) == 0
}

// A sixth net, between two streets of three tracks: places 2 and 3 are left to it. The fifth has one, two or three above it, so that there are three words to copy.
fn open_sixth(work: &mut [u8], g: usize) -> bool
    requires g_in_bounds { stretch * suc g ≤ length work.old }
    requires empty { Empty work.old g }
    requires by_index { (x : ℕ) → source work.old g x ≡ true → RankOf 5 x }
    ensures opened { Opened 3 3 5 work.old g work.new }
    ensures bare { Bare work.new g result }
{
    let mut any: u32 = 0;
    // By number: k is the place of the fifth net, and names three slots.
    for k in 1..4 {
        let w = ranks_before(work, g, k);
        put_word(work, g, 5 + k, w);
        put_word(work, g, 10 + k, w);
        any |= w;
    }
    any == 0
}

// Leaves in gap g only the ranks from which a node after it that begins a net among b others leads to a marked rank.
pub fn unopen(work: &mut [u8], g: usize, b: u8, streets: Streets)
    requires given { ToPrune (opening b streets) work.old g }
    ensures { Loses work.old g (Onward (opening b streets) work.old (suc g)) work.new }
{
    // A function for each, as in `open`.
    match b {
        0..=3 => unopen_few(work, g, streets, b as usize),
        _ if streets.upper + streets.lower <= b => clear(work, g),
        4 => unopen_fifth(work, g, streets),
        _ => unopen_sixth(work, g),
    }
}

// The same where at most three others are open.
fn unopen_few(work: &mut [u8], g: usize, streets: Streets, b: usize)
    requires b_bound { (b ≤ 3) × (stretch * suc (suc g) ≤ length work.old) }
    requires by_index { (x : ℕ) → x < ranks → marked work.old g x ≡ true → x < fact b }
    ensures { Loses work.old g (Entered streets.upper streets.lower b work.old (suc g)) work.new }
{
    let x = word(work, g + 1, 0) & places(streets, b);
    keep_word(work, g, 0, joined(x, factorial(b)));
}

// The same for a fifth net.
fn unopen_fifth(work: &mut [u8], g: usize, streets: Streets)
    requires fifth { (5 ≤ streets.upper + streets.lower) × (stretch * suc (suc g) ≤ length work.old) }
    requires by_index { (x : ℕ) → x < ranks → marked work.old g x ≡ true → x < fact 4 }
    ensures { Loses work.old g (Entered streets.upper streets.lower 4 work.old (suc g)) work.new }
{
    let x = only(streets.lower == 3, word(work, g + 1, 1));
    let y = word(work, g + 1, 2);
    let z = only(streets.upper == 3, word(work, g + 1, 3));
    keep_word(work, g, 0, x | y | z);
}

// The same for a sixth net, between two streets of three tracks.
fn unopen_sixth(work: &mut [u8], g: usize)
    requires g_in_bounds { stretch * suc (suc g) ≤ length work.old }
    requires by_index { (x : ℕ) → marked work.old g x ≡ true → RankOf 5 x }
    ensures { Loses work.old g (Entered 3 3 5 work.old (suc g)) work.new }
{
    // By number, as in `open_sixth`.
    for k in 1..4 {
        let x = word(work, g + 1, 5 + k) | word(work, g + 1, 10 + k);
        keep_word(work, g, k, x);
    }
}

// Leaves no rank of gap g.
pub fn clear(work: &mut [u8], g: usize)
    requires { stretch * suc g ≤ length work.old }
    ensures { Loses work.old g (λ x. ⊥) work.new }
{
    let i = STRETCH * g;
    work[i..i + 60].fill(0);
}

// The low f bits of w four times.
fn copies(w: u32, f: usize) -> u32
    requires { (f ≤ 6) × Under w f }
    ensures { Copies w f result }
{
    let twice = w | (w << f);
    twice | (twice << (2 * f))
}

// Four times f bits laid over each other.
fn joined(w: u32, f: usize) -> u32
    requires { f ≤ 6 }
    ensures { Joined w f result }
{
    let half = w | (w >> f);
    half | (half >> (2 * f))
}

// The places of a new net among b others that keep the limits, b! bits for each.
fn places(streets: Streets, b: usize) -> u32
    requires { b ≤ 3 }
    ensures { Places streets.upper streets.lower b result }
{
    PLACES[b][streets.upper as usize][streets.lower as usize]
}
