// The router's passes over the sets of ranks, forward and back to prune, and what its last pass asks them.
ghost use Rattle.std.specs.Prelude.{◌≡◌, MatchResult, true, ℕ, suc, ◌*◌, ◌≤◌, ◌<◌, length};
ghost use Rattle.steps.specs.Ranks.{capacity, fact, RankOf};
ghost use Rattle.steps.specs.Sets.{stretch, bit, marked, Loses};
ghost use Rattle.steps.specs.Nodes.{ToPrune};
ghost use Rattle.steps.specs.Leading.{Onward, Reached};
ghost use Rattle.orders.specs.Passes.{Given, Forward, Filled, Passable, Pruned, Somewhere, Entry};

use crate::reach::spread;
use rules::Streets;
use steps::end::unend;
use steps::net::Net;
use steps::open::{clear, unopen};
use steps::plan::{Step, Stop, Turn};
use steps::rank::{Place, factorial};
use steps::rest::prune_same;
use steps::word::word;

// The plan and the streets are two parameters of each pass: `forward` takes them before anything is known of both, so that a struct of the two would have no invariant,
// and each contract would name its two fields.

// Marks in the gap after each node the ranks that ways lead to, whatever stood there, where all nodes can be passed; else tells how many can.
pub fn forward(work: &mut [u8], plan: &[Step], streets: Streets) -> Result<(), usize>
    requires { Given plan.now work.old }
    ensures { MatchResult
        result
        (λ _. Forward streets.upper streets.lower plan.now work.old work.new (length plan.now))
        (λ n. Forward streets.upper streets.lower plan.now work.old work.new n × (n < length plan.now)) }
{
    for (g, &step) in plan.iter().enumerate() {
        clear(work, g);
        if spread(work, g, Stop { step, streets }) {
            return Err(g);
        }
    }
    Ok(())
}

// Leaves in each gap only the ranks from which the nodes after it can be passed.
pub fn prune(work: &mut [u8], plan: &[Step], streets: Streets)
    requires given { Given plan.now work.old }
    requires filled { Filled streets.upper streets.lower plan.now (length plan.now) work.old }
    requires passable { Passable streets.upper streets.lower plan.now }
    ensures { Pruned streets.upper streets.lower plan.now work.old work.new }
{
    // By index, from the last node on: node g cuts the gap of number g - 1, so that an iterator over the plan would have to be numbered, turned round and cut too.
    for g in (1..plan.len()).rev() {
        let step = plan[g];
        prune_set(work, g - 1, Stop { step, streets });
    }
}

// The least place of a new net among b others, over an order of rank r, that makes a marked rank of gap g, and that rank. That there is one (`Somewhere`) is asked here and
// in each case: it speaks of a gap's marks and of one rank.
pub fn enter(work: &[u8], g: usize, b: usize, r: usize) -> Place
    requires g_in_bounds { (stretch * suc g ≤ length work.now) × (b < capacity) × (r < fact b) }
    requires somewhere { Somewhere (marked work.now g) b r }
    requires by_index { (x : ℕ) → marked work.now g x ≡ true → RankOf (suc b) x }
    ensures { Entry (marked work.now g) b r result.at result.rest }
{
    match b {
        0..=3 => enter_few(word(work, g, 0), b, r),
        4 => enter_fifth(work, g, r),
        _ => enter_sixth(work, g, r),
    }
}

// The same among at most three others, where one word has all ranks.
// A loop of its own, no plainer with that of a fifth net, which reads a word for each place where this has all ranks in one. By `find` over the places each would take a
// closure with a contract of its own, which says of a place what the loop's test says.
fn enter_few(w: u32, b: usize, r: usize) -> Place
    requires b_bound { (b < 4) × (r < fact b) }
    requires somewhere { Somewhere (bit w) b r }
    ensures { Entry (bit w) b r result.at result.rest }
{
    let unit = factorial(b);
    let mut x = r;
    for p in 0..b {
        if (w >> x) % 2 == 1 {
            return Place { at: p, rest: x };
        }
        x += unit;
    }
    Place { at: b, rest: x }
}

// The same for a fifth net, which has a word for each place.
fn enter_fifth(work: &[u8], g: usize, r: usize) -> Place
    requires g_in_bounds { (stretch * suc g ≤ length work.now) × (r < 24) }
    requires somewhere { Somewhere (marked work.now g) 4 r }
    ensures { Entry (marked work.now g) 4 r result.at result.rest }
{
    for p in 0..4 {
        if (word(work, g, p) >> r) % 2 == 1 {
            return Place {
                at: p,
                rest: 24 * p + r,
            };
        }
    }
    Place {
        at: 4,
        rest: 96 + r,
    }
}

// The same for a sixth net, which stands at 2 or 3.
fn enter_sixth(work: &[u8], g: usize, r: usize) -> Place
    requires g_in_bounds { (stretch * suc g ≤ length work.now) × (r < 120) }
    requires somewhere { Somewhere (marked work.now g) 5 r }
    requires by_index { (x : ℕ) → marked work.now g x ≡ true → 240 ≤ x }
    ensures { Entry (marked work.now g) 5 r result.at result.rest }
{
    if (word(work, g, 5 + r / 24) >> (r % 24)) % 2 == 1 {
        return Place {
            at: 2,
            rest: 240 + r,
        };
    }
    Place {
        at: 3,
        rest: 360 + r,
    }
}

// Leaves in gap g only the ranks from which the node after it leads to a marked rank.
fn prune_set(work: &mut [u8], g: usize, stop: Stop)
    requires given { ToPrune stop work.old g }
    requires by_index { (x : ℕ) → marked work.old (suc g) x ≡ true → Reached stop work.old (suc g) x }
    ensures { Loses work.old g (Onward stop work.old (suc g)) work.new }
{
    let Stop { step, streets } = stop;
    let count = step.count();
    match step.turn() {
        Turn::Begins => unopen(work, g, count, streets),
        Turn::Ends(age) => {
            let net = Net {
                age,
                count,
                streets,
            };
            unend(work, g, net);
        }
        Turn::Meets(_) | Turn::Rests => prune_same(work, g, stop),
    }
}
