// Nodes that leave every order as it is: a blank, forward, and a blank or a touched net, back. Sets are copied, a word at a time.
ghost use Rattle.std.specs.Prelude.{◌≡◌, IsTrue, true, ℕ, suc, ◌*◌, ◌≤◌, ◌<◌, length};
ghost use Rattle.steps.specs.Plan.{turn_kind, stays};
ghost use Rattle.steps.specs.Stops.{resting};
ghost use Rattle.steps.specs.Masks.{between, Redone};
ghost use Rattle.steps.specs.Nodes.{ToSpread, ToPrune};
ghost use Rattle.steps.specs.Leading.{Onward, Reached};
ghost use Rattle.steps.specs.Sets.{stretch, slots, marked, source, Empty, Bare, Exactly, Loses};

use crate::plan::Stop;
use crate::word::{put_word, ranks_before, word};
use rules::Streets;

// b and the streets are two parameters, as in `open`.
//
// Marks in gap g, which is empty, every rank that a blank among b open nets leads to, and tells whether there is none. The ranks of six nets are in slots 6 to 8 and
// 11 to 13; those between have none.
pub fn rest(work: &mut [u8], g: usize, b: u8, streets: Streets) -> bool
    requires given { ToSpread (resting b streets) work.old g }
    ensures exactly { Exactly work.old g (Reached (resting b streets) work.old g) work.new }
    ensures bare { Bare work.new g result }
{
    if streets.upper + streets.lower < b {
        return true;
    }
    match b {
        0..=4 => copy_on(work, g, 0, 1),
        5 => copy_on(work, g, 1, 4),
        _ => copy_on(work, g, 6, 14),
    }
}

// Puts into the slots of gap g, which is empty, from `from` on before `to` the ranks before node g, and tells whether there is none.
// It asks for an empty gap and for its bytes, as open_few does, and not for a stop: it copies slots, and needs nothing of the node. Where they begin and end are two numbers, since of a range the contract would name both.
fn copy_on(work: &mut [u8], g: usize, from: usize, to: usize) -> bool
    requires g_in_bounds { (stretch * suc g ≤ length work.old) × (from ≤ to) × (to ≤ slots) }
    requires empty { Empty work.old g }
    ensures redone { Redone work.old g (between from to) (source work.old g) work.new }
    ensures bare { Bare work.new g result }
{
    let mut any: u32 = 0;
    // By number: k names a slot of the gap before, of which there is none before node 0, and of this one.
    for k in from..to {
        let w = ranks_before(work, g, k);
        put_word(work, g, k, w);
        any |= w;
    }
    any == 0
}

// Leaves in gap g only the ranks from which the node after it, where no net begins or ends, leads to a marked rank: those that are marked after it.
// It takes the stop and asks what its turn is, since it serves two turns: a net that is met, and a blank.
// Of six nets it leaves out the slots between, where no set has a rank: two calls copy less than one over all. `rest` copies them too, so that one call tells
// whether there is a rank.
pub fn prune_same(work: &mut [u8], g: usize, stop: Stop)
    requires given { ToPrune stop work.old g }
    requires kind { IsTrue (stays (turn_kind stop.step.turn)) }
    requires by_index { (x : ℕ) → marked work.old (suc g) x ≡ true → Reached stop work.old (suc g) x }
    ensures { Loses work.old g (Onward stop work.old (suc g)) work.new }
{
    match stop.step.count() {
        0..=4 => copy_back(work, g, 0, 1),
        5 => copy_back(work, g, 1, 4),
        _ => {
            copy_back(work, g, 6, 9);
            copy_back(work, g, 11, 14);
        }
    }
}

// Puts into the slots of gap g from `from` on before `to` what the gap after it has there.
// A loop of its own, no plainer with that of copy_on, which reads the gap before, cuts each word to its ranks and tells whether there is any.
fn copy_back(work: &mut [u8], g: usize, from: usize, to: usize)
    requires { (stretch * suc (suc g) ≤ length work.old) × (from ≤ to) × (to ≤ slots) }
    ensures { Redone work.old g (between from to) (λ x. marked work.old (suc g) x) work.new }
{
    for k in from..to {
        let w = word(work, g + 1, k);
        put_word(work, g, k, w);
    }
}
