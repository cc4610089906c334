// Tests the router, the reader, the agreement test and the drawer against a second router.
#![tactic(auto)]

mod joinings;

use randomrows::generator::Generator;
use randomtrials::{rows, sheets};
use std::io;
use trials::trial::Trials;

// The seed of the rows and sheets by lot.
const SEED: u64 = 20611;

fn main(rt: HostRuntime) -> io::Result<()> {
    let mut trials = Trials::new(&rt, rt.alloc())?;
    let mut lot = Generator::new(SEED);
    joinings::test(&mut trials, joinings::FULL)?;
    rows::test(&mut trials, &mut lot, rows::SHORT)?;
    rows::test(&mut trials, &mut lot, rows::LONG)?;
    rows::test_lone(&mut trials, &mut lot)?;
    joinings::test(&mut trials, joinings::BLANK)?;
    rows::test(&mut trials, &mut lot, rows::BLANK_SHORT)?;
    rows::test(&mut trials, &mut lot, rows::BLANK_LONG)?;
    sheets::test_all(&mut trials, &mut lot)?;
    trials.report()
}
