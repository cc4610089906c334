// Sheets by lot: legal ones of any placing, damaged ones, and ones of 255 and 256 nets.
use crate::rows::{Length, share};
use randomrows::generator::Generator;
use randomrows::rows::Plan;
use randomrows::sheets::{draw_crowded, draw_sheet};
use secondreader::judge::{number_nets, unpack};
use secondrouter::streets::Streets;
use std::alloc::{AllocError, Global};
use std::io;
use trials::trial::Trials;

// How many nodes a crowded sheet has.
const CROWDED: usize = 512;

// Tests `count` sheets, with every pair of streets in turn, and with blanks in three cases of four. Trials and lot are two, as in `rows::test`: a struct for these three
// functions would be made in `test_all` alone.
fn test_sort(
    trials: &mut Trials<impl Print>,
    lot: &mut Generator,
    count: usize,
    length: Length,
) -> io::Result<()> {
    for k in 0..count {
        let nodes = length.by_lot(lot);
        let blanks = share(lot);
        let has_blanks = lot.draw(4) != 0;
        let plan = Plan {
            streets: Streets::nth(k),
            count: nodes,
            share: has_blanks.then_some(blanks),
        };
        let drawn = draw_sheet(trials.alloc, lot, plan)?;
        trials.test_sheet(&drawn.row, &drawn.sheet)?;
    }
    Ok(())
}

// The row of the numbers of a sheet's nets: the last of 256 has the label of a blank.
fn row_of_numbers(alloc: Global, sheet: &[u8]) -> Result<Vec<u8>, AllocError> {
    let mut nodes = unpack(alloc, sheet, CROWDED)?;
    number_nets(&mut nodes);
    nodes.iter().map(|node| node.label()).collect(alloc)
}

// Tests 256 crowded sheets, under every pair of streets but 0/0, each with the row of its numbers.
fn test_crowded(trials: &mut Trials<impl Print>, lot: &mut Generator) -> io::Result<()> {
    for k in 0..256 {
        let streets = Streets::nth(k % 15 + 1);
        let sheet = draw_crowded(trials.alloc, lot, streets, k / 15 % 2 == 1)?;
        let row = row_of_numbers(trials.alloc, &sheet)?;
        trials.test_sheet(&row, &sheet)?;
    }
    Ok(())
}

// Tests 48000 short sheets, 1024 long ones and the crowded ones.
pub fn test_all(trials: &mut Trials<impl Print>, lot: &mut Generator) -> io::Result<()> {
    test_sort(trials, lot, 48000, Length::Short)?;
    test_sort(trials, lot, 1024, Length::Long)?;
    test_crowded(trials, lot)
}
