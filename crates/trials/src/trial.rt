// One row under one pair of streets: every answer and every byte of the library against the second router's.
ghost use Rattle.std.specs.Prelude.{◌≡◌, IfOk};

use answers::Said;
use filmtrials::films::SheetTrial;
use secondfilm::sheets::{packed, sheet_need, work_need};
use secondrouter::orders::Order;
use secondrouter::placing::{PlaceError, Placing};
use secondrouter::streets::Streets;
use secondrouter::{depth, layers};
use sheettrials::sheets::SheetTrials;
use std::alloc::{AllocError, Global};
use std::io;
use tallies::count::Count;
use tallies::failure::{Failure, Finding, Part, Subject};
use tallies::patterns::{fill, is_clear, keeps, part, part_mut};
use tallies::source::Source;
use tallies::tally::Tally;

// The most bytes that are lent to the router as work space and for the sheet.
const WORK: usize = 46208;

const SHEET: usize = 640;

// The most orders that are kept for layers: at most 512 nodes have as many as six nets. Only rows that the router does not take have layers that may need more.
const ORDERS: usize = 512 * 720 + 1;

// The longest rows that the depth first search of the second router places too.
const SHORT: usize = 9;

// The trial of a row under a pair of streets, and the number that seeds its patterns and its choices.
#[derive(Clone, Copy)]
struct RowTrial<'a> {
    row: &'a [u8],
    streets: Streets,
    seed: usize,
}

// What the router is to do: write this sheet, or refuse the row with an answer.
type Wanted<'a> = Result<&'a [u8], Said>;

// A call of the router: the row, how many bytes it is lent, and what it is to do.
#[derive(Clone, Copy)]
struct Call<'a> {
    part: Part,
    trial: RowTrial<'a>,
    work: usize,
    sheet: usize,
    wanted: Wanted<'a>,
}

impl<'a> RowTrial<'a> {
    // A call that the first tests let pass.
    fn call(self, wanted: Wanted<'a>) -> Call<'a> {
        Call {
            part: Part::Router,
            trial: self,
            work: work_need(self.row.len()).saturating_add(self.seed % 7),
            sheet: sheet_need(self.row.len()).saturating_add(self.seed % 5),
            wanted,
        }
    }

    // Calls that one of the first tests refuses: with a work space and with a sheet one byte short, and with both and a lower street too wide.
    fn early_calls(self) -> [Call<'a>; 3] {
        let work = work_need(self.row.len());
        let sheet = sheet_need(self.row.len());
        let full = Call {
            part: Part::FirstTests,
            trial: RowTrial {
                seed: self.row.len(),
                ..self
            },
            work,
            sheet,
            wanted: Err(refusal(2, 0)),
        };
        let short_work = Call {
            work: work.saturating_sub(1),
            wanted: Err(refusal(4, 0)),
            ..full
        };
        let short_sheet = Call {
            sheet: sheet.saturating_sub(1),
            wanted: Err(refusal(5, 0)),
            ..full
        };
        let wide = Call {
            trial: RowTrial {
                streets: Streets {
                    lower: 4,
                    ..self.streets
                },
                ..full.trial
            },
            work: short_work.work,
            sheet: short_sheet.sheet,
            ..full
        };
        [short_work, short_sheet, wide]
    }
}

// The answer that refuses a row, by its number and its place.
fn refusal(number: u32, place: usize) -> Said {
    Said { number, place }
}

// The answer that takes a row of so many nodes.
fn acceptance(nodes: usize) -> Said {
    Said {
        number: 0,
        place: nodes,
    }
}

// Whether the work space is as the router's answer to a row of `nodes` nodes leaves it: zero for 90 bytes a node where the row was searched, and as it was
// behind; else as it was everywhere. `lent` has the same rule for its own pattern: `fill` in tallies says why these are not one.
fn is_work_right(work: &[u8], nodes: usize, answer: Said, seed: usize) -> bool {
    match answer.number {
        0 | 6 => {
            let need = work_need(nodes);
            is_clear(part(work, need)) && keeps(work, need, seed)
        }
        _ => keeps(work, 0, seed),
    }
}

// The trials of rows and sheets: where disagreements are printed, the counts, the buffers that are lent to the router, and the memory of the second router's layers.
#[derive(Drop)]
pub struct Trials<'a, R: Print> {
    rt: &'a R,
    pub alloc: Global,
    pub tally: Tally,
    work: Vec<u8>,
    sheet: Vec<u8>,
    orders: Vec<Order>,
    starts: Vec<usize>,
    sheets: SheetTrials,
}

impl<'a, R: Print> Trials<'a, R> {
    // A constructor takes the allocator, and can run out of memory, where `Default` does neither.
    pub fn new(rt: &'a R, alloc: Global) -> Result<Trials<'a, R>, AllocError> {
        Ok(Trials {
            rt,
            alloc,
            tally: Tally::default(),
            work: vec![in alloc; 0; WORK]?,
            sheet: vec![in alloc; 0; SHEET]?,
            orders: Vec::new(alloc),
            starts: Vec::new(alloc),
            sheets: SheetTrials::new(alloc)?,
        })
    }

    // Fails where the router does not say what is wanted, or leaves other bytes in a buffer.
    fn try_call(&mut self, call: Call) -> Result<(), Finding> {
        let RowTrial { row, streets, seed } = call.trial;
        let work = part_mut(&mut self.work, call.work);
        let sheet = part_mut(&mut self.sheet, call.sheet);
        fill(work, seed);
        fill(sheet, seed);
        let said = Said::from(router::route(row, streets.upper, streets.lower, work, sheet));
        let packed = call.wanted.unwrap_or(&[]);
        let wanted = match call.wanted {
            Ok(_) => acceptance(row.len()),
            Err(answer) => answer,
        };
        call.part.says(said, wanted)?;
        call.part.holds(is_work_right(work, row.len(), said, seed))?;
        call.part.holds(sheet.starts_with(packed))?;
        call.part.holds(keeps(sheet, packed.len(), seed))
    }

    // Tries the router's first tests.
    fn try_first_tests(&mut self, trial: RowTrial) -> Result<(), Finding> {
        for call in trial.early_calls() {
            self.tally.count(Count::EarlyCalls);
            self.try_call(call)?;
        }
        Ok(())
    }

    // Tries the router on a row that it has to refuse, and its first tests on every eighth row that has no placing.
    fn try_refused(&mut self, trial: RowTrial, wanted: Said) -> Result<(), Finding> {
        self.tally.count_routed(wanted, trial.row.len());
        self.try_call(trial.call(Err(wanted)))?;
        if wanted.number == 6 && trial.seed / 16 % 8 == 0 {
            return self.try_first_tests(trial);
        }
        Ok(())
    }

    // Tries the router on a row that has the placing, and then its sheet.
    fn try_accepted(&mut self, trial: RowTrial, placing: &Placing) -> Result<(), Failure> {
        let RowTrial { row, seed, .. } = trial;
        let sheet = packed(placing)?;
        self.tally.count_routed(acceptance(row.len()), row.len());
        self.try_call(trial.call(Ok(&sheet)))?;
        self.sheets.try_own(&mut SheetTrial {
            tally: &mut self.tally,
            sheet: &sheet,
            row,
            seed,
        })
    }

    // Keeps memory for so many orders and so many nodes.
    fn keep(&mut self, orders: usize, nodes: usize) -> Result<(), AllocError> {
        if self.orders.len() < orders {
            self.orders.resize(orders, Order::new())?;
        }
        if self.starts.len() < nodes {
            self.starts.resize(nodes, 0)?;
        }
        Ok(())
    }

    // A row's first placing by layers, in memory that is kept from one row to the next; or in its own, which grows with the layers, where as much as they may need is not
    // to be kept or not to be had.
    fn place_by_layers(&mut self, row: &[u8], streets: Streets) -> Result<Placing, PlaceError>
        ensures { IfOk result (λ p. p.streets ≡ streets) }
    {
        let mut placing = Placing::of_row(self.alloc, row, streets)?;
        let need = layers::orders_need(&placing.nodes, streets);
        if ORDERS < need || self.keep(need, row.len()).is_err() {
            return layers::place(placing);
        }
        layers::search(
            &mut placing.nodes,
            streets,
            &mut self.orders,
            &mut self.starts,
        )
        .map_err(PlaceError::Stuck)?;
        Ok(placing)
    }

    // Tries the router on a row. The two searches of the second router have to agree on short rows.
    fn try_row(&mut self, trial: RowTrial) -> Result<(), Failure> {
        let RowTrial { row, streets, .. } = trial;
        let by_layers = self.place_by_layers(row, streets);
        if row.len() <= SHORT {
            let by_depth = Placing::of_row(self.alloc, row, streets).and_then(depth::place);
            Part::SecondRouter.holds(by_depth == by_layers)?;
        }
        // Node i has place i + 1.
        let wanted = match by_layers {
            Ok(placing) => return self.try_accepted(trial, &placing),
            Err(PlaceError::Lone(i)) => refusal(3, i.saturating_add(1)),
            Err(PlaceError::Stuck(i)) => refusal(6, i.saturating_add(1)),
            Err(PlaceError::Memory(error)) => return Err(error.into()),
        };
        Ok(self.try_refused(trial, wanted)?)
    }

    // Tests a row under a pair of streets, and counts and prints a disagreement.
    pub fn test_row(&mut self, row: &[u8], streets: Streets) -> io::Result<()> {
        let seed = self.tally.count(Count::Rows);
        let outcome = self.try_row(RowTrial { row, streets, seed });
        self.tally
            .count_outcome(self.rt, Subject::Row { row, streets }, outcome)
    }

    // Tests a sheet with a row, and counts and prints a disagreement.
    pub fn test_sheet(&mut self, row: &[u8], sheet: &[u8]) -> io::Result<()> {
        let seed = self.tally.count(Count::Sheets);
        let outcome = self.sheets.try_sheet(&mut SheetTrial {
            tally: &mut self.tally,
            sheet,
            row,
            seed,
        });
        self.tally
            .count_outcome(self.rt, Subject::Sheet { sheet, row }, outcome)
    }

    // Prints what came of the rows of a source.
    pub fn report_source(&mut self, source: Source) -> io::Result<()> {
        self.tally.report_source(self.rt, source)
    }

    // Prints the counts over all sources.
    pub fn report(&self) -> io::Result<()> {
        self.tally.report(self.rt)
    }
}

#[cfg(test)]
mod tests {
    use super::*;

    // The second router has an answer between streets that the router does not take, however many orders its nets could have: with 16 nets it says at which node they fail,
    // and the router says 2. That is one disagreement, and the number of the one that is counted here is 2.
    #[test]
    fn wide_streets_are_tried(rt: HostRuntime) {
        let row = b"abcdefghijklmnopponmlkjihgfedcba";
        let streets = Streets {
            upper: 30,
            lower: 0,
        };
        let Ok(mut trials) = Trials::new(&rt, rt.alloc()) else {
            panic!(rt; "no memory for trials");
        };
        assert!(rt; trials.test_row(row, streets).is_ok());
        assert!(rt; trials.tally.count(Count::Disagreements) == 2);
    }
}
