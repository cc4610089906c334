// Random rows of five sorts, each tested under its pair of streets.
use randomrows::generator::Generator;
use randomrows::rows::{Plan, draw_row, make_lone};
use secondrouter::streets::Streets;
use std::io;
use tallies::count::Count;
use tallies::source::Source;
use trials::trial::Trials;

// How many nodes rows have: 2 to 64, or 100 to 512.
#[derive(Clone, Copy)]
pub enum Length {
    Short,
    Long,
}

impl Length {
    // A number of nodes, by lot.
    pub fn by_lot(self, lot: &mut Generator) -> usize {
        match self {
            Length::Short => lot.draw(63).saturating_add(2),
            Length::Long => lot.draw(413).saturating_add(100),
        }
    }
}

// Random rows that are tested as one source, with every pair of streets in turn.
#[derive(Clone, Copy)]
pub struct Sort {
    source: Source,
    count: usize,
    length: Length,
    has_blanks: bool,
}

pub const SHORT: Sort = Sort {
    source: Source::Short,
    count: 32000,
    length: Length::Short,
    has_blanks: false,
};

pub const LONG: Sort = Sort {
    source: Source::Long,
    count: 1024,
    length: Length::Long,
    has_blanks: false,
};

pub const BLANK_SHORT: Sort = Sort {
    source: Source::BlankShort,
    count: 24000,
    length: Length::Short,
    has_blanks: true,
};

pub const BLANK_LONG: Sort = Sort {
    source: Source::BlankLong,
    count: 1024,
    length: Length::Long,
    has_blanks: true,
};

// How many of sixteen nodes are to be blank, by lot: in one row of eight all of them.
pub fn share(lot: &mut Generator) -> usize {
    if lot.draw(8) == 0 {
        return 16;
    }
    lot.draw(12).saturating_add(1)
}

// Tests random rows of a sort, and prints what came of them. The trials and the lot are two parameters, since joinings take the trials alone between these tests: a
// struct of both would be made anew for each test.
pub fn test(trials: &mut Trials<impl Print>, lot: &mut Generator, sort: Sort) -> io::Result<()> {
    for k in 0..sort.count {
        let streets = Streets::nth(k);
        let count = sort.length.by_lot(lot);
        let share = sort.has_blanks.then(|| share(lot));
        let plan = Plan {
            streets,
            count,
            share,
        };
        let placing = draw_row(trials.alloc, lot, plan)?;
        trials.tally.count_source_row();
        trials.tally.count_pair(streets);
        trials.test_row(&placing.row()?, streets)?;
    }
    trials.report_source(sort.source)
}

// Tests random rows with a lone label, with blanks where k / 16 is odd.
pub fn test_lone(trials: &mut Trials<impl Print>, lot: &mut Generator) -> io::Result<()> {
    for k in 0..1024 {
        let streets = Streets::nth(k);
        let count = Length::Short.by_lot(lot);
        let blanks = share(lot);
        let plan = Plan {
            streets,
            count,
            share: (k / 16 % 2 != 0).then_some(blanks),
        };
        let mut placing = draw_row(trials.alloc, lot, plan)?;
        make_lone(lot, &mut placing);
        trials.tally.count(Count::LoneRows);
        trials.test_row(&placing.row()?, streets)?;
    }
    Ok(())
}
