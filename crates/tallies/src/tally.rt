// The counts of all trials, and their printing.
use crate::count::Count;
use crate::failure::{Disagreement, Failure, Subject};
use crate::source::Source;
use answers::Said;
use secondrouter::streets::Streets;
use std::{io, mem};

// The rows of the source that is tried, and the router's right answers to them.
#[derive(Default, Clone, Copy)]
struct Outcomes {
    rows: u64,
    accepted: u64,
    stuck: u64,
    late: u64,
}

// How often the reader and the drawer said a number.
#[derive(Default, Clone, Copy)]
struct Times {
    read: u64,
    drawn: u64,
}

// The counts are arrays, since a map could run out of memory, and counting does not fail.
#[derive(Default, Drop)]
pub struct Tally {
    source: Outcomes,
    // By `Count`.
    counts: [u64; 13],
    // By pair of streets: how many random rows.
    pairs: [u64; 16],
    // By number of an answer.
    numbers: [Times; 32],
}

// How many disagreements are printed.
const SHOWN: usize = 8;

fn add(count: &mut u64, more: usize) {
    *count = count.saturating_add(more as u64);
}

impl Tally {
    // How often a thing was counted.
    fn of(&self, what: Count) -> u64 {
        self.counts[what as usize]
    }

    // Counts so many more of a thing.
    fn count_more(&mut self, what: Count, more: usize) {
        add(&mut self.counts[what as usize], more);
    }

    // Counts a thing, and gives its number: that of a row or a sheet also seeds its patterns and its choices.
    pub fn count(&mut self, what: Count) -> usize {
        self.count_more(what, 1);
        self.of(what) as usize
    }

    // Counts a row of the source that is tried.
    pub fn count_source_row(&mut self) {
        add(&mut self.source.rows, 1);
    }

    // Counts a random row under its pair of streets.
    pub fn count_pair(&mut self, streets: Streets) {
        if let Some(count) = self.pairs.get_mut(streets.number()) {
            add(count, 1);
        }
    }

    // Counts a right answer of the router to a row of `nodes` nodes.
    pub fn count_routed(&mut self, answer: Said, nodes: usize) {
        match answer.number {
            0 => add(&mut self.source.accepted, 1),
            6 => self.count_stuck(answer.place, nodes),
            _ => self.count_more(Count::LoneFound, 1),
        }
    }

    fn count_stuck(&mut self, place: usize, nodes: usize) {
        add(&mut self.source.stuck, 1);
        if nodes / 2 < place {
            add(&mut self.source.late, 1);
        }
    }

    // The counts of an answer's number.
    fn times(&mut self, answer: Said) -> Option<&mut Times> {
        self.numbers.get_mut(answer.number as usize)
    }

    // Counts a right answer of the reader under its number.
    pub fn count_read(&mut self, answer: Said) {
        if let Some(times) = self.times(answer) {
            add(&mut times.read, 1);
        }
        if answer.number == 0 {
            self.count_more(Count::SheetsRead, 1);
        }
    }

    // Counts a row that agrees with a sheet, or one that does not.
    pub fn count_agreement(&mut self, agrees: bool) {
        let what = if agrees {
            Count::Agreements
        } else {
            Count::Unlike
        };
        self.count_more(what, 1);
    }

    // Counts a right answer of the drawer under its number. Beside `count_read`: the field differs, and a function of both would take it as a closure.
    pub fn count_drawn(&mut self, answer: Said) {
        if let Some(times) = self.times(answer) {
            add(&mut times.drawn, 1);
        }
    }

    // Counts a film and what it has.
    pub fn count_film(&mut self, records: usize, points: usize) {
        self.count_more(Count::Films, 1);
        self.count_more(Count::Records, records);
        self.count_more(Count::Points, points);
    }

    // Counts a trial that fails, and prints the first few.
    pub fn count_outcome(
        &mut self,
        rt: &impl Print,
        subject: Subject,
        outcome: Result<(), Failure>,
    ) -> io::Result<()> {
        match outcome {
            Ok(()) => Ok(()),
            Err(Failure::Memory(error)) => Err(error.into()),
            Err(Failure::Found(finding)) => self.disagree(rt, Disagreement { subject, finding }),
        }
    }

    fn disagree(&mut self, rt: &impl Print, disagreement: Disagreement) -> io::Result<()> {
        if self.count(Count::Disagreements) <= SHOWN {
            println!(rt; "{disagreement}")?;
        }
        Ok(())
    }

    // Prints how many rows a source had and the router's answers to them, and begins these anew.
    pub fn report_source(&mut self, rt: &impl Print, source: Source) -> io::Result<()> {
        let Outcomes {
            rows,
            accepted,
            stuck,
            late,
        } = mem::take(&mut self.source);
        println!(rt; "{rows} {source}")?;
        println!(rt; "{accepted} accepted")?;
        println!(rt; "{stuck} refused with 6")?;
        println!(rt; "{late} of these at a node in the second half")
    }

    fn report_pairs(&self, rt: &impl Print) -> io::Result<()> {
        let least = self.pairs.iter().copied().min().unwrap_or(0);
        let most = self.pairs.iter().copied().max().unwrap_or(0);
        println!(rt; "{least} random rows under the least tried pair of streets")?;
        println!(rt; "{most} random rows under the most tried pair of streets")
    }

    // Prints how often each of some things was counted.
    fn report_counts(&self, rt: &impl Print, counted: &[Count]) -> io::Result<()> {
        for what in counted {
            println!(rt; "{} {what}", self.of(*what))?;
        }
        Ok(())
    }

    // Prints how often the reader and the drawer said each number that one of them said.
    fn report_numbers(&self, rt: &impl Print) -> io::Result<()> {
        for (number, Times { read, drawn }) in self.numbers.iter().enumerate() {
            if *read != 0 || *drawn != 0 {
                println!(rt; "{number} said {read} times by the reader, {drawn} by the drawer")?;
            }
        }
        Ok(())
    }

    // Prints the counts over all sources, and last how many rows and sheets disagree.
    pub fn report(&self, rt: &impl Print) -> io::Result<()> {
        self.report_pairs(rt)?;
        self.report_counts(
            rt,
            &[
                Count::LoneRows,
                Count::LoneFound,
                Count::EarlyCalls,
                Count::SheetsRead,
                Count::Agreements,
                Count::Unlike,
            ],
        )?;
        self.report_numbers(rt)?;
        self.report_counts(
            rt,
            &[
                Count::ShortFilms,
                Count::Films,
                Count::Records,
                Count::Points,
                Count::Sheets,
            ],
        )?;
        let rows = self.of(Count::Rows);
        let disagreements = self.of(Count::Disagreements);
        println!(rt; "{rows} rows, {disagreements} disagreements")
    }
}
