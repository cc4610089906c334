// A sheet: what the reader, the agreement test and the drawer say of it, against the second router's judgement.
use crate::agreement::{Agreement, agreement_fault};
use answers::Said;
use filmtrials::films::{FilmTrials, LentFilms, SheetTrial, drawing_fault};
use secondreader::judge::{
    Fault, Head, MOST_NODES, first_fault, node_count, number_nets, read_head, reader_answer,
};
use secondrouter::nets::{Kind, Node, numbers};
use secondrouter::placing::Placing;
use secondrouter::streets::Streets;
use std::alloc::{AllocError, Global};
use tallies::failure::{Failure, Finding, Part};
use tallies::patterns::{fill, keeps, part_mut};

// The most bytes that are lent to the reader.
const ROW: usize = 640;

// The answer that a fault is.
fn refusal(fault: Fault) -> Said {
    let (number, place) = fault.answer();
    Said { number, place }
}

// What the reader is to do: give back the row of the nodes, or refuse the sheet with an answer.
type Wanted<'a> = Result<&'a [Node], Said>;

// Whether a row begins with the labels that the reader gives the nodes.
fn is_row_of(row: &[u8], nodes: &[Node]) -> bool {
    let labels = nodes.iter().map(|node| node.label());
    row.iter().copied().take(nodes.len()).eq(labels)
}

// How many bytes are lent to the reader at the least: the node count of the sheet, where that can be right.
fn row_need(sheet: &[u8]) -> usize {
    node_count(sheet) % 513
}

// Fails where the reader, lent so many bytes, does not say what is wanted, or leaves another row. The drawer's goes the same course: a trait for both would take the
// buffer, who is asked, the count and the row's own test, and be no shorter.
fn try_call(
    back: &mut [u8],
    trial: &mut SheetTrial,
    lent: usize,
    wanted: Wanted,
) -> Result<(), Finding> {
    let back = part_mut(back, lent);
    fill(back, trial.seed);
    let said = sheet::reader::read(trial.sheet, back);
    let nodes = wanted.unwrap_or(&[]);
    let answer = match wanted {
        Ok(nodes) => Said {
            number: 0,
            place: nodes.len(),
        },
        Err(answer) => answer,
    };
    trial.tally.count_read(answer);
    Part::Reader.says(said, answer)?;
    Part::Reader.holds(is_row_of(back, nodes))?;
    Part::Reader.holds(keeps(back, nodes.len(), trial.seed))
}

// Fails where a row buffer one byte short does not get 14, or 11 to 13 where they hold, or is changed; tried on every fourth sheet.
fn try_short(back: &mut [u8], trial: &mut SheetTrial) -> Result<(), Finding> {
    if trial.seed / 16 % 4 != 1 {
        return Ok(());
    }
    let wanted = match read_head(trial.sheet) {
        Ok(_) => Said {
            number: 14,
            place: 0,
        },
        Err(fault) => refusal(fault),
    };
    let short = row_need(trial.sheet).saturating_sub(1);
    let lent = short.saturating_sub(trial.seed % 2);
    try_call(back, trial, lent, Err(wanted))
}

// Tries the reader, with a row buffer that suffices and with one that does not.
fn try_reader(back: &mut [u8], trial: &mut SheetTrial, wanted: Wanted) -> Result<(), Finding> {
    try_short(back, trial)?;
    let lent = row_need(trial.sheet).saturating_add(trial.seed % 6);
    try_call(back, trial, lent, wanted)
}

// The first nodes, or all where there are fewer.
fn first(nodes: &mut [Node], count: usize) -> &mut [Node] {
    let end = count.min(nodes.len());
    &mut nodes[..end]
}

// Whether nodes have the numbers of a row's nets.
fn is_numbered(row: &[u8], nodes: &[Node]) -> bool {
    let mut own = [None; MOST_NODES];
    let own = &mut own[..row.len().min(MOST_NODES)];
    numbers(row, own);
    row.len() == nodes.len() && nodes.iter().map(|node| node.net).eq(own.iter().copied())
}

// Tries the reader and the agreement test.
fn try_readings(
    back: &mut [u8],
    near: &mut [u8],
    trial: &mut SheetTrial,
    wanted: Wanted,
) -> Result<(), Finding> {
    try_reader(back, trial, wanted)?;
    agreement_fault(near, trial, wanted.ok())
}

// What the reader is to do with a sheet without a fault, whose nodes have the numbers of so many nets.
fn reading(nodes: &[Node], nets: usize) -> Wanted<'_> {
    match reader_answer(nodes.len(), nets) {
        Ok(_) => Ok(nodes),
        Err(fault) => Err(refusal(fault)),
    }
}

// What the second router makes of the sheet of an accepted row: its head, and how many nets its nodes have, which are then the first of those that are lent. It has to take
// the sheet, and to give back the numbers of the row's nets.
fn judge_own(trial: &SheetTrial, nodes: &mut [Node; MOST_NODES]) -> Result<(Head, usize), Finding> {
    let Ok(head) = first_fault(trial.sheet, nodes) else {
        return Err(Part::SecondRouter.fails());
    };
    let nodes = first(nodes, head.nodes);
    let nets = number_nets(nodes);
    Part::SecondRouter.holds(is_numbered(trial.row, nodes))?;
    Ok((head, nets))
}

// What is wrong with the answers to the sheet of an accepted row, if anything is. What is lent: `back` for the row that the reader gives back, `near` for rows near the
// trial's, with a byte for each of its nodes, and what the film needs.
pub fn row_fault(
    back: &mut [u8],
    near: &mut [u8],
    films: LentFilms,
    trial: &mut SheetTrial,
) -> Result<(), Finding> {
    let mut nodes = [Node::new(Kind::Blank, 0); MOST_NODES];
    let (head, nets) = judge_own(trial, &mut nodes)?;
    let nodes = first(&mut nodes, head.nodes);
    try_readings(back, near, trial, reading(nodes, nets))?;
    drawing_fault(films, trial, nodes, head.streets, nets)?;
    Ok(())
}

// The trials of a sheet in memory of their own.
#[derive(Drop)]
pub struct SheetTrials {
    back: Vec<u8>,
    // The nodes of the sheet that is tried, where it has no fault.
    sheet: Placing,
    agreement: Agreement,
    films: FilmTrials,
}

impl SheetTrials {
    // A constructor takes the allocator, and can run out of memory, where `Default` does neither.
    pub fn new(alloc: Global) -> Result<SheetTrials, AllocError> {
        Ok(SheetTrials {
            back: vec![in alloc; 0; ROW]?,
            sheet: Placing {
                streets: Streets::nth(0),
                nodes: Vec::new(alloc),
            },
            agreement: Agreement::new(alloc),
            films: FilmTrials::new(alloc)?,
        })
    }

    // Tries a sheet without a fault, whose nodes have the numbers of so many nets.
    fn try_legal(
        &mut self,
        trial: &mut SheetTrial,
        nodes: &[Node],
        streets: Streets,
        nets: usize,
    ) -> Result<(), Failure> {
        let near = self.agreement.lent(trial.row.len())?;
        try_readings(&mut self.back, near, trial, reading(nodes, nets))?;
        self.sheet.streets = streets;
        self.sheet.nodes.clear();
        self.sheet.nodes.extend_from_slice(nodes)?;
        self.films.try_legal(trial, &self.sheet, nets)
    }

    // Tries a sheet that has to be refused with an answer.
    fn try_illegal(&mut self, trial: &mut SheetTrial, wanted: Said) -> Result<(), Failure> {
        let near = self.agreement.lent(trial.row.len())?;
        try_readings(&mut self.back, near, trial, Err(wanted))?;
        self.films.try_refused(trial, wanted)
    }

    // Tries any sheet.
    pub fn try_sheet(&mut self, trial: &mut SheetTrial) -> Result<(), Failure> {
        let mut nodes = [Node::new(Kind::Blank, 0); MOST_NODES];
        match first_fault(trial.sheet, &mut nodes) {
            Ok(head) => {
                let nodes = first(&mut nodes, head.nodes);
                let nets = number_nets(nodes);
                self.try_legal(trial, nodes, head.streets, nets)
            }
            Err(fault) => self.try_illegal(trial, refusal(fault)),
        }
    }

    // Tries the sheet of an accepted row, with memory for its own nodes once it is judged.
    pub fn try_own(&mut self, trial: &mut SheetTrial) -> Result<(), Failure> {
        let mut nodes = [Node::new(Kind::Blank, 0); MOST_NODES];
        let (head, nets) = judge_own(trial, &mut nodes)?;
        self.try_legal(trial, first(&mut nodes, head.nodes), head.streets, nets)
    }
}

#[cfg(test)]
mod tests {
    use super::*;
    use tallies::tally::Tally;

    // A specimen of document 01 with the row that it is the sheet of.
    fn specimen(tally: &mut Tally) -> SheetTrial<'_> {
        SheetTrial {
            tally,
            sheet: &[0x14, 0x04, 0x00, 0x08, 0x60],
            row: &[0, 1, 0, 1],
            seed: 0,
        }
    }

    #[test]
    fn a_sheet_is_its_rows(rt: HostRuntime) {
        let Ok(mut sheets) = SheetTrials::new(rt.alloc()) else {
            panic!(rt; "no memory");
        };
        let mut tally = Tally::default();
        let mut trial = specimen(&mut tally);
        assert!(rt; sheets.try_own(&mut trial).is_ok());
        trial.row = &[0, 1, 1, 0];
        assert!(rt; matches!(sheets.try_own(&mut trial), Err(Failure::Found(_))));
        assert!(rt; sheets.try_sheet(&mut trial).is_ok());
    }

    #[test]
    fn lent_memory_serves_as_well(rt: HostRuntime) {
        let Ok(mut own) = FilmTrials::new(rt.alloc()) else {
            panic!(rt; "no memory");
        };
        let Ok(films) = own.lent(4) else {
            panic!(rt; "no memory");
        };
        let mut tally = Tally::default();
        let mut trial = specimen(&mut tally);
        assert!(rt; row_fault(&mut [0; 16], &mut [0; 4], films, &mut trial).is_ok());
    }
}
