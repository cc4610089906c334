// The agreement test of a sheet, with a row and with rows near it.
use filmtrials::films::SheetTrial;
use secondreader::judge::joins_alike;
use secondrouter::nets::{BLANK_LABEL, Node};
use std::alloc::{AllocError, Global};
use tallies::failure::{Failure, Finding, Part};
use tallies::patterns::part_mut;

// A sheet that rows are tried with, and its nodes where the reader takes it.
#[derive(Drop)]
struct RowTrials<'t, 'a> {
    trial: &'t mut SheetTrial<'a>,
    nodes: Option<&'t [Node]>,
}

impl RowTrials<'_, '_> {
    // Fails where the agreement test does not say of a row what it has to.
    fn try_row(&mut self, row: &[u8]) -> Result<(), Finding> {
        let wanted = self.nodes.is_some_and(|nodes| joins_alike(row, nodes));
        let said = sheet::agreement::agrees(row, self.trial.sheet);
        self.trial.tally.count_agreement(wanted);
        Part::Agreement.holds(said == wanted)
    }
}

// A label other than that of node `i`, looked for from node `start` on.
fn other_label(row: &[u8], i: usize, start: usize) -> Option<u8> {
    let own = row.get(i)?;
    let (before, after) = row.split_at_checked(start)?;
    after
        .iter()
        .chain(before.iter())
        .copied()
        .find(|label| label != own)
}

// A label that no node of the row has; 0 where none of nets is left. The row is judged with that one too, so it need not say that none is.
fn unused(row: &[u8]) -> u8 {
    (0..BLANK_LABEL)
        .find(|label| !row.contains(label))
        .unwrap_or(0)
}

// Another label for node `i`: that of a blank, or one that no node has where that is its own.
fn blank_or_not(row: &[u8], i: usize) -> u8 {
    if row.get(i) == Some(&BLANK_LABEL) {
        unused(row)
    } else {
        BLANK_LABEL
    }
}

// The node of a row that a number stands for, counted round.
fn node_of(row: &[u8], number: usize) -> usize {
    number.checked_rem(row.len()).unwrap_or(0)
}

// The row that is tried in place of a sheet's own, in memory that is lent.
#[derive(Drop)]
struct NearRow<'a> {
    near: &'a mut [u8],
}

impl NearRow<'_> {
    // Has the row as it is, or its start where less is lent.
    fn copy(&mut self, row: &[u8]) {
        for (label, own) in self.near.iter_mut().zip(row) {
            *label = *own;
        }
    }

    // Tries the row with another label at node `i`.
    fn try_changed(&mut self, rows: &mut RowTrials, i: usize, label: u8) -> Result<(), Finding> {
        self.copy(rows.trial.row);
        if let Some(node) = self.near.get_mut(i) {
            *node = label;
        }
        rows.try_row(self.near)
    }

    // Tries the row with a node moved to another net, or to the blanks, if there is another label.
    fn try_moved(&mut self, rows: &mut RowTrials) -> Result<(), Finding> {
        let row = rows.trial.row;
        let seed = rows.trial.seed;
        let i = node_of(row, seed / 3);
        match other_label(row, i, node_of(row, seed / 5)) {
            Some(label) => self.try_changed(rows, i, label),
            None => Ok(()),
        }
    }

    // Tries the row with a node left blank, or given a label if it is blank.
    fn try_blanked(&mut self, rows: &mut RowTrials) -> Result<(), Finding> {
        let row = rows.trial.row;
        let i = node_of(row, rows.trial.seed / 7);
        self.try_changed(rows, i, blank_or_not(row, i))
    }

    // Tries the row once its blanks are a net.
    fn try_filled(&mut self, rows: &mut RowTrials) -> Result<(), Finding> {
        self.copy(rows.trial.row);
        let label = unused(rows.trial.row);
        for node in self.near.iter_mut() {
            if *node == BLANK_LABEL {
                *node = label;
            }
        }
        rows.try_row(self.near)
    }
}

// What is wrong with the agreement test of the row and of rows near it, if anything is, where `nodes` are the sheet's if the reader takes it; on every fourth sheet the row
// with its blanks joined is tried too, and the row without its last node. Rows near it are made in what is lent, which has a byte for each node.
pub fn agreement_fault(
    near: &mut [u8],
    trial: &mut SheetTrial,
    nodes: Option<&[Node]>,
) -> Result<(), Finding> {
    let row = trial.row;
    let seed = trial.seed;
    let mut other = NearRow {
        near: part_mut(near, row.len()),
    };
    let mut rows = RowTrials { trial, nodes };
    rows.try_row(row)?;
    other.try_moved(&mut rows)?;
    other.try_blanked(&mut rows)?;
    if seed / 16 % 4 != 2 {
        return Ok(());
    }
    other.try_filled(&mut rows)?;
    match row.split_last() {
        Some((_, others)) => rows.try_row(others),
        None => Ok(()),
    }
}

// The same in memory of its own, which is kept from one sheet to the next.
#[derive(Drop)]
pub struct Agreement {
    near: Vec<u8>,
}

impl Agreement {
    pub fn new(alloc: Global) -> Agreement {
        Agreement {
            near: Vec::new(alloc),
        }
    }

    // Lends a byte for each of so many nodes.
    pub fn lent(&mut self, nodes: usize) -> Result<&mut [u8], AllocError> {
        self.near.resize(nodes, 0)?;
        Ok(&mut self.near)
    }

    // Tries the row and rows near it.
    pub fn try_all(
        &mut self,
        trial: &mut SheetTrial,
        nodes: Option<&[Node]>,
    ) -> Result<(), Failure> {
        let near = self.lent(trial.row.len())?;
        Ok(agreement_fault(near, trial, nodes)?)
    }
}
