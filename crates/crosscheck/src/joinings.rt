// Every way of joining the nodes of a short row, none alone, under every pair of streets; and every way with some nodes blank. The ways of parting nodes into
// nets with some alone are these: a node that is alone is left blank.
use secondrouter::nets::{BLANK_LABEL, first_lone, is_lone};
use secondrouter::streets::Streets;
use std::alloc::{AllocError, Global};
use std::io;
use tallies::source::Source;
use trials::trial::Trials;

// There are 21,147 ways to part nine nodes into nets: so many turns are enough, and a `while let` would need a measure of the ways that are left.
const PARTINGS: usize = 21147;

// Joinings of 2 to `most` nodes that are tested as one source: none of the nodes is blank, or at least one is.
#[derive(Clone, Copy)]
pub struct Sort {
    source: Source,
    most: usize,
    has_blanks: bool,
}

pub const FULL: Sort = Sort {
    source: Source::Joinings,
    most: 9,
    has_blanks: false,
};

pub const BLANK: Sort = Sort {
    source: Source::BlankJoinings,
    most: 8,
    has_blanks: true,
};

// The last node whose label can be the next one: no later than that of the next new net. By its number, since the labels before it decide.
fn last_to_rise(labels: &[u8]) -> Option<usize> {
    (1..labels.len()).rev().find(|i| {
        let before = labels.iter().take(*i);
        labels.get(*i) <= before.max()
    })
}

// Goes on to the way of parting nodes that comes next where the label of node `i` rises.
fn rise(labels: &mut [u8], i: usize) {
    let Some(rest) = labels.get_mut(i..) else {
        return;
    };
    if let Some((label, after)) = rest.split_first_mut() {
        *label = label.saturating_add(1);
        after.fill(0);
    }
}

// Tests the row under every pair of streets.
fn under_all(trials: &mut Trials<impl Print>, row: &[u8]) -> io::Result<()> {
    for k in 0..16 {
        trials.tally.count_source_row();
        trials.test_row(row, Streets::nth(k))?;
    }
    Ok(())
}

// The row of a parting with the nodes left blank whose label stands there only.
fn leave_blanks(alloc: Global, labels: &[u8]) -> Result<Vec<u8>, AllocError> {
    let row = labels.iter().enumerate().map(|(i, label)| {
        if is_lone(labels, i) {
            BLANK_LABEL
        } else {
            *label
        }
    });
    row.collect(alloc)
}

// Tests every parting of so many nodes that has some alone, which are left blank, or every one that has none. Labels are given in the order of first nodes.
fn of_nodes(trials: &mut Trials<impl Print>, nodes: usize, has_blanks: bool) -> io::Result<()> {
    let mut labels = vec![in trials.alloc; 0; nodes]?;
    for _ in 0..PARTINGS {
        if first_lone(&labels).is_some() == has_blanks {
            let row = leave_blanks(trials.alloc, &labels)?;
            under_all(trials, &row)?;
        }
        let Some(i) = last_to_rise(&labels) else {
            break;
        };
        rise(&mut labels, i);
    }
    Ok(())
}

// Tests every joining of a sort, and prints what came of them.
pub fn test(trials: &mut Trials<impl Print>, sort: Sort) -> io::Result<()> {
    for nodes in 2..=sort.most {
        of_nodes(trials, nodes, sort.has_blanks)?;
    }
    trials.report_source(sort.source)
}
