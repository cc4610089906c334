// Films as sets of records, whose order is free.
use crate::is_kept;

// Bytes of a record.
const RECORD: usize = 5;

// Whether a film starts with the wanted records in any order, each once, and still has the pattern behind them.
pub fn is_drawn(film: &[u8], wanted: &[u8]) -> bool {
    let n = wanted.len();
    n % RECORD == 0
        && film
            .get(..n)
            .is_some_and(|drawn| has_records(drawn, wanted))
        && is_kept(film, n)
}

// Whether the records of one film are those of another, each once.
fn has_records(drawn: &[u8], wanted: &[u8]) -> bool {
    wanted.chunks_exact(RECORD).all(|record| copies(drawn, record) == 1
        && copies(wanted, record) == 1)
}

// How often a record stands in a film.
fn copies(film: &[u8], record: &[u8]) -> usize {
    film.chunks_exact(RECORD)
        .filter(|other| *other == record)
        .count()
}
