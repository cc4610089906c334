// Document 02's order of records: by net, then by left column (a vertical's own column), then vertical before horizontal.
use crate::fields::Fields;
use crate::records::{Run, Step};

// What a record's place in the order goes by: its net, its column and its step. No `Ord` of runs: their count has no part in it.
type Rank = (usize, usize, Step);

fn rank(record: &Run) -> Rank {
    (usize::from(record.net), record.from.column, record.step)
}

// The same of a film's record `k`, by its bits alone, whatever else they spell: both layouts have the column at the same ones.
fn rank_at(film: &[u8], k: usize) -> Rank {
    let from = k.saturating_mul(5);
    let mut fields = Fields::new(film.get(from..).unwrap_or(&[]));
    let step = if fields.bit() { Step::Up } else { Step::Right };
    let net = fields.take(8);
    fields.take(4);
    (net, fields.take(13), step)
}

// Whether each of a film's first `records` records goes before the next, so that no two have the same place in the order. Bits past the end of the film are 0.
pub fn in_order(film: &[u8], records: usize) -> bool {
    (1..records).all(|k| rank_at(film, k.saturating_sub(1)) < rank_at(film, k))
}

// Whether each of some records goes before the next.
pub fn runs_in_order(records: &[Run]) -> bool {
    records.is_sorted_by(|record, next| rank(record) < rank(next))
}
