// A film's records, five bytes each, and the steps that they take from point to point.
use crate::fields::Fields;

// Levels −4 to 4 stand at 0 to 8, so the pins at 4.
pub const AXIS: usize = 4;

// A place of the film.
#[derive(Clone, Copy, PartialEq, Eq, Debug)]
pub struct Place {
    pub column: usize,
    pub level: usize,
}

// A step of a record from a place to the next one.
#[derive(Clone, Copy, PartialEq, Eq, PartialOrd, Ord, Debug)]
pub enum Step {
    Up,
    Right,
}

// Steps of a net behind one another: a record, or a piece of one.
#[derive(Clone, Copy, PartialEq, Eq, Debug)]
pub struct Run {
    pub net: u8,
    pub from: Place,
    pub step: Step,
    pub count: usize,
}

impl Place {
    // The place that so many steps lead to.
    pub fn after(self, step: Step, count: usize) -> Place {
        let Place { column, level } = self;
        match step {
            Step::Up => Place {
                column,
                level: level.saturating_add(count),
            },
            Step::Right => Place {
                column: column.saturating_add(count),
                level,
            },
        }
    }

    // The place that a step comes from; none at the edge of the film.
    pub fn before(self, step: Step) -> Option<Place> {
        let Place { column, level } = self;
        match step {
            Step::Up => Some(Place {
                column,
                level: level.checked_sub(1)?,
            }),
            Step::Right => Some(Place {
                column: column.checked_sub(1)?,
                level,
            }),
        }
    }
}

impl Run {
    // A run on a level, from a column on.
    pub fn across(net: u8, level: usize, column: usize, count: usize) -> Run {
        Run {
            net,
            from: Place { column, level },
            step: Step::Right,
            count,
        }
    }

    // A run in a column between two levels.
    pub fn upright(net: u8, column: usize, a: usize, b: usize) -> Run {
        let level = a.min(b);
        Run {
            net,
            from: Place { column, level },
            step: Step::Up,
            count: a.max(b) - level,
        }
    }

    // The place that the first steps of it lead to.
    pub fn place(&self, steps: usize) -> Place {
        self.from.after(self.step, steps)
    }
}

// The horizontal that the fields behind a record's first bit spell; none if it has no step, or the bit behind them is set.
fn horizontal(fields: &mut Fields) -> Option<Run> {
    let net = u8::try_from(fields.take(8)).ok()?;
    let level = fields.take(4);
    let left = fields.take(13);
    let count = fields.take(13).checked_sub(left)?;
    (count != 0 && fields.take(1) == 0).then_some(Run::across(net, level, left, count))
}

// The vertical that they spell, where they stand in another order; none if it has no step, or a bit behind them is set.
fn vertical(fields: &mut Fields) -> Option<Run> {
    let net = u8::try_from(fields.take(8)).ok()?;
    let lower = fields.take(4);
    let column = fields.take(13);
    let higher = fields.take(4);
    (lower < higher && fields.take(10) == 0).then_some(Run::upright(net, column, lower, higher))
}

// The record that bytes spell; none if it has no step, or a bit behind its fields is set.
pub fn decode(bytes: &[u8]) -> Option<Run> {
    let mut fields = Fields::new(bytes);
    if fields.bit() {
        vertical(&mut fields)
    } else {
        horizontal(&mut fields)
    }
}
