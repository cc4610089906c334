// Where a net stands in an order of at most six nets, and how many orders there are.
ghost use Rattle.std.specs.Prelude.{◌≤◌, ◌<◌};
ghost use Rattle.steps.specs.Ranks.{capacity};
ghost use Rattle.steps.specs.Sets.{ranks};
ghost use Rattle.steps.specs.Stops.{Beside, Factorial};

static FACTORIALS: [usize; 7] = [1, 1, 2, 6, 24, 120, 720];

// A net in an order: how many stand above it, and the rank of the order without it.
#[derive(Clone, Copy)]
pub struct Place {
    pub at: usize,
    pub rest: usize,
}

// A net among older ones and the youngest, which has `first` above it, where `place` is the net's among the older and `unit` how many orders one fewer have.
pub(crate) fn beside(first: usize, unit: usize, place: Place) -> Place
    requires first_le_capacity { (first ≤ capacity) × (unit ≤ ranks) }
    requires at_lt_capacity { (place.at < capacity) × (place.rest ≤ ranks) }
    ensures { Beside first unit place result }
{
    let at = place.at;
    let rest = place.rest;
    if first <= at {
        return Place {
            at: at + 1,
            rest: first * unit + rest,
        };
    }
    Place {
        at,
        rest: (first - 1) * unit + rest,
    }
}

// How many orders n nets have.
pub fn factorial(n: usize) -> usize
    requires { n ≤ capacity }
    ensures { Factorial n result }
{
    FACTORIALS[n]
}
