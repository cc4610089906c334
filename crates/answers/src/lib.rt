// The number and the place of each answer, for callers that take numbers.
#![tactic(auto)]

ghost use Rattle.std.specs.Prelude.{◌≡◌, ◌+◌, ◌*◌, ◌%◌, ◌++◌, Some, codes, decimal};
ghost use Rattle.rules.specs.Answers.{says, fault_said, route_said, read_said, draw_said};

use rules::{DrawError, Drawing, Fault, Limit, ReadError, Reading, RouteError, Routing};
use std::fmt;

// An answer in numbers, which is how C is told: 0 or the cause, and the node, the count or 0 that goes with it.
#[derive(Clone, Copy, Debug, PartialEq, Eq)]
pub struct Said {
    pub number: u32,
    pub place: usize,
}

impl fmt::Display for Said {
    ghost output = { λ s. Some (decimal s.number ++ codes " at " ++ decimal s.place) };

    fn fmt<W: fmt::Write>(&self, f: &mut fmt::Formatter<W>) -> fmt::Result {
        write!(f, "{} at {}", self.number, self.place)
    }
}

// What the router said.
impl From<Routing> for Said {
    ghost from_gives = { λ r s. says s.number s.place ≡ route_said r };

    #[tactic(auto, unfolding(rules::specs::Answers::route_said))]
    fn from(r: Routing) -> Said {
        match r {
            Ok(n) => tell(0, n),
            Err(RouteError::RowLength) => tell(1, 0),
            Err(RouteError::Tracks) => tell(2, 0),
            Err(RouteError::Lone(i)) => tell(3, i),
            Err(RouteError::WorkShort) => tell(4, 0),
            Err(RouteError::SheetShort) => tell(5, 0),
            Err(RouteError::Stuck(i)) => tell(6, i),
        }
    }
}

// What the reader said.
impl From<Reading> for Said {
    ghost from_gives = { λ r s. says s.number s.place ≡ read_said r };

    #[tactic(auto, unfolding(rules::specs::Answers::read_said))]
    fn from(r: Reading) -> Said {
        match r {
            Ok(n) => tell(0, n),
            Err(ReadError::RowShort) => tell(14, 0),
            Err(ReadError::Unfit(e)) => Said::from(e),
        }
    }
}

// What the drawer said.
impl From<Drawing> for Said {
    ghost from_gives = { λ d s. says s.number s.place ≡ draw_said d };

    #[tactic(auto, unfolding(rules::specs::Answers::draw_said))]
    fn from(d: Drawing) -> Said {
        match d {
            Ok(k) => tell(0, k),
            Err(DrawError::FilmShort) => tell(21, 0),
            Err(DrawError::Unfit(e)) => Said::from(e),
        }
    }
}

// Why a sheet was refused.
impl From<Fault> for Said {
    ghost from_gives = { λ e s. says s.number s.place ≡ fault_said e };

    #[tactic(auto, unfolding(rules::specs::Answers::fault_said, rules::specs::Answers::limit_number))]
    fn from(e: Fault) -> Said {
        match e {
            Fault::Head => tell(11, 0),
            Fault::Tracks => tell(12, 0),
            Fault::Length => tell(13, 0),
            Fault::Position(i) => tell(16, i),
            Fault::Street(Limit::Upper, i) => tell(17, i),
            Fault::Street(Limit::Lower, i) => tell(30, i),
            Fault::Street(Limit::Sum, i) => tell(31, i),
            Fault::Open(n) => tell(18, n),
            Fault::Padding => tell(19, 0),
            Fault::Nets => tell(23, 0),
        }
    }
}

// An answer as one number: its number · 2^32 + its place, of which the low 32 bits are kept.
impl From<Said> for u64 {
    ghost from_gives = { λ s n. n ≡ s.number * 4294967296 + s.place % 4294967296 };

    fn from(s: Said) -> u64 {
        u64::from(s.number) * 4294967296 + s.place as u64 % 4294967296
    }
}

// Any answer as that number.
pub fn code<A: Into<Said>>(answer: A) -> u64
    ensures { (s : _) × A.converts answer s × (result ≡ s.number * 4294967296 + s.place % 4294967296) }
{
    u64::from(answer.into())
}

fn tell(number: u32, place: usize) -> Said
    ensures { says result.number result.place ≡ says number place }
{
    Said { number, place }
}
