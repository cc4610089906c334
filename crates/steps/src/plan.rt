// A node as the router's passes read it: its step in the row's plan, between two streets.
ghost use Rattle.std.specs.Prelude.{◌≡◌};
ghost use Rattle.steps.specs.Plan.{step, turn_kind};

use rules::{Kind, Streets};
use std::marker::Model;

// What a node is to the open nets: it begins one more, meets or ends one of them, or rests, as a blank does. A net is told by its age, how many open nets are younger.
#[derive(Clone, Copy, Debug, PartialEq, Eq)]
pub enum Turn {
    Begins,
    Meets(u8),
    Ends(u8),
    Rests,
}

impl From<Turn> for Kind {
    ghost from_gives = { λ t r. r ≡ turn_kind t };

    fn from(turn: Turn) -> Kind {
        match turn {
            Turn::Begins => Kind::B,
            Turn::Meets(_) => Kind::M,
            Turn::Ends(_) => Kind::E,
            Turn::Rests => Kind::N,
        }
    }
}

// A node's turn, and how many nets are open before it. The turn stands as the node's kind field and an age, 0 where no net is met or ends: a match on a `Turn` that is read from
// memory is compiled to a jump through a table, at each node of each pass, and a match on the kind field to comparisons. With the jump the router is over its limit of time on
// rows that are routed again and again.
#[derive(Clone, Copy, Debug, PartialEq, Eq)]
pub struct Step {
    kind: u8,
    age: u8,
    count: u8,
}

impl Model for Step {
    ghost use Rattle.steps.specs.Plan.{Step};

    ghost Value = { Step };

    ghost use Rattle.steps.specs.Fields.{step_seen, IsOfTurn, of_step, of_step_ok};

    ghost view = { step_seen };

    ghost invariant = { IsOfTurn };

    ghost inverse = { of_step };

    ghost inverse_ok = { of_step_ok };
}

impl Step {
    // The step of a node with this turn and so many nets open before it.
    #[tactic(auto, unfolding(rules::specs::Sheet::code))]
    pub fn new(turn: Turn, count: u8) -> Step
        ensures { result ≡ step turn count }
    {
        let (kind, age) = match turn {
            Turn::Begins => (0, 0),
            Turn::Meets(age) => (1, age),
            Turn::Ends(age) => (2, age),
            Turn::Rests => (3, 0),
        };
        Step { kind, age, count }
    }

    // The node's turn.
    pub fn turn(self) -> Turn
        ensures { result ≡ self.turn }
    {
        match self.kind {
            0 => Turn::Begins,
            1 => Turn::Meets(self.age),
            2 => Turn::Ends(self.age),
            _ => Turn::Rests,
        }
    }

    // How many nets are open before the node.
    pub fn count(self) -> u8
        ensures { result ≡ self.count }
    {
        self.count
    }
}

// A step with the streets that the row is routed through.
#[derive(Clone, Copy, Debug)]
pub struct Stop {
    pub step: Step,
    pub streets: Streets,
}
