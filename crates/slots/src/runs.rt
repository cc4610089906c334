// The records of one net, each put in its slot: a vertical takes the net's next slot, and a run that it begins holds the slot behind it.
ghost use Rattle.std.specs.Prelude.{◌≡◌, ◌+◌, ◌-◌, ◌≤◌, ◌<◌, length};
ghost use Rattle.std.specs.Option.{IsSome, IsNone, IsSomeAnd};
ghost use Rattle.slots.specs.Stamps.{columns};
ghost use Rattle.slots.specs.Slots.{Room, Turned, Began, Ended};

use crate::levels::{Level, level_of_pins};
use crate::records::{put_across, put_wall};

// An open run: the slot that it holds, and the column where it began. Slots count from 1.
#[derive(Clone, Copy)]
pub struct Run {
    pub slot: u16,
    pub start: u16,
    ghost slot_from_one: { 1 ≤ slot },
    ghost start_within: { start < columns },
}

// Of a net the slot of its next record, and its open run, where it has one.
#[derive(Clone, Copy)]
pub struct Net {
    pub next: u16,
    pub run: Option<Run>,
    ghost next_from_one: { 1 ≤ next },
}

// A film, and by net where its records go: an entry for each number of eight bits, since there is no heap.
#[derive(Drop)]
pub struct Slots<'a> {
    pub film: &'a mut [u8],
    pub nets: [Net; 256],
    ghost whole: { length nets ≡ 256 },
}

impl Net {
    ghost use Rattle.slots.specs.Runs.{Stub};

    // Draws the stub of the net on a level at a column in its next slot, and gives the net after it. A column is a number with its bound, as in `records`.
    pub fn pass(self, film: &mut [u8], net: u8, level: Level, column: u16) -> Net
        requires { (self.next + 1 < 65536) × (column < columns) }
        ensures { Stub net level column film.old self film.new result }
    {
        let slot = self.next;
        put_wall(film, place(slot), net, column, level_of_pins(), level);
        Net {
            next: slot + 1,
            run: self.run,
        }
    }

    // The net once its next slot is taken for a vertical, and the slot behind it for the run that begins there, at a column.
    fn with_run(self, column: u16) -> Net
        requires { (self.next + 2 < 65536) × (column < columns) }
        ensures next { result.next ≡ self.next + 2 }
        ensures run { IsSomeAnd result.run (λ r. (r.slot ≡ self.next + 1) × (r.start ≡ column)) }
    {
        let slot = self.next;
        Net {
            next: slot + 2,
            run: Some(Run {
                slot: slot + 1,
                start: column,
            }),
        }
    }
}

// The net, the level and the column of a step are kept nowhere together: a struct of them would be made at each call and taken apart at once. `Room` is no
// invariant: each step takes one or two slots of it, and asks for as many.

impl Slots<'_> {
    ghost use Rattle.slots.specs.Runs.{SameFilm, Stubbed, Leads, nexts, run_at};

    // Ends the run of a net at a column, where the net moves from one level to another and its next run begins.
    pub fn turn(&mut self, net: u8, old: Level, level: Level, column: u16)
        requires { Room 2 (nexts self.old.nets) × IsSome (run_at self.old.nets net) × (column < columns) }
        ensures { SameFilm self.old self.new × Leads (Turned net old level column) self.old self.new }
    {
        let x = usize::from(net);
        let own = self.nets[x];
        let run = own.run.unwrap();
        put_across(self.film, place(run.slot), net, old, run.start, column);
        put_wall(self.film, place(own.next), net, column, level, old);
        self.nets[x] = own.with_run(column);
    }

    // Draws the stub of a net that begins on a level at a column; its first run begins there too.
    pub fn begin(&mut self, net: u8, level: Level, column: u16)
        requires { Room 2 (nexts self.old.nets) × IsNone (run_at self.old.nets net) × (column < columns) }
        ensures { SameFilm self.old self.new × Leads (Began net level column) self.old self.new }
    {
        let x = usize::from(net);
        let own = self.nets[x];
        put_wall(
            self.film,
            place(own.next),
            net,
            column,
            level_of_pins(),
            level,
        );
        self.nets[x] = own.with_run(column);
    }

    // Draws the stub of a net on a level at a column.
    pub fn pass(&mut self, net: u8, level: Level, column: u16)
        requires { Room 1 (nexts self.old.nets) × (column < columns) }
        ensures { Stubbed net level column self.old self.new }
    {
        let x = usize::from(net);
        self.nets[x] = self.nets[x].pass(self.film, net, level, column);
    }

    // Draws the stub and the last run of a net that ends on a level at a column.
    pub fn end(&mut self, net: u8, level: Level, column: u16)
        requires { Room 1 (nexts self.old.nets) × IsSome (run_at self.old.nets net) × (column < columns) }
        ensures { SameFilm self.old self.new × Leads (Ended net level column) self.old self.new }
    {
        let x = usize::from(net);
        let run = self.nets[x].run.unwrap();
        self.pass(net, level, column);
        put_across(self.film, place(run.slot), net, level, run.start, column);
        self.nets[x].run = None;
    }
}

// The record in a slot, from 0.
fn place(slot: u16) -> usize
    requires { 1 ≤ slot }
    ensures { result ≡ slot - 1 }
{
    usize::from(slot) - 1
}
