// Document 01's wire rules, tested point by point on a film's records; and that no record comes to a blank's pin.
use crate::records::{AXIS, Place, Run, Step, decode};
use secondrouter::nets::{Kind, Node};
use secondrouter::placing::Placing;
use secondrouter::streets::Streets;
use std::alloc::{AllocError, Global};
use std::mem;

pub const LEVELS: usize = 9;

// How many places a walk is given at first.
const FEW: usize = 64;

// Why a film is not one of a placing's. `JudgeError` and `Failure` have a cause beside `Memory` too: in one generic enum each cause would be matched inside
// `Cause(..)`, and this one would be `Cause(())`.
#[derive(Clone, Copy, PartialEq, Eq)]
pub enum FilmError {
    Broken,
    Memory(AllocError),
}

// A wire rule is broken, or what is to be there is not: alone the error of what cannot run out of memory.
#[derive(Clone, Copy, PartialEq, Eq)]
pub struct Broken;

impl From<Broken> for FilmError {
    fn from(_: Broken) -> FilmError {
        FilmError::Broken
    }
}

impl From<AllocError> for FilmError {
    fn from(error: AllocError) -> FilmError {
        FilmError::Memory(error)
    }
}

// Fails where a rule is broken.
fn holds(rule: bool) -> Result<(), Broken> {
    if rule { Ok(()) } else { Err(Broken) }
}

// What is kept of a point of the film: at first that no record comes to it. Its steps are two flags and no array by step: the cut asks for
// those to the right alone.
#[derive(Clone, Copy, Default)]
pub struct Point {
    // The net that has it.
    net: Option<u8>,
    // A record goes on to the right.
    right: bool,
    // A record goes on upward.
    up: bool,
    // The walk came here.
    reached: bool,
}

impl Point {
    // Whether a record has a step from here.
    fn has(&self, step: Step) -> bool {
        match step {
            Step::Right => self.right,
            Step::Up => self.up,
        }
    }

    // Says whether a record has a step from here; gives whether one had.
    fn set(&mut self, step: Step, has: bool) -> bool {
        match step {
            Step::Right => mem::replace(&mut self.right, has),
            Step::Up => mem::replace(&mut self.up, has),
        }
    }

    // Gives the point to a net. It may have no other.
    fn give(&mut self, net: u8) -> Result<(), Broken> {
        holds(*self.net.get_or_insert(net) == net)
    }

    // Lays a step of a net's record. No other record may have it.
    fn lay(&mut self, step: Step, net: u8) -> Result<(), Broken> {
        holds(!self.set(step, true))?;
        self.give(net)
    }

    // Takes a step of a net away. It has to be there.
    fn take(&mut self, step: Step, net: u8) -> Result<(), Broken> {
        holds(self.set(step, false) && self.net == Some(net))
    }
}

// The column of node `i`.
pub fn column_of(i: usize) -> usize {
    i.saturating_mul(16)
}

// The pin of node `i`.
fn pin(i: usize) -> Place {
    Place {
        column: column_of(i),
        level: AXIS,
    }
}

// Whether a level lies on a track of the two streets, or on the axis.
fn in_streets(level: usize, streets: Streets) -> bool {
    AXIS.saturating_sub(usize::from(streets.lower)) <= level
        && level <= AXIS + usize::from(streets.upper)
}

// Whether a record keeps to the streets. A horizontal may not lie on the axis.
fn is_inside(record: &Run, streets: Streets) -> bool {
    in_streets(record.from.level, streets)
        && in_streets(record.place(record.count).level, streets)
        && (record.step == Step::Up || record.from.level != AXIS)
}

// Whether two horizontals of a net go on from a column to the next one.
fn is_cut_twice(column: &[Point]) -> bool {
    column.iter().enumerate().any(|(i, point)| {
        point.right
            && column
                .iter()
                .take(i)
                .any(|other| other.right && other.net == point.net)
    })
}

// How many columns the film of so many nodes has: from the first pin's to the last one's.
pub fn columns_need(nodes: usize) -> usize {
    column_of(nodes.saturating_sub(1)).saturating_add(1)
}

// How many places its walk needs: one for each point.
pub fn places_need(nodes: usize) -> usize {
    columns_need(nodes).saturating_mul(LEVELS)
}

// Whether no step is left in some columns.
fn has_no_step(columns: &[[Point; LEVELS]]) -> bool {
    columns.iter().all(|column| column.iter().all(|point| !point.right && !point.up))
}

// The points of a film, column by column, in memory that is lent.
#[derive(Drop)]
pub struct LentFilm<'a> {
    columns: &'a mut [[Point; LEVELS]],
    // Places that the walk came to and has not left yet, and how many these are.
    open: &'a mut [Place],
    height: usize,
}

impl<'a> LentFilm<'a> {
    // The film of so many nodes, with no record, in the first of the columns. Where fewer columns are lent than `columns_need` says, or fewer places than a walk has at a
    // time, which are never more than `places_need` says, it counts as broken.
    pub fn new(
        columns: &'a mut [[Point; LEVELS]],
        open: &'a mut [Place],
        nodes: usize,
    ) -> LentFilm<'a> {
        let width = columns_need(nodes).min(columns.len());
        let columns = &mut columns[..width];
        columns.fill([Point::default(); LEVELS]);
        LentFilm {
            columns,
            open,
            height: 0,
        }
    }

    // The point at a place; none past the last pin's column.
    fn point(&self, place: Place) -> Option<&Point> {
        self.columns.get(place.column)?.get(place.level)
    }

    // The same, to be changed: `&` and `&mut` are two types. No record may need one that is not there.
    fn point_mut(&mut self, place: Place) -> Result<&mut Point, Broken> {
        self.columns
            .get_mut(place.column)
            .and_then(|column| column.get_mut(place.level))
            .ok_or(Broken)
    }

    // Lays a record. It goes one point farther than `take`, and asks another thing of each point: one loop for both would take that as a closure.
    fn lay(&mut self, record: Run) -> Result<(), Broken> {
        for k in 0..record.count {
            self.point_mut(record.place(k))?
                .lay(record.step, record.net)?;
        }
        self.point_mut(record.place(record.count))?.give(record.net)
    }

    // Takes the steps of a run away.
    pub fn take(&mut self, run: Run) -> Result<(), Broken> {
        for k in 0..run.count {
            self.point_mut(run.place(k))?.take(run.step, run.net)?;
        }
        Ok(())
    }

    // Lays all records. A step that is laid twice is a fault, so no record is there twice.
    fn lay_all(&mut self, film: &[u8], streets: Streets) -> Result<(), Broken> {
        for bytes in film.chunks_exact(5) {
            let record = decode(bytes).ok_or(Broken)?;
            holds(is_inside(&record, streets))?;
            self.lay(record)?;
        }
        Ok(())
    }

    // Lists a place.
    fn list(&mut self, place: Place) -> Result<(), Broken> {
        *self.open.get_mut(self.height).ok_or(Broken)? = place;
        self.height = self.height.saturating_add(1);
        Ok(())
    }

    // Whether there is no room for one more.
    fn is_full(&self) -> bool {
        self.height == self.open.len()
    }

    // The place that was listed last, which is taken off the list.
    fn leave(&mut self) -> Option<Place> {
        let last = self.height.checked_sub(1)?;
        self.height = last;
        self.open.get(last).copied()
    }

    // Comes to a place, once, and lists it.
    fn reach(&mut self, place: Place) -> Result<(), Broken> {
        let point = self.point_mut(place)?;
        if mem::replace(&mut point.reached, true) {
            return Ok(());
        }
        self.list(place)
    }

    // Whether a record has a step from a place.
    fn has(&self, place: Place, step: Step) -> bool {
        self.point(place).is_some_and(|point| point.has(step))
    }

    // Comes to the places that such a step joins to this one.
    fn spread(&mut self, place: Place, step: Step) -> Result<(), Broken> {
        if self.has(place, step) {
            self.reach(place.after(step, 1))?;
        }
        match place.before(step) {
            Some(before) if self.has(before, step) => self.reach(before),
            _ => Ok(()),
        }
    }

    // Comes to the pin of each net's first node.
    fn start(&mut self, nodes: &[Node]) -> Result<(), Broken> {
        self.height = 0;
        for (i, node) in nodes.iter().enumerate() {
            if node.kind == Kind::First {
                self.reach(pin(i))?;
            }
        }
        Ok(())
    }

    // Walks along records from the pins of first nodes. Each point is listed once, so there are no more turns than points; a
    // `while let` would need a measure that says so.
    fn walk(&mut self, nodes: &[Node]) -> Result<(), Broken> {
        self.start(nodes)?;
        for _ in 0..self.columns.len().saturating_mul(LEVELS) {
            let Some(place) = self.leave() else {
                break;
            };
            self.spread(place, Step::Right)?;
            self.spread(place, Step::Up)?;
        }
        Ok(())
    }

    // Whether the walk came to a node's pin, as a point of its net; or no record came to it, if the node is a blank.
    fn is_joined(&self, i: usize, node: &Node) -> bool {
        self.point(pin(i)).is_some_and(|pin| pin.net == node.net
            && pin.reached == node.net.is_some())
    }

    // Fails unless all nodes are joined.
    fn test_pins(&self, nodes: &[Node]) -> Result<(), Broken> {
        holds(
            nodes
                .iter()
                .enumerate()
                .all(|(i, node)| self.is_joined(i, node)),
        )
    }

    // Fails where the cut after a column meets two horizontals of a net, or the walk did not come to a net's point.
    fn test_points(&self) -> Result<(), Broken> {
        holds(!self.columns.iter().any(|column| is_cut_twice(column)))?;
        holds(
            self.columns.iter().all(|column| {
                column
                    .iter()
                    .all(|point| point.net.is_none() || point.reached)
            }),
        )
    }

    // How many points nets have.
    fn count(&self) -> usize {
        self.columns
            .iter()
            .map(|column| column.iter().filter(|point| point.net.is_some()).count())
            .fold(0, usize::saturating_add)
    }

    // Tests all wire rules on the records of nodes between two streets, and gives how many points they have. A piece that joins no pin is a fault too. Blanks alone have
    // no records and no points.
    pub fn count_points(
        &mut self,
        film: &[u8],
        nodes: &[Node],
        streets: Streets,
    ) -> Result<usize, Broken> {
        self.lay_all(film, streets)?;
        self.walk(nodes)?;
        self.count_walked(nodes)
    }

    // Tests the rules that are asked behind a walk, and gives how many points the records have.
    fn count_walked(&self, nodes: &[Node]) -> Result<usize, Broken> {
        self.test_pins(nodes)?;
        self.test_points()?;
        Ok(self.count())
    }

    // Whether no step is left.
    pub fn is_bare(&self) -> bool {
        has_no_step(self.columns)
    }
}

// The points of a film in memory of their own, which they keep from one film to the next.
#[derive(Drop)]
pub struct Film {
    columns: Vec<[Point; LEVELS]>,
    open: Vec<Place>,
}

impl Film {
    // No points yet.
    pub fn new(alloc: Global) -> Film {
        Film {
            columns: Vec::new(alloc),
            open: Vec::new(alloc),
        }
    }

    // The same points, lent.
    pub fn lent(&mut self) -> LentFilm<'_> {
        LentFilm {
            columns: &mut self.columns,
            open: &mut self.open,
            height: 0,
        }
    }

    // Has the memory of the film of so many nodes, and lends it.
    pub fn room(
        &mut self,
        nodes: usize,
    ) -> Result<(&mut [[Point; LEVELS]], &mut [Place]), AllocError> {
        self.columns
            .resize(columns_need(nodes), [Point::default(); LEVELS])?;
        let need = places_need(nodes);
        if self.open.len() < need {
            let column = 0;
            let level = 0;
            self.open.resize(need, Place { column, level })?;
        }
        Ok((&mut self.columns, &mut self.open))
    }

    // Takes the steps of a run away.
    pub fn take(&mut self, run: Run) -> Result<(), Broken> {
        self.lent().take(run)
    }

    // Has the columns of the film of so many nodes, or none where memory runs out.
    fn widen(&mut self, nodes: usize) -> Result<(), AllocError> {
        let columns = columns_need(nodes);
        let widened = self.columns.resize(columns, [Point::default(); LEVELS]);
        if widened.is_err() {
            self.columns.clear();
        }
        widened
    }

    // Has twice as many places for a walk, or a few at first.
    fn add_places(&mut self) -> Result<(), AllocError> {
        let column = 0;
        let level = 0;
        let more = self.open.len().saturating_mul(2).max(FEW);
        self.open.resize(more, Place { column, level })
    }

    // Tests all wire rules on a film's records of a placing, and gives how many points they have. A walk mostly has far fewer places at a time than `places_need` says, so
    // that it begins anew with twice as many where it ends with no room for one more; in as many turns as a number has bits it finds room, or memory runs out.
    pub fn count_points(&mut self, film: &[u8], placing: &Placing) -> Result<usize, FilmError> {
        let nodes: &[Node] = &placing.nodes;
        self.widen(nodes.len())?;
        for _ in 0..usize::BITS {
            let mut lent = LentFilm::new(&mut self.columns, &mut self.open, nodes.len());
            lent.lay_all(film, placing.streets)?;
            if lent.walk(nodes).is_ok() {
                return Ok(lent.count_walked(nodes)?);
            }
            if !lent.is_full() {
                return Err(FilmError::Broken);
            }
            self.add_places()?;
        }
        Err(FilmError::Broken)
    }

    // Whether no step is left.
    pub fn is_bare(&self) -> bool {
        has_no_step(&self.columns)
    }
}
