// A sheet's film: what the drawer says of the sheet and draws, against the second router's wires.
use answers::Said;
use secondfilm::records::Place;
use secondfilm::sheets::{record_count, records};
use secondfilm::wires::{Film, FilmError, LEVELS, LentFilm, Point};
use secondreader::picture::{shows, shows_wires};
use secondrouter::nets::Node;
use secondrouter::placing::Placing;
use secondrouter::streets::Streets;
use std::alloc::{AllocError, Global};
use tallies::count::Count;
use tallies::failure::{Failure, Finding, Part};
use tallies::patterns::{fill, keeps, part, part_mut};
use tallies::tally::Tally;

// The most bytes that are lent: 14 records a node and some more.
const FILM: usize = 40960;

// The trial of a sheet with a row: where it is counted, and the number that seeds its patterns and its choices.
#[derive(Drop)]
pub struct SheetTrial<'a> {
    pub tally: &'a mut Tally,
    pub sheet: &'a [u8],
    pub row: &'a [u8],
    pub seed: usize,
}

// A call of the drawer: how many bytes it is lent, and what it has to say.
#[derive(Clone, Copy)]
struct Call {
    part: Part,
    lent: usize,
    wanted: Said,
}

// The bytes of so many records.
fn film_need(records: usize) -> usize {
    records.saturating_mul(5)
}

// Fails where the drawer does not say what is wanted, or changes the film behind the records that it is to write.
fn try_call(film: &mut [u8], trial: &mut SheetTrial, call: Call) -> Result<(), Finding> {
    let film = part_mut(film, call.lent);
    fill(film, trial.seed);
    let said = film::drawer::draw(trial.sheet, film);
    trial.tally.count_drawn(call.wanted);
    call.part.says(said, call.wanted)?;
    let written = match call.wanted.number {
        0 => film_need(call.wanted.place),
        _ => 0,
    };
    call.part.holds(keeps(film, written, trial.seed))
}

// What is wrong where the drawer has to refuse a sheet with an answer, and to leave the film as it was, however long it is.
pub fn refusal_fault(film: &mut [u8], trial: &mut SheetTrial, wanted: Said) -> Result<(), Finding> {
    let call = Call {
        part: Part::Refusal,
        lent: trial.seed % 97,
        wanted,
    };
    try_call(film, trial, call)
}

// Fails where a film one byte short does not get 21 or is changed; tried on every fourth sheet that has records.
fn try_short(film: &mut [u8], trial: &mut SheetTrial, need: usize) -> Result<(), Finding> {
    if need == 0 || trial.seed / 16 % 4 != 0 {
        return Ok(());
    }
    trial.tally.count(Count::ShortFilms);
    let call = Call {
        part: Part::Refusal,
        lent: need - 1,
        wanted: Said {
            number: 21,
            place: 0,
        },
    };
    try_call(film, trial, call)
}

// Fails where the drawer does not draw a sheet without a fault in so many records.
fn try_drawer(film: &mut [u8], trial: &mut SheetTrial, records: usize) -> Result<(), Finding> {
    let need = film_need(records);
    try_short(film, trial, need)?;
    let call = Call {
        part: Part::Drawer,
        lent: need.saturating_add(trial.seed % 9),
        wanted: Said {
            number: 0,
            place: records,
        },
    };
    try_call(film, trial, call)
}

// Fails where the film breaks the wire rules, or does not show the very wires of the sheet.
fn try_wires(
    film: &[u8],
    points: &mut LentFilm,
    trial: &mut SheetTrial,
    nodes: &[Node],
    streets: Streets,
) -> Result<(), Finding> {
    let Ok(count) = points.count_points(film, nodes, streets) else {
        return Err(Part::Wires.fails());
    };
    trial.tally.count_film(film.len() / 5, count);
    Part::Wires.holds(shows_wires(points, nodes, streets))
}

// What is lent for the trial of a sheet's film: the film, and the columns of its points and the places of a walk on them, of which `secondfilm` says how many there have
// to be.
#[derive(Drop)]
pub struct LentFilms<'a> {
    pub film: &'a mut [u8],
    pub columns: &'a mut [[Point; LEVELS]],
    pub places: &'a mut [Place],
}

// What is wrong with the film of a sheet without a fault, which has these nodes and so many nets, if anything is.
pub fn drawing_fault(
    lent: LentFilms,
    trial: &mut SheetTrial,
    nodes: &[Node],
    streets: Streets,
    nets: usize,
) -> Result<(), Finding> {
    let LentFilms {
        film,
        columns,
        places,
    } = lent;
    let records = records(nodes, streets, nets);
    try_drawer(film, trial, records)?;
    let mut points = LentFilm::new(columns, places, nodes.len());
    try_wires(
        part(film, film_need(records)),
        &mut points,
        trial,
        nodes,
        streets,
    )?;
    Ok(())
}

// The same in memory of their own.
#[derive(Drop)]
pub struct FilmTrials {
    film: Vec<u8>,
    points: Film,
}

impl FilmTrials {
    // A constructor takes the allocator, and can run out of memory, where `Default` does neither.
    pub fn new(alloc: Global) -> Result<FilmTrials, AllocError> {
        Ok(FilmTrials {
            film: vec![in alloc; 0; FILM]?,
            points: Film::new(alloc),
        })
    }

    // Lends what the trials of a sheet of so many nodes need.
    pub fn lent(&mut self, nodes: usize) -> Result<LentFilms<'_>, AllocError> {
        let (columns, places) = self.points.room(nodes)?;
        Ok(LentFilms {
            film: &mut self.film,
            columns,
            places,
        })
    }

    // Fails where the film breaks the wire rules, or does not show the very wires of a placing.
    fn try_points(
        &mut self,
        tally: &mut Tally,
        sheet: &Placing,
        records: usize,
    ) -> Result<(), Failure> {
        let film = part(&self.film, film_need(records));
        match self.points.count_points(film, sheet) {
            Ok(points) => tally.count_film(records, points),
            Err(FilmError::Broken) => return Err(Part::Wires.fails().into()),
            Err(FilmError::Memory(error)) => return Err(error.into()),
        }
        Ok(Part::Wires.holds(shows(&mut self.points, sheet))?)
    }

    // Tries the film of a sheet without a fault, which has so many nets. The memory of its points is taken once the drawer has answered as it has to.
    pub fn try_legal(
        &mut self,
        trial: &mut SheetTrial,
        sheet: &Placing,
        nets: usize,
    ) -> Result<(), Failure> {
        let records = record_count(sheet, nets);
        try_drawer(&mut self.film, trial, records)?;
        self.try_points(trial.tally, sheet, records)
    }

    // Tries that the drawer refuses a sheet with an answer, and leaves the film as it was, however long it is.
    pub fn try_refused(&mut self, trial: &mut SheetTrial, wanted: Said) -> Result<(), Failure> {
        Ok(refusal_fault(&mut self.film, trial, wanted)?)
    }
}

#[cfg(test)]
mod tests {
    use super::*;
    use secondfilm::sheets::packed;
    use secondrouter::layers::place;
    use std::array;

    // 70 nets of two nodes each: a walk begins at so many pins at once, more than the places that it is given at first.
    #[test]
    fn many_nets_are_walked(rt: HostRuntime) {
        let row: [u8; 140] = array::from_fn(|i| (i / 2) as u8);
        let streets = Streets { upper: 1, lower: 1 };
        let Ok(placing) = Placing::of_row(rt.alloc(), &row, streets).and_then(place) else {
            panic!(rt; "no placing");
        };
        let (Ok(sheet), Ok(mut films)) = (packed(&placing), FilmTrials::new(rt.alloc())) else {
            panic!(rt; "no memory");
        };
        let mut tally = Tally::default();
        let mut trial = SheetTrial {
            tally: &mut tally,
            sheet: &sheet,
            row: &row,
            seed: 1,
        };
        assert!(rt; films.try_legal(&mut trial, &placing, 70).is_ok());
        assert!(rt; films.try_legal(&mut trial, &placing, 71).is_err());
    }
}
