// Records of 40 bits, five bytes each, on a film. A film that ends before a record does is left as it was.
ghost use Rattle.std.specs.Prelude.{◌≡◌, ◌++◌, ◌^◌, ◌<◌, min, max, length};
ghost use Rattle.rules.specs.Bits.{digits, bytes};
ghost use Rattle.rules.specs.Film.{across, upright, rec_bits};
ghost use Rattle.slots.specs.Stamps.{columns, places, stamp};

use crate::levels::{Level, rises};
use bits::put_bits;

// A record's numbers are parameters here: a struct of them would be made at each call and taken apart at once. So are the film and the place on it: the film
// is lent for a whole sheet, and the place is another at each record. `at < places` is asked here, since a pen's count and a net's slot have other bounds.
// A column is a number with its bound. As a `Copy` struct around a number that contracts see as ℕ, in `Run` too, it stopped at `turn`, `begin`, `pass` and `end`
// of `Slots`, for which the borrow checker then has no rule. Nor could it be the pen's next column, which may be one past the last.

// Writes the horizontal of a net on a level from column to column as record `at`, from 0.
pub fn put_across(film: &mut [u8], at: usize, net: u8, level: Level, left: u16, right: u16)
    requires { (at < places) × (left < columns) × (right < columns) }
    ensures { film.new ≡ stamp film.old at (rec_bits (across net level left right)) }
{
    let first = net as u16 * 16 + u16::from(level);
    put_record(film, at, first, left, right * 2);
}

// Writes the vertical of a net at a column between two levels, whichever is the upper, as record `at`. By `rises`, since of `min` and `max` a proof would have the order
// of signed levels.
pub fn put_wall(film: &mut [u8], at: usize, net: u8, column: u16, a: Level, b: Level)
    requires { (at < places) × (column < columns) }
    ensures { film.new ≡ stamp film.old at (rec_bits (upright net (min a b) column (max a b))) }
{
    if rises(a, b) {
        put_upright(film, at, net, a, column, b);
        return;
    }
    put_upright(film, at, net, b, column, a);
}

// Writes the vertical of a net from one level up to another as record `at`.
fn put_upright(film: &mut [u8], at: usize, net: u8, low: Level, column: u16, top: Level)
    requires { (at < places) × (column < columns) }
    ensures { film.new ≡ stamp film.old at (rec_bits (upright net low column top)) }
{
    let first = 4096 + net as u16 * 16 + u16::from(low);
    put_record(film, at, first, column, u16::from(top) * 1024);
}

// Writes numbers of 13, 13 and 14 bits as record `at`.
fn put_record(film: &mut [u8], at: usize, first: u16, second: u16, third: u16)
    requires { (at < places) × (first < 2 ^ 13) × (second < 2 ^ 13) × (third < 2 ^ 14) }
    ensures { film.new ≡ stamp film.old at (digits 13 first ++ (digits 13 second ++ digits 14 third)) }
{
    let start = 5 * at;
    let end = start + 5;
    if film.len() < end {
        return;
    }
    fill(&mut film[start..end], first, second, third);
}

// Writes numbers of 13, 13 and 14 bits into five bytes.
fn fill(cell: &mut [u8], first: u16, second: u16, third: u16)
    requires { (length cell.old ≡ 5) × (first < 2 ^ 13) × (second < 2 ^ 13) × (third < 2 ^ 14) }
    ensures { cell.new ≡ bytes (digits 13 first ++ (digits 13 second ++ digits 14 third)) }
{
    put_bits(cell, 0, 13, first);
    put_bits(cell, 13, 13, second);
    put_bits(cell, 26, 14, third);
}
