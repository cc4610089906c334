// The fields of a line: bytes in hex or as they stand, with `-` for none, and decimal numbers of at most five digits, one space apart.
#![tactic(auto)]

ghost use Rattle.std.specs.Prelude.{◌≡◌, ◌≤◌, ◌<◌, length, IfSome};

use answers::Said;
use std::fmt;

// Field k of a line, from 0; an empty part where the line has fewer. Line and k stand apart in each function: a type for lines would have no fact to hold, and cases,
// whose lines are handed over as bytes, would wrap them in each function that reads one.
pub fn field(line: &[u8], k: usize) -> &[u8]
    ensures { length result.now ≤ length line.now }
{
    line.split(|byte| *byte == b' ').nth(k).unwrap_or(b"")
}

// The bytes of field k, put to the start of `out`; none where it is not in order or is longer than `out`, and then those before what is no byte are put. Memory is lent, so that no line fails for want of it.
pub fn bytes<'a>(line: &[u8], k: usize, out: &'a mut [u8]) -> Option<&'a [u8]>
    ensures { IfSome result (λ r. length r.now ≤ length out.old) }
{
    let text = letters(line, k)?;
    if text.len() % 2 == 0 {
        decoded(text, out.get_mut(..text.len() / 2)?)
    } else {
        None
    }
}

// Decodes the pairs of digits of a text to as many bytes; none where one is no digit.
fn decoded<'a>(text: &[u8], out: &'a mut [u8]) -> Option<&'a [u8]>
    ensures { IfSome result (λ r. length r.now ≡ length out.old) }
{
    for (byte, [high, low]) in out.iter_mut().zip(text.as_chunks::<2>().0) {
        *byte = 16 * digit(*high)? + digit(*low)?;
    }
    Some(out)
}

// The value of a hex digit. `to_digit`, and the library `hex`, would take capital letters too.
fn digit(byte: u8) -> Option<u8>
    ensures { IfSome result (λ x. x < 16) }
{
    match byte {
        b'0'..=b'9' => Some(byte - b'0'),
        b'a'..=b'f' => Some(byte - b'a' + 10),
        _ => None,
    }
}

// Field k as it stands; none where it is empty.
pub fn letters(line: &[u8], k: usize) -> Option<&[u8]>
    ensures { IfSome result (λ text. length text.now ≤ length line.now) }
{
    match field(line, k) {
        b"" => None,
        b"-" => Some(b""),
        text => Some(text),
    }
}

// The number in field k.
pub fn number(line: &[u8], k: usize) -> Option<usize> {
    let text = str::from_utf8(field(line, k)).ok()?;
    // `parse` would take a sign.
    if text.starts_with('+') {
        return None;
    }
    text.parse().ok().filter(|value| *value < 100000)
}

// Whether fields k and k + 1 of a line are the number and the place of an answer.
pub fn is_said(line: &[u8], k: usize, said: Said) -> bool
    requires { k < 32 }
{
    number(line, k) == Some(said.number as usize) && number(line, k + 1) == Some(said.place)
}

// Bytes as they are printed: in hex.
#[derive(Clone, Copy)]
pub struct Hex<'a>(pub &'a [u8]);

impl fmt::Display for Hex<'_> {
    fn fmt<W: fmt::Write>(&self, f: &mut fmt::Formatter<W>) -> fmt::Result {
        for byte in self.0 {
            write!(f, "{byte:02x}")?;
        }
        Ok(())
    }
}
