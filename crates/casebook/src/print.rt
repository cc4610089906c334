// How answers and bytes are printed.
use answers::Said;
use fields::Hex;
use std::fmt;
use std::fmt::Display;

// What was answered, if anything, and the bytes that were written.
#[derive(Clone, Copy)]
pub struct Written<'a> {
    pub said: Option<Said>,
    pub bytes: &'a [u8],
}

// `number at place` and the bytes in hex, `-` for none. Of more than 400 the first and the last 20. No call answers 99: it stands where the buffers that a line names
// cannot be lent.
impl Display for Written<'_> {
    fn fmt<W: fmt::Write>(&self, f: &mut fmt::Formatter<W>) -> fmt::Result {
        match self.said {
            Some(said) => write!(f, "{said} ")?,
            None => write!(f, "99 at 0 ")?,
        }
        let n = self.bytes.len();
        if n == 0 {
            write!(f, "-")
        } else if n <= 400 {
            write!(f, "{}", Hex(self.bytes))
        } else {
            write!(
                f,
                "{}..{}",
                Hex(&self.bytes[..20]),
                Hex(&self.bytes[n - 20..])
            )
        }
    }
}
