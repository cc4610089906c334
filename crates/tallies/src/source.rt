// Where the rows of a trial come from.
use std::fmt;

#[derive(Clone, Copy)]
pub enum Source {
    Joinings,
    Short,
    Long,
    BlankJoinings,
    BlankShort,
    BlankLong,
}

impl fmt::Display for Source {
    fn fmt<W: fmt::Write>(&self, f: &mut fmt::Formatter<W>) -> fmt::Result {
        f.write_str(match self {
            Source::Joinings => "rows and street pairs of 2 to 9 nodes, by depth first",
            Source::Short => "random rows of 2 to 64 nodes, by layers of orders",
            Source::Long => "random rows of 100 to 512 nodes, by layers of orders",
            Source::BlankJoinings => {
                "rows with blanks and street pairs of 2 to 8 nodes, by depth first"
            }
            Source::BlankShort => "random rows with blanks of 2 to 64 nodes, by layers of orders",
            Source::BlankLong => "random rows with blanks of 100 to 512 nodes, by layers of orders",
        })
    }
}
