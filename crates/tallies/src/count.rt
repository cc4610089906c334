// What is counted over all sources, and how a report says it behind the count.
use std::fmt;

#[derive(Clone, Copy)]
pub enum Count {
    Rows,
    Disagreements,
    Sheets,
    LoneRows,
    // Rows with a lone label that the router finds.
    LoneFound,
    // Calls that one of the router's first tests refuses.
    EarlyCalls,
    SheetsRead,
    // Rows that agree with a sheet, and rows that do not.
    Agreements,
    Unlike,
    // Films that are a byte short.
    ShortFilms,
    Films,
    Records,
    Points,
}

impl fmt::Display for Count {
    fn fmt<W: fmt::Write>(&self, f: &mut fmt::Formatter<W>) -> fmt::Result {
        f.write_str(match self {
            Count::Rows => "rows",
            Count::Disagreements => "disagreements",
            Count::Sheets => "sheets by lot",
            Count::LoneRows => "rows with a lone label",
            Count::LoneFound => "refused with 3",
            Count::EarlyCalls => "calls refused with 2, 4 or 5",
            Count::SheetsRead => "sheets read back",
            Count::Agreements => "agreements",
            Count::Unlike => "rows do not agree",
            Count::ShortFilms => "films a byte short refused with 21",
            Count::Films => "films",
            Count::Records => "records",
            Count::Points => "points",
        })
    }
}
