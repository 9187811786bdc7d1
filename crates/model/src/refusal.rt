// Why a call refuses what it is given. Hosts see the number.
ghost use Rattle.model.specs.Refusals.{Numbers};

use std::error::Error;
use std::fmt;

// One case for each number, in their order.
#[derive(Clone, Copy, Debug, PartialEq, Eq)]
pub enum Refusal {
    Coverage,
    RowCount,
    Order,
    SeedEnds,
    Workspace,
    Limit,
    Output,
    Body,
    Block,
    Count,
    Table,
    Record,
}

impl From<Refusal> for u8 {
    ghost from_gives = { Numbers };

    fn from(refusal: Refusal) -> u8 {
        match refusal {
            Refusal::Coverage => 1,
            Refusal::RowCount => 2,
            Refusal::Order => 3,
            Refusal::SeedEnds => 4,
            Refusal::Workspace => 5,
            Refusal::Limit => 6,
            Refusal::Output => 7,
            Refusal::Body => 8,
            Refusal::Block => 9,
            Refusal::Count => 10,
            Refusal::Table => 11,
            Refusal::Record => 12,
        }
    }
}

impl fmt::Display for Refusal {
    fn fmt<W: fmt::Write>(&self, f: &mut fmt::Formatter<W>) -> fmt::Result {
        f.write_str(match self {
            Refusal::Coverage =>
                "the coverage is reversed, empty, or longer than 4,294,967,295 rows",
            Refusal::RowCount => "there are no rows, or more than 65,535",
            Refusal::Order => "the rows do not rise strictly, or one is outside the coverage",
            Refusal::SeedEnds =>
                "the seed ends do not fit the rows, or a seed is wider than 65,535 row numbers",
            Refusal::Workspace => "the workspace has less than 24 words for each seed",
            Refusal::Limit => "the shortest body is longer than the limit, or than 65,535 bytes",
            Refusal::Output => "the output is shorter than what is to be written",
            Refusal::Body => "tag, span and body are not those of a row set",
            Refusal::Block =>
                "the row count, the stated count or the length does not fit the block",
            Refusal::Count => "the body's count differs from the stated one",
            Refusal::Table => "the table of seed ends has no room for the new ones",
            Refusal::Record => "the gatherer's record is none that gathering comes to",
        })
    }
}

impl Error for Refusal {}
