// The listing of document 01: where a record ends, which line it gets, and the bytes of that line.

#![tactic(auto)]

mod records;
mod text;

pub use records::{Figures, Line, Next, line_of, next_in};
pub use text::{put_header, put_line};
