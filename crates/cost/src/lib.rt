// What a segment's forms cost, from its statistics, and the cheapest form.

#![tactic(auto)]

mod choice;

pub use choice::{bitmap_length, depth, local_form, payload, whole_form};

// A form with its costs. For tag 6 it is plain or trimmed, and tag 8 is trimmed.
#[derive(Clone, Copy)]
pub struct Form {
    pub tag: u8,
    pub trimmed: bool,
    pub bytes: u64,
    pub depth: u32,
    pub words: u32,
}
