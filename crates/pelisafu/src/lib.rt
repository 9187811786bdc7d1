// The C interface: each public call under its plain name, as include/pelisafu.h declares it. An exported function cannot answer an
// enum, so each answers a struct: the number of the refusal, 0 for none, and the values, 0 where there are none.
// The records that a host lends, directory::Segment and gather::Gatherer, are the crates' own.

#![tactic(auto)]

mod deletions;
mod entries;
mod gathering;
mod plans;
mod reading;

pub use deletions::{
    pelisafu_check_deletions, pelisafu_deleted, pelisafu_plan_deletions, pelisafu_walk_deletions,
};
pub use entries::{pelisafu_segment, pelisafu_segments};
pub use gathering::{
    pelisafu_add_page, pelisafu_add_row, pelisafu_gather_page, pelisafu_gather_row,
};
pub use plans::{pelisafu_plan_ordinals, pelisafu_plan_rows};
pub use reading::{
    pelisafu_rank, pelisafu_ranks, pelisafu_select, pelisafu_validate, pelisafu_walk,
};

// The form, the bytes of the body, the segments after merging, and the offers.
#[repr(C)]
#[derive(Clone, Copy)]
pub struct Plan {
    pub number: u8,
    pub tag: u8,
    pub length: u16,
    pub segments: u16,
    pub offers: u32,
}

// The rows of a body.
#[repr(C)]
#[derive(Clone, Copy)]
pub struct Checked {
    pub number: u8,
    pub rows: u16,
}

// Whether the position is a row, and its ordinal.
#[repr(C)]
#[derive(Clone, Copy)]
pub struct Ranked {
    pub number: u8,
    pub found: u8,
    pub ordinal: u16,
}

// Whether there is such an ordinal, and its position.
#[repr(C)]
#[derive(Clone, Copy)]
pub struct Selected {
    pub number: u8,
    pub found: u8,
    pub position: u32,
}

// How many elements were written.
#[repr(C)]
#[derive(Clone, Copy)]
pub struct Filled {
    pub number: u8,
    pub written: usize,
}

// Whether there is such an entry of the directory, and the entry.
#[repr(C)]
#[derive(Clone, Copy)]
pub struct Entry {
    pub number: u8,
    pub found: u8,
    pub record: directory::Segment,
}

// Whether the row is deleted.
#[repr(C)]
#[derive(Clone, Copy)]
pub struct Contained {
    pub number: u8,
    pub found: u8,
}

// Where gathering stands after the call: as before it where it was refused.
#[repr(C)]
#[derive(Clone, Copy)]
pub struct Gathered {
    pub number: u8,
    pub record: gather::Gatherer,
}
