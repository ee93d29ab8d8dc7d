// What crosses to C, as Rattle calls it; crates/host_c exports it. Word reading and page reading go over bytes, every other entry over u32. What has a fixed length is lent as an array.
#![tactic(auto)]

mod arrival;
pub mod arrivals;
mod crossing;
mod figures;
pub mod lengths;
pub mod line;
pub mod pages;
pub mod pair;
pub mod sessions;
pub mod texts;
pub mod version;
pub mod words;

pub use crossing::SESSION;
