//! Families of sections by levels: how sections over long vertices go on to shorter ones, the extension of a family by
//! the blocks of one length, and what evidence by levels says of a sheaf.
#![tactic(auto)]

mod agree;
mod columns;
mod counts;
mod extend;
mod family;
pub mod laws;
mod level_blocks;
mod members;
mod run;
mod sums;
mod top;
mod whole;

pub use counts::longer_counts;
pub use family::Family;
pub use level_blocks::LevelBlocks;
pub use members::Members;
