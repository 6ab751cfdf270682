//! When a core image stands for a world, and that the image of a machine that stands for a world does.
#![tactic(auto)]

mod laws;

pub use laws::{images_stand_for_worlds, segments_are_read};
