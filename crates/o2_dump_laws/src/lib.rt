//! Laws of core images: what is written of one is read back as that image.
#![tactic(auto)]

mod laws;

pub use laws::images_are_read;
