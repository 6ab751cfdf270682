//! Tests of `o2_dump` and `o2_dumping`: short core images as texts, images that are written, and what their reader finds in them.
#![tactic(auto)]

mod images;
mod texts;
mod written;

use std::io;
use test_fixtures::tell;

fn main(rt: HostRuntime) -> io::Result<()> {
    let alloc = rt.alloc();
    tell(&rt, "58 images", texts::faults_of_images(alloc))?;
    tell(
        &rt,
        "1312 fronts of an image, 5 segments",
        texts::fronts_and_bytes(alloc),
    )?;
    tell(
        &rt,
        "4 images that are written",
        written::images_that_are_written(alloc),
    )
}
