//! Tests of `o2_ne`, `o2_ne_segs` and `o2_image`: tables of a file with what they are read as, files with what they are refused for or read
//! as, images with their targets, and files at random.
#![tactic(auto)]

mod damaged;
mod image;
mod made;
mod ne;
mod read;
mod segs;

use std::io;
use test_fixtures::tell;

fn main(rt: HostRuntime) -> io::Result<()> {
    let alloc = rt.alloc();
    let answers = [
        (
            "ordinals that are skipped",
            ne::skipped_ordinals_are_not_defined(alloc),
        ),
        (
            "the first missing byte",
            ne::the_first_missing_byte_is_told(alloc),
        ),
        (
            "names of a module",
            ne::names_are_folded_and_the_first_counts(alloc),
        ),
        (
            "names that are alike",
            ne::the_first_of_like_names_counts(alloc),
        ),
        (
            "names at random",
            ne::random::random_names_are_found_as_by_a_search_in_order(alloc),
        ),
        (
            "bundles at random",
            ne::random::random_bundles_are_numbered_in_order(alloc),
        ),
        ("lengths of zero", segs::lengths_of_zero(alloc)),
        (
            "records behind a segment",
            segs::records_follow_the_bytes(alloc),
        ),
        (
            "segments at random",
            segs::random::random_segments_are_read_as_they_were_written(alloc),
        ),
        (
            "bits that are refused",
            segs::random::the_first_bits_that_are_not_run_are_told(alloc),
        ),
        (
            "records at random",
            segs::random::random_records_are_read_as_they_were_written(alloc),
        ),
        (
            "records cut short",
            segs::random::the_first_byte_that_is_missing_of_records_is_told(alloc),
        ),
        ("51 files", image::the_first_fault_is_told(alloc)),
        (
            "modules and their images",
            image::modules_and_their_images(alloc),
        ),
        (
            "60 files at random",
            read::random_files_are_read_as_they_were_written(alloc),
        ),
        (
            "records that lead nowhere",
            damaged::each_record_that_leads_nowhere_is_told(alloc),
        ),
    ];
    for (name, answer) in answers {
        tell(&rt, name, answer)?;
    }
    Ok(())
}
