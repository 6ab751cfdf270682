// The indexes of the libraries' segments are reserved for the whole run.
ghost use Rattle.std.specs.Prelude.{◌≡◌, ◌≤◌, ◌+◌, ◌&&◌, ℕ, None, true, false, nat_le, nat_lt};
ghost use Rattle.o2_dynlink.specs.Outcome.{modules_of};
ghost use Rattle.o2_regions.specs.declared.held.Region.TheVariants.{Private, Shared};
ghost use Rattle.o2_regions.specs.declared.held.Region.{Region as RegionThere};
ghost use Rattle.o2_regions.specs.Maps.{IsProcess, held_at, is_reserved, with_reserved};
ghost use Rattle.o2_image.specs.Getters.{nth};
ghost use Rattle.o2_opening.specs.Libraries.{library_indexes, indexes_of};

use o2_dynlink::Linked;
use o2_image::Images;
use o2_regions::{Region, Regions};

/// The first index that names the same segment for each process.
pub(crate) const FIRST_SHARED: u16 = 4096;

/// The most modules that a machine file names.
const MOST_MODULES: u16 = 64;

/// How many indexes the module at a place takes beside those of other libraries.
fn indexes_at(images: &Images, place: u16) -> u16
    ensures { result ≡ indexes_of (nth (modules_of images.now) place) }
{
    match images.module(place) {
        Some(module) => {
            if module.is_library() {
                module.segment_count()
            } else {
                0
            }
        }
        None => 0,
    }
}

/// How many indexes the segments of all libraries take, 4,096 at most.
fn library_indexes(linked: &Linked) -> u16
    ensures value { result ≡ library_indexes (modules_of linked.now.images) }
    ensures most { result ≤ 4096 }
{
    let images = linked.images();
    let mut count = 0u16;
    for place in 1..MOST_MODULES + 1 {
        count += indexes_at(images, place);
    }
    count
}

/// Reserves the indexes of the segments of all libraries, reached or not, in maps in which nothing is held and nothing reserved.
pub(crate) fn reserve_libraries(regions: &mut Regions, linked: &Linked)
    requires unheld { (pid i : ℕ) → held_at regions.old pid i ≡ None }
    requires unreserved { (g : RegionThere) (i : ℕ) → is_reserved regions.old g i ≡ false }
    ensures exact { regions.new ≡ with_reserved regions.old Shared 4096 (library_indexes (modules_of linked.now.images)) true }
    ensures shared { (i : ℕ) → is_reserved regions.new Shared i ≡ (nat_le 4096 i && nat_lt i (4096 + library_indexes (modules_of linked.now.images))) }
    ensures own { (pid i : ℕ) → IsProcess regions.new pid → is_reserved regions.new (Private pid) i ≡ false }
{
    regions.law();
    regions.reserve(Region::Shared, FIRST_SHARED, library_indexes(linked));
}
