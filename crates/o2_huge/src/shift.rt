// DosGetHugeShift.
ghost use Rattle.std.specs.Prelude.{◌≡◌, []};
ghost use Rattle.o2_segs.specs.Answers.{Answers};
ghost use Rattle.o2_world.specs.HugeRulings.{huge_shift};
ghost use Rattle.o2_world.specs.Rulings.{grants};

use o2_regions::{Answer, Regions};
use o2_segs::done;
use o2_store::Store;

/// The selectors of a run rise by 8, which is 1 shifted left by so many bits.
const SHIFT: u32 = 3;

/// DosGetHugeShift(pshift): by how many bits 1 is shifted left to give what lies between the selectors of a run.
pub fn huge_shift(store: &mut Store, regions: &mut Regions, _pid: u16) -> Answer
    ensures answer { Answers (grants huge_shift []) result }
    ensures store { store.new ≡ store.old }
    ensures regions { regions.new ≡ regions.old }
{
    done(SHIFT)
}
