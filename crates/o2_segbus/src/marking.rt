// Accessed bits.
ghost use Rattle.std.specs.Prelude.{◌≡◌};
ghost use Rattle.o2_regions.specs.Maps.{IsProcess};
ghost use Rattle.o2_segbus.specs.Marking.{with_mark_of};

use o2_regions::Regions;

/// Sets the accessed bit of what a selector names.
pub(crate) fn mark_named(regions: &mut Regions, pid: u16, sel: u16)
    requires { IsProcess regions.old pid }
    ensures { regions.new ≡ with_mark_of regions.old pid sel }
{
    if sel >= 4 {
        regions.mark(pid, sel / 8);
    }
}
