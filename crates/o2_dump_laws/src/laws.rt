// Laws of core images.
ghost use Rattle.std.specs.Prelude.{◌≡◌, Ok};
ghost use Rattle.o2_dump.specs.declared.reader.Core.{Core as CoreThere};
ghost use Rattle.o2_dump.specs.CoreBytes.{core_bytes};
ghost use Rattle.o2_dump.specs.CoreImage.{core_of};
ghost use Rattle.o2_dump_laws.specs.Whole.{IsWhole};

/// The bytes of an image whose fields fit, and that keeps the rules of the format, are read as that image.
pub fn images_are_read()
    ensures { (c : CoreThere) → IsWhole c → core_of (core_bytes c) ≡ Ok c }
{}
