// The bytes of a name.
ghost use Rattle.std.specs.Prelude.{◌≤◌, length};

/// The bytes of a name, at most 65,536, and whether they are taken for absent.
#[derive(Drop)]
pub struct Segment {
    pub bytes: Vec<u8>,
    pub hidden: bool,
    ghost small: { length bytes.items ≤ 65536 },
}
