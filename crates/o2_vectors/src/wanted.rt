// What vectors may be asked for.
ghost use Rattle.std.specs.Prelude.{◌≤◌, length};

/// Which vectors are wanted.
#[derive(Drop)]
pub struct Wanted {
    /// The bytes that each instruction begins with, 1 to 10.
    pub opcode: Vec<u8>,
    /// What bits 3 to 5 of the byte behind them are, where that is asked for.
    pub reg: Option<u8>,
    /// How many vectors.
    pub count: u32,
    /// The seed: the same words give the same vectors.
    pub seed: u64,
    ghost short: { length opcode.items ≤ 10 },
}
