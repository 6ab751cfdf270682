// Numbers as if they were thrown, the same ones for a seed each time.
ghost use Rattle.std.specs.Prelude.{◌≤◌, ◌<◌};

#[derive(Drop)]
pub struct Dice {
    seed: u32,
}

impl Dice {
    pub fn new(seed: u32) -> Dice {
        Dice { seed }
    }

    /// A number below `sides`.
    pub fn roll(&mut self, sides: u16) -> u16
        requires { 1 ≤ sides }
        ensures { result < sides }
    {
        self.seed = self.seed.wrapping_mul(1_103_515_245).wrapping_add(12_345);
        (self.seed / 65_536 % sides as u32) as u16
    }

    /// Whether a number below `sides` is 0.
    pub fn once_in(&mut self, sides: u16) -> bool
        requires { 1 ≤ sides }
    {
        self.roll(sides) == 0
    }

    /// A number up to `most`.
    pub fn up_to(&mut self, most: u16) -> u16
        ensures { result ≤ most }
    {
        if most == 65_535 {
            self.roll(65_535)
        } else {
            self.roll(most + 1)
        }
    }
}
