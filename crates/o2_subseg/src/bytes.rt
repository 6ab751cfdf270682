// Words among bytes, low byte first.
ghost use Rattle.std.specs.Prelude.{◌≡◌, ◌+◌, ◌≤◌, length};
ghost use Rattle.o2_world.specs.Heaps.{word as word_at, put_word};

/// The word at a place.
#[tactic(auto, unfolding(o2_world::specs::Heaps::word))]
pub(crate) fn word(bytes: &[u8], place: usize) -> u16
    requires { place + 2 ≤ length bytes.now }
    ensures { result ≡ word_at bytes.now place }
{
    u16::from(bytes[place]) + 256 * u16::from(bytes[place + 1])
}

/// Writes a word at a place.
#[tactic(auto, unfolding(o2_world::specs::Heaps::put_word))]
pub(crate) fn store(bytes: &mut [u8], place: u16, word: u16)
    requires { place + 2 ≤ length bytes.old }
    ensures { bytes.new ≡ put_word bytes.old (place, word) }
{
    bytes[place as usize] = (word % 256) as u8;
    bytes[place as usize + 1] = (word / 256) as u8;
}
