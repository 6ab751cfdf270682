// Bytes read ahead of their use.
ghost use Rattle.std.specs.Prelude.{◌≡◌, ◌≤◌, ◌<◌, ◌-◌, List, ℕ, Some, true, min, take, drop, length};
ghost use Rattle.std.specs.Io.KnownBytes.{IsAtEnd};
ghost use Rattle.o2_outer.specs.Reads.{bytes_left};

use std::io::Read;

/// Reads on behind the first `held` bytes of a buffer, until it has `wanted` or the reader gives no more. Tells how many it has
/// then, and whether no read failed.
pub fn read_on<R: Read>(
    reader: &mut R,
    buffer: &mut [u8],
    held: usize,
    wanted: usize,
) -> (usize, bool)
    requires fewer { held ≤ wanted }
    requires room { wanted ≤ length buffer.old }
    ensures len { length buffer.new ≡ length buffer.old }
    ensures more { held ≤ result.0 }
    ensures most { result.0 ≤ wanted }
    ensures left { (t : List ℕ) → bytes_left (take held buffer.old) (R.remaining reader.old) ≡ Some t
        → bytes_left (take result.0 buffer.new) (R.remaining reader.new) ≡ Some t }
    ensures end { result.1 ≡ true → result.0 < wanted → IsAtEnd (R.remaining reader.new) }
{
    let mut filled = held;
    while filled < wanted {
        match reader.read(&mut buffer[filled..wanted]) {
            Err(_) => return (filled, false),
            Ok(0) => return (filled, true),
            Ok(count) => filled += count,
        }
    }
    (filled, true)
}

// Gives a front of the bytes held, as many as fit, and moves the others to the front of the slice.
fn give_front(buffer: &mut [u8], held: usize, into: &mut [u8]) -> usize
    requires { held ≤ length buffer.old }
    ensures count { result ≡ min (length into.old) held }
    ensures most { result ≤ length into.new }
    ensures given { take result into.new ≡ take result (take held buffer.old) }
    ensures rest { take (held - result) buffer.new ≡ drop result (take held buffer.old) }
    ensures len { length buffer.new ≡ length buffer.old }
{
    let count = into.len().min(held);
    into[..count].copy_from_slice(&buffer[..count]);
    buffer.copy_within(count..held, 0);
    count
}

/// Gives a front of the first `held` bytes of a buffer, as many as fit, and moves the others to its front.
pub fn give(buffer: &mut Vec<u8>, held: usize, into: &mut [u8]) -> usize
    requires { held ≤ length buffer.old.items }
    ensures count { result ≡ min (length into.old) held }
    ensures most { result ≤ length into.new }
    ensures given { take result into.new ≡ take result (take held buffer.old.items) }
    ensures rest { take (held - result) buffer.new.items ≡ drop result (take held buffer.old.items) }
    ensures len { length buffer.new.items ≡ length buffer.old.items }
{
    give_front(buffer.as_mut_slice(), held, into)
}
