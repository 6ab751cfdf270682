// What each call on a semaphore does.
ghost use Rattle.std.specs.Prelude.{◌≡◌};
ghost use Rattle.o2_world.specs.SemRulings.{requesting, waiting_for, wanting};
ghost use Rattle.o2_ramsem.specs.Ruled.{ruled};

/// The timeout is neither 0 nor `FOREVER`; the number that DosSemRequest and DosSemWait answer then.
pub const INVALID_PARAMETER: u16 = 87;
/// The semaphore isn't clear, and the timeout is 0.
pub const TIMEOUT: u16 = 121;
/// The timeout of a call that waits until the semaphore is clear.
pub const FOREVER: u32 = 0xFFFF_FFFF;
/// The number of a semaphore that was set.
pub const SET: u32 = 0xFFFF;

/// What a call on a semaphore does.
#[derive(Clone, Copy)]
pub enum Sem {
    /// It answers 0, and this is the semaphore's number behind it.
    Word(u32),
    /// It waits, and the number stays.
    Waits,
    /// It answers this error, and the number stays.
    Error(u16),
}

// What a call does that wants a clear semaphore, whose number is this one behind it.
fn want(word: u32, behind: u32, timeout: u32) -> Sem
    ensures { ruled result ≡ wanting word behind timeout }
{
    if timeout != 0 && timeout != FOREVER {
        Sem::Error(INVALID_PARAMETER)
    } else if word == 0 {
        Sem::Word(behind)
    } else if timeout == 0 {
        Sem::Error(TIMEOUT)
    } else {
        Sem::Waits
    }
}

/// DosSemRequest of the process `pid`, where the semaphore's number is `word`: a clear one becomes the caller's.
///
/// `timeout` is 0 or 0xFFFF_FFFF; the errors are 87 for any other, and 121 where the semaphore isn't clear and `timeout` is 0.
pub fn request(word: u32, pid: u16, timeout: u32) -> Sem
    ensures { ruled result ≡ requesting word pid timeout }
{
    want(word, u32::from(pid), timeout)
}

/// DosSemWait, where the semaphore's number is `word`: it answers 0 where that is clear, and changes nothing. The errors are those of
/// `request`.
pub fn wait(word: u32, timeout: u32) -> Sem
    ensures { ruled result ≡ waiting_for word timeout }
{
    want(word, word, timeout)
}

/// The number behind DosSemClear.
pub fn clear() -> u32
    ensures { result ≡ 0 }
{
    0
}

/// The number behind DosSemSet.
pub fn set() -> u32
    ensures { result ≡ 65535 }
{
    SET
}
