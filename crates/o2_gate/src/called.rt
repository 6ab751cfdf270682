// What a call came to.

use crate::arguments::Arguments;
use o2_base::Selector;

/// What a call of a service came to, where neither the input nor a sink fails.
#[derive(Clone, Copy, Debug, PartialEq, Eq)]
pub enum Called {
    /// It came back to its caller, and has put its line, and before it so many bytes to the console.
    Back(u16),
    /// The process ends with this code; both of its lines are put.
    Exited(u16),
    /// A pointer or the arguments are bad: the process ends by this exception, with its error code, and nothing is changed or
    /// put.
    Trap(u8, u16),
    /// The segment behind this selector, a pointer of the call that passed, isn't present; nothing is changed, taken or put.
    Missed(Selector),
    /// A call on segments that comes back to `next`: its arguments lie in SS, and its pointers are good. Nothing is changed, taken or
    /// put yet.
    Asked { arguments: Arguments, next: u16 },
    /// It waits, and its process's next step is the same call: nothing is changed, taken or put.
    Waits,
}
