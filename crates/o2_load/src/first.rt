// Why a module isn't started, and the first registers of its process.
ghost use Rattle.std.specs.Prelude.{◌≡◌, ◌≤◌, ◌<◌, ◌+◌, ◌-◌, ◌%◌, Ok, Some, ◌==◌};
ghost use Rattle.o2_isa.specs.View.{is_code, is_writable};
ghost use Rattle.o2_image.specs.ImageList.{ImageList};
ghost use Rattle.o2_world.specs.Opening.{even};
ghost use Rattle.o2_load.specs.Loads.{rights_of, is_stack_segment, is_entry_segment, stack_of, parts_check, parts_cpu};

use crate::build::selector_of;
use crate::module_segments::rights_of;
use o2_base::ModuleFault;
use o2_desc::FlagsWord;
use o2_image::Module;
use o2_isa::Cpu;
use o2_ne_segs::{Kind, Segment};

fn is_writable(kind: Kind) -> bool
    ensures { result ≡ is_writable (rights_of kind) }
{
    rights_of(kind).is_writable()
}

fn is_code(kind: Kind) -> bool
    ensures { result ≡ is_code (rights_of kind) }
{
    rights_of(kind).is_code()
}

/// Whether a segment can be a stack.
fn is_stack(segment: Option<Segment>) -> bool
    ensures { result ≡ is_stack_segment segment }
{
    match segment {
        Some(segment) => is_writable(segment.kind),
        None => false,
    }
}

/// Whether a program can begin in a segment at this place.
fn is_entry(ip: u16, segment: Option<Segment>) -> bool
    ensures { result ≡ is_entry_segment ip segment }
{
    match segment {
        Some(segment) => is_code(segment.kind) && (ip as u32) < segment.size,
        None => false,
    }
}

/// The number of the segment that SS names first: the header's, or that of the automatic data.
fn stack_of(module: &Module) -> u16
    ensures { result ≡ stack_of «module».now }
{
    let head = module.head();
    if head.ss == 0 { head.auto_seg } else { head.ss }
}

/// Why a module isn't started: it has no stack that can be written, it is a library, or it has no entry point.
pub(crate) fn check(module: &Module) -> Result<(), ModuleFault>
    ensures { result ≡ parts_check «module».now }
{
    if !is_stack(module.segment(stack_of(module))) {
        return Err(ModuleFault::NoStack);
    }
    let head = module.head();
    if !module.is_library() && is_entry(head.ip, module.segment(head.cs)) {
        Ok(())
    } else {
        Err(ModuleFault::NoEntry)
    }
}

/// The end of the stack in automatic data of this size.
fn stack_end(size: u32, stack: u16) -> u16
    requires { size ≤ 65536 }
    ensures { result ≡ even (size + stack) % 65536 }
{
    let end = size + stack as u32;
    ((end - end % 2) % 65536) as u16
}

/// Static data, stack and heap together.
fn all_data(size: u32, stack: u16, heap: u16) -> u16
    requires { size ≤ 65536 }
    ensures { result ≡ (size + stack + heap) % 65536 }
{
    ((size + stack as u32 + heap as u32) % 65536) as u16
}

/// The first registers of a process whose module is at a place, with the command line there in its environment.
#[tactic(auto, using(crate::proofs::Firsts::few_segments, crate::proofs::Firsts::checked_stack, crate::proofs::Firsts::checked_code, crate::proofs::Firsts::small_size))]
pub(crate) fn first_cpu(module: &Module, place: u16, command: u16) -> Cpu
    requires checked { parts_check «module».now ≡ Ok tt }
    ensures { (images : ImageList) → result ≡ parts_cpu images place «module».now command }
{
    module.is_runnable();
    let head = module.head();
    let stack = stack_of(module);
    let data = module.segment(head.auto_seg);
    let size = match data {
        Some(segment) => segment.size,
        None => 0,
    };
    let sp = if stack == head.auto_seg && head.sp == 0 {
        stack_end(size, head.stack)
    } else {
        head.sp
    };
    Cpu {
        ax: selector_of(module.segment_count() + 1),
        cx: match data {
            Some(segment) => all_data(segment.size, head.stack, head.heap),
            None => 0,
        },
        dx: head.stack,
        bx: command,
        sp,
        bp: 0,
        si: head.heap,
        di: place,
        ip: head.ip,
        flags: FlagsWord::FIRST.0,
        cs: selector_of(head.cs),
        ds: match data {
            Some(_) => selector_of(head.auto_seg),
            None => 0,
        },
        es: 0,
        ss: selector_of(stack),
    }
}
