// The places that a record patches.
ghost use Rattle.std.specs.Prelude.{◌≡◌, ◌+◌, ◌≤◌, ◌<◌, length, false, OnOk};
ghost use Rattle.o2_ne.specs.Steps.{steps};
ghost use Rattle.o2_image.specs.Faults.{RecordStepsTo};
ghost use Rattle.o2_image.specs.Chains.{any_patched, chain, chain_step, patched, places, single};
ghost use Rattle.o2_image.specs.ChainViews.{Walks, walk};
ghost use Rattle.o2_image.specs.Whole.{Fit};

use crate::faults::RecordFault;
use o2_ne::u16_at;

// Whether one of these bytes is patched.
#[tactic(auto, using(crate::proofs::MarkSteps::any_first, crate::proofs::MarkSteps::any_none, crate::proofs::MarkSteps::any_start))]
fn any_patched(marks: &[bool], at: usize, width: usize) -> bool
    requires { at + width ≤ length marks.now }
    ensures { result ≡ any_patched marks.now at width }
{
    for k in 0..width {
        if marks[at + k] {
            return true;
        }
    }
    false
}

// Notes that these bytes are patched.
#[tactic(auto, using(crate::proofs::MarkSteps::patched_first, crate::proofs::MarkSteps::patched_none, crate::proofs::MarkSteps::patched_start))]
fn patch(marks: &mut [bool], at: usize, width: usize)
    requires { at + width ≤ length marks.old }
    ensures { marks.new ≡ patched marks.old at width }
{
    // (a loop would be compiled to a call, which costs more than the byte)
    if width == 1 {
        marks[at] = true;
        return;
    }
    for k in 0..width {
        marks[at + k] = true;
    }
}

// One place of this many bytes in segment `seg`, which has these bytes.
pub(crate) fn place(
    seg: u16,
    bytes: &[u8],
    at: u16,
    width: u8,
    marks: &mut [bool],
) -> Result<(), RecordFault>
    requires same { length marks.old ≡ length bytes.now }
    ensures marks { RecordStepsTo marks.new result (single seg bytes.now width at marks.old) }
    ensures fits { OnOk result (at + width ≤ length bytes.now) }
{
    let start = at as usize;
    let size = width as usize;
    if start + size > bytes.len() {
        return Err(RecordFault::Chain(seg, at));
    }
    if any_patched(marks, start, size) {
        return Err(RecordFault::Chain(seg, at));
    }
    patch(marks, start, size);
    Ok(())
}

// A walk along a chain: the next place, and whether the chain has ended.
#[derive(Drop)]
struct Walking {
    next: u16,
    ended: bool,
}

impl Walking {
    // One place of a chain that has not ended.
    #[tactic(auto, unfolding(crate::specs::Chains::chain_step))]
    fn step(
        &mut self,
        seg: u16,
        bytes: &[u8],
        width: u8,
        marks: &mut [bool],
    ) -> Result<(), RecordFault>
        requires same { length marks.old ≡ length bytes.now }
        requires wide { 2 ≤ width }
        requires goes_on { self.old.ended ≡ false }
        ensures { RecordStepsTo (walk self.new marks.new) result (chain_step seg bytes.now width (walk self.old marks.old)) }
    {
        place(seg, bytes, self.next, width, marks)?;
        self.next = u16_at(bytes, self.next as usize);
        self.ended = self.next == 0xFFFF;
        Ok(())
    }
}

// The walk to the end of a chain.
fn walk_on(
    seg: u16,
    bytes: &[u8],
    at: u16,
    width: u8,
    marks: &mut [bool],
) -> Result<Walking, RecordFault>
    requires same { length marks.old ≡ length bytes.now }
    requires wide { 2 ≤ width }
    ensures { Walks marks.new result (steps (chain_step seg bytes.now width) 65536 (record { marks = marks.old; next = at; ended = false })) }
{
    let mut walking = Walking {
        next: at,
        ended: false,
    };
    for _ in 0..65536u32 {
        if walking.ended {
            return Ok(walking);
        }
        walking.step(seg, bytes, width, marks)?;
    }
    Ok(walking)
}

// A chain from a place, to the place that holds FFFF.
#[tactic(auto, unfolding(crate::specs::Chains::chain))]
pub(crate) fn follow(
    seg: u16,
    bytes: &[u8],
    at: u16,
    width: u8,
    marks: &mut [bool],
) -> Result<(), RecordFault>
    requires same { length marks.old ≡ length bytes.now }
    requires wide { 2 ≤ width }
    ensures marks { RecordStepsTo marks.new result (chain seg bytes.now width at marks.old) }
    ensures fit { OnOk result (Fit bytes.now (places bytes.now 65536 at)) }
{
    let _walking = walk_on(seg, bytes, at, width, marks)?;
    Ok(())
}
