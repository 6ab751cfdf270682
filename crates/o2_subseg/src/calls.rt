// The three calls over a segment's bytes.
ghost use Rattle.std.specs.Prelude.{◌≡◌, ◌≤◌, length};
ghost use Rattle.o2_world.specs.Heaps.{put_words};
ghost use Rattle.o2_subseg.specs.Plans.{AreInside, words_of};
ghost use Rattle.o2_world.specs.HeapRulings.{giving_back, setting_up, taking};

use crate::bytes::store;
use crate::plan::Plan;
use crate::plans::{plan_alloc, plan_free, plan_set};
use o2_regions::Answer;

// Writes the words of a plan.
#[tactic(auto, using(crate::proofs::Walks::put_more, crate::proofs::Walks::inside_at))]
fn follow(bytes: &mut [u8], plan: &Plan)
    requires few { plan.now.count ≤ 6 }
    requires inside { AreInside (length bytes.old) (words_of plan.now) }
    ensures { bytes.new ≡ put_words bytes.old (words_of plan.now) }
{
    for at in 0..plan.count {
        let (place, word) = plan.words[at];
        store(bytes, place, word);
    }
}

/// DosSubSet: makes a heap of the segment's front with flags 1, or lets the heap there reach further with flags 0.
pub fn sub_set(bytes: &mut [u8], flags: u16, size: u16) -> Answer
    ensures error { result.error ≡ (setting_up flags size bytes.old).error }
    ensures value { result.value ≡ (setting_up flags size bytes.old).value }
    ensures bytes { bytes.new ≡ (setting_up flags size bytes.old).bytes }
{
    let plan = plan_set(bytes, flags, size);
    follow(bytes, &plan);
    plan.answer
}

/// DosSubAlloc: takes bytes of the heap, and answers the offset of the first.
pub fn sub_alloc(bytes: &mut [u8], size: u16) -> Answer
    ensures error { result.error ≡ (taking size bytes.old).error }
    ensures value { result.value ≡ (taking size bytes.old).value }
    ensures bytes { bytes.new ≡ (taking size bytes.old).bytes }
{
    let plan = plan_alloc(bytes, size);
    follow(bytes, &plan);
    plan.answer
}

/// DosSubFree: gives bytes back to the heap.
pub fn sub_free(bytes: &mut [u8], offset: u16, size: u16) -> Answer
    ensures error { result.error ≡ (giving_back offset size bytes.old).error }
    ensures value { result.value ≡ (giving_back offset size bytes.old).value }
    ensures bytes { bytes.new ≡ (giving_back offset size bytes.old).bytes }
{
    let plan = plan_free(bytes, offset, size);
    follow(bytes, &plan);
    plan.answer
}
