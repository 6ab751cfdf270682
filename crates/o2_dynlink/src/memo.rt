// What is known of the imported names of a module: each name of a library or of the services is looked up once.
ghost use Rattle.std.specs.Prelude.{◌≡◌, ◌≤◌, ℕ, None, Some, get_or, length, set, IfOk};
ghost use Rattle.o2_dynlink.specs.Memo.{block_of, memo_at};

use crate::leads::Lead;
use o2_base::NoMemory;
use o2_image::Module;
use std::alloc::Global;

// The block of the memo for the names of what a lead is to.
pub(crate) fn block_of(lead: Lead) -> Option<u16>
    ensures { result ≡ block_of lead }
{
    match lead {
        Lead::Services => Some(0),
        Lead::Library(place) => Some(place),
        Lead::Nowhere => None,
    }
}

// The place in a block of the memo of the name at an offset.
fn memo_at(block: u16, at: u16) -> usize
    ensures { result ≡ memo_at block at }
{
    usize::from(block) * 65536 + usize::from(at)
}

// What is known of the name at an offset.
pub(crate) fn known(memo: &[Option<(u16, u16)>], block: u16, at: u16) -> Option<(u16, u16)>
    ensures { result ≡ get_or memo.now (memo_at block at) None }
{
    match memo.get(memo_at(block, at)) {
        Some(held) => *held,
        None => None,
    }
}

// Notes where it leads.
pub(crate) fn note(memo: &mut Vec<Option<(u16, u16)>>, block: u16, at: u16, target: (u16, u16))
    ensures { memo.new.items ≡ set memo.old.items (memo_at block at) (Some target) }
{
    let i = memo_at(block, at);
    if i < memo.len() {
        memo[i] = Some(target);
    }
}

// Nothing is known yet. Few records are looked up one by one, and nothing is noted of them.
#[tactic(auto, using(crate::proofs::Known::nothing_known))]
pub(crate) fn memo_for(
    alloc: Global,
    modules: &[Module],
    module: &Module,
) -> Result<Vec<Option<(u16, u16)>>, NoMemory>
    requires few { length modules.now ≤ 64 }
    ensures { IfOk result (λ v. (i : ℕ) → get_or v.items i None ≡ None) }
{
    let count = if module.reloc_count() < 4096 {
        0
    } else {
        (modules.len() + 1) * 65536
    };
    Ok(vec![in alloc; None; count]?)
}
