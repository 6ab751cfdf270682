// Where all records of a module lead. A record that several segments have is looked up once, and its target is held once.
ghost use Rattle.std.specs.Prelude.{◌≡◌, ◌≤◌, ◌<◌, length, map, if◌then◌else◌, IfOk, IfSome, Ok, Some};
ghost use Rattle.o2_ne.specs.Steps.{Gives};
ghost use Rattle.o2_image.specs.Alike.{Precedes};
ghost use Rattle.o2_image.specs.Getters.{nth_list};
ghost use Rattle.o2_dynlink.specs.Imports.{each, gather, on_list, passed, target_in, targets_of};
ghost use Rattle.o2_dynlink.specs.Leads.{lead_of};
ghost use Rattle.o2_dynlink.specs.Memo.{IsKnown, IsMemo};

use crate::imports::{Scope, targets_in};
use crate::leads::{Lead, leads_of};
use crate::memo::memo_for;
use crate::order::{numbers, order_of, places_of};
use o2_base::{Fail, ModuleFault, NoMemory};
use o2_image::{Module, Resolved, SharedTargets};
use std::alloc::Global;

// Of the segments so far the one whose records go furthest: which of the lists of targets is its own, and its number.
#[derive(Clone, Copy)]
pub(crate) struct Last {
    pub(crate) index: u16,
    pub(crate) seg: u16,
}

// A segment whose records go further.
fn after(last: Option<Last>, goes_further: bool, here: Last) -> Option<Last>
    ensures { result ≡ (if goes_further then Some here else last) }
{
    if goes_further { Some(here) } else { last }
}

// The targets of one segment more, all of which are looked up.
fn add_apart(
    alloc: Global,
    scope: &Scope,
    base: u16,
    module: &Module,
    leads: &[Lead],
    seg: u16,
    memo: &mut Vec<Option<(u16, u16)>>,
    found: &mut SharedTargets,
) -> Result<bool, Fail<ModuleFault>>
    requires leads { leads.now ≡ map (lead_of scope.now.modules.now) «module».now.references }
    requires few { length scope.now.modules.now ≤ 64 }
    requires same { length scope.now.bases.now ≡ length scope.now.modules.now }
    requires memo { IsMemo scope.now.modules.now scope.now.bases.now scope.now.shim «module».now memo.old.items }
    ensures exact { Gives (λ _. found.new) result (gather (on_list (target_in scope.now.modules.now scope.now.bases.now scope.now.shim scope.now.ordinals.now base «module».now) «module».now.relocs) seg found.old) }
    ensures memo { IsMemo scope.now.modules.now scope.now.bases.now scope.now.shim «module».now memo.new.items }
{
    let targets = targets_in(alloc, scope, base, module, leads, seg, 0, memo)?;
    found.add(targets)?;
    Ok(true)
}

// Those of one whose first records are the last ones of an earlier segment.
fn add_onwards(
    alloc: Global,
    scope: &Scope,
    base: u16,
    module: &Module,
    leads: &[Lead],
    last: Last,
    seg: u16,
    skip: u16,
    memo: &mut Vec<Option<(u16, u16)>>,
    found: &mut SharedTargets,
) -> Result<bool, Fail<ModuleFault>>
    requires leads { leads.now ≡ map (lead_of scope.now.modules.now) «module».now.references }
    requires few { length scope.now.modules.now ≤ 64 }
    requires same { length scope.now.bases.now ≡ length scope.now.modules.now }
    requires memo { IsMemo scope.now.modules.now scope.now.bases.now scope.now.shim «module».now memo.old.items }
    requires known { IsKnown (on_list (target_in scope.now.modules.now scope.now.bases.now scope.now.shim scope.now.ordinals.now base «module».now) «module».now.relocs) found.old last }
    requires precedes { Precedes skip (nth_list «module».now.relocs last.seg) (nth_list «module».now.relocs seg) }
    ensures exact { Gives (λ _. found.new) result (gather (on_list (target_in scope.now.modules.now scope.now.bases.now scope.now.shim scope.now.ordinals.now base «module».now) «module».now.relocs) seg found.old) }
    ensures memo { IsMemo scope.now.modules.now scope.now.bases.now scope.now.shim «module».now memo.new.items }
{
    let shared = module.segment_relocs(last.seg) - skip;
    let targets = targets_in(alloc, scope, base, module, leads, seg, shared, memo)?;
    let held = found.add_behind(last.index, skip, targets)?;
    if held {
        return Ok(true);
    }
    add_apart(alloc, scope, base, module, leads, seg, memo, found)
}

// Those of one segment more; whether its records go further than those of the last one.
fn add_targets(
    alloc: Global,
    scope: &Scope,
    base: u16,
    module: &Module,
    leads: &[Lead],
    last: Option<Last>,
    seg: u16,
    memo: &mut Vec<Option<(u16, u16)>>,
    found: &mut SharedTargets,
) -> Result<bool, Fail<ModuleFault>>
    requires leads { leads.now ≡ map (lead_of scope.now.modules.now) «module».now.references }
    requires few { length scope.now.modules.now ≤ 64 }
    requires same { length scope.now.bases.now ≡ length scope.now.modules.now }
    requires memo { IsMemo scope.now.modules.now scope.now.bases.now scope.now.shim «module».now memo.old.items }
    requires known { IfSome last (IsKnown (on_list (target_in scope.now.modules.now scope.now.bases.now scope.now.shim scope.now.ordinals.now base «module».now) «module».now.relocs) found.old) }
    ensures exact { Gives (λ _. found.new) result (gather (on_list (target_in scope.now.modules.now scope.now.bases.now scope.now.shim scope.now.ordinals.now base «module».now) «module».now.relocs) seg found.old) }
    ensures memo { IsMemo scope.now.modules.now scope.now.bases.now scope.now.shim «module».now memo.new.items }
{
    let Some(last) = last else {
        return add_apart(alloc, scope, base, module, leads, seg, memo, found);
    };
    if let Some(skip) = module.records_within(last.seg, seg) {
        found.add_within(last.index, skip, module.segment_relocs(seg))?;
        return Ok(false);
    }
    if let Some(skip) = module.records_before(last.seg, seg) {
        return add_onwards(
            alloc, scope, base, module, leads, last, seg, skip, memo, found,
        );
    }
    add_apart(alloc, scope, base, module, leads, seg, memo, found)
}

// Those of the segments of these numbers, in their order.
fn gather_in(
    alloc: Global,
    scope: &Scope,
    base: u16,
    module: &Module,
    leads: &[Lead],
    order: &[u16],
    memo: &mut Vec<Option<(u16, u16)>>,
) -> Result<SharedTargets, Fail<ModuleFault>>
    requires leads { leads.now ≡ map (lead_of scope.now.modules.now) «module».now.references }
    requires few { length scope.now.modules.now ≤ 64 }
    requires same { length scope.now.bases.now ≡ length scope.now.modules.now }
    requires memo { IsMemo scope.now.modules.now scope.now.bases.now scope.now.shim «module».now memo.old.items }
    requires short { length order.now ≤ 254 }
    ensures exact { Gives (λ t. t) result (each (on_list (target_in scope.now.modules.now scope.now.bases.now scope.now.shim scope.now.ordinals.now base «module».now) «module».now.relocs) order.now) }
    ensures memo { IsMemo scope.now.modules.now scope.now.bases.now scope.now.shim «module».now memo.new.items }
{
    let mut found = SharedTargets::new(alloc);
    let mut last = None;
    for k in 0..order.len() as u16 {
        let seg = order[usize::from(k)];
        let more = add_targets(
            alloc, scope, base, module, leads, last, seg, memo, &mut found,
        )?;
        last = after(last, more, Last { index: k, seg });
    }
    Ok(found)
}

// All of them, gathered in this order, if each segment is in it and each record leads somewhere.
fn gathered_by(
    alloc: Global,
    scope: &Scope,
    base: u16,
    module: &Module,
    leads: &[Lead],
    order: &[u16],
    memo: &mut Vec<Option<(u16, u16)>>,
) -> Result<Option<Resolved>, NoMemory>
    requires leads { leads.now ≡ map (lead_of scope.now.modules.now) «module».now.references }
    requires few { length scope.now.modules.now ≤ 64 }
    requires same { length scope.now.bases.now ≡ length scope.now.modules.now }
    requires memo { IsMemo scope.now.modules.now scope.now.bases.now scope.now.shim «module».now memo.old.items }
    requires short { length order.now ≤ 254 }
    ensures exact { IfOk result (λ o. IfSome o (λ r. targets_of scope.now.modules.now scope.now.bases.now scope.now.shim scope.now.ordinals.now base «module».now ≡ Ok r)) }
    ensures memo { IsMemo scope.now.modules.now scope.now.bases.now scope.now.shim «module».now memo.new.items }
{
    module.is_runnable();
    let kept = places_of(alloc, order, module.segment_count())?;
    let Some(places) = kept else {
        return Ok(None);
    };
    match gather_in(alloc, scope, base, module, leads, order, memo) {
        Ok(found) => Ok(Some(found.finish_in(alloc, places.as_slice())?)),
        Err(Fail::NoMemory) => Err(NoMemory),
        Err(Fail::Bad(_)) => Ok(None),
    }
}

// Whether each record of a segment leads somewhere. No target is kept.
fn check_segment(
    alloc: Global,
    scope: &Scope,
    base: u16,
    module: &Module,
    leads: &[Lead],
    seg: u16,
    memo: &mut Vec<Option<(u16, u16)>>,
) -> Result<(), Fail<ModuleFault>>
    requires leads { leads.now ≡ map (lead_of scope.now.modules.now) «module».now.references }
    requires few { length scope.now.modules.now ≤ 64 }
    requires same { length scope.now.bases.now ≡ length scope.now.modules.now }
    requires memo { IsMemo scope.now.modules.now scope.now.bases.now scope.now.shim «module».now memo.old.items }
    ensures exact { Gives (λ u. u) result (passed (on_list (target_in scope.now.modules.now scope.now.bases.now scope.now.shim scope.now.ordinals.now base «module».now) «module».now.relocs seg)) }
    ensures memo { IsMemo scope.now.modules.now scope.now.bases.now scope.now.shim «module».now memo.new.items }
{
    let _targets = targets_in(alloc, scope, base, module, leads, seg, 0, memo)?;
    Ok(())
}

// Whether each record of the segments of these numbers, in their order, leads somewhere.
fn check_in(
    alloc: Global,
    scope: &Scope,
    base: u16,
    module: &Module,
    leads: &[Lead],
    order: &[u16],
    memo: &mut Vec<Option<(u16, u16)>>,
) -> Result<(), Fail<ModuleFault>>
    requires leads { leads.now ≡ map (lead_of scope.now.modules.now) «module».now.references }
    requires few { length scope.now.modules.now ≤ 64 }
    requires same { length scope.now.bases.now ≡ length scope.now.modules.now }
    requires memo { IsMemo scope.now.modules.now scope.now.bases.now scope.now.shim «module».now memo.old.items }
    ensures exact { Gives (λ u. u) result (passed (each (on_list (target_in scope.now.modules.now scope.now.bases.now scope.now.shim scope.now.ordinals.now base «module».now) «module».now.relocs) order.now)) }
    ensures memo { IsMemo scope.now.modules.now scope.now.bases.now scope.now.shim «module».now memo.new.items }
{
    for k in 0..order.len() {
        check_segment(alloc, scope, base, module, leads, order[k], memo)?;
    }
    Ok(())
}

// All of them, segment by segment, or the first that leads nowhere, which is looked for before any target is kept.
fn in_turn(
    alloc: Global,
    scope: &Scope,
    base: u16,
    module: &Module,
    leads: &[Lead],
    memo: &mut Vec<Option<(u16, u16)>>,
) -> Result<Resolved, Fail<ModuleFault>>
    requires leads { leads.now ≡ map (lead_of scope.now.modules.now) «module».now.references }
    requires few { length scope.now.modules.now ≤ 64 }
    requires same { length scope.now.bases.now ≡ length scope.now.modules.now }
    requires memo { IsMemo scope.now.modules.now scope.now.bases.now scope.now.shim «module».now memo.old.items }
    ensures { Gives (λ r. r) result (targets_of scope.now.modules.now scope.now.bases.now scope.now.shim scope.now.ordinals.now base «module».now) }
{
    module.is_runnable();
    let numbers = numbers(alloc, module.segment_count())?;
    let order = numbers.as_slice();
    check_in(alloc, scope, base, module, leads, order, memo)?;
    let found = gather_in(alloc, scope, base, module, leads, order, memo)?;
    let targets = found.finish(alloc)?;
    Ok(targets)
}

/// Where all records of a module lead, by segment and record.
pub(crate) fn targets_of(
    alloc: Global,
    scope: &Scope,
    base: u16,
    module: &Module,
) -> Result<Resolved, Fail<ModuleFault>>
    requires few { length scope.now.modules.now ≤ 64 }
    requires same { length scope.now.bases.now ≡ length scope.now.modules.now }
    ensures { Gives (λ r. r) result (targets_of scope.now.modules.now scope.now.bases.now scope.now.shim scope.now.ordinals.now base «module».now) }
{
    let leads = leads_of(alloc, scope.modules, module)?;
    let mut memo = memo_for(alloc, scope.modules, module)?;
    let order = order_of(alloc, module)?;
    let all = gathered_by(
        alloc,
        scope,
        base,
        module,
        leads.as_slice(),
        order.as_slice(),
        &mut memo,
    )?;
    match all {
        Some(found) => Ok(found),
        None => in_turn(alloc, scope, base, module, leads.as_slice(), &mut memo),
    }
}
