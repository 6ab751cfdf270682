// Which index is chosen for new selectors.
ghost use Rattle.std.specs.Prelude.{◌≡◌, ◌≤◌, ◌<◌, ◌+◌, IfSome};
ghost use Rattle.std.specs.List.{list_any};
ghost use Rattle.o2_desc.specs.Choice.{is_open, first_open};
ghost use Rattle.o2_world.specs.HugeRulings.{free_run};
ghost use Rattle.o2_world.specs.Known.{reserves};
ghost use Rattle.o2_world.specs.Rulings.{free_index};
ghost use Rattle.o2_boundless.specs.Shown.{known_by};

use crate::World;
use o2_world_parts::{holds_index, is_held_under, live_below, reserves};

impl World {
    /// How many names live.
    pub(crate) fn count(&self) -> u64
        ensures { result ≡ (known_by self.now).count }
    {
        live_below(&self.names, self.next_name)
    }

    fn is_reserved(&self, region: u16, index: u16) -> bool
        ensures { result ≡ list_any (reserves region index) self.now.world.reserved }
    {
        self.reserved
            .iter()
            .any(|reserve| reserves(reserve, region, index))
    }

    /// An index of a process's region, or with 0 of the shared one, is held or reserved.
    pub(crate) fn is_taken(&self, region: u16, index: u16) -> bool
        ensures { result ≡ (known_by self.now).taken region index }
    {
        let held = if region == 0 {
            holds_index(&self.processes, index)
        } else {
            is_held_under(&self.processes, region, index)
        };
        held || self.is_reserved(region, index)
    }

    #[tactic(auto, unfolding(o2_desc::specs::Choice::is_open), using(crate::proofs::Indexes::choosing))]
    fn is_open(&self, region: u16, index: u16, count: u16) -> bool
        requires { index + count ≤ 8192 }
        ensures { result ≡ is_open ((known_by self.now).taken region) index count }
    {
        if count == 0 {
            return true;
        }
        !self.is_taken(region, index) && self.is_open(region, index + 1, count - 1)
    }

    #[tactic(auto, unfolding(o2_desc::specs::Choice::first_open), using(crate::proofs::Indexes::choosing))]
    fn first_open(&self, region: u16, count: u16, index: u16, more: u16) -> Option<u16>
        requires some { 1 ≤ count }
        requires within { index + more + count ≤ 8193 }
        ensures index { result ≡ first_open ((known_by self.now).taken region) count index more }
        ensures local { IfSome result (λ i. i < 8192) }
    {
        if more == 0 {
            return None;
        }
        if self.is_open(region, index, count) {
            return Some(index);
        }
        self.first_open(region, count, index + 1, more - 1)
    }

    /// The first of as many indexes in a row as are wanted, of a process's region or of the shared one.
    #[tactic(auto, unfolding(o2_desc::specs::Choice::first_open), using(crate::proofs::Indexes::choosing))]
    pub(crate) fn free_run(&self, region: u16, count: u32) -> Option<u16>
        requires { 1 ≤ count }
        ensures index { result ≡ free_run (known_by self.now) region count }
        ensures few { IfSome result (λ i. count ≤ 4096) }
        ensures local { IfSome result (λ i. i < 8192) }
    {
        let (low, end) = if region == 0 { (4096, 8192) } else { (1, 4096) };
        if count > 4096 || low + count > end {
            return None;
        }
        let count = count as u16;
        self.first_open(
            region,
            count,
            low as u16,
            (end + 1 - (low + count as u32)) as u16,
        )
    }

    /// A free index of a region.
    pub(crate) fn free_index(&self, region: u16) -> Option<u16>
        ensures index { result ≡ free_index (known_by self.now) region }
        ensures local { IfSome result (λ i. i < 8192) }
    {
        self.free_run(region, 1)
    }
}
