// The world with the changes that calls make.
ghost use Rattle.std.specs.Prelude.{◌≡◌, IfOk};
ghost use Rattle.o2_world.specs.Changes.{Makes, swept, with_change, with_changes, with_all};
ghost use Rattle.o2_world_parts.specs.Edits.{change_of, changes_of};

use crate::World;
use o2_base::{Bytes, NoMemory};
use o2_world_parts::{
    Edit, Segment, any_takes, drop_at, end_at, hold_at, keep_held, keep_told, keep_used, lock_in,
    put_first, resize_in, revive_in,
};
use std::alloc::Global;

impl World {
    fn make(&mut self, alloc: Global, segment: &Segment) -> Result<(), NoMemory>
        ensures { IfOk result (λ _. self.new ≡ record self.old { world = with_change self.old.world (Makes segment.now) }) }
    {
        let name = self.next_name;
        let Some(next) = name.checked_add(1) else {
            return Err(NoMemory);
        };
        let segment = segment.copy(alloc)?;
        put_first(&mut self.names, (name, segment))?;
        self.next_name = next;
        Ok(())
    }

    /// The world with a change.
    fn change(&mut self, alloc: Global, edit: &Edit) -> Result<(), NoMemory>
        ensures { IfOk result (λ _. self.new ≡ record self.old { world = with_change self.old.world (change_of edit.now) }) }
    {
        match edit {
            Edit::Makes(segment) => self.make(alloc, segment),
            Edit::Resizes(name, size) => resize_in(&mut self.names, *name, *size),
            Edit::Locks(name, count) => {
                lock_in(&mut self.names, *name, *count);
                Ok(())
            }
            Edit::Revives(name) => {
                revive_in(&mut self.names, *name);
                Ok(())
            }
            Edit::Holds(process, index, held) => hold_at(
                &mut self.processes,
                *process,
                *index,
                held,
            ),
            Edit::Drops(process, index, count) => {
                drop_at(&mut self.processes, *process, *index, *count)
            }
            Edit::Finishes(process, state) => {
                end_at(&mut self.processes, *process, *state);
                Ok(())
            }
            Edit::Reserves(reserve) => put_first(&mut self.reserved, reserve.copy()),
            Edit::Names(text, name) => {
                let text = Bytes::from_slice(alloc, text.as_slice())?;
                put_first(&mut self.texts, (text, *name))
            }
        }
    }

    fn sweep(&mut self)
        ensures { self.new ≡ record self.old { world = swept self.old.world } }
    {
        keep_held(&mut self.names, &self.processes);
        keep_used(&mut self.reserved, &self.processes);
        keep_told(&mut self.texts, &self.processes);
    }

    #[tactic(auto, unfolding(o2_world::specs::Changes::with_changes), using(crate::proofs::Folded::folded))]
    fn change_by(&mut self, alloc: Global, edits: &[Edit]) -> Result<(), NoMemory>
        ensures { IfOk result (λ _. self.new ≡ record self.old { world = with_changes self.old.world (changes_of edits.now) }) }
    {
        for edit in edits {
            self.change(alloc, edit)?;
        }
        Ok(())
    }

    /// The world with all changes of a call.
    #[tactic(auto, using(crate::proofs::Folded::folded))]
    pub(crate) fn change_all(&mut self, alloc: Global, edits: &[Edit]) -> Result<(), NoMemory>
        ensures { IfOk result (λ _. self.new ≡ record self.old { world = with_all self.old.world (changes_of edits.now) }) }
    {
        self.change_by(alloc, edits)?;
        if any_takes(edits) {
            self.sweep();
        }
        Ok(())
    }
}
