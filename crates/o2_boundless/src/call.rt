// A call of a process.
ghost use Rattle.std.specs.Prelude.{◌≡◌, ◌≤◌, ◌++◌, [], true, IfOk, List, OnErr, OnOk, Some, length, replicate, slice_index};
ghost use Rattle.std.specs.Option.{option_copied};
ghost use Rattle.o2_world.specs.declared.types.Slot.{Slot};
ghost use Rattle.o2_world.specs.Calls.{row_of};
ghost use Rattle.o2_world.specs.Holders.{process_at};
ghost use Rattle.o2_world.specs.Known.{lives_at};
ghost use Rattle.o2_world.specs.Outcomes.{come_out, gone_by, gone_indexes, is_gone};
ghost use Rattle.o2_world.specs.HugeRulings.{without};
ghost use Rattle.o2_world.specs.Slots.{words_in};
ghost use Rattle.o2_boundless.specs.Called.{answer, answer_of, behind_call, behind_effect, effect_by, worded_by};
ghost use Rattle.o2_world_parts.specs.Edits.{change_of, changes_of};
ghost use Rattle.o2_world_parts.specs.Effects.{IsEffect};
ghost use Rattle.o2_world_parts.specs.Layouts.{placed};
ghost use Rattle.o2_boundless.specs.Outcomes.{outcome_of, row_by, shape_by};
ghost use Rattle.o2_boundless.specs.Shown.{before_call, known_by};

use crate::World;
use crate::huge::without;
use crate::outcome::Outcome;
use crate::rows::{Row, row_of};
use crate::working::is_live;
use o2_base::NoMemory;
use o2_isa::Cpu;
use o2_world_parts::{
    Done, Edit, Effect, Held, Layout, Process, comes_back, from_top, held_by, is_alive, layout_of,
    leaves, process_of, registers, returned, trapped, waits,
};
use std::alloc::Global;

/// Whether so many holds are all that there are.
fn is_gone(count: u32, held: Option<&Held>) -> bool
    ensures { result ≡ is_gone count (option_copied held.entry) }
{
    match held {
        None => false,
        Some(held) => held.holds <= count,
    }
}

impl World {
    fn put_gone(&self, indexes: &mut Vec<u16>, edit: &Edit) -> Result<(), NoMemory>
        ensures { IfOk result (λ _. indexes.new.items ≡ indexes.old.items ++ gone_by (known_by self.now) (change_of edit.now) []) }
    {
        match edit {
            Edit::Drops(process, index, count) => {
                if is_gone(*count, held_by(&self.processes, *process, *index)) {
                    indexes.push(*index)?;
                }
            }
            Edit::Makes(_) => {}
            Edit::Resizes(_, _) => {}
            Edit::Locks(_, _) => {}
            Edit::Revives(_) => {}
            Edit::Holds(_, _, _) => {}
            Edit::Finishes(_, _) => {}
            Edit::Reserves(_) => {}
            Edit::Names(_, _) => {}
        }
        Ok(())
    }

    /// The indexes of which a process holds nothing any more.
    #[tactic(auto, using(crate::proofs::Lists::gone))]
    fn gone_indexes(&self, alloc: Global, edits: &[Edit]) -> Result<Vec<u16>, NoMemory>
        ensures { IfOk result (λ v. v.items ≡ gone_indexes (known_by self.now) (changes_of edits.now)) }
    {
        let mut indexes = Vec::new(alloc);
        for edit in edits {
            self.put_gone(&mut indexes, edit)?;
        }
        Ok(indexes)
    }

    /// The registers as a call comes back that is done: DS and ES are 0 where they named what is gone.
    fn cleared(&self, alloc: Global, cpu: &Cpu, edits: &[Edit]) -> Result<Cpu, NoMemory>
        ensures { IfOk result (λ c. c ≡ without cpu.now (gone_indexes (known_by self.now) (changes_of edits.now))) }
    {
        let gone = self.gone_indexes(alloc, edits)?;
        Ok(without(cpu, &gone))
    }

    /// A call of a row that comes out so.
    fn come_out(
        &self,
        alloc: Global,
        n: u16,
        process: &Process,
        row: &Row,
        layout: &Layout,
        words: &[u16],
        outcome: Outcome,
    ) -> Result<Effect, NoMemory>
        requires slots { layout.now.slots.items ≡ placed row.now.slots.now }
        requires words { layout.now.words ≡ words_in row.now.slots.now }
        ensures { IfOk result (λ x. let b = before_call self.now n process.now in IsEffect b x (come_out (row_by row.now) b b.cpu.ip (slice_index words.now) (outcome_of b.input outcome))) }
    {
        let cpu = registers(process);
        match outcome {
            Outcome::Fails(error, values) => {
                let done = Done {
                    values,
                    parts: Vec::new(alloc),
                    edits: Vec::new(alloc),
                    read: 0,
                    piece: Vec::new(alloc),
                };
                let after = returned(&cpu, layout.words, error);
                comes_back(alloc, n, after, row.name, layout, words, error, done)
            }
            Outcome::Does(done) => {
                let after = returned(&cpu, layout.words, 0);
                let after = self.cleared(alloc, &after, &done.edits)?;
                comes_back(alloc, n, after, row.name, layout, words, 0, done)
            }
            Outcome::Waits => Ok(waits(alloc, &cpu)),
            Outcome::Leaves(action, code) => leaves(alloc, n, &cpu, action, code),
        }
    }

    /// The call of a row, by its words.
    fn worded(
        &self,
        alloc: Global,
        n: u16,
        process: &Process,
        service: u16,
        row: &Row,
        layout: &Layout,
        words: &[u16],
    ) -> Result<Effect, NoMemory>
        requires row { shape_by (row_of service) ≡ Some (row.now.name.now, row.now.slots.now) }
        requires slots { layout.now.slots.items ≡ placed row.now.slots.now }
        requires words { layout.now.words ≡ words_in row.now.slots.now }
        requires enough { 6 ≤ length words.now }
        ensures { IfOk result (λ x. let b = before_call self.now n process.now in IsEffect b x (worded_by (row_of service) b b.cpu.ip (slice_index words.now))) }
    {
        let cpu = registers(process);
        let good = self.are_good(alloc, process, &layout.slots, words)?;
        if !good {
            return trapped(alloc, n, &cpu, 13);
        }
        let outcome = self.outcome(alloc, n, process, service, row.slots, words)?;
        self.come_out(alloc, n, process, row, layout, words, outcome)
    }

    /// What a call does. A number without a row is that of no call.
    fn effect(
        &self,
        alloc: Global,
        n: u16,
        process: &Process,
        service: u16,
        args: &[u16],
    ) -> Result<Effect, NoMemory>
        ensures { IfOk result (λ x. IsEffect (before_call self.now n process.now) x (effect_by self.now n process.now (row_of service) args.now)) }
    {
        let Some(row) = row_of(service) else {
            return trapped(alloc, n, &registers(process), 13);
        };
        let layout = layout_of(alloc, row.slots)?;
        let words = from_top(alloc, layout.words, args)?;
        self.worded(alloc, n, process, service, &row, &layout, &words)
    }

    /// Whether a number is that of a process that has not ended.
    pub fn lives(&self, pid: u16) -> bool
        ensures { result ≡ lives_at (process_at self.now.world.processes pid) }
    {
        is_alive(&self.processes, pid)
    }

    /// A call of a process, with its arguments in the order in which a program pushes them, of which those that are missing
    /// are 0; the registers are those at the call, and IP stays. A service that isn't built ends the process by exception 13. It answers
    /// the error number, and 0 where the process ended. Without memory the world stays as it is; that is answered too where a number
    /// grows past what no machine reaches: holds of an index past 2^32 - 1, the next name past 2^64 - 1, an index past 8191.
    pub fn call(
        &mut self,
        alloc: Global,
        pid: u16,
        service: u16,
        args: &[u16],
    ) -> Result<u16, NoMemory>
        requires { lives_at (process_at self.old.world.processes pid) ≡ true }
        ensures world { OnOk result (self.new ≡ behind_call self.old pid service args.now) }
        ensures error { IfOk result (λ n. n ≡ answer self.old pid service args.now) }
        ensures unchanged { OnErr result (self.new ≡ self.old) }
    {
        let (next, error) = self.called(alloc, pid, service, args)?;
        *self = next;
        Ok(error)
    }

    fn process(&self, pid: u16) -> Option<&Process>
        ensures { option_copied result ≡ process_at self.now.world.processes pid }
    {
        process_of(&self.processes, pid)
    }

    #[tactic(auto, using(crate::proofs::Behind::answered))]
    fn called(
        &self,
        alloc: Global,
        pid: u16,
        service: u16,
        args: &[u16],
    ) -> Result<(World, u16), NoMemory>
        ensures world { IfOk result (λ r. r.0 ≡ behind_call self.now pid service args.now) }
        ensures error { IfOk result (λ r. r.1 ≡ answer self.now pid service args.now) }
    {
        let Some(process) = self.process(pid) else {
            return Err(NoMemory);
        };
        self.called_by(alloc, pid, process, service, args)
    }

    #[tactic(auto, using(crate::proofs::Behind::answered))]
    fn called_by(
        &self,
        alloc: Global,
        n: u16,
        process: &Process,
        service: u16,
        args: &[u16],
    ) -> Result<(World, u16), NoMemory>
        ensures world { IfOk result (λ r. r.0 ≡ behind_effect self.now n process.now (effect_by self.now n process.now (row_of service) args.now)) }
        ensures error { IfOk result (λ r. r.1 ≡ answer_of (effect_by self.now n process.now (row_of service) args.now)) }
    {
        let effect = self.effect(alloc, n, process, service, args)?;
        let error = if is_live(effect.state) && !effect.waits {
            effect.cpu.ax
        } else {
            0
        };
        let mut next = self.copy(alloc)?;
        next.take_effect(alloc, n, process, effect)?;
        Ok((next, error))
    }
}
