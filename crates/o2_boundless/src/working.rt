// The world behind what a call does.
ghost use Rattle.std.specs.Prelude.{◌≡◌, ◌++◌, ◌∷◌, [], IfOk, drop, if◌then◌else◌};
ghost use Rattle.o2_world.specs.World.{is_live};
ghost use Rattle.o2_world.specs.Changes.{Finishes};
ghost use Rattle.o2_world.specs.CallParts.{Effect as WorldEffect};
ghost use Rattle.o2_boundless.specs.Called.{behind_effect};
ghost use Rattle.o2_world_parts.specs.Edits.{changes_of};
ghost use Rattle.o2_world_parts.specs.Effects.{IsEffect};
ghost use Rattle.o2_boundless.specs.Shown.{before_call};
ghost use Rattle.o2_boundless.specs.Worked.{with_state, with_parts, with_worker, with_input, with_console, with_report, worked_by};

use crate::World;
use o2_base::{Bytes, NoMemory};
use o2_isa::Cpu;
use o2_world::State;
use o2_world_parts::{Edit, Effect, Process, with_parts};
use std::alloc::Global;

pub(crate) fn is_live(state: State) -> bool
    ensures { result ≡ is_live state }
{
    match state {
        State::Live => true,
        State::Exited(_) => false,
        State::Trapped(_) => false,
    }
}

fn joined(alloc: Global, front: &[u8], back: &[u8]) -> Result<Bytes, NoMemory>
    ensures { IfOk result (λ b. b ≡ front.now ++ back.now) }
{
    let mut all = Vec::from_slice(alloc, front)?;
    all.extend_from_slice(back)?;
    Ok(Bytes::new(all))
}

#[tactic(auto, using(std::proofs::lemmas::List::drop_all))]
fn rest(bytes: &[u8], count: usize) -> &[u8]
    ensures { result.now ≡ drop count bytes.now }
{
    if count > bytes.len() {
        &bytes[bytes.len()..]
    } else {
        &bytes[count..]
    }
}

fn with_state(
    alloc: Global,
    process: &Process,
    cpu: &Cpu,
    state: State,
) -> Result<Process, NoMemory>
    ensures { IfOk result (λ p. p ≡ with_state process.now cpu.now state) }
{
    let mut after = process.copy(alloc)?;
    after.cpu = *cpu;
    if is_live(state) {
        after.state = state;
    }
    Ok(after)
}

/// All changes: where the process has ended, that comes behind them.
#[tactic(auto, using(crate::proofs::Lists::drops))]
fn all_edits(number: u16, state: State, mut edits: Vec<Edit>) -> Result<Vec<Edit>, NoMemory>
    ensures { IfOk result (λ v. changes_of v.items ≡ (if is_live state then changes_of edits.items else changes_of edits.items ++ Finishes number state ∷ [])) }
{
    if !is_live(state) {
        edits.push(Edit::Finishes(number, state))?;
    }
    Ok(edits)
}

impl World {
    fn write_behind(
        &mut self,
        alloc: Global,
        process: &Process,
        targets: &[(u16, u16)],
        parts: &[Bytes],
    ) -> Result<(), NoMemory>
        ensures { IfOk result (λ _. self.new ≡ with_parts process.now.held targets.now parts.now self.old) }
    {
        self.names = with_parts(alloc, &self.names, &process.held, targets, parts)?;
        Ok(())
    }

    fn put_process(&mut self, number: u16, process: Process)
        ensures { self.new ≡ with_worker number process self.old }
    {
        if number != 0 && number as usize <= self.processes.len() {
            self.processes[number as usize - 1] = process;
        }
    }

    fn take_input(&mut self, alloc: Global, count: usize) -> Result<(), NoMemory>
        ensures { IfOk result (λ _. self.new ≡ with_input (drop count self.old.world.input) self.old) }
    {
        self.input = Bytes::from_slice(alloc, rest(self.input.as_slice(), count))?;
        Ok(())
    }

    fn add_piece(&mut self, alloc: Global, piece: &[u8]) -> Result<(), NoMemory>
        ensures { IfOk result (λ _. self.new ≡ with_console (self.old.world.console ++ piece.now) self.old) }
    {
        self.console = joined(alloc, self.console.as_slice(), piece)?;
        Ok(())
    }

    fn add_lines(&mut self, alloc: Global, lines: &[u8]) -> Result<(), NoMemory>
        ensures { IfOk result (λ _. self.new ≡ with_report (self.old.report ++ lines.now) self.old) }
    {
        self.lines = joined(alloc, self.lines.as_slice(), lines)?;
        Ok(())
    }

    /// The world becomes what a call does leaves of it, before its changes.
    fn work(
        &mut self,
        alloc: Global,
        number: u16,
        process: &Process,
        effect: &Effect,
    ) -> Result<(), NoMemory>
        ensures { IfOk result (λ _. self.new ≡ worked_by self.old number process.now effect.now) }
    {
        self.write_behind(alloc, process, &effect.targets, &effect.parts)?;
        let after = with_state(alloc, process, &effect.cpu, effect.state)?;
        self.put_process(number, after);
        self.take_input(alloc, effect.read)?;
        self.add_piece(alloc, &effect.piece)?;
        self.add_lines(alloc, &effect.lines)?;
        Ok(())
    }

    /// The world becomes the one behind what a call of a process does.
    pub(crate) fn take_effect(
        &mut self,
        alloc: Global,
        n: u16,
        process: &Process,
        effect: Effect,
    ) -> Result<(), NoMemory>
        ensures { IfOk result (λ _. (e : WorldEffect) → IsEffect (before_call self.old n process.now) effect e → self.new ≡ behind_effect self.old n process.now e) }
    {
        self.work(alloc, n, process, &effect)?;
        let edits = all_edits(n, effect.state, effect.edits)?;
        self.change_all(alloc, &edits)
    }
}
