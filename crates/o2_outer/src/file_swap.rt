// A swap device over a file of the system.
ghost use Rattle.std.specs.Prelude.{◌≡◌, ◌≤◌, ◌<◌, [], List, ℕ, true, false};
ghost use Rattle.o2_outer.specs.Texts.{Rose, risen};
ghost use Rattle.o2_outer.specs.Streams.{swap_history, swap_faults};
ghost use Rattle.o2_outer.specs.Ahead.{has_block, IsAsBefore};
ghost use Rattle.o2_outer.specs.Placed.{Flushes, Fills, IsGiven};

use crate::history::History;
use crate::noted::Noted;
use crate::placed::{seek_to, write_at};
use crate::window::Window;
use crate::{Dev, SwapDevice};
use std::fs::OpenOptions;
use std::rt;

/// The file, in the folder that the program runs in.
const NAME: &str = "os2run.swp";

/// How many blocks there are, which is 32 MiB.
const BLOCKS: u32 = 65_536;

/// Blocks in the file `os2run.swp`, which is made, empty, at the first use. A block holds what was written last, and it tells whether
/// each read gave that. Each error of the system is a fault, and so is a read of a block of which the file has less than the whole: so a
/// read gives other bytes only where the file changes by itself. A block that wasn't written or whose last write failed isn't read.
///
/// Up to 16 blocks that follow one another are written together, once one is read or another one is written, and read together. Those that
/// wait are kept until the file has them: where it can't take them, that is a fault of the call that finds it, and they aren't lost.
#[derive(Drop)]
pub struct FileSwap<R: rt::Files + Drop> {
    system: R,
    file: Option<R::File>,
    window: Window,
    noted: Noted,
    // which blocks were asked for, for proofs
    asked: History<u32, u32, u32>,
    faults: u64,
}

impl<R: rt::Files + Drop> FileSwap<R> {
    /// A device over the files that this system has. Nothing is opened yet.
    pub fn new(system: R) -> FileSwap<R>
        ensures faultless { swap_faults result ≡ 0 }
        ensures none { swap_history result ≡ [] }
    {
        FileSwap {
            system,
            file: None,
            window: Window::new(),
            noted: Noted::new(),
            asked: History::new(),
            faults: 0,
        }
    }

    /// Opens the file where it isn't open, and tells whether it is.
    fn open(&mut self) -> bool
        ensures faults { self.new.faults ≡ self.old.faults }
        ensures noted { self.new.noted ≡ self.old.noted }
        ensures asked { self.new.asked ≡ self.old.asked }
        ensures window { self.new.window ≡ self.old.window }
    {
        if self.file.is_some() {
            return true;
        }
        let mut options = OpenOptions::new();
        options.read(true).write(true).create(true).truncate(true);
        match options.open(&self.system, NAME) {
            Ok(file) => {
                self.file = Some(file);
                true
            }
            Err(_) => false,
        }
    }

    /// One fault more.
    fn fault(&mut self) -> Dev
        ensures failed { result ≡ Dev.Failed }
        ensures later { self.old.faults ≤ self.new.faults }
        ensures rose { Rose self.old.faults self.new.faults }
        ensures counts { self.new.faults ≡ risen self.old.faults }
        ensures noted { self.new.noted ≡ self.old.noted }
        ensures asked { self.new.asked ≡ self.old.asked }
    {
        self.faults = self.faults.saturating_add(1);
        Dev::Failed
    }

    /// Writes the blocks that wait to the open file, and tells whether it took them whole. They wait on where it didn't.
    fn flush(&mut self) -> bool
        ensures faults { self.new.faults ≡ self.old.faults }
        ensures noted { self.new.noted ≡ self.old.noted }
        ensures asked { self.new.asked ≡ self.old.asked }
        ensures window { IsAsBefore self.old.window self.new.window }
        ensures done { result ≡ true → self.new.window.waits ≡ false }
        ensures waits { result ≡ false → self.new.window ≡ self.old.window }
        ensures written { result ≡ true
            → Flushes R.File.stream_position R.File.contents self.old.file self.new.file self.old.window }
    {
        if !self.window.waits() {
            return true;
        }
        let Some(file) = &mut self.file else {
            return false;
        };
        if !write_at(file, self.window.first(), self.window.bytes()) {
            return false;
        }
        self.window.settle();
        true
    }

    /// Reads a block and those that follow it from the open file, as far as they are known, where none waits.
    fn fill(&mut self, i: u32) -> bool
        requires block { i < 65536 }
        requires done { self.old.window.waits ≡ false }
        ensures faults { self.new.faults ≡ self.old.faults }
        ensures noted { self.new.noted ≡ self.old.noted }
        ensures asked { self.new.asked ≡ self.old.asked }
        ensures read { result ≡ true
            → Fills R.File.stream_position R.File.remaining self.old.file self.new.file i self.new.window }
    {
        let count = self.noted.known_from(i);
        let Some(file) = &mut self.file else {
            return false;
        };
        if !seek_to(file, i) {
            return false;
        }
        self.window.fill(file, i, count);
        true
    }

    /// Gives a block, and tells whether that was done. Those that wait are written before.
    #[tactic(auto, using(crate::proofs::Windows::held_as))]
    fn reads(&mut self, i: u32, into: &mut [u8; 512]) -> bool
        requires { i < 65536 }
        ensures held { (block : List ℕ) → has_block self.old.window i block → result ≡ true → into.new ≡ block }
        ensures given { result ≡ true → has_block self.new.window i into.new }
        ensures from { result ≡ true
            → IsGiven R.File.stream_position R.File.remaining self.old.window self.new.file i into.new }
        ensures faults { self.new.faults ≡ self.old.faults }
        ensures noted { self.new.noted ≡ self.old.noted }
        ensures asked { self.new.asked ≡ self.old.asked }
    {
        if !self.flush() {
            return false;
        }
        if self.window.get(i, into) {
            return true;
        }
        if !self.fill(i) {
            return false;
        }
        self.window.get(i, into)
    }

    /// Has a block wait to be written, and tells whether that was done. Those that wait are written first where it doesn't follow them.
    fn writes(&mut self, i: u32, from: &[u8; 512]) -> bool
        ensures waits { result ≡ true → has_block self.new.window i from.now }
        ensures faults { self.new.faults ≡ self.old.faults }
        ensures noted { self.new.noted ≡ self.old.noted }
        ensures asked { self.new.asked ≡ self.old.asked }
    {
        if self.window.add(i, from) {
            return true;
        }
        if !self.flush() {
            return false;
        }
        self.window.begin(i, from);
        true
    }
}

impl<R: rt::Files + Drop> SwapDevice for FileSwap<R> {
    ghost use Rattle.std.specs.Prelude.{◌≢◌, ◌<◌, ◌++◌, ◌∷◌, [], ℕ, List, IsTrue, true, false, replicate};
    ghost use Rattle.o2_outer.specs.Answers.{HasCause, CountsDev};
    ghost use Rattle.o2_outer.specs.Accesses.{all_agree, content, is_known, with_read, with_write};
    ghost use Rattle.o2_outer.specs.Streams.{swap_asked, swap_history, swap_faults, swap_window, swap_file};
    ghost use Rattle.o2_outer.specs.Ahead.{has_block};
    ghost use Rattle.o2_outer.specs.Sums.{block_sum};

    ghost blocks = { λ _. 65536 };

    ghost told = { λ s. all_agree (swap_history s) };

    ghost block = { λ s. content (swap_history s) };

    ghost known = { λ s. is_known (swap_history s) };

    ghost asked = { λ s. swap_asked s };

    ghost faults = { λ s. swap_faults s };

    fn count(&self) -> u32 {
        BLOCKS
    }

    fn knows(&self, i: u32) -> bool
        requires { i < 65536 }
        ensures known { result ≡ is_known (swap_history self.now) i }
        ensures zeros { result ≡ false → content (swap_history self.now) i ≡ replicate 512 0 }
    {
        self.noted.knows(i)
    }

    fn read(&mut self, i: u32, into: &mut [u8; 512]) -> Dev
        requires block { i < 65536 }
        requires known { is_known (swap_history self.old) i ≡ true }
        ensures notes { swap_history self.new ≡ with_read result i into.new (swap_history self.old) }
        ensures earlier { IsTrue (all_agree (swap_history self.new))
            → IsTrue (all_agree (swap_history self.old)) }
        ensures same { (b : ℕ) → content (swap_history self.new) b ≡ content (swap_history self.old) b }
        ensures read { IsTrue (all_agree (swap_history self.new)) → result ≡ Dev.Done
            → into.new ≡ content (swap_history self.old) i }
        ensures cause { HasCause (swap_faults self.old) (swap_faults self.new) result }
        ensures counts { CountsDev (swap_faults self.old) (swap_faults self.new) result }
        ensures asked { swap_asked self.new ≡ swap_asked self.old ++ i ∷ [] }
        ensures knows { (b : ℕ) → is_known (swap_history self.new) b ≡ is_known (swap_history self.old) b }
        // What comes has the sum of what was written last; where it has another one, that is a fault, and is counted.
        ensures summed { result ≡ Dev.Done
            → block_sum into.new ≡ block_sum (content (swap_history self.old) i) }
        ensures other_sum { block_sum into.new ≢ block_sum (content (swap_history self.old) i)
            → (result ≡ Dev.Failed) × (swap_faults self.new ≡ risen (swap_faults self.old)) }
        // What is in memory is given as it is there, whatever the file has.
        ensures held { (block : List ℕ) → has_block (swap_window self.old) i block → result ≡ Dev.Done → into.new ≡ block }
        // What isn't comes from the file, just as that gave it at the block's place.
        ensures from { result ≡ Dev.Done → IsGiven R.File.stream_position R.File.remaining
            (swap_window self.old) (swap_file self.new) i into.new }
    {
        self.asked = self.asked.and(&i, &i, &i);
        if !(self.open() && self.reads(i, into) && self.noted.agrees(i, into)) {
            return self.fault();
        }
        self.noted.read(i, into);
        Dev::Done
    }

    fn write(&mut self, i: u32, from: &[u8; 512]) -> Dev
        requires { i < 65536 }
        ensures notes { swap_history self.new ≡ with_write result i from.now (swap_history self.old) }
        ensures same { all_agree (swap_history self.new) ≡ all_agree (swap_history self.old) }
        ensures others { (b : ℕ) → b ≢ i
            → content (swap_history self.new) b ≡ content (swap_history self.old) b }
        ensures written { result ≡ Dev.Done → content (swap_history self.new) i ≡ from.now }
        ensures cause { HasCause (swap_faults self.old) (swap_faults self.new) result }
        ensures counts { CountsDev (swap_faults self.old) (swap_faults self.new) result }
        ensures known { result ≡ Dev.Done → is_known (swap_history self.new) i ≡ true }
        ensures knows { (b : ℕ) → b ≢ i
            → is_known (swap_history self.new) b ≡ is_known (swap_history self.old) b }
        ensures unasked { swap_asked self.new ≡ swap_asked self.old }
        ensures waits { result ≡ Dev.Done → has_block (swap_window self.new) i from.now }
    {
        if !(self.open() && self.writes(i, from)) {
            self.noted.lost(i, from);
            return self.fault();
        }
        self.noted.written(i, from);
        Dev::Done
    }
}
