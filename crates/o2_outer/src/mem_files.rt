// Files in memory: some that fail when told to, and some that never fail.
ghost use Rattle.std.specs.Prelude.{◌≡◌, ◌≤◌, ◌++◌, ◌∷◌, [], Some, option_map, true, false};
ghost use Rattle.o2_outer.specs.Answers.{Answers, IsBounded, FetchHasCause, CountsFetch};
ghost use Rattle.o2_outer.specs.Planned.{fails_next, next_call};
ghost use Rattle.o2_outer.specs.Plans.{mem_files, mem_fetches, mem_fetches_to_fail, mem_fetch_faults, mem_names_asked, sure_files, sure_names_asked};
ghost use Rattle.o2_outer.specs.Contents.{file_in};

use crate::history::History;
use crate::plan::fails_now;
use crate::{Fetch, Files};
use o2_base::Bytes;
use std::alloc::Global;

/// Files in memory, as pairs of a name and its bytes; of two of one name the first counts. The calls of `fails`,
/// counted from 1, fail, and no other.
#[derive(Drop)]
pub struct MemFiles {
    files: Vec<(Bytes, Bytes)>,
    fails: Vec<u64>,
    calls: u64,
    faults: u64,
    // which names were asked for, for proofs
    asked: History<Bytes, u32, u32>,
}

/// The first file of this name.
fn find<'a>(files: &'a [(Bytes, Bytes)], name: &[u8]) -> Option<&'a Bytes>
    ensures { option_map (λ b. b.now) result ≡ file_in files.now name.now }
{
    files
        .iter()
        .find(|file| file.0.as_slice() == name)
        .map(|file| &file.1)
}

/// What files in memory answer, where the call doesn't fail.
pub fn fetch_from(files: &[(Bytes, Bytes)], alloc: Global, name: &Bytes, most: u32) -> Fetch
    ensures answers { Answers (file_in files.now) name.now most result }
    ensures bounded { IsBounded most result }
    ensures sure { result ≡ Fetch.Failed → ⊥ }
{
    match find(files, name.as_slice()) {
        None => Fetch::NoFile,
        Some(file) => {
            if file.len() > most as usize {
                return Fetch::TooLong;
            }
            match Bytes::from_slice(alloc, file.as_slice()) {
                Ok(bytes) => Fetch::Got(bytes),
                Err(_) => Fetch::NoMemory,
            }
        }
    }
}

impl MemFiles {
    /// These files, and the calls that are to fail.
    pub fn new(files: Vec<(Bytes, Bytes)>, fails: Vec<u64>) -> MemFiles
        ensures files { mem_files result ≡ files.items }
        ensures fails { mem_fetches_to_fail result ≡ fails.items }
        ensures calls { mem_fetches result ≡ 0 }
        ensures faultless { mem_fetch_faults result ≡ 0 }
        ensures none { mem_names_asked result ≡ [] }
    {
        MemFiles {
            files,
            fails,
            calls: 0,
            faults: 0,
            asked: History::new(),
        }
    }
}

impl Files for MemFiles {
    ghost may_hold = { λ f files. files ≡ file_in (mem_files f) };

    ghost asked = { λ f. mem_names_asked f };

    ghost faults = { λ f. mem_fetch_faults f };

    fn fetch(&mut self, alloc: Global, name: &Bytes, most: u32) -> Fetch
        ensures answers { Answers (file_in (mem_files self.old)) name.now most result }
        ensures bounded { IsBounded most result }
        ensures files { mem_files self.new ≡ mem_files self.old }
        ensures asked { mem_names_asked self.new ≡ mem_names_asked self.old ++ name.now ∷ [] }
        ensures count { mem_fetch_faults self.old ≤ mem_fetch_faults self.new }
        ensures cause { FetchHasCause (mem_fetch_faults self.old) (mem_fetch_faults self.new) result }
        ensures counts { CountsFetch (mem_fetch_faults self.old) (mem_fetch_faults self.new) result }

        ensures fails { fails_next (mem_fetches self.old) (mem_fetches_to_fail self.old) ≡ true
            → result ≡ Fetch.Failed }
        ensures sure { fails_next (mem_fetches self.old) (mem_fetches_to_fail self.old) ≡ false
            → result ≡ Fetch.Failed → ⊥ }
        ensures calls { mem_fetches self.new ≡ next_call (mem_fetches self.old) }
        ensures plan { mem_fetches_to_fail self.new ≡ mem_fetches_to_fail self.old }
    {
        self.asked = self.asked.and(name, &most, &most);
        if fails_now(&mut self.calls, &self.fails) {
            self.faults = self.faults.saturating_add(1);
            return Fetch::Failed;
        }
        fetch_from(&self.files, alloc, name, most)
    }
}

/// Files in memory that never fail, as pairs of a name and its bytes; of two of one name the first counts.
#[derive(Drop)]
pub struct SureFiles {
    files: Vec<(Bytes, Bytes)>,
    // which names were asked for, for proofs
    asked: History<Bytes, u32, u32>,
}

impl SureFiles {
    /// These files.
    pub fn new(files: Vec<(Bytes, Bytes)>) -> SureFiles
        ensures files { sure_files result ≡ files.items }
        ensures none { sure_names_asked result ≡ [] }
    {
        SureFiles {
            files,
            asked: History::new(),
        }
    }
}

impl Files for SureFiles {
    ghost may_hold = { λ f files. files ≡ file_in (sure_files f) };

    ghost asked = { λ f. sure_names_asked f };

    ghost faults = { λ _. 0 };

    fn fetch(&mut self, alloc: Global, name: &Bytes, most: u32) -> Fetch
        ensures answers { Answers (file_in (sure_files self.old)) name.now most result }
        ensures bounded { IsBounded most result }
        ensures sure { result ≡ Fetch.Failed → ⊥ }
        ensures files { sure_files self.new ≡ sure_files self.old }
        ensures asked { sure_names_asked self.new ≡ sure_names_asked self.old ++ name.now ∷ [] }
    {
        self.asked = self.asked.and(name, &most, &most);
        fetch_from(&self.files, alloc, name, most)
    }
}
