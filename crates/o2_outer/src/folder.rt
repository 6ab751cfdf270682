// Files of the folder that the program runs in.
ghost use Rattle.std.specs.Prelude.{Some, ◌≡◌, ◌≤◌, ◌<◌, ◌∷◌, [], List, ℕ, IfOk, MatchResult, length, vec_len};
ghost use Rattle.o2_outer.specs.Texts.{Rose, risen};
ghost use Rattle.o2_outer.specs.Streams.{folder_faults, folder_fetches};
ghost use Rattle.o2_outer.specs.Fetches.{AreOver};
ghost use Rattle.o2_outer.specs.Answers.{IsBounded, IsReadFrom, FetchHasCause, CountsFetch};

use crate::history::History;
use crate::{Fetch, Files};
use o2_base::Bytes;
use std::alloc::Global;
use std::io::{ErrorKind, Read};
use std::{fs, rt};

/// Files of the system, by the names that it knows. They may hold what agrees with each fetch so far; each error of the system is a
/// fault.
#[derive(Drop)]
pub struct FolderFiles<R: rt::Files + Drop> {
    system: R,
    fetches: History<Bytes, u32, Fetch>,
    faults: u64,
}

/// Why a file isn't read.
enum Unread {
    TooLong,
    Failed,
    NoMemory,
}

/// How many bytes are read at a time.
const PIECE: usize = 4096;

/// The bytes of a reader, to the last one that it tells, and `most` at most.
fn read_whole<F: Read>(alloc: Global, file: &mut F, most: u32) -> Result<Vec<u8>, Unread>
    ensures bounded { IfOk result (λ bytes. vec_len bytes ≤ most) }
    ensures whole { (t : List ℕ) → F.remaining file.old ≡ Some t
        → MatchResult result (λ bytes. bytes.items ≡ t) (λ why. why ≡ Unread.TooLong → most < length t) }
{
    let mut bytes = Vec::new(alloc);
    let mut piece = [0u8; PIECE];
    for _ in 0..u64::MAX {
        match file.read(&mut piece) {
            Err(_) => return Err(Unread::Failed),
            Ok(0) => return Ok(bytes),
            Ok(count) => {
                if count > most as usize || bytes.len() > most as usize - count {
                    return Err(Unread::TooLong);
                }
                if bytes.extend_from_slice(&piece[..count]).is_err() {
                    return Err(Unread::NoMemory);
                }
            }
        }
    }
    Err(Unread::Failed)
}

impl<R: rt::Files + Drop> FolderFiles<R> {
    /// The files that this system has.
    pub fn new(system: R) -> FolderFiles<R>
        ensures faultless { folder_faults result ≡ 0 }
        ensures none { folder_fetches result ≡ [] }
    {
        FolderFiles {
            system,
            fetches: History::new(),
            faults: 0,
        }
    }

    /// One fault more.
    fn fault(&mut self) -> Fetch
        ensures failed { result ≡ Fetch.Failed }
        ensures later { self.old.faults ≤ self.new.faults }
        ensures rose { Rose self.old.faults self.new.faults }
        ensures counts { self.new.faults ≡ risen self.old.faults }
        ensures same { self.new.fetches ≡ self.old.fetches }
    {
        self.faults = self.faults.saturating_add(1);
        Fetch::Failed
    }

    /// The bytes of a file, `most` at most.
    fn read(&mut self, alloc: Global, name: &Bytes, most: u32) -> Fetch
        ensures bounded { IsBounded most result }
        ensures count { self.old.faults ≤ self.new.faults }
        ensures cause { FetchHasCause self.old.faults self.new.faults result }
        ensures counts { CountsFetch self.old.faults self.new.faults result }
        ensures whole { IsReadFrom R.File.remaining most result }
        ensures same { self.new.fetches ≡ self.old.fetches }
    {
        let Ok(path) = str::from_utf8(name.as_slice()) else {
            return self.fault();
        };
        match fs::open(&self.system, path) {
            Err(error) => {
                if error.kind() == ErrorKind::NotFound {
                    Fetch::NoFile
                } else {
                    self.fault()
                }
            }
            Ok(mut file) => match read_whole(alloc, &mut file, most) {
                Ok(bytes) => Fetch::Got(Bytes::new(bytes)),
                Err(Unread::TooLong) => Fetch::TooLong,
                Err(Unread::Failed) => self.fault(),
                Err(Unread::NoMemory) => Fetch::NoMemory,
            },
        }
    }
}

impl<R: rt::Files + Drop> Files for FolderFiles<R> {
    ghost use Rattle.o2_outer.specs.Asked.{asked_for};

    ghost may_hold = { λ f files. AreOver files (folder_fetches f) };

    ghost asked = { λ f. asked_for (folder_fetches f) };

    ghost faults = { λ f. folder_faults f };

    fn fetch(&mut self, alloc: Global, name: &Bytes, most: u32) -> Fetch
        ensures fetched { folder_fetches self.new ≡ (name.now, (most, result)) ∷ folder_fetches self.old }
        ensures bounded { IsBounded most result }
        ensures count { folder_faults self.old ≤ folder_faults self.new }
        ensures cause { FetchHasCause (folder_faults self.old) (folder_faults self.new) result }
        ensures counts { CountsFetch (folder_faults self.old) (folder_faults self.new) result }
        // What the system's open file tells of itself, where it does.
        ensures whole { IsReadFrom R.File.remaining most result }
    {
        let fetch = self.read(alloc, name, most);
        self.fetches = self.fetches.and(name, &most, &fetch);
        fetch
    }
}
