// Which processes live.
ghost use Rattle.std.specs.Prelude.{◌≡◌, ℕ, ◌≤◌, ◌==◌, ◌&&◌, nat_le, IfOk, true, false, if◌then◌else◌};
ghost use Rattle.o2_regions.specs.Lives.{lives};

use o2_base::NoMemory;
use std::alloc::Global;
use std::marker::Model;

/// The most processes that a machine has.
pub const MOST_PROCESSES: u16 = 64;

/// Which numbers are those of live processes, among 1 to 64.
#[derive(Debug, Drop)]
pub struct Ends {
    // by number; number 0 is no process
    live: Vec<bool>,
}

impl Model for Ends {
    ghost use Rattle.std.specs.Prelude.{◌≡◌, List, Bool, length};

    ghost Value = { List Bool };

    ghost view = { λ e. e.live.items };

    ghost invariant = { λ e. length e.live.items ≡ 65 };
}

impl Ends {
    /// The numbers from 1 to `processes` are live; there may be 64 of them.
    pub fn new(alloc: Global, processes: u16) -> Result<Ends, NoMemory>
        requires { processes ≤ 64 }
        ensures { IfOk result (λ e. (n : ℕ) → lives e n ≡ (nat_le 1 n && nat_le n processes)) }
    {
        let mut live = Vec::from_elem(alloc, false, MOST_PROCESSES as usize + 1)?;
        for pid in 1..processes + 1 {
            live[pid as usize] = true;
        }
        Ok(Ends { live })
    }

    /// Whether the process of this number lives.
    pub fn is_live(&self, pid: u16) -> bool
        ensures { result ≡ lives self.now pid }
    {
        (pid as usize) < self.live.len() && self.live[pid as usize]
    }

    /// The process of this number, 1 to 64, lives no more.
    pub fn end(&mut self, pid: u16)
        requires first { 1 ≤ pid }
        requires last { pid ≤ 64 }
        ensures { (n : ℕ) → lives self.new n ≡ (if n == pid then false else lives self.old n) }
    {
        self.live[pid as usize] = false;
    }

    /// The process of this number, 1 to 64, lives.
    pub fn begin(&mut self, pid: u16)
        requires first { 1 ≤ pid }
        requires last { pid ≤ 64 }
        ensures { (n : ℕ) → lives self.new n ≡ (if n == pid then true else lives self.old n) }
    {
        self.live[pid as usize] = true;
    }
}
