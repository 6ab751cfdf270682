// What holds over any calls on one semaphore, by any processes.
ghost use Rattle.std.specs.Prelude.{◌≡◌, ◌==◌, ℕ, List, ◌∷◌, if◌then◌else◌};
ghost use Rattle.o2_world.specs.SemRulings.{SemRuling, Becomes, Refuses, Waiting, requesting, waiting_for};
ghost use Rattle.o2_ramsem.specs.Calls.{AreQuiet, Clears, HasClear, IsGranted, IsTimeout, SemCall, lines_of, number_after, owner};

/// Behind any calls on a semaphore that was clear, its number is the owner that the lines tell.
pub fn numbers_are_owners()
    ensures { (calls : List SemCall) → number_after 0 calls ≡ owner 0 (lines_of 0 calls) }
{}

/// Between two requests that answer 0 stands a clear.
pub fn requests_are_cleared_between()
    ensures { (word : ℕ) (a b : SemCall) (calls : List SemCall) → IsGranted word a
        → IsGranted (number_after word (a ∷ calls)) b → HasClear calls }
{}

/// A request or a wait with a timeout of 0 or 0xFFFF_FFFF answers 0 exactly where the semaphore is clear, and else 121, or waits.
pub fn waits_are_for_owners()
    ensures requests { (word pid timeout : ℕ) → IsTimeout timeout
        → requesting word pid timeout ≡ (if word == 0 then Becomes pid else if timeout == 0 then Refuses 121 else Waiting) }
    ensures waits { (word timeout : ℕ) → IsTimeout timeout
        → waiting_for word timeout ≡ (if word == 0 then Becomes 0 else if timeout == 0 then Refuses 121 else Waiting) }
{}

/// A clear stays until the next request or set that answers 0.
pub fn clears_stay()
    ensures { (word pid : ℕ) (calls : List SemCall) → AreQuiet (lines_of 0 calls) → number_after word (Clears pid ∷ calls) ≡ 0 }
{}
