// What the report tells of a RAM semaphore that processes share.
ghost use Rattle.std.specs.Prelude.{◌≡◌, ◌<◌, ◌≤◌, ◌++◌, ℕ, List, [], ◌∷◌, Ok, Some};
ghost use Rattle.o2_conf.specs.declared.script.Word.{Word};
ghost use Rattle.o2_world.specs.World.{World, Setting, Process};
ghost use Rattle.o2_world.specs.Holders.{process_at};
ghost use Rattle.o2_world.specs.Effect.{effect};
ghost use Rattle.o2_world.specs.Run.{after, before, next_dispatch, ready, report as report_text};
ghost use Rattle.o2_world.specs.Starts.{Start, opening_of};
ghost use Rattle.o2_world.specs.SemRulings.{Becomes, Refuses, SemRuling};
ghost use Rattle.o2_world.specs.SemsWorked.{clears, forever, requests, sets, waits_for};
ghost use Rattle.o2_world.specs.Tied.{IsSound};
ghost use Rattle.o2_read_report.specs.Plain.{ArePlain};
ghost use Rattle.o2_ramsem.specs.Calls.{AreQuiet, Awaits, Clears, HasClear, Requests, SemCall, Sets, lines_of, owner};
ghost use Rattle.o2_ramsem_laws.specs.Told.{Place, calls_in, told};
ghost use Rattle.o2_ramsem_laws.specs.Kept.{IsSemaphore, number_at};
ghost use Rattle.o2_ramsem_laws.specs.Shared.{IsShared};
ghost use Rattle.o2_ramsem_laws.specs.Wants.{Answers, Wants};
ghost use Rattle.o2_ramsem_laws.specs.Worked.{owner_behind, told_behind};

/// Whoever reads the report knows what stands in a semaphore's four bytes: of the lines of DosSemRequest, DosSemClear and DosSemSet at its
/// place that answer 0 the last one says it, by its process's number, by 0, or by 65,535; it is 0 before there is one. Selectors are
/// compared with both low bits set, since a request through 8004:0000 is one at 8007:0000.
///
/// The place is a selector and an offset. From the step on behind which its selector is first held, up to any step, three things are
/// supposed (`IsSemaphore`): for all who hold the selector it names one segment, which lives; the four bytes are zero when it is first
/// held; and a step that puts no line of a call on the semaphore leaves them. No line of before the run is one of a call on it, as at an
/// opening (`opening`).
///
/// So it is behind each of these steps (`number`), and each line there says what its call answers by the calls before it (`answers`).
pub fn numbers_are_the_owners_that_lines_tell()
    ensures number { (s : Setting) (w : World) (place : Place) (first last k : ℕ) → IsSemaphore s w place first last
        → first ≤ k → k ≤ last
        → number_at (after s w k) place ≡ owner 0 (told place (after s w k).lines) }
    ensures answers { (s : Setting) (w : World) (place : Place) (first last k : ℕ) → IsSemaphore s w place first last
        → first ≤ k → k ≤ last
        → told place (after s w k).lines ≡ lines_of 0 (calls_in (told place (after s w k).lines)) }
    ensures opening { (s : Setting) (reserved : List (ℕ × ℕ)) (script : List Word) (input : List ℕ) (starts : List Start) (w : World)
        → opening_of s reserved script input starts ≡ Ok w
        → (place : Place) → told place w.lines ≡ [] }
{}

/// A place behind a shared selector is such a place (`IsSemaphore`) for as long as somebody holds its segment, which is a shared one, under
/// the selector: in a run from a sound world that selector names this one segment for all who hold it. What is left to suppose is that
/// the four bytes are zero when it is first held, and that only calls on the semaphore change them, no word `discard` either.
pub fn shared_selectors_name_one_segment()
    ensures { (s : Setting) (w : World) (place : Place) (first last : ℕ) → IsSound w
        → IsShared s w place first last → IsSemaphore s w place first last }
{}

/// The number is read off the report's bytes: behind steps with one report the same number stands at one place. Lines of a run are plain,
/// where the names of the modules that its processes run have no line end.
pub fn semaphores_are_read_off_the_report()
    ensures { (s t : Setting) (w v : World) (place other : Place) (first last k begin end j : ℕ)
        → IsSemaphore s w place first last → first ≤ k → k ≤ last
        → IsSemaphore t v other begin end → begin ≤ j → j ≤ end
        → place.selector ≡ other.selector → place.offset ≡ other.offset
        → ArePlain (after s w k).lines → ArePlain (after t v j).lines
        → report_text (after s w k) ≡ report_text (after t v j)
        → number_at (after s w k) place ≡ number_at (after t v j) other }
{}

/// Between two lines of DosSemRequest at a semaphore's place that answer 0 stands one of DosSemClear, whose answer is 0. So no second
/// process is told that it owns what a first one owns.
pub fn told_requests_are_cleared_between()
    ensures { (s : Setting) (w : World) (place : Place) (first last k : ℕ) → IsSemaphore s w place first last
        → first ≤ k → k ≤ last
        → (xs ys zs : List (SemCall × SemRuling)) (p t m q u n : ℕ)
        → told place (after s w k).lines ≡ xs ++ (Requests p t, Becomes m) ∷ (ys ++ (Requests q u, Becomes n) ∷ zs)
        → HasClear (calls_in ys) }
{}

/// A step, behind the words that come before it, that is a DosSemRequest or a DosSemWait with a good pointer to a semaphore, and with a timeout of 0 or 0xFFFF_FFFF, answers 0
/// exactly where by the lines so far nobody owns the semaphore. Else it answers 121 at timeout 0, and waits at the other.
pub fn who_wants_a_semaphore_gets_it_of_nobody()
    ensures { (s : Setting) (w : World) (place : Place) (first last k : ℕ) → IsSemaphore s w place first last
        → first ≤ k → k < last
        → let v = ready (after s w k) in let d = next_dispatch s v in
        (p : Process) → process_at v.processes d.current ≡ Some p
        → (timeout : ℕ) → Wants (before s v d.current p) place timeout
        → Answers (effect (before s v d.current p)) (owner 0 (told place v.lines)) timeout }
{}

/// A clear stays: behind its line the number at the semaphore's place is 0 until a line of a request or a set there answers 0.
pub fn told_clears_stay()
    ensures { (s : Setting) (w : World) (place : Place) (first last k : ℕ) → IsSemaphore s w place first last
        → first ≤ k → k ≤ last
        → (xs ys : List (SemCall × SemRuling)) (p m : ℕ)
        → told place (after s w k).lines ≡ xs ++ (Clears p, Becomes m) ∷ ys → AreQuiet ys
        → number_at (after s w k) place ≡ 0 }
{}

/// The rows of the calls tell the owner: what the lines of calls by two processes say of a semaphore at 8007:0000, with the number that
/// stands there.
pub fn owners_are_told_by_the_rows()
    ensures lines { told_behind ((1, requests 0x8007 0 0) ∷ (2, requests 0x8004 0 0) ∷ (2, waits_for 0x8007 0 0) ∷ (1, clears 0x8007 0) ∷ (1, sets 0x8007 0) ∷ [])
        ≡ (Requests 1 0, Becomes 1) ∷ (Requests 2 0, Refuses 121) ∷ (Awaits 2 0, Refuses 121) ∷ (Clears 1, Becomes 0) ∷ (Sets 1, Becomes 0xFFFF) ∷ [] }
    ensures nobody { owner_behind [] ≡ (0, 0) }
    ensures first { owner_behind ((1, requests 0x8007 0 forever) ∷ (2, requests 0x8007 0 0) ∷ []) ≡ (1, 1) }
    // A call that waits has no line, and takes nothing.
    ensures waits { owner_behind ((1, requests 0x8007 0 forever) ∷ (2, requests 0x8007 0 forever) ∷ []) ≡ (1, 1) }
    // Another may clear it, and whoever asks then owns it, whatever the low bits of the selector are.
    ensures next { owner_behind ((1, requests 0x8007 0 forever) ∷ (2, clears 0x8007 0) ∷ (2, requests 0x8004 0 forever) ∷ []) ≡ (2, 2) }
    ensures set { owner_behind ((1, requests 0x8007 0 forever) ∷ (2, sets 0x8005 0) ∷ []) ≡ (0xFFFF, 0xFFFF) }
    ensures waited_for { owner_behind ((1, waits_for 0x8007 0 forever) ∷ []) ≡ (0, 0) }
    // A semaphore at another offset is another one.
    ensures other { owner_behind ((1, requests 0x8007 4 forever) ∷ []) ≡ (0, 0) }
{}
