// Which calls of a form in memory are to fail.
ghost use Rattle.std.specs.Prelude.{◌≡◌};
ghost use Rattle.o2_outer.specs.Planned.{planned_bytes, next_call, fails_next};

/// How many bytes a call takes before it fails, where it is to fail.
pub fn planned(fails: &[(u64, usize)], call: u64) -> Option<usize>
    ensures { result ≡ planned_bytes fails.now call }
{
    fails.iter().find(|plan| plan.0 == call).map(|plan| plan.1)
}

/// Counts one call more, and tells whether it is one of those that are to fail.
pub fn fails_now(calls: &mut u64, fails: &[u64]) -> bool
    ensures call { calls.new ≡ next_call calls.old }
    ensures planned { result ≡ fails_next calls.old fails.now }
{
    *calls = calls.saturating_add(1);
    fails.contains(calls)
}
