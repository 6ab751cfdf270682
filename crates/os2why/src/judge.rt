// Whether a command opens.
ghost use Rattle.std.specs.Prelude.{◌≡◌, ℕ, List, map};
ghost use Rattle.o2_conf.specs.Environments.{environment_bytes};
ghost use Rattle.o2_conf.specs.Limits.{IsWithinLimits};
ghost use Rattle.o2_words.specs.Words.{HasCount};
ghost use Rattle.o2_open.specs.Loads.{Contents, HasEnvironments, IsLinked};
ghost use Rattle.o2_machine.specs.Begins.{starting};
ghost use Rattle.o2_cli.specs.Top.{opened, started};
ghost use Rattle.os2why.specs.Judges.{Judges, Starts, session_of};

use o2_base::{Bytes, NoMemory};
use o2_conf::Conf;
use o2_dynlink::Linked;
use o2_machine::{BeginFault, Machine};
use o2_open::{OpenFault, Session, open, program_places, refused_start};
use o2_outer::{Files, NoSink};
use o2_words::Verb;
use std::alloc::Global;

/// Starts the processes of a setting in a machine, of whose lines nobody is told, and lets it go.
fn begins(alloc: Global, conf: &Conf, linked: Linked) -> Result<(), BeginFault>
    requires within { IsWithinLimits conf.now }
    requires environments { linked.images.environments ≡ map environment_bytes conf.now.process }
    requires linked { IsLinked conf.now linked }
    ensures { Starts (starting linked conf.now) result }
{
    let mut report = NoSink::new();
    match Machine::begin(alloc, conf, linked, 0, &mut report) {
        Ok(_) => Ok(()),
        Err(fault) => Err(fault),
    }
}

/// Why the processes of a setting don't start, whose programs lie at these places; none where they do.
fn begin_refusal(alloc: Global, conf: &Conf, programs: &[u16], linked: Linked) -> Option<OpenFault>
    requires within { IsWithinLimits conf.now }
    requires environments { linked.images.environments ≡ map environment_bytes conf.now.process }
    requires linked { IsLinked conf.now linked }
    requires programs { programs.now ≡ linked.programs }
    ensures { (input : List ℕ) → Judges result (started (session_of conf.now linked) input) }
{
    match begins(alloc, conf, linked) {
        Ok(()) => None,
        Err(BeginFault::Start(pid, fault)) => {
            Some(refused_start(alloc, conf, programs, pid, fault))
        }
        Err(BeginFault::NoMemory) => Some(OpenFault::NoMemory),
        Err(BeginFault::SinkFault) => Some(OpenFault::NoMemory),
    }
}

/// Why the processes of a session don't start; none where they do.
fn start_refusal(alloc: Global, session: Session) -> Option<OpenFault>
    requires within { IsWithinLimits session.conf }
    requires environments { HasEnvironments session }
    requires linked { IsLinked session.conf session.linked }
    ensures { (input : List ℕ) → Judges result (started session input) }
{
    let Session { conf, linked } = session;
    linked.process_count();
    match program_places(alloc, &linked) {
        Err(NoMemory) => Some(OpenFault::NoMemory),
        Ok(programs) => begin_refusal(alloc, &conf, programs.as_slice(), linked),
    }
}

/// Why a command doesn't open; none where it opens and all its processes start.
pub fn refusal<F: Files>(
    alloc: Global,
    verb: Verb,
    files: &mut F,
    name: &Bytes,
) -> Option<OpenFault>
    requires { HasCount verb }
    // it opens exactly where the opening of os2run does, and is refused as that is
    ensures { (contents : Contents) (input : List ℕ) → F.may_hold files.new contents
        → Judges result (opened verb contents name.now input) }
{
    match open(alloc, verb, files, name) {
        Err(fault) => Some(fault),
        Ok(session) => start_refusal(alloc, session),
    }
}
