// What the top call answers.
ghost use Rattle.std.specs.Prelude.{◌≡◌};

use o2_base::{Bytes, MachineFault, ModuleFault};
use o2_open::OpenFault;
use o2_run::{Fault, Stop};

/// What the top call answers.
#[derive(Debug, Drop)]
pub enum Status {
    /// 0: the run is over, or the command is done.
    Fine,
    /// 1: the words are no command.
    BadWords,
    /// 2: there is no file of this name.
    NoFile(Bytes),
    /// 3: the machine file has no reading.
    BadMachine(MachineFault),
    /// 4: the module in this file is refused.
    BadModule(Bytes, ModuleFault),
    /// 5: the files failed.
    FileFault,
    /// 6: the input failed.
    InputFault,
    /// 7: a sink failed.
    SinkFault,
    /// 8: the next step needs more memory than there is.
    NoRoom,
    /// 9: there are too few swap blocks.
    SwapFull,
    /// 10: the swap device failed.
    SwapFault,
    /// 11: memory was wanted and not given.
    NoMemory,
}

impl From<OpenFault> for Status {
    ghost use Rattle.o2_cli.specs.Statuses.{status_by};

    ghost from_gives = { λ fault status. status ≡ status_by fault };

    fn from(fault: OpenFault) -> Status {
        match fault {
            OpenFault::NoFile(name) => Status::NoFile(name),
            OpenFault::BadMachine(fault) => Status::BadMachine(fault),
            OpenFault::BadModule(name, fault) => Status::BadModule(name, fault),
            OpenFault::FileFault => Status::FileFault,
            OpenFault::NoMemory => Status::NoMemory,
        }
    }
}

impl From<Fault> for Status {
    ghost use Rattle.o2_cli.specs.Statuses.{status_of};

    ghost from_gives = { λ fault status. status ≡ status_of fault };

    fn from(fault: Fault) -> Status {
        match fault {
            Fault::Sink => Status::SinkFault,
            Fault::Stopped(Stop::Input) => Status::InputFault,
            Fault::Stopped(Stop::NoRoom) => Status::NoRoom,
            Fault::Stopped(Stop::SwapFull) => Status::SwapFull,
            Fault::Stopped(Stop::SwapFault) => Status::SwapFault,
        }
    }
}
