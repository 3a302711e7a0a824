//! How a run ends.
ghost use Rattle.std.specs.Prelude.{◌≡◌};
ghost use Rattle.lp_top.specs.Ends.{number_of};

use lp_residence::answers::SwapCause;
use lp_tree::fault::Fault;
use std::marker::Model;

/// Faults of sources, in order.
#[derive(Debug, Drop)]
pub struct Faults {
    faults: Vec<Fault>,
}

impl Model for Faults {
    ghost use Rattle.std.specs.Prelude.{List};
    ghost use Rattle.lp_tree.specs.declared.fault.Fault.{Fault};

    ghost Value = { List Fault };

    ghost view = { λ f. f.faults.items };
}

impl Faults {
    /// These faults. Takes no memory.
    pub fn from_vec(faults: Vec<Fault>) -> Faults
        ensures { result ≡ faults.items }
    {
        Faults { faults }
    }

    /// The faults, in order.
    pub fn as_slice(&self) -> &[Fault]
        ensures { result.now ≡ self.now }
    {
        self.faults.as_slice()
    }
}

/// How a run ends.
#[derive(Debug, Drop)]
pub enum Status {
    /// The whole script was carried out, and its whole transcript written.
    Done,
    /// The words name no command.
    BadWords,
    /// At this offset of the input stands no item of a script, or one that may not stand there.
    BadScript { at: u64 },
    /// The master could not be made.
    NoMaster { faults: Faults },
    /// The input goes on past 67108864 bytes, and within them nothing is wrong.
    TooLarge,
    /// A read of the input failed.
    InputFault,
    /// A write or a flush of the output failed, or a write took nothing.
    OutputFault,
    /// The swap file did not give what was written: a read failed, or gave other bytes.
    SwapFault { cause: SwapCause },
    /// The files could not be loaded, which has the path `/`, or this changed file could not be written.
    FilesFault { path: String },
    /// A poll of the wire failed.
    WireFault,
    /// The wire was polled as often as it was to be.
    TurnsSpent,
    /// There was no memory.
    NoMemory,
}

/// The number with which the program ends. Takes no memory.
pub fn code(status: &Status) -> u8
    ensures { result ≡ number_of status.now }
{
    match status {
        Status::Done => 0,
        Status::BadWords => 1,
        Status::BadScript { .. } => 2,
        Status::NoMaster { .. } => 3,
        Status::TooLarge => 4,
        Status::InputFault => 5,
        Status::OutputFault => 6,
        Status::SwapFault { .. } => 7,
        Status::FilesFault { .. } => 8,
        Status::WireFault => 9,
        Status::TurnsSpent => 10,
        Status::NoMemory => 11,
    }
}
