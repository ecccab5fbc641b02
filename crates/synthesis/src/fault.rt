ghost use Rattle.std.specs.Prelude.{◌≡◌};
ghost use Rattle.synthesis.specs.declared.fault.SynthesisFault.TheVariants.{Property};
ghost use Rattle.synthesis.specs.Faults.{synthesis_report};

use letters::refusal::Report;
use property::fault::PropertyFault;

/// Why a file has no table: a fault of its property, or one of the third layer, with the offset of the file's last
/// record.
#[derive(Clone, Copy, PartialEq, Eq, Debug)]
pub enum SynthesisFault {
    Property(PropertyFault),
    TooLarge(usize),
    TableMemory(usize),
    WorkingMemory(usize),
    Stuck(usize),
}

impl From<PropertyFault> for SynthesisFault {
    ghost from_gives = { λ fault r. r ≡ Property fault };

    fn from(fault: PropertyFault) -> Self {
        SynthesisFault::Property(fault)
    }
}

impl SynthesisFault {
    /// The refusal's layer, number and offset.
    pub fn report(self) -> Report
        ensures { result ≡ synthesis_report self }
    {
        let (number, offset) = match self {
            SynthesisFault::Property(fault) => return fault.report(),
            SynthesisFault::TooLarge(at) => (12, at),
            SynthesisFault::TableMemory(at) => (13, at),
            SynthesisFault::WorkingMemory(at) => (14, at),
            SynthesisFault::Stuck(at) => (15, at),
        };
        Report {
            layer: 3,
            number,
            offset,
        }
    }
}
