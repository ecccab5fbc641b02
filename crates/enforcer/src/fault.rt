ghost use Rattle.std.specs.Prelude.{◌≡◌};
ghost use Rattle.enforcer.specs.declared.fault.EnforcerFault.TheVariants.{File, Limit, Memory};
ghost use Rattle.enforcer.specs.Faults.{fault_number};

use rules::fault::RuleFault;
use std::alloc::AllocError;
use synthesis::fault::SynthesisFault;

/// Why calls were not made: the file has no table, its limit has no cap, or memory is wanting.
#[derive(Clone, Copy, PartialEq, Eq, Debug)]
pub enum EnforcerFault {
    File(SynthesisFault),
    Limit(RuleFault),
    Memory,
}

impl From<SynthesisFault> for EnforcerFault {
    ghost from_gives = { λ fault r. r ≡ File fault };

    fn from(fault: SynthesisFault) -> Self {
        EnforcerFault::File(fault)
    }
}

impl From<RuleFault> for EnforcerFault {
    ghost from_gives = { λ fault r. r ≡ Limit fault };

    fn from(fault: RuleFault) -> Self {
        EnforcerFault::Limit(fault)
    }
}

impl From<AllocError> for EnforcerFault {
    ghost from_gives = { λ _ r. r ≡ Memory };

    fn from(_: AllocError) -> Self {
        EnforcerFault::Memory
    }
}

impl EnforcerFault {
    /// The refusal's number, or none where memory is wanting.
    pub fn number(self) -> Option<u8>
        ensures { result ≡ fault_number self }
    {
        match self {
            EnforcerFault::File(fault) => Some(fault.report().number),
            EnforcerFault::Limit(fault) => Some(fault.number()),
            EnforcerFault::Memory => None,
        }
    }
}
