ghost use Rattle.std.specs.Prelude.{◌≡◌, Some};
ghost use Rattle.property.specs.declared.fault.PropertyFault.TheVariants.{Read};
ghost use Rattle.property.specs.Faults.{property_report, property_text};

use crate::node::MOST_NODES;
use letters::refusal::Report;
use records::fault::ReadFault;
use std::fmt;

/// What is wrong with a property, or with its file's records; with the offset of the record, or of the file's end.
#[derive(Clone, Copy, PartialEq, Eq, Debug)]
pub enum PropertyFault {
    Read(ReadFault),
    Declaration(usize),
    TooManyNodes(usize),
    NotEarlier(usize),
    WrongKind(usize),
    BranchLetter(usize),
    OpenLap(usize),
    NoProperty(usize),
}

impl From<ReadFault> for PropertyFault {
    ghost from_gives = { λ fault r. r ≡ Read fault };

    fn from(fault: ReadFault) -> Self {
        PropertyFault::Read(fault)
    }
}

impl PropertyFault {
    /// The refusal's layer, number and offset.
    pub fn report(self) -> Report
        ensures { result ≡ property_report self }
    {
        let (number, offset) = match self {
            PropertyFault::Read(fault) => return fault.report(),
            PropertyFault::Declaration(at) => (5, at),
            PropertyFault::TooManyNodes(at) => (6, at),
            PropertyFault::NotEarlier(at) => (7, at),
            PropertyFault::WrongKind(at) => (8, at),
            PropertyFault::BranchLetter(at) => (9, at),
            PropertyFault::OpenLap(at) => (10, at),
            PropertyFault::NoProperty(at) => (11, at),
        };
        Report {
            layer: 2,
            number,
            offset,
        }
    }
}

impl fmt::Display for PropertyFault {
    ghost output = { λ fault. Some (property_text fault) };

    fn fmt<W: fmt::Write>(&self, f: &mut fmt::Formatter<W>) -> fmt::Result {
        match self {
            PropertyFault::Read(fault) => write!(f, "{fault}"),
            PropertyFault::Declaration(_) => f.write_str("the letter may not be declared here"),
            PropertyFault::TooManyNodes(_) => write!(f, "there are over {MOST_NODES} nodes"),
            PropertyFault::NotEarlier(_) => f.write_str("a node that it names is not earlier"),
            PropertyFault::WrongKind(_) => f.write_str("a node that it names is of the wrong kind"),
            PropertyFault::BranchLetter(_) => {
                f.write_str("branch letters do not ascend, or are not in the alphabet")
            }
            PropertyFault::OpenLap(_) => f.write_str("the lap is over a node that does not close"),
            PropertyFault::NoProperty(_) => {
                f.write_str("there is no node, or the last is neither a lap nor an all")
            }
        }
    }
}
