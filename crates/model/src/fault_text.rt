// Faults in plain words, for people; the number and the layer are what scripts print.
ghost use Rattle.std.specs.Prelude.{Some};
ghost use Rattle.model.specs.FaultTexts.{kind_text, store_text, engine_text};

use crate::fault::{EngineFault, KindFault, StoreFault};
use std::error::Error;
use std::fmt;

impl fmt::Display for KindFault {
    ghost output = { λ fault. Some (kind_text fault) };

    fn fmt<W: fmt::Write>(&self, f: &mut fmt::Formatter<W>) -> fmt::Result {
        f.write_str(match self {
            KindFault::Unknown => "the object does not know the operation",
            KindFault::NotARead => "only a read may be asked",
        })
    }
}

impl fmt::Display for StoreFault {
    ghost output = { λ fault. Some (store_text fault) };

    fn fmt<W: fmt::Write>(&self, f: &mut fmt::Formatter<W>) -> fmt::Result {
        f.write_str(match self {
            StoreFault::Full => "the object's weight is at the capacity",
        })
    }
}

impl fmt::Display for EngineFault {
    ghost output = { λ fault. Some (engine_text fault) };

    fn fmt<W: fmt::Write>(&self, f: &mut fmt::Formatter<W>) -> fmt::Result {
        match self {
            EngineFault::NumberOutOfRange => write!(f, "no transaction can have the number"),
            EngineFault::AlreadyOpen => write!(f, "the transaction is open already"),
            EngineFault::ParentNotOpen => write!(f, "the parent is not open"),
            EngineFault::TooManyBegins => write!(f, "too many transactions have begun"),
            EngineFault::NotOpen => write!(f, "the transaction is not open"),
            EngineFault::OpenChild => write!(f, "the transaction has an open child"),
            EngineFault::Waiting => write!(f, "the transaction waits"),
            EngineFault::NoObject => write!(f, "no object has the number"),
            EngineFault::Kind(fault) => write!(f, "{fault}"),
            EngineFault::Store(fault) => write!(f, "{fault}"),
        }
    }
}

impl Error for KindFault {}

impl Error for StoreFault {}

impl Error for EngineFault {}
