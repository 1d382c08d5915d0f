// Why a record gives no molecule.
ghost use Rattle.std.specs.Prelude.{◌≡◌};
ghost use Rattle.cip_mol.specs.Causes.{read_cause};
ghost use Rattle.cip_mol.specs.declared.labels.refusal.ReadRefusal.TheVariants as refusals;

use crate::faults::BondCause;
use std::alloc::{AllocError, AllocFailed};
use std::fmt;
use thiserror::Error;

/// What is wrong with a line of a record.
#[derive(Clone, Copy)]
pub enum ReadCause {
    /// The record ends before a line that is due.
    Short,
    /// The version is neither empty nor V2000 nor V3000.
    Version,
    /// A number of atoms or bonds is no number or out of range.
    Counts,
    /// A coordinate is no number or out of range.
    Coordinate,
    /// The symbol is no element's.
    Symbol,
    /// A mass difference, charge code or valence mark isn't one of its values.
    AtomField,
    /// An end of a bond names no atom.
    BondEnd,
    /// The type of a bond isn't single, double or triple.
    BondType,
    /// The mark isn't one that the bond's type may have.
    BondMark,
    /// Both ends of a bond are the same atom.
    BondLoop,
    /// An earlier bond joins the same two atoms.
    BondDoubled,
    /// An end has more than eight bonds.
    Degree,
    /// A word of a property line is missing or isn't one of its values.
    Property,
    /// V3000: the line isn't the one that is due.
    Frame,
    /// V3000: an atom or bond has no index, or a repeated one.
    Index,
    /// V3000: a key has no value, or one that isn't of its values.
    KeyValue,
}

impl ReadCause {
    /// The cause of a line whose bond is refused.
    pub fn of_bond(cause: BondCause) -> ReadCause
        ensures { result ≡ read_cause cause }
    {
        match cause {
            BondCause::EndOutOfRange => ReadCause::BondEnd,
            BondCause::Loop => ReadCause::BondLoop,
            BondCause::Doubled => ReadCause::BondDoubled,
            BondCause::Degree => ReadCause::Degree,
        }
    }
}

impl fmt::Display for ReadCause {
    ghost use Rattle.std.specs.Prelude.{Some};
    ghost use Rattle.cip_mol.specs.Causes.{cause_text};

    ghost output = { λ cause. Some (cause_text cause) };

    fn fmt<W: fmt::Write>(&self, f: &mut fmt::Formatter<W>) -> fmt::Result {
        f.write_str(match self {
            ReadCause::Short => "Short",
            ReadCause::Version => "Version",
            ReadCause::Counts => "Counts",
            ReadCause::Coordinate => "Coordinate",
            ReadCause::Symbol => "Symbol",
            ReadCause::AtomField => "AtomField",
            ReadCause::BondEnd => "BondEnd",
            ReadCause::BondType => "BondType",
            ReadCause::BondMark => "BondMark",
            ReadCause::BondLoop => "BondLoop",
            ReadCause::BondDoubled => "BondDoubled",
            ReadCause::Degree => "Degree",
            ReadCause::Property => "Property",
            ReadCause::Frame => "Frame",
            ReadCause::Index => "Index",
            ReadCause::KeyValue => "KeyValue",
        })
    }
}

/// The first line at which a cause holds, counted from 1, and the first cause there.
#[derive(Clone, Copy)]
pub struct ReadFault {
    pub line: u32,
    pub cause: ReadCause,
}

/// Why a record gives no molecule: what is wrong with it, or want of memory.
#[derive(Drop, Error)]
pub enum ReadRefusal {
    #[error("line {line}: {cause}", line = .0.line, cause = .0.cause)]
    Fault(ReadFault),
    #[error("out of memory")]
    Memory,
}

// For whoever looks for a refusal, its text says all that a derived impl would.
impl fmt::Debug for ReadRefusal {
    fn fmt<W: fmt::Write>(&self, f: &mut fmt::Formatter<W>) -> fmt::Result {
        fmt::Display::fmt(self, f)
    }
}

impl From<ReadFault> for ReadRefusal {
    ghost from_gives = { λ fault refusal. refusal ≡ refusals.Fault fault };

    fn from(fault: ReadFault) -> ReadRefusal {
        ReadRefusal::Fault(fault)
    }
}

impl From<AllocError> for ReadRefusal {
    ghost from_gives = { λ _ refusal. refusal ≡ refusals.Memory };

    fn from(_error: AllocError) -> ReadRefusal {
        ReadRefusal::Memory
    }
}

impl<T: Drop> From<AllocFailed<T>> for ReadRefusal {
    ghost from_gives = { λ _ refusal. refusal ≡ refusals.Memory };

    fn from(_failed: AllocFailed<T>) -> ReadRefusal {
        ReadRefusal::Memory
    }
}
