// How units are named.
ghost use Rattle.std.specs.Prelude.{◌≡◌, ◌+◌, ◌++◌, ◌∷◌, OnOk};
ghost use Rattle.cip_print.specs.Naming.{name_of, name_text, number, pair};

use crate::numbers::push_number;
use cip_mol::Site;
use std::alloc::AllocError;

/// The name of a unit: its kind, and its atoms counted from 1, the lower one first.
#[derive(Clone, Copy)]
pub enum UnitName {
    Centre(u32),
    Bond(u32, u32),
    Axis(u32, u32),
    Cumulene(u32, u32),
    Biaryl(u32, u32),
}

/// The name of the centre, bond or axis unit at a site.
pub fn name_of(site: &Site) -> UnitName
    ensures { result ≡ name_of site.now }
{
    match site {
        Site::Centre { at, .. } => UnitName::Centre(*at),
        Site::Bond { a, b, .. } => UnitName::Bond(*a, *b),
        Site::Axis { a, b, .. } => UnitName::Axis(*a, *b),
    }
}

/// Adds the name of a unit.
#[tactic(auto, using(crate::proofs::lemmas::Texts::moved))]
pub fn push_name(text: &mut Vec<u8>, name: UnitName) -> Result<(), AllocError>
    ensures { OnOk result (text.new.items ≡ text.old.items ++ name_text name) }
{
    match name {
        UnitName::Centre(at) => match text.push(b'a') {
            Ok(()) => push_atom(text, at),
            Err(_) => Err(AllocError),
        },
        UnitName::Bond(a, b) => push_pair(text, b'b', a, b),
        UnitName::Axis(a, b) => push_pair(text, b'x', a, b),
        UnitName::Cumulene(a, b) => push_pair(text, b'c', a, b),
        UnitName::Biaryl(a, b) => push_pair(text, b't', a, b),
    }
}

// A letter, and two atoms, the lower one first.
fn push_pair(text: &mut Vec<u8>, kind: u8, a: u32, b: u32) -> Result<(), AllocError>
    ensures { OnOk result (text.new.items ≡ text.old.items ++ kind ∷ pair a b) }
{
    let Ok(()) = text.push(kind) else {
        return Err(AllocError);
    };
    match push_atom(text, a.min(b)) {
        Ok(()) => match text.push(b'-') {
            Ok(()) => push_atom(text, a.max(b)),
            Err(_) => Err(AllocError),
        },
        Err(error) => Err(error),
    }
}

/// Adds the number of an atom, counted from 1.
pub fn push_atom(text: &mut Vec<u8>, atom: u32) -> Result<(), AllocError>
    ensures { OnOk result (text.new.items ≡ text.old.items ++ number atom) }
{
    push_number(text, u64::from(atom) + 1)
}
