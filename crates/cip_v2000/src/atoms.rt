// Atom lines.
ghost use Rattle.std.specs.Prelude.{◌≡◌, ◌≤◌, unsigned_abs, IfOk, IfSome};
ghost use Rattle.cip_text.specs.Columns.{field};
ghost use Rattle.cip_ctfile.specs.Fields.{signed_in};
ghost use Rattle.cip_elem.specs.Symbols.{IsElement};
ghost use Rattle.cip_v2000.specs.AtomLine.{isotope_of, charge_of, radical_of, atom_of, IsAtomLine};

use cip_ctfile::{coordinate_at, digit_at, signed, z_coordinate_at};
use cip_elem::{Element, number_of, reference_mass};
use cip_mol::{Atom, ReadCause};
use cip_num::Vec3;
use cip_text::columns;

/// An atom, and the isotope that its symbol states: 0 where it states none.
#[derive(Clone, Copy)]
pub struct AtomLine {
    pub atom: Atom,
    pub symbol_isotope: u16,
}

/// What an atom line says.
#[tactic(auto, unfolding(crate::specs::AtomLine::atom_of))]
pub fn atom_in(line: &[u8]) -> Result<AtomLine, ReadCause>
    ensures value { result ≡ atom_of line.now }
    ensures range { IfOk result IsAtomLine }
{
    let x = coordinate_at(line, 1)?;
    let y = coordinate_at(line, 11)?;
    let z = z_coordinate_at(line, 21)?;
    let Some(element) = number_of(symbol(line)) else {
        return Err(ReadCause::Symbol);
    };
    let Some(difference) = mass_difference(line) else {
        return Err(ReadCause::AtomField);
    };
    let Some(code) = digit_at(7, line, 37) else {
        return Err(ReadCause::AtomField);
    };
    let Some(valence) = digit_at(15, line, 49) else {
        return Err(ReadCause::AtomField);
    };
    let atom = Atom {
        z: element.z,
        isotope: isotope(element, difference),
        charge: charge(code),
        radical: radical(code),
        valence_mark: valence as u8,
        at: Vec3 { x, y, z },
    };
    Ok(AtomLine {
        atom,
        symbol_isotope: element.isotope,
    })
}

// The symbol in columns 32 to 34. Most programs begin it in the first of them, some end it in the last.
fn symbol(line: &[u8]) -> &[u8]
    ensures { result.now ≡ field 32 34 line.now }
{
    if line.len() < 34 {
        columns(line, 32, 34)
    } else {
        match (line[31] == b' ', line[32] == b' ', line[33] == b' ') {
            (false, true, true) => &line[31..32],
            (true, true, false) => &line[33..34],
            (false, false, true) => &line[31..33],
            _ => columns(line, 32, 34),
        }
    }
}

// The mass difference in columns 35 and 36, which is 0 in nearly every line.
fn mass_difference(line: &[u8]) -> Option<i8>
    ensures value { result ≡ signed_in 3 4 (field 35 36 line.now) }
    ensures range { IfSome result (λ difference. unsigned_abs difference ≤ 4) }
{
    if line.len() >= 36 && line[34] == b' ' && line[35] == b'0' {
        Some(0)
    } else {
        signed(3, 4, columns(line, 35, 36))
    }
}

// The isotope of an element with a mass difference.
#[tactic(auto, using(crate::proofs::lemmas::QuietFields::none_stated))]
fn isotope(element: Element, difference: i8) -> u16
    requires known { IsElement element.z }
    requires light { element.isotope ≤ 3 }
    requires small { unsigned_abs difference ≤ 4 }
    ensures value { result ≡ isotope_of element difference }
    ensures range { result ≤ 400 }
{
    if element.isotope != 0 || difference == 0 {
        return element.isotope;
    }
    match reference_mass(element.z) {
        None => 0,
        Some(mass) if difference > 0 => mass + u16::from(difference.unsigned_abs()),
        Some(mass) => mass.saturating_sub(u16::from(difference.unsigned_abs())),
    }
}

fn charge(code: u32) -> i8
    ensures value { result ≡ charge_of code }
    ensures range { unsigned_abs result ≤ 15 }
{
    match code {
        1 => 3,
        2 => 2,
        3 => 1,
        5 => -1,
        6 => -2,
        7 => -3,
        _ => 0,
    }
}

fn radical(code: u32) -> u8
    ensures value { result ≡ radical_of code }
    ensures range { result ≤ 3 }
{
    match code {
        4 => 2,
        _ => 0,
    }
}
