// The descriptor of a unit from its sense and the turns of its ends.
ghost use Rattle.std.specs.Prelude.{◌≡◌};
ghost use Rattle.cip_mol.specs.Ends.{as_site};
ghost use Rattle.cip_digraph.specs.units.Descriptors.{turned_if, capital, small};
ghost use Rattle.cip_digraph.specs.Lettered.{turned_letter, letter_in};

use crate::decisions::parity::Parity;
use cip_mol::{Descriptor, Ends, Sense, Shape};

// The sense, inverted if the parity is odd.
fn turned(sense: Sense, turn: bool) -> Sense
    ensures { result ≡ turned_if turn sense }
{
    match (turn, sense) {
        (false, sense) => sense,
        (true, Sense::Plus) => Sense::Minus,
        (true, Sense::Minus) => Sense::Plus,
    }
}

// The descriptor of a unit by its form, if no small one is due.
fn capital(ends: &Ends<'_>, sense: Sense) -> Descriptor
    ensures { result ≡ capital (as_site ends.now) sense }
{
    match (ends, sense) {
        (Ends::One(_), Sense::Plus) => Descriptor::S,
        (Ends::One(_), Sense::Minus) => Descriptor::R,
        (Ends::Two(Shape::Flat, _), Sense::Plus) => Descriptor::Z,
        (Ends::Two(Shape::Flat, _), Sense::Minus) => Descriptor::E,
        (Ends::Two(Shape::Crossed, _), Sense::Plus) => Descriptor::P,
        (Ends::Two(Shape::Crossed, _), Sense::Minus) => Descriptor::M,
    }
}

// The small descriptor for a capital one.
fn small(letter: Descriptor) -> Descriptor
    ensures { result ≡ small letter }
{
    match letter {
        Descriptor::R => Descriptor::SmallR,
        Descriptor::S => Descriptor::SmallS,
        Descriptor::M => Descriptor::SmallM,
        Descriptor::P => Descriptor::SmallP,
        Descriptor::Z => Descriptor::SeqCis,
        Descriptor::E => Descriptor::SeqTrans,
        other => other,
    }
}

/// The descriptor by the turns: small where the last rule, turned, gives the opposite.
pub fn unit_descriptor(ends: &Ends<'_>, sense: Sense, parities: Parity) -> Descriptor
    ensures { result ≡ letter_in (as_site ends.now) sense parities }
{
    let letter = capital(ends, turned(sense, parities.natural));
    if parities.natural == parities.turned {
        letter
    } else {
        small(letter)
    }
}

/// The descriptor by the turns; none where ligands tie.
pub fn descriptor_if_ranked(
    ends: &Ends<'_>,
    sense: Sense,
    parities: Option<Parity>,
) -> Option<Descriptor>
    ensures { result ≡ turned_letter (as_site ends.now) sense parities }
{
    match parities {
        Some(parities) => Some(unit_descriptor(ends, sense, parities)),
        None => None,
    }
}
