// Elements, by their symbols and numbers.
use cip_elem::{natural_half, number_of, outer, reference_mass, valences};

/// The atomic number and isotope of a symbol.
pub fn element(out: &mut Text, row: &Row) {
    match number_of(row.field(2).as_bytes()) {
        Some(element) => write!(out, "{} {}", element.z, element.isotope),
        None => out.push_str("none"),
    }
}

/// The valences of an element with a charge.
pub fn valences_told(out: &mut Text, row: &Row) {
    let z: u8 = row.field(2).parse().unwrap_or(0);
    if z == 0 || z > 118 {
        return out.push_str("out of range");
    }
    let charge: i8 = row.field(3).parse().unwrap_or(0);
    let valences = valences(z, charge);
    write!(out, "{valences:?}")
}

/// The masses of two elements, in halves; of which nuclides two others are a mixture; outer electrons of three.
pub fn masses(out: &mut Text) {
    write!(out, "{} {}", natural_half(17), natural_half(92));
    write!(out, " {:?} {:?}", reference_mass(35), reference_mass(2));
    write!(out, " {:?} {:?} {:?}", outer(15), outer(34), outer(8))
}

use crate::output::text::Text;
use crate::rows::row::Row;
