// Where the centres of a record stand among its units.
ghost use Rattle.std.specs.Prelude.{◌≡◌, ◌<◌, ◌^◌, ℕ, IfOk, IfSome, OnOk, length, nat_eq, position};
ghost use Rattle.std.specs.HashMap.{get};
ghost use Rattle.cip_stereogroups.specs.Outcomes.{is_centre_at};
ghost use Rattle.cip_stereogroups.specs.Places.{ArePlaces, or_here};

use cip_label::LabelContext;
use cip_mol::{Site, Unit};
use std::alloc::{AllocError, Global};
use std::collections::HashMap;
use std::marker::Model;

/// A setting in which the centre at an atom is found in a table. Contracts see the setting.
#[derive(Drop)]
pub struct CentreIndex<'a> {
    setting: &'a LabelContext<'a>,
    places: HashMap<u32, u32>,
}

impl<'a> Model for CentreIndex<'a> {
    ghost use Rattle.cip_label.specs.Settings as settings;
    ghost use Rattle.cip_stereogroups.specs.Places.{ArePlaces};

    ghost Value = { settings.LabelContext };

    ghost view = { λ centres. centres.setting.now };

    ghost invariant = { λ centres. ArePlaces centres.places centres.setting.now.units };
}

impl<'a> CentreIndex<'a> {
    /// Those of a setting.
    pub fn of(alloc: Global, setting: &'a LabelContext<'a>) -> Result<CentreIndex<'a>, AllocError>
        requires few { length setting.now.units < 2 ^ 32 }
        ensures { IfOk result (λ centres. centres ≡ setting.now) }
    {
        match places_of(alloc, setting.units().as_slice()) {
            Ok(places) => Ok(CentreIndex { setting, places }),
            Err(error) => Err(error),
        }
    }

    /// The setting itself.
    pub fn setting(&self) -> &'a LabelContext<'a>
        ensures { result.now ≡ self.now }
    {
        self.setting
    }

    /// The place of the centre at an atom, from 0.
    pub fn place(&self, atom: u32) -> Option<u32>
        ensures value { result ≡ position (is_centre_at atom) self.now.units }
        ensures within { IfSome result (λ place. place < length self.now.units) }
    {
        self.places.get(&atom).copied()
    }
}

fn places_of(alloc: Global, units: &[Unit]) -> Result<HashMap<u32, u32>, AllocError>
    requires few { length units.now < 2 ^ 32 }
    ensures { IfOk result (λ places. ArePlaces places units.now) }
{
    let mut places = HashMap::new(alloc);
    for (place, unit) in units.iter().enumerate() {
        let Ok(()) = note_unit(&mut places, unit, place as u32) else {
            return Err(AllocError);
        };
    }
    Ok(places)
}

// The first place of an atom is kept.
fn note_unit(places: &mut HashMap<u32, u32>, unit: &Unit, place: u32) -> Result<(), AllocError>
    ensures { OnOk result ((atom : ℕ) → get nat_eq places.new atom
        ≡ or_here (get nat_eq places.old atom) (is_centre_at atom unit.now) place) }
{
    match unit.site {
        Site::Centre { at, .. } => {
            if places.contains_key(&at) {
                Ok(())
            } else {
                match places.insert(at, place) {
                    Ok(_) => Ok(()),
                    Err(_) => Err(AllocError),
                }
            }
        }
        Site::Bond { .. } | Site::Axis { .. } => Ok(()),
    }
}
