// The place in C's memory at which a labeller is held.
ghost use Rattle.std.specs.Prelude.{◌≡◌, ◌≤◌, IfOk, None, Ok};
ghost use Rattle.cip_c.specs.Making.{IsMade, made, settings_of};

use crate::labeller::Labeller;
use crate::settings::{Settings, settings_of};
use crate::status_codes::NO_MEMORY;
use std::alloc::{AllocError, Global};
use std::marker::Model;

/// A labeller, or none. Contracts see what the labels of the labeller rest on.
#[derive(Drop)]
pub(crate) struct Slot {
    pub(crate) labeller: Option<Box<Labeller>>,
}

impl Model for Slot {
    ghost use Rattle.std.specs.Prelude.{Option};
    ghost use Rattle.std.specs.Option.{option_map};
    ghost use Rattle.cip_c.specs.declared.settings.Settings.{Settings};

    ghost Value = { Option Settings };

    ghost view = { λ slot. option_map (λ labeller. labeller.value) slot.labeller };
}

impl Slot {
    /// No labeller.
    pub(crate) fn empty() -> Slot
        ensures { result ≡ None }
    {
        Slot { labeller: None }
    }
}

/// Makes a labeller with this bound and the wording of this year. The answer is 0, or why there is none.
pub(crate) fn make(alloc: Global, slot: &mut Slot, nodes: u32, year: u32) -> i64
    ensures output { IsMade (settings_of nodes year) result }
    ensures made { slot.new ≡ made result (settings_of nodes year) }
{
    slot.labeller = None;
    match settings_of(nodes, year) {
        Ok(settings) => fill(alloc, slot, settings),
        Err(cause) => cause,
    }
}

fn fill(alloc: Global, slot: &mut Slot, settings: Settings) -> i64
    requires some { 1 ≤ settings.nodes }
    requires bounded { settings.nodes ≤ 1000000 }
    requires empty { slot.old ≡ None }
    ensures output { IsMade (Ok settings) result }
    ensures made { slot.new ≡ made result (Ok settings) }
{
    match boxed(alloc, settings) {
        Ok(labeller) => {
            slot.labeller = Some(sent(labeller));
            0
        }
        Err(_) => NO_MEMORY,
    }
}

fn boxed(alloc: Global, settings: Settings) -> Result<Box<Labeller>, AllocError>
    requires some { 1 ≤ settings.nodes }
    requires bounded { settings.nodes ≤ 1000000 }
    ensures { IfOk result (λ labeller. labeller.value ≡ settings) }
{
    let labeller = Labeller::reserve(alloc, settings)?;
    Ok(Box::new(alloc, labeller)?)
}

// What may be handed to another thread.
fn sent<T: Send>(value: T) -> T
    ensures { result ≡ value }
{
    value
}

/// Gives a labeller back.
pub(crate) fn release(slot: &mut Slot)
    ensures { slot.new ≡ None }
{
    slot.labeller = None;
}
