// The pointers that C passes: each is tested, and what is at it is lent to a safe function for the call.
ghost use Rattle.std.specs.Prelude.{◌≡◌, None, Option, pos};
ghost use types.Logic.{sem};
ghost use Rattle.cip_c.specs.declared.settings.Settings.{Settings};
ghost use Rattle.cip_c.specs.Making.{IsMade, made, settings_of};
ghost use Rattle.cip_c.specs.Pointers.{Passed, given, given_bytes, given_room, unless_null};
ghost use Rattle.cip_c.specs.Texts.{annotated, explained_text, text_of, undefined_told, values_text};
ghost use Rattle.cip_c.specs.Writing.{IsTold, due, written};
ghost use Rattle.cip_c.specs.contracts.labeller_slot.Slot.{the_row};

use crate::copy_out::write;
use crate::labeller_slot::{Slot, make, release};
use crate::status_codes::NULL_POINTER;
use crate::text_kinds::Text;
use std::alloc::Global;
use std::slice::{from_raw_parts, from_raw_parts_mut};

const SLOT_SIZE: usize = std::mem::size_of::<Slot>();

/// How many bytes C sets aside for a labeller.
#[unsafe(no_mangle)]
pub extern "C" fn cip_labeller_size() -> usize
    ensures { result ≡ 16 }
{
    SLOT_SIZE
}

/// The version of the library.
#[unsafe(no_mangle)]
pub extern "C" fn cip_version() -> u32
    ensures { result ≡ 15 }
{
    15
}

/// Makes a labeller at a pointer to room for it.
#[unsafe(no_mangle)]
pub unsafe extern "C" fn cip_make(alloc: Global, labeller: *mut u8, nodes: u32, year: u32) -> i64
    requires* { sem 𝓛 (given_room the_row labeller) }
    ensures* { sem 𝓛 (given the_row labeller (made result (settings_of nodes year)))
        ∗ ⌜ unless_null labeller (IsMade (settings_of nodes year) result) result ⌝ }
{
    if labeller.is_null() {
        return NULL_POINTER;
    }
    let at = labeller as *mut Slot;
    std::ptr::write(at, Slot::empty());
    make(alloc, &mut *at, nodes, year)
}

/// Gives a labeller back.
#[unsafe(no_mangle)]
pub unsafe extern "C" fn cip_release(labeller: *mut u8) -> i64
    ghost held: { Option Settings }
    requires* { sem 𝓛 (given the_row labeller held) }
    ensures* { sem 𝓛 (given the_row labeller None) ∗ ⌜ unless_null labeller (result ≡ pos 0) result ⌝ }
{
    if labeller.is_null() {
        return NULL_POINTER;
    }
    release(&mut *(labeller as *mut Slot));
    0
}

/// Writes the record with its item, or the front of it where there is not room for the whole.
#[unsafe(no_mangle)]
pub unsafe extern "C" fn cip_annotate(
    labeller: *mut u8,
    bytes: *const u8,
    length: usize,
    text: *mut u8,
    room: usize,
) -> i64
    ghost passed: { Passed (Option Settings) }
    requires* { sem 𝓛 (given the_row labeller passed.labeller) ∗ sem 𝓛 (given_bytes length bytes passed.bytes)
        ∗ sem 𝓛 (given_bytes room text passed.text) }
    ensures* { sem 𝓛 (given the_row labeller passed.labeller) ∗ sem 𝓛 (given_bytes length bytes passed.bytes)
        ∗ sem 𝓛 (given_bytes room text (written result (due annotated passed.labeller passed.bytes) passed.text))
        ∗ ⌜ unless_null labeller (unless_null bytes (unless_null text
        (IsTold (due annotated passed.labeller passed.bytes) result) result) result) result ⌝ }
{
    write_at(labeller, Text::Annotated, bytes, length, text, room)
}

/// `cip_annotate` for the value lines alone.
#[unsafe(no_mangle)]
pub unsafe extern "C" fn cip_values(
    labeller: *mut u8,
    bytes: *const u8,
    length: usize,
    text: *mut u8,
    room: usize,
) -> i64
    ghost passed: { Passed (Option Settings) }
    requires* { sem 𝓛 (given the_row labeller passed.labeller) ∗ sem 𝓛 (given_bytes length bytes passed.bytes)
        ∗ sem 𝓛 (given_bytes room text passed.text) }
    ensures* { sem 𝓛 (given the_row labeller passed.labeller) ∗ sem 𝓛 (given_bytes length bytes passed.bytes)
        ∗ sem 𝓛 (given_bytes room text (written result (due values_text passed.labeller passed.bytes) passed.text))
        ∗ ⌜ unless_null labeller (unless_null bytes (unless_null text
        (IsTold (due values_text passed.labeller passed.bytes) result) result) result) result ⌝ }
{
    write_at(labeller, Text::Values, bytes, length, text, room)
}

/// `cip_annotate` for what is found of the record of this number.
#[unsafe(no_mangle)]
pub unsafe extern "C" fn cip_explain(
    labeller: *mut u8,
    number: u64,
    bytes: *const u8,
    length: usize,
    text: *mut u8,
    room: usize,
) -> i64
    ghost passed: { Passed (Option Settings) }
    requires* { sem 𝓛 (given the_row labeller passed.labeller) ∗ sem 𝓛 (given_bytes length bytes passed.bytes)
        ∗ sem 𝓛 (given_bytes room text passed.text) }
    ensures* { sem 𝓛 (given the_row labeller passed.labeller) ∗ sem 𝓛 (given_bytes length bytes passed.bytes)
        ∗ sem 𝓛 (given_bytes room text
        (written result (due (explained_text number) passed.labeller passed.bytes) passed.text))
        ∗ ⌜ unless_null labeller (unless_null bytes (unless_null text
        (IsTold (due (explained_text number) passed.labeller passed.bytes) result) result) result) result ⌝ }
{
    write_at(labeller, Text::Explained(number), bytes, length, text, room)
}

/// `cip_annotate` for the undefined units alone.
#[unsafe(no_mangle)]
pub unsafe extern "C" fn cip_undefined(
    labeller: *mut u8,
    bytes: *const u8,
    length: usize,
    text: *mut u8,
    room: usize,
) -> i64
    ghost passed: { Passed (Option Settings) }
    requires* { sem 𝓛 (given the_row labeller passed.labeller) ∗ sem 𝓛 (given_bytes length bytes passed.bytes)
        ∗ sem 𝓛 (given_bytes room text passed.text) }
    ensures* { sem 𝓛 (given the_row labeller passed.labeller) ∗ sem 𝓛 (given_bytes length bytes passed.bytes)
        ∗ sem 𝓛 (given_bytes room text (written result (due undefined_told passed.labeller passed.bytes) passed.text))
        ∗ ⌜ unless_null labeller (unless_null bytes (unless_null text
        (IsTold (due undefined_told passed.labeller passed.bytes) result) result) result) result ⌝ }
{
    write_at(labeller, Text::Undefined, bytes, length, text, room)
}

// Writes the text that is asked for, where no pointer is null.
unsafe fn write_at(
    labeller: *mut u8,
    requested: Text,
    bytes: *const u8,
    length: usize,
    text: *mut u8,
    room: usize,
) -> i64
    ghost passed: { Passed (Option Settings) }
    requires* { sem 𝓛 (given the_row labeller passed.labeller) ∗ sem 𝓛 (given_bytes length bytes passed.bytes)
        ∗ sem 𝓛 (given_bytes room text passed.text) }
    ensures* { sem 𝓛 (given the_row labeller passed.labeller) ∗ sem 𝓛 (given_bytes length bytes passed.bytes)
        ∗ sem 𝓛 (given_bytes room text (written result (due (text_of requested) passed.labeller passed.bytes) passed.text))
        ∗ ⌜ unless_null labeller (unless_null bytes (unless_null text
        (IsTold (due (text_of requested) passed.labeller passed.bytes) result) result) result) result ⌝ }
{
    if labeller.is_null() {
        return NULL_POINTER;
    }
    if bytes.is_null() {
        return NULL_POINTER;
    }
    if text.is_null() {
        return NULL_POINTER;
    }
    write(
        &mut *(labeller as *mut Slot),
        requested,
        from_raw_parts(bytes, length),
        from_raw_parts_mut(text, room),
    )
}
