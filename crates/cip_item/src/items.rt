// The places of a record's items.
ghost use Rattle.std.specs.Prelude.{◌≡◌, ◌≤◌, ◌<◌, ◌+◌, ◌-◌, ◌^◌, ◌++◌, ◌∷◌, List, ℕ, length, IfOk, OnOk};
ghost use Rattle.cip_text.specs.Slices.{texts};
ghost use Rattle.cip_item.specs.Items.{items_among, items_of};
ghost use Rattle.cip_item.specs.Splitting.{items_with, closed_before, begun};

use crate::sections::Part;
use cip_text::{List32, RecordLines};
use std::alloc::{AllocError, Global};

/// An item by the numbers of its first line and of the line after its last one, counted from 0.
#[derive(Clone, Copy)]
pub struct Item {
    pub first: u32,
    pub past: u32,
    pub label: bool,
}

/// The items of a record, in order.
pub type Items = List32<Item>;

// The items that are closed, what the lines so far left open, where the open item began, and how many lines there were.
#[derive(Drop)]
pub(crate) struct Splitter {
    pub(crate) items: Items,
    pub(crate) part: Part,
    pub(crate) first: u32,
    pub(crate) number: u32,
}

/// The items of a record, label items and others, in order.
pub fn split_items(alloc: Global, bytes: &[u8]) -> Result<Items, AllocError>
    requires { length bytes.now < 2 ^ 32 }
    ensures { IfOk result (λ items. items ≡ items_of bytes.now) }
{
    match RecordLines::new(alloc, bytes) {
        Ok(lines) => items_among(alloc, lines.contents()),
        Err(error) => Err(error),
    }
}

// The items of a record whose lines have these contents.
fn items_among(alloc: Global, contents: &[&[u8]]) -> Result<Items, AllocError>
    requires { length contents.now < 2 ^ 32 }
    ensures { IfOk result (λ items. items ≡ items_among (texts contents.now)) }
{
    let mut splitter = Splitter {
        items: List32::new(alloc),
        part: Part::before(contents),
        first: 0,
        number: 0,
    };
    match take_lines(&mut splitter, contents) {
        Ok(()) => Ok(splitter.items),
        Err(error) => Err(error),
    }
}

// Takes the lines to come, after which nothing is open.
fn take_lines(splitter: &mut Splitter, contents: &[&[u8]]) -> Result<(), AllocError>
    requires room { splitter.old.number + length contents.now < 2 ^ 32 }
    requires begun { begun splitter.old ≤ splitter.old.number }
    ensures { OnOk result (splitter.new.items ≡ items_with splitter.old (texts contents.now)) }
{
    for content in contents {
        let Ok(()) = take_line(splitter, content) else {
            return Err(AllocError);
        };
    }
    close_before(splitter, Part::Between)
}

fn take_line(splitter: &mut Splitter, content: &[u8]) -> Result<(), AllocError>
    requires room { splitter.old.number < 2 ^ 32 - 1 }
    requires begun { begun splitter.old ≤ splitter.old.number }
    ensures items { OnOk result ((contents : List (List ℕ))
        → items_with splitter.new contents ≡ items_with splitter.old (content.now ∷ contents)) }
    ensures number { OnOk result (splitter.new.number ≡ splitter.old.number + 1) }
    ensures begun { OnOk result (begun splitter.new ≤ splitter.new.number) }
{
    if splitter.part.begins_item(content) {
        let part = splitter.part.of_line(content);
        let Ok(()) = close_before(splitter, Part::Between) else {
            return Err(AllocError);
        };
        splitter.part = part;
        splitter.first = splitter.number;
        splitter.number += 1;
    } else {
        let next = splitter.part.behind(content);
        splitter.number += 1;
        let Ok(()) = close_before(splitter, next) else {
            return Err(AllocError);
        };
        splitter.part = next;
    }
    Ok(())
}

// Closes the open item, if there is one, where the next line finds no item open.
fn close_before(splitter: &mut Splitter, next: Part) -> Result<(), AllocError>
    requires { begun splitter.old < 2 ^ 32 }
    ensures { OnOk result (splitter.new ≡ record splitter.old
        { items = splitter.old.items ++ closed_before splitter.old next }) }
{
    if splitter.part.is_item() && !next.is_item() {
        let item = Item {
            first: splitter.first,
            past: splitter.number,
            label: splitter.part.is_label_item(),
        };
        splitter.items.push(item)
    } else {
        Ok(())
    }
}
