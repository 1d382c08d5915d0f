// What each call answers.
use crate::calls::{Call, call_named};
use crate::carbons::{fault, lattice, renumbered};
use crate::command_lines::{asked_by_no_words, help_lines, requested};
use crate::directions::{around, sign_of_side, sign_of_volume};
use crate::elements::{element, masses, valences_told};
use crate::output::text::Text;
use crate::output::texts::{
    contents, decimal, field, halves, items, kind, labelled, listed, place, prepared, whole,
};
use crate::rows::making::Caller;
use crate::rows::row::Row;
use crate::senses::sense;
use std::alloc::Global;
use std::io;
use std::rt::Files;
use std::thread::Threads;

/// The calls on words, texts and drawings.
#[derive(Drop)]
pub struct Calls;

impl Caller for Calls {
    fn answer<R: Files + Threads + Sync + AllocGlobal>(
        &self,
        rt: &R,
        out: &mut Text,
        row: &Row,
    ) -> io::Result<()> {
        match call_named(row.call()) {
            Some(call) => of_words(rt.alloc(), out, call, row),
            None => out.push_str("there is no such call"),
        }
        Ok(())
    }
}

// Of words of a command line, or else of a text.
fn of_words(alloc: Global, out: &mut Text, call: Call, row: &Row) {
    match call {
        Call::Words => requested(alloc, out, row.field(2)),
        Call::NoWords => asked_by_no_words(out),
        Call::Help => help_lines(out),
        Call::Field => field(out, row),
        Call::Whole => whole(out, row),
        Call::Decimal => decimal(out, row),
        Call::Halves => halves(out, row),
        Call::Kind => kind(out, row),
        _ => of_text(alloc, out, call, row),
    }
}

// Of a text that is in the row, or else of a drawing.
fn of_text(alloc: Global, out: &mut Text, call: Call, row: &Row) {
    match call {
        Call::Lines => contents(alloc, out, row),
        Call::Line => place(alloc, out, row),
        Call::List => listed(alloc, out),
        Call::WithItem => labelled(alloc, out, row),
        Call::WithoutLabels => prepared(alloc, out, row),
        Call::Items => items(alloc, out, row),
        _ => of_drawing(alloc, out, call, row),
    }
}

// Of a drawing, of atoms or of elements that are in the row.
fn of_drawing(alloc: Global, out: &mut Text, call: Call, row: &Row) {
    match call {
        Call::Sense => sense(alloc, out, row),
        Call::Bonds => fault(alloc, out, row),
        Call::Lattice => lattice(alloc, out),
        Call::Renumbered => renumbered(alloc, out),
        Call::Around => around(alloc, out, row),
        Call::Volume => sign_of_volume(alloc, out, row),
        Call::SameSide => sign_of_side(alloc, out, row),
        Call::Element => element(out, row),
        Call::Valences => valences_told(out, row),
        Call::Masses => masses(out),
        _ => out.push_str("no call of a drawing"),
    }
}
