// Lines of texts, fields in them, and the items of records.
ghost use Rattle.std.specs.Prelude.{◌≡◌, IfOk, length};

use crate::output::text::Text;
use crate::rows::row::Row;
use cip_item::{Item, Items, Texts, split_items, with_item, without_label_items};
use cip_text::{
    Bytes, Line, List32, NumberFault, columns, content, decimal4, integer, is_blank, is_terminator,
    lines, split_line,
};
use std::alloc::{AllocError, Global};

// More bytes than any of the texts has.
const MOST_BYTES: usize = 1_000;

/// The field of a line in the columns that a row names.
pub fn field(out: &mut Text, row: &Row) {
    let (first, last) = (row.number(3), row.number(4));
    if first == 0 || last < first {
        return out.push_str("out of range");
    }
    out.push_bytes(columns(row.field(2).as_bytes(), first, last))
}

// The number in a field, or why there is none.
fn push_number(out: &mut Text, read: Result<i64, NumberFault>) {
    match read {
        Ok(number) => write!(out, "{number}"),
        Err(fault) => write!(out, "{fault:?}"),
    }
}

/// A whole number in a field.
pub fn whole(out: &mut Text, row: &Row) {
    push_number(out, integer(row.field(2).as_bytes()))
}

/// A number with four places in a field, in ten-thousandths.
pub fn decimal(out: &mut Text, row: &Row) {
    push_number(out, decimal4(row.field(2).as_bytes()))
}

/// The lines of a text, a bar after each.
pub fn contents(alloc: Global, out: &mut Text, row: &Row) {
    let bytes = row.field(2).as_bytes();
    if bytes.len() > MOST_BYTES {
        return out.push_str("out of range");
    }
    let Ok(found) = lines(alloc, bytes) else {
        return out.miss();
    };
    for place in 0..found.len() {
        out.push_barred(content(bytes, *found.get(place)));
    }
}

/// Where a line of a text is: its start, the end of its content, and where the next one starts.
pub fn place(alloc: Global, out: &mut Text, row: &Row) {
    let bytes = row.field(2).as_bytes();
    if bytes.len() > MOST_BYTES {
        return out.push_str("out of range");
    }
    let Ok(found) = lines(alloc, bytes) else {
        return out.miss();
    };
    match found.as_slice().get(row.number(3) as usize) {
        Some(line) => push_line(out, *line),
        None => out.push_str("no such line"),
    }
}

fn push_line(out: &mut Text, line: Line) {
    let Line { start, end, next } = line;
    write!(out, "{start} {end} {next}")
}

/// The first line of a text and what comes after it, a bar after each.
pub fn halves(out: &mut Text, row: &Row) {
    let Some((first, rest)) = split_line(row.field(2).as_bytes()) else {
        return;
    };
    out.push_barred(first);
    out.push_barred(rest)
}

/// Whether a line is blank, and whether it ends a record.
pub fn kind(out: &mut Text, row: &Row) {
    let line = row.field(2).as_bytes();
    out.push_str(match (is_blank(line), is_terminator(line)) {
        (true, false) => "blank",
        (false, true) => "terminator",
        (false, false) => "neither",
        (true, true) => "both",
    })
}

/// What comes back of a list of two numbers, and how many there are.
pub fn listed(alloc: Global, out: &mut Text) {
    let Ok(list) = seven_and_five(alloc) else {
        return out.miss();
    };
    for number in list.as_slice() {
        write!(out, "{number} ");
    }
    write!(out, "{} {}", list.len(), list.get(1))
}

fn seven_and_five(alloc: Global) -> Result<List32<u32>, AllocError>
    ensures { IfOk result (λ list. length list ≡ 2) }
{
    let mut list = List32::new(alloc);
    list.push(7_u32)?;
    list.push(5)?;
    Ok(list)
}

/// A record with the item of a value line.
pub fn labelled(alloc: Global, out: &mut Text, row: &Row) {
    let Ok(values) = one_value(alloc) else {
        return out.miss();
    };
    let Ok(with) = with_item(alloc, row.field(2).as_bytes(), &values) else {
        return out.miss();
    };
    out.push_bytes(with.as_slice())
}

fn one_value(alloc: Global) -> Result<Texts, AllocError> {
    let mut values = List32::new(alloc);
    values.push(Bytes::from_vec(b"a1 S 1a 1".to_vec(alloc)?))?;
    Ok(values)
}

/// A record without label items.
pub fn prepared(alloc: Global, out: &mut Text, row: &Row) {
    let Ok(without) = without_label_items(alloc, row.field(2).as_bytes()) else {
        return out.miss();
    };
    out.push_bytes(without.as_slice())
}

/// The items of a record: the first line of each, the line after its last, and whether it has labels.
pub fn items(alloc: Global, out: &mut Text, row: &Row) {
    let record = row.field(2).as_bytes();
    if record.len() > MOST_BYTES {
        return out.push_str("out of range");
    }
    let Ok(items) = split_items(alloc, record) else {
        return out.miss();
    };
    push_items(out, &items)
}

fn push_items(out: &mut Text, items: &Items) {
    for item in items.as_slice() {
        push_item(out, item);
    }
}

fn push_item(out: &mut Text, item: &Item) {
    write!(out, "{}-{} {}|", item.first, item.past, item.label)
}
