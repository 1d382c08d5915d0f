// Records and their labels.
use cip_item::Texts;
use cip_print::{Answer, item_values};
use cip_rank::Rules;
use cip_record::{is_flagged, label_record};
use gate_tables::Text;
use std::alloc::Global;

// More bytes than any of the records has.
const MOST_BYTES: usize = 10_000;

const MOST_NODES: u32 = 1_000_000;

/// The value lines of a record, a bar after each, up to the order of the ligands; after them, whether it is flagged.
pub fn labels(alloc: Global, out: &mut Text, record: &[u8], nodes: u32) {
    if nodes == 0 || nodes > MOST_NODES || record.len() > MOST_BYTES {
        return out.push_str("out of range");
    }
    let Ok(answer) = label_record(alloc, record, nodes, Rules::Wording2013) else {
        return out.miss();
    };
    let Ok(values) = item_values(alloc, &answer, nodes, Rules::Wording2013) else {
        return out.miss();
    };
    push_labels(out, &answer, &values)
}

fn push_labels(out: &mut Text, answer: &Answer, values: &Texts) {
    for place in 1..values.len() {
        out.push_barred(without_order(values.get(place).as_slice()));
    }
    if is_flagged(answer) {
        return out.push_str(" flagged");
    }
}

// A value line up to the order of its ligands.
fn without_order(line: &[u8]) -> &[u8] {
    for place in 0..line.len() {
        if line[place..].starts_with(b" order") {
            return &line[..place];
        }
    }
    line
}
