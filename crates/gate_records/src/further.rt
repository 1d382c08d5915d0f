// Stereo groups, further units and undefined units of a record, without a labeller of the caller's.
ghost use Rattle.std.specs.Prelude.{◌≡◌, ◌<◌, ◌≤◌, ◌-◌, ◌^◌, Ok, length};
ghost use Rattle.cip_text.specs.Bodies.{body_contents};
ghost use Rattle.cip_v3000.specs.Grammar.{molecule_of};

use cip_groups::{Group, GroupsAnswer, group_text, read_groups};
use cip_label::{Labeller, RootRanker};
use cip_mol::Molecule;
use cip_rank::Rules;
use cip_ranker::Ranker;
use cip_record::axes_text;
use cip_text::RecordLines;
use cip_undefined::{UndefinedAnswer, undefined_in_lines, undefined_text};
use gate_tables::Text;
use std::alloc::{AllocError, Global};

// More bytes than any of the records has.
const MOST_BYTES: usize = 1_000_000;

const MOST_NODES: u32 = 1_000_000;

/// What is written for the groups of a first record, and whether it is flagged.
pub fn groups_told(alloc: Global, out: &mut Text, record: &[u8]) {
    if record.len() > MOST_BYTES {
        return out.push_str("out of range");
    }
    let Ok(output) = group_text(alloc, record, 1, 100, Rules::Wording2018) else {
        return out.miss();
    };
    push_told(out, output.text.as_slice(), output.flagged)
}

/// What is written for the further units of a first record, and whether it is flagged.
pub fn axes_told(alloc: Global, out: &mut Text, record: &[u8]) {
    if record.len() > MOST_BYTES {
        return out.push_str("out of range");
    }
    let Ok(output) = axes_text(alloc, record, 1, 100, Rules::Wording2018) else {
        return out.miss();
    };
    push_told(out, output.text.as_slice(), output.flagged)
}

fn push_told(out: &mut Text, text: &[u8], flagged: bool) {
    out.push_bytes(text);
    if flagged {
        return out.push_str(" flagged");
    }
}

/// What is written for the undefined units of a record, within n nodes.
pub fn undefined_told(alloc: Global, out: &mut Text, record: &[u8], nodes: u32) {
    if nodes == 0 || nodes > MOST_NODES || record.len() > MOST_BYTES {
        return out.push_str("out of range");
    }
    let Ok(lines) = RecordLines::new(alloc, record) else {
        return out.miss();
    };
    push_undefined(alloc, out, &lines, nodes)
}

fn push_undefined(alloc: Global, out: &mut Text, lines: &RecordLines, nodes: u32)
    requires few { length lines.now < 2 ^ 32 - 1 }
    requires some { 1 ≤ nodes }
    requires bounded { nodes ≤ 1000000 }
{
    let Ok(answer) = undefined_of::<Ranker>(alloc, lines, nodes) else {
        return out.miss();
    };
    push_undefined_text(alloc, out, &answer)
}

fn push_undefined_text(alloc: Global, out: &mut Text, answer: &UndefinedAnswer) {
    let Ok(text) = undefined_text(alloc, answer) else {
        return out.miss();
    };
    out.push_bytes(&text)
}

// The undefined units of a record's lines, over any ranker.
// proof: dropping a ranker is long to prove
fn undefined_of<D: RootRanker + Drop>(
    alloc: Global,
    lines: &RecordLines,
    nodes: u32,
) -> Result<UndefinedAnswer, AllocError>
    requires few { length lines.now < 2 ^ 32 - 1 }
    requires some { 1 ≤ nodes }
    requires bounded { nodes ≤ 1000000 }
{
    let mut labeller = Labeller::<D>::reserve(alloc, nodes)?;
    undefined_in_lines(alloc, &mut labeller, lines, Rules::Wording2018)
}

/// The groups of a record: the kind of each, its first line, its atoms.
pub fn group_told(alloc: Global, out: &mut Text, record: &[u8]) {
    if record.len() > MOST_BYTES {
        return out.push_str("out of range");
    }
    match cip_v3000::read(alloc, record) {
        Ok(molecule) => push_groups_of(alloc, out, record, &molecule),
        Err(_) => out.push_str("not read"),
    }
}

fn push_groups_of(alloc: Global, out: &mut Text, bytes: &[u8], molecule: &Molecule)
    requires few { length bytes.now < 2 ^ 32 - 1 }
    requires read { molecule_of (body_contents bytes.now) ≡ Ok molecule.now }
{
    let Ok(answer) = read_groups(alloc, bytes, molecule) else {
        return out.miss();
    };
    push_groups(out, &answer)
}

fn push_groups(out: &mut Text, answer: &GroupsAnswer) {
    let GroupsAnswer::Groups(groups) = answer else {
        return out.push_str("groups not read");
    };
    for group in groups.as_slice() {
        push_group(out, group);
    }
}

fn push_group(out: &mut Text, group: &Group) {
    write!(out, "{} {}", group.kind, group.line);
    for atom in group.atoms.as_slice() {
        write!(out, " {atom}");
    }
}
