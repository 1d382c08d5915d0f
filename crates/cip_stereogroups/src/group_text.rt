// What is written for the groups of a record.
ghost use Rattle.std.specs.Prelude.{◌≡◌, ◌≤◌, ◌<◌, ◌-◌, ◌^◌, ◌++◌, IfOk, OnOk, Ok, flat_map, length, string_bytes, true};
ghost use Rattle.std.specs.List.{list_any};
ghost use Rattle.cip_text.specs.Slices.{texts};
ghost use Rattle.cip_v3000.specs.Tables.{seen_table};
ghost use Rattle.cip_stereogroups.specs.Collections.{groups_of};
ghost use Rattle.cip_label.specs.Settings.{setting_in};
ghost use Rattle.cip_stereogroups.specs.Outcomes.{lines_of_groups};
ghost use Rattle.cip_stereogroups.specs.Readings.{TellsFault, TellsRefusal};
ghost use Rattle.cip_stereogroups.specs.Texts.{outcome_text, line_text, some_over, of_lines, of_groups, of_contents, told_without_items, with_number};

use crate::collection_blocks::groups_of;
use crate::faults::{GroupFault, GroupRefusal};
use crate::group_outcomes::{BothOutcomes, GroupLine, lines_of_groups};
use crate::groups::Groups;
use cip_label::{LabelContext, Labeller, RootRanker};
use cip_mol::{Molecule, Outcome, ReadRefusal};
use cip_molfile::Structure;
use cip_rank::Rules;
use cip_text::{Bytes, RecordLines};
use cip_v2000::is_v3000;
use cip_v3000::{Table, read_table};
use std::alloc::{AllocError, Global};

/// What is written for the groups of a record, and whether it is refused or a digraph is larger than the bound.
#[derive(Drop)]
pub struct GroupText {
    pub text: Bytes,
    pub flagged: bool,
}

/// What is written for the groups of the record of this number, which has no label items.
#[tactic(auto, unfolding(crate::specs::Texts::told_without_items))]
pub fn groups_of_lines<D: RootRanker>(
    alloc: Global,
    labeller: &mut Labeller<D>,
    lines: &RecordLines,
    number: u64,
    rules: Rules,
) -> Result<GroupText, AllocError>
    requires few { length lines.now < 2 ^ 32 - 1 }
    ensures output { IfOk result (λ output. output ≡ with_number number (told_without_items rules labeller.old lines.now)) }
    ensures kept { labeller.new ≡ labeller.old }
{
    match tell_contents(alloc, labeller, lines.contents(), rules) {
        Ok(output) => with_number(alloc, number, &output),
        Err(error) => Err(error),
    }
}

// What is written for a record, after a line with its number.
fn with_number(alloc: Global, number: u64, output: &GroupText) -> Result<GroupText, AllocError>
    ensures { IfOk result (λ numbered. numbered ≡ with_number number output.now) }
{
    match format!(in alloc; "record {number}\n") {
        Ok(line) => {
            let mut text = line.into_bytes();
            match text.extend_from_slice(output.text.as_slice()) {
                Ok(()) => Ok(GroupText {
                    text: Bytes::from_vec(text),
                    flagged: output.flagged,
                }),
                Err(error) => Err(error),
            }
        }
        Err(error) => Err(error),
    }
}

fn tell_contents<D: RootRanker>(
    alloc: Global,
    labeller: &mut Labeller<D>,
    lines: &[&[u8]],
    rules: Rules,
) -> Result<GroupText, AllocError>
    requires few { length lines.now < 2 ^ 32 - 1 }
    ensures output { IfOk result (λ output. output ≡ of_contents rules labeller.old (texts lines.now)) }
    ensures kept { labeller.new ≡ labeller.old }
{
    if is_v3000(lines) {
        match read_table(alloc, lines) {
            Ok(table) => tell_table(alloc, labeller, table, rules),
            Err(refusal) => tell_refusal(alloc, refusal),
        }
    } else {
        match cip_v2000::read_lines(alloc, lines) {
            Ok(_molecule) => Ok(GroupText {
                text: Bytes::from_vec(Vec::new(alloc)),
                flagged: false,
            }),
            Err(refusal) => tell_refusal(alloc, refusal),
        }
    }
}

fn tell_refusal(alloc: Global, refusal: ReadRefusal) -> Result<GroupText, AllocError>
    ensures { IfOk result (TellsRefusal refusal) }
{
    match refusal {
        ReadRefusal::Fault(fault) => {
            let Ok(line) = cip_print::refusal(alloc, fault) else {
                return Err(AllocError);
            };
            match format!(in alloc; "{line}\n") {
                Ok(text) => Ok(flagged(text)),
                Err(error) => Err(error),
            }
        }
        ReadRefusal::Memory => Err(AllocError),
    }
}

fn flagged(text: String) -> GroupText
    ensures { result ≡ record { text = string_bytes text; flagged = true } }
{
    GroupText {
        text: Bytes::from_vec(text.into_bytes()),
        flagged: true,
    }
}

fn tell_table<D: RootRanker>(
    alloc: Global,
    labeller: &mut Labeller<D>,
    table: Table<'_>,
    rules: Rules,
) -> Result<GroupText, AllocError>
    requires few { length table.indices.items ≤ 1000000000 }
    ensures output { IfOk result (λ output. output
        ≡ of_groups rules labeller.old table.entry.molecule (groups_of (seen_table table.entry))) }
    ensures kept { labeller.new ≡ labeller.old }
{
    let groups = groups_of(alloc, &table);
    let molecule = molecule_of(table);
    match groups {
        Ok(groups) => tell_groups(alloc, labeller, molecule, &groups, rules),
        Err(refusal) => tell_fault(alloc, refusal),
    }
}

// Where the groups are read, nothing else of the table is needed.
fn molecule_of(table: Table<'_>) -> Molecule
    ensures { result ≡ table.entry.molecule }
{
    table.molecule
}

fn tell_fault(alloc: Global, refusal: GroupRefusal) -> Result<GroupText, AllocError>
    ensures { IfOk result (TellsFault refusal) }
{
    match refusal {
        GroupRefusal::Fault(GroupFault { line, cause }) => {
            match format!(in alloc; "groups {line} {cause}\n") {
                Ok(text) => Ok(flagged(text)),
                Err(error) => Err(error),
            }
        }
        GroupRefusal::Memory => Err(AllocError),
    }
}

fn tell_groups<D: RootRanker>(
    alloc: Global,
    labeller: &mut Labeller<D>,
    molecule: Molecule,
    groups: &Groups,
    rules: Rules,
) -> Result<GroupText, AllocError>
    ensures output { IfOk result (λ output. output ≡ of_groups rules labeller.old molecule (Ok groups.now)) }
    ensures kept { labeller.new ≡ labeller.old }
{
    match Structure::of(alloc, molecule) {
        Ok(drawn) => {
            let output = tell_drawn(alloc, labeller, &drawn, groups, rules);
            drawn.release();
            output
        }
        Err(error) => Err(error),
    }
}

// What is written for the groups of a structure.
// proof: the caller keeps the structure, so no exit drops it
fn tell_drawn<D: RootRanker>(
    alloc: Global,
    labeller: &mut Labeller<D>,
    drawn: &Structure,
    groups: &Groups,
    rules: Rules,
) -> Result<GroupText, AllocError>
    ensures output { IfOk result (λ output. output ≡ of_groups rules labeller.old drawn.now (Ok groups.now)) }
    ensures kept { labeller.new ≡ labeller.old }
{
    match drawn_lines(alloc, labeller, drawn, groups, rules) {
        Ok(lines) => of_lines(alloc, &lines),
        Err(error) => Err(error),
    }
}

fn drawn_lines<D: RootRanker>(
    alloc: Global,
    labeller: &mut Labeller<D>,
    drawn: &Structure,
    groups: &Groups,
    rules: Rules,
) -> Result<Vec<GroupLine>, AllocError>
    ensures lines { IfOk result (λ lines. lines.items
        ≡ lines_of_groups labeller.old (setting_in rules drawn.now) groups.now) }
    ensures kept { labeller.new ≡ labeller.old }
{
    let units = drawn.units();
    match LabelContext::new(alloc, drawn.graph(), drawn.positions(), units.list(), rules) {
        Ok(setting) => lines_of_groups(alloc, labeller, &setting, units, groups.as_slice()),
        Err(error) => Err(error),
    }
}

fn of_lines(alloc: Global, lines: &[GroupLine]) -> Result<GroupText, AllocError>
    ensures { IfOk result (λ output. output ≡ of_lines lines.now) }
{
    match lines_text(alloc, lines) {
        Ok(text) => Ok(GroupText {
            text: Bytes::from_vec(text.into_bytes()),
            flagged: have_over(lines),
        }),
        Err(error) => Err(error),
    }
}

fn lines_text(alloc: Global, lines: &[GroupLine]) -> Result<String, AllocError>
    ensures { IfOk result (λ text. string_bytes text ≡ flat_map line_text lines.now) }
{
    let mut text = String::new(alloc);
    for line in lines {
        let Ok(()) = push_line(&mut text, line) else {
            return Err(AllocError);
        };
    }
    Ok(text)
}

#[tactic(auto, unfolding(crate::specs::Texts::line_text))]
fn push_line(text: &mut String, line: &GroupLine) -> Result<(), AllocError>
    ensures { OnOk result (string_bytes text.new ≡ string_bytes text.old ++ line_text line.now) }
{
    let kind = line.kind;
    let number = u64::from(line.atom) + 1;
    match &line.outcomes {
        None => write!(text, "{kind} a{number} -\n"),
        Some(both) => {
            let drawn = outcome_word(&both.drawn);
            let turned = outcome_word(&both.turned);
            write!(text, "{kind} a{number} {drawn} {turned}\n")
        }
    }
}

fn outcome_word(outcome: &Outcome) -> &'static str
    ensures { result.now ≡ outcome_text outcome.now }
{
    match outcome {
        Outcome::Label(label) => label.letter.text(),
        Outcome::Tie => "tie",
        Outcome::Over => "over",
        Outcome::NoGeometry(_) => "none",
    }
}

fn have_over(lines: &[GroupLine]) -> bool
    ensures { result ≡ list_any (λ line. some_over line.outcomes) lines.now }
{
    for line in lines {
        if some_over(&line.outcomes) {
            return true;
        }
    }
    false
}

fn some_over(outcomes: &Option<BothOutcomes>) -> bool
    ensures { result ≡ some_over outcomes.now }
{
    match outcomes {
        None => false,
        Some(both) => matches!(both.drawn, Outcome::Over) || matches!(both.turned, Outcome::Over),
    }
}
