// Centres labelled as images of others, and each by itself.
ghost use Rattle.std.specs.Prelude.{◌≡◌, ◌<◌, ◌-◌, ◌^◌, IfSome, length};
ghost use Rattle.cip_digraph.specs.rings.Positions.{positions_of};

use crate::drawn::molfiles::read_v2000;
use cip_label::{LabelContext, Labeller, RootRanker};
use cip_mol::{Label, Molecule, Outcome};
use cip_molfile::Structure;
use cip_rank::{Rules, Steps};
use cip_ranker::Ranker;
use cip_symmetry::label_by_symmetry;
use gate_tables::Text;
use std::alloc::{AllocError, Global};
use std::marker::Brand;
use std::sync::ledger::{Blank, Ledger};

// More nodes than any of the digraphs has.
const MOST_NODES: u32 = 100_000;

// How many images were found, and how many of them have another outcome than the centre has by itself.
#[derive(Clone, Copy)]
struct Tally {
    images: u32,
    differ: u32,
}

impl Tally {
    fn note(&mut self, are_same: bool) {
        self.images = self.images.saturating_add(1);
        if !are_same {
            self.differ = self.differ.saturating_add(1);
        }
    }
}

/// For how many pairs of a record's centres one is found to be the image of the other, and for how many of these what is
/// found by the image is wrong.
pub fn images_told(alloc: Global, out: &mut Text, record: &[u8]) {
    match read_v2000(alloc, record) {
        Ok(molecule) => of_molecule(alloc, out, molecule),
        Err(_) => out.push_str("not read"),
    }
}

fn of_molecule(alloc: Global, out: &mut Text, molecule: Molecule) {
    let drawn = Structure::of(alloc, molecule);
    match &drawn {
        Ok(drawn) => of_drawn(alloc, out, drawn),
        Err(_) => out.miss(),
    }
    // proof: dropped by a call, here and below, which is quicker to prove than the end of scope
    drop(drawn);
}

fn of_drawn(alloc: Global, out: &mut Text, drawn: &Structure) {
    let units = drawn.units().list();
    let (graph, positions) = (drawn.graph(), drawn.positions());
    let setting = LabelContext::new(alloc, graph, positions, units, Rules::Wording2018);
    match &setting {
        Ok(setting) => of_setting::<Ranker, Brand>(alloc, out, setting, Blank::new(1)),
        Err(_) => out.miss(),
    }
    drop(setting);
}

fn of_setting<D: RootRanker + Drop, L: Ledger>(
    alloc: Global,
    out: &mut Text,
    setting: &LabelContext<'_>,
    blank: Blank,
)
    requires name { blank.name ≡ L.name }
    requires parts { blank.parts ≡ L.parts }
    requires one { 0 < blank.parts }
    requires drawn { setting.now.positions ≡ positions_of setting.now.graph }
    requires few { length setting.now.units < 2 ^ 32 - 1 }
{
    let mut steps = Steps::<L>::open(blank);
    let mut tally = Tally {
        images: 0,
        differ: 0,
    };
    match compare_all::<D, L>(alloc, setting, &mut tally, &mut steps) {
        Ok(()) => write!(out, "{} images, {} differ", tally.images, tally.differ),
        Err(_) => out.miss(),
    }
}

fn compare_all<D: RootRanker + Drop, L: Ledger>(
    alloc: Global,
    setting: &LabelContext<'_>,
    tally: &mut Tally,
    steps: &mut Steps<L>,
) -> Result<(), AllocError>
    requires drawn { setting.now.positions ≡ positions_of setting.now.graph }
    requires few { length setting.now.units < 2 ^ 32 - 1 }
{
    for kept in 0..setting.units().as_slice().len() as u32 {
        compare_from::<D, L>(alloc, setting, kept, tally, steps)?;
    }
    Ok(())
}

// The images of one centre.
fn compare_from<D: RootRanker + Drop, L: Ledger>(
    alloc: Global,
    setting: &LabelContext<'_>,
    kept: u32,
    tally: &mut Tally,
    steps: &mut Steps<L>,
) -> Result<(), AllocError>
    requires drawn { setting.now.positions ≡ positions_of setting.now.graph }
    requires few { length setting.now.units < 2 ^ 32 - 1 }
    requires kept { kept < length setting.now.units }
{
    for unit in 0..setting.units().as_slice().len() as u32 {
        if unit != kept {
            compare_two::<D, L>(alloc, setting, (kept, unit), tally, steps)?;
        }
    }
    Ok(())
}

// Compares what is found of a unit by another one, if it is its image, with what is found of it by itself.
fn compare_two<D: RootRanker + Drop, L: Ledger>(
    alloc: Global,
    setting: &LabelContext<'_>,
    two: (u32, u32),
    tally: &mut Tally,
    steps: &mut Steps<L>,
) -> Result<(), AllocError>
    requires drawn { setting.now.positions ≡ positions_of setting.now.graph }
    requires kept { two.0 < length setting.now.units }
    requires place { two.1 < length setting.now.units }
{
    if let Some(image) = found_by_image::<D, L>(alloc, setting, two, steps)? {
        let alone = found_alone::<D, L>(alloc, setting, two.1, steps)?;
        tally.note(are_same(&image, &alone));
    }
    Ok(())
}

// What is found of a unit by itself. The memory is reserved for it alone, so that nothing is kept of what was found before.
fn found_alone<D: RootRanker + Drop, L: Ledger>(
    alloc: Global,
    setting: &LabelContext<'_>,
    unit: u32,
    steps: &mut Steps<L>,
) -> Result<Outcome, AllocError>
    requires { unit < length setting.now.units }
{
    let mut labeller = Labeller::<D>::reserve(alloc, MOST_NODES)?;
    labeller.label(alloc, setting, unit, steps)
}

// What is found of the second unit by the first one, which is labelled before, so that its digraph is kept if it is costly.
fn found_by_image<D: RootRanker + Drop, L: Ledger>(
    alloc: Global,
    setting: &LabelContext<'_>,
    two: (u32, u32),
    steps: &mut Steps<L>,
) -> Result<Option<Outcome>, AllocError>
    requires drawn { setting.now.positions ≡ positions_of setting.now.graph }
    requires kept { two.0 < length setting.now.units }
    requires place { two.1 < length setting.now.units }
{
    let mut labeller = Labeller::<D>::reserve(alloc, MOST_NODES)?;
    labeller.label(alloc, setting, two.0, steps)?;
    label_by_symmetry(alloc, &mut labeller, setting, two.0, two.1, steps)
}

fn are_same(one: &Outcome, other: &Outcome) -> bool {
    match (one, other) {
        (Outcome::Label(one), Outcome::Label(other)) => are_same_labels(one, other),
        (Outcome::Tie, Outcome::Tie) => true,
        (Outcome::Over, Outcome::Over) => true,
        _ => false,
    }
}

fn are_same_labels(one: &Label, other: &Label) -> bool {
    one.letter.text() == other.letter.text()
        && one.rule.text() == other.rule.text()
        && one.sphere == other.sphere
        && one.order.as_slice() == other.order.as_slice()
}
