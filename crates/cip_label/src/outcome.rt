// What is found of a unit.
ghost use Rattle.std.specs.Prelude.{◌≡◌, ◌<◌, ◌≤◌, ◌∷◌, [], IfOk, Some, length, slice_get};
ghost use Rattle.cip_mol.specs.Ends.{as_site};
ghost use Rattle.cip_mol.specs.declared.site.Unit as units;
ghost use Rattle.cip_digraph.specs.units.Ends.{ends_of};
ghost use Rattle.cip_digraph.specs.LentEnds.{as_end};
ghost use Rattle.cip_label.specs.Fitting.{IsFit, IsFitSite};
ghost use Rattle.cip_label.specs.Labelling.{FitTogether, of_one, of_two, ranked_behind, ranked_root};
ghost use Rattle.cip_label.specs.Settings.{known_in, outcome_in};
ghost use Rattle.cip_label.specs.Steps.{LabelRises, Rises};

use crate::context::LabelContext;
use crate::rank_order::push_all;
use crate::ranked_root::{Ranked, rank_root};
use crate::reason::{Reason, later_reason};
use crate::root_ranker::RootRanker;
use cip_digraph::{combine, parity_of, unit_descriptor};
use cip_mol::{End, Ends, Geometry, Label, Outcome, Sense, Unit};
use cip_rank::Steps;
use std::alloc::{AllocError, Global};
use std::sync::ledger::Ledger;

/// What is found of the unit at a place.
pub fn label<D: RootRanker, L: Ledger>(
    alloc: Global,
    digraphs: &mut D,
    setting: &LabelContext<'_>,
    unit: u32,
    steps: &mut Steps<L>,
) -> Result<Outcome, AllocError>
    requires place { unit < length setting.now.units }
    requires some { 1 ≤ D.bound digraphs.old }
    ensures outcome { IfOk result (λ outcome. (u : units.Unit) → slice_get setting.now.units unit ≡ Some u →
        outcome ≡ outcome_in setting.now (D.bound digraphs.old) u) }
    ensures kept { D.bound digraphs.new ≡ D.bound digraphs.old }
    ensures cost { (u : units.Unit) → slice_get setting.now.units unit ≡ Some u →
        LabelRises setting.now (D.bound digraphs.old) u steps.old steps.new }
{
    let unit = setting.unit(unit);
    match unit.geometry {
        Geometry::Unknown(cause) => Ok(Outcome::NoGeometry(cause)),
        Geometry::Known(sense) => {
            label_ends(alloc, digraphs, setting, &unit.site.ends(), sense, steps)
        }
    }
}

/// What is found of a unit by its ends, where its sense is known.
pub fn label_ends<D: RootRanker, L: Ledger>(
    alloc: Global,
    digraphs: &mut D,
    setting: &LabelContext<'_>,
    ends: &Ends<'_>,
    sense: Sense,
    steps: &mut Steps<L>,
) -> Result<Outcome, AllocError>
    requires fit { IsFitSite setting.now.graph (as_site ends.now) }
    requires some { 1 ≤ D.bound digraphs.old }
    ensures outcome { IfOk result (λ outcome. outcome
        ≡ known_in setting.now (D.bound digraphs.old) (as_site ends.now) sense) }
    ensures kept { D.bound digraphs.new ≡ D.bound digraphs.old }
    ensures cost { Rises setting.now (D.bound digraphs.old) (ends_of (as_site ends.now)) steps.old steps.new }
{
    match ends {
        Ends::One(end) => {
            match rank_root(alloc, digraphs, setting, *end, steps) {
                Ok(root) => Ok(of_one(ends, sense, root)),
                Err(fault) => Err(fault),
            }
        }
        Ends::Two(_, two) => {
            match rank_root(alloc, digraphs, setting, two.nearer, steps) {
                Ok(nearer) => match rank_behind(alloc, digraphs, setting, &nearer, two.far, steps) {
                    Ok(far) => Ok(of_two(ends, sense, &nearer, &far)),
                    Err(fault) => Err(fault),
                },
                Err(fault) => Err(fault),
            }
        }
    }
}

// The ligands of a second end in rank order. They aren't ranked where the digraph of the first one is over the bound.
fn rank_behind<D: RootRanker, L: Ledger>(
    alloc: Global,
    digraphs: &mut D,
    setting: &LabelContext<'_>,
    nearer: &Ranked,
    far: End<'_>,
    steps: &mut Steps<L>,
) -> Result<Ranked, AllocError>
    requires fit { IsFit setting.now.graph far.at far.ligands.now }
    requires some { 1 ≤ D.bound digraphs.old }
    ensures ranked { IfOk result (λ ranked. ranked
        ≡ ranked_behind nearer.now (ranked_root setting.now (D.bound digraphs.old) (as_end far.entry))) }
    ensures kept { D.bound digraphs.new ≡ D.bound digraphs.old }
    ensures cost { Rises setting.now (D.bound digraphs.old) (as_end far.entry ∷ []) steps.old steps.new }
{
    match nearer {
        Ranked::Over => Ok(Ranked::Over),
        Ranked::Tie | Ranked::Ordered { .. } => rank_root(alloc, digraphs, setting, far, steps),
    }
}

// By the ranked ligands of the one root.
fn of_one(ends: &Ends<'_>, sense: Sense, root: Ranked) -> Outcome
    ensures { result ≡ of_one (as_site ends.now) sense root }
{
    match root {
        Ranked::Over => Outcome::Over,
        Ranked::Tie => Outcome::Tie,
        Ranked::Ordered {
            places,
            turned,
            rule,
            sphere,
        } => Outcome::Label(Label {
            letter: unit_descriptor(ends, sense, parity_of(&places, &turned)),
            rule,
            sphere,
            order: places,
        }),
    }
}

// By the ranked ligands of both roots.
fn of_two(ends: &Ends<'_>, sense: Sense, one: &Ranked, other: &Ranked) -> Outcome
    requires { FitTogether one.now other.now }
    ensures { result ≡ of_two (as_site ends.now) sense one.now other.now }
{
    match one {
        Ranked::Over => Outcome::Over,
        Ranked::Tie => match other {
            Ranked::Over => Outcome::Over,
            _ => Outcome::Tie,
        },
        Ranked::Ordered {
            places,
            turned,
            rule,
            sphere,
        } => match other {
            Ranked::Over => Outcome::Over,
            Ranked::Tie => Outcome::Tie,
            Ranked::Ordered {
                places: more,
                turned: more_turned,
                rule: other_rule,
                sphere: other_sphere,
            } => {
                let first = Reason {
                    rule: *rule,
                    sphere: *sphere,
                };
                let reason = later_reason(first, *other_rule, *other_sphere);
                let parities = combine(parity_of(places, turned), parity_of(more, more_turned));
                let mut order = places.copy();
                push_all(&mut order, more.as_slice());
                Outcome::Label(Label {
                    letter: unit_descriptor(ends, sense, parities),
                    rule: reason.rule,
                    sphere: reason.sphere,
                    order,
                })
            }
        },
    }
}
