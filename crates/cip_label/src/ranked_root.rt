// The ranked ligands of a root.
ghost use Rattle.std.specs.Prelude.{◌≡◌, ◌≤◌, ◌∷◌, [], false, true, IfOk, length};
ghost use Rattle.std.specs.List.{list_any};
ghost use Rattle.cip_digraph.specs.units.Ranked.{is_tie};
ghost use Rattle.cip_digraph.specs.LentEnds.{as_end};
ghost use Rattle.cip_label.specs.Fitting.{IsFit};
ghost use Rattle.cip_label.specs.Labelling.{ranked_root};
ghost use Rattle.cip_label.specs.Pairwise.{decided_each, ranked_in, ranked_once, turned_each};
ghost use Rattle.cip_label.specs.Steps.{Rises};

use crate::context::LabelContext;
use crate::decisions::{decide_each, has_rule_5, has_tie};
use crate::rank_order::ranked;
use crate::reason::reason_along;
use crate::root_ranker::{Ranking, RootRanker};
use cip_digraph::Decision;
use cip_mol::{End, Ligands, Places, Rule};
use cip_rank::Steps;
use std::alloc::{AllocError, Global};
use std::sync::ledger::Ledger;

/// The ligands of a root in rank order, also with the last rule turned, and what was needed for it; or that two tie, or
/// that the digraph is larger than the bound.
#[derive(Drop)]
pub enum Ranked {
    Ordered {
        places: Places,
        turned: Places,
        rule: Rule,
        sphere: u32,
    },
    Tie,
    Over,
}

/// Ranks the ligands of a root.
pub fn rank_root<D: RootRanker, L: Ledger>(
    alloc: Global,
    digraphs: &mut D,
    setting: &LabelContext<'_>,
    root: End<'_>,
    steps: &mut Steps<L>,
) -> Result<Ranked, AllocError>
    requires fit { IsFit setting.now.graph root.at root.ligands.now }
    requires some { 1 ≤ D.bound digraphs.old }
    ensures ranked { IfOk result (λ ranked. ranked ≡ ranked_root setting.now (D.bound digraphs.old) (as_end root.entry)) }
    ensures kept { D.bound digraphs.new ≡ D.bound digraphs.old }
    ensures cost { Rises setting.now (D.bound digraphs.old) (as_end root.entry ∷ []) steps.old steps.new }
{
    // Reading the graph says that it is sound.
    let _graph = setting.graph();
    match digraphs.rank(alloc, setting, root.at, root.ligands, steps) {
        Ok(Ranking::Over) => Ok(Ranked::Over),
        Ok(Ranking::Tied) => Ok(Ranked::Tie),
        Ok(Ranking::Known) => ranked_by(alloc, digraphs, root.ligands),
        Err(fault) => Err(fault),
    }
}

// By how the branches at neighbours of the root compare.
fn ranked_by<D: RootRanker>(
    alloc: Global,
    digraphs: &D,
    ligands: &Ligands,
) -> Result<Ranked, AllocError>
    ensures { IfOk result (λ ranked. ranked ≡ ranked_once (D.standing digraphs.now) ligands.now) }
{
    let Ok(each) = decide_each(alloc, digraphs, ligands.as_slice(), true) else {
        return Err(AllocError);
    };
    let decided = each.as_slice();
    if has_tie(decided) {
        Ok(Ranked::Tie)
    } else {
        ranked_without_tie(alloc, digraphs, ligands, decided)
    }
}

// Where no two of them tie.
fn ranked_without_tie<D: RootRanker>(
    alloc: Global,
    digraphs: &D,
    ligands: &Ligands,
    decided: &[Option<Decision>],
) -> Result<Ranked, AllocError>
    requires decided { decided.now ≡ decided_each (D.standing digraphs.now) true ligands.now }
    requires known { list_any is_tie decided.now ≡ false }
    ensures { IfOk result (λ ranked. ranked ≡ ranked_once (D.standing digraphs.now) ligands.now) }
{
    let places = ranked(alloc, decided, ligands.len());
    let Ok(turned) = ranked_turned(alloc, digraphs, ligands, decided, &places) else {
        return Err(AllocError);
    };
    let reason = reason_along(decided, ligands.len(), &places);
    Ok(Ranked::Ordered {
        places,
        turned,
        rule: reason.rule,
        sphere: reason.sphere,
    })
}

// The places with the last rule turned. It's asked about only where that rule decides; else the order is the same.
fn ranked_turned<D: RootRanker>(
    alloc: Global,
    digraphs: &D,
    ligands: &Ligands,
    decided: &[Option<Decision>],
    places: &Places,
) -> Result<Places, AllocError>
    requires decided { decided.now ≡ decided_each (D.standing digraphs.now) true ligands.now }
    requires places { places.now ≡ ranked_in (length ligands.now) decided.now }
    ensures { IfOk result (λ turned. turned
        ≡ ranked_in (length ligands.now) (turned_each (D.standing digraphs.now) ligands.now)) }
{
    if has_rule_5(decided) {
        match decide_each(alloc, digraphs, ligands.as_slice(), false) {
            Ok(turned) => Ok(ranked(alloc, turned.as_slice(), ligands.len())),
            Err(fault) => Err(fault),
        }
    } else {
        Ok(places.copy())
    }
}
