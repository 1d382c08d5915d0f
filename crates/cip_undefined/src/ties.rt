// Which ties are firm, whatever is drawn elsewhere.
ghost use Rattle.std.specs.Prelude.{◌≡◌, ◌&&◌, ◌++◌, ◌∷◌, [], All, IfOk, OnOk, filter, length, map, not};
ghost use Rattle.std.specs.List.{flat_map, list_any};
ghost use Rattle.cip_label.specs.Fitting.{IsFit, IsFitSite};
ghost use Rattle.cip_undefined.specs.Branches.{ends_at, free_atoms};
ghost use Rattle.cip_undefined.specs.Ties.{
  free_among,
  is_firm,
  is_tie,
  is_tied,
  loose,
  loose_after,
  other_ends,
  tied_sites,
  ties,
  told_unit,
  told_units,
};

use crate::pairs::{Pair, pairs_of};
use crate::reach::FreeAtoms;
use crate::unit::{State, UndefinedUnit};
use cip_label::{LabelContext, Labeller, Ranked, RootRanker};
use cip_mol::Site;
use cip_rank::Steps;
use std::alloc::{AllocError, Global};
use std::sync::ledger::Ledger;

/// Says which of the ties among undefined units are dependent.
pub(crate) fn tell_dependent<D: RootRanker, L: Ledger>(
    alloc: Global,
    labeller: &mut Labeller<D>,
    setting: &LabelContext<'_>,
    found: &mut [UndefinedUnit],
    steps: &mut Steps<L>,
) -> Result<(), AllocError>
    requires fit { All (λ unit. IsFitSite setting.now.graph unit.site) found.old }
    ensures output { OnOk result (found.new ≡ told_units setting.now labeller.old found.old) }
    ensures kept { labeller.new ≡ labeller.old }
{
    let others = other_ends(alloc, found)?;
    let sites = tied_sites(alloc, found)?;
    let mut free = settle(alloc, labeller, setting, &others, sites, steps)?;
    tell_all(alloc, labeller, setting, found, &mut free, steps)
}

// The atoms at which units end whose ligands don't tie.
fn other_ends(alloc: Global, found: &[UndefinedUnit]) -> Result<Vec<u32>, AllocError>
    ensures { IfOk result (λ ends. ends.items ≡ other_ends found.now) }
{
    let mut ends = Vec::new(alloc);
    for unit in found {
        if !ties(&unit.state) {
            push_ends(&unit.site, &mut ends)?;
        }
    }
    Ok(ends)
}

fn push_ends(site: &Site, ends: &mut Vec<u32>) -> Result<(), AllocError>
    ensures { OnOk result (ends.new.items ≡ ends.old.items ++ ends_at site.now) }
{
    match site {
        Site::Centre { at, .. } => ends.push(*at)?,
        Site::Bond { a, b, .. } | Site::Axis { a, b, .. } => {
            ends.push(*a)?;
            ends.push(*b)?;
        }
    }
    Ok(())
}

fn tied_sites(alloc: Global, found: &[UndefinedUnit]) -> Result<Vec<Site>, AllocError>
    ensures { IfOk result (λ sites. sites.items ≡ tied_sites found.now) }
{
    let mut sites = Vec::new(alloc);
    for unit in found {
        if ties(&unit.state) {
            sites.push(unit.site.copy())?;
        }
    }
    Ok(sites)
}

fn ties(state: &State) -> bool
    ensures { result ≡ ties state.now }
{
    matches!(state, State::Tie)
}

// The free atoms where some of these sites are left whose ties aren't firm.
fn settle<'a, D: RootRanker, L: Ledger>(
    alloc: Global,
    labeller: &mut Labeller<D>,
    setting: &LabelContext<'a>,
    others: &[u32],
    sites: Vec<Site>,
    steps: &mut Steps<L>,
) -> Result<FreeAtoms<'a>, AllocError>
    requires fit { All (IsFitSite setting.now.graph) sites.items }
    ensures free { IfOk result (λ atoms. atoms ≡ record {
      graph = setting.now.graph;
      free = free_atoms others.now
          (loose_after setting.now labeller.old (length sites.items) others.now sites.items);
    }) }
    ensures kept { labeller.new ≡ labeller.old }
{
    let mut free = FreeAtoms::new(alloc, setting.graph())?;
    let most = sites.len();
    let mut left = sites;
    free.fill(others, &left)?;
    for _ in 0..most {
        let loose = loose(alloc, labeller, setting, &left, &mut free, steps)?;
        if loose.len() == left.len() {
            return Ok(free);
        }
        left = loose;
        free.fill(others, &left)?;
    }
    Ok(free)
}

// The sites whose ties aren't firm.
fn loose<D: RootRanker, L: Ledger>(
    alloc: Global,
    labeller: &mut Labeller<D>,
    setting: &LabelContext<'_>,
    sites: &[Site],
    free: &mut FreeAtoms<'_>,
    steps: &mut Steps<L>,
) -> Result<Vec<Site>, AllocError>
    requires fit { All (IsFitSite setting.now.graph) sites.now }
    requires same { free.old.graph ≡ setting.now.graph }
    ensures loose { IfOk result (λ left. left.items ≡ loose setting.now labeller.old free.old.free sites.now) }
    ensures kept { labeller.new ≡ labeller.old }
    ensures still { free.new ≡ free.old }
{
    let mut left = Vec::new(alloc);
    for site in sites {
        if !is_firm(alloc, labeller, setting, site, free, steps)? {
            left.push(site.copy())?;
        }
    }
    Ok(left)
}

// Whether two ligands of a site tie whose branches hold no free atom.
fn is_firm<D: RootRanker, L: Ledger>(
    alloc: Global,
    labeller: &mut Labeller<D>,
    setting: &LabelContext<'_>,
    site: &Site,
    free: &mut FreeAtoms<'_>,
    steps: &mut Steps<L>,
) -> Result<bool, AllocError>
    requires fit { IsFitSite setting.now.graph site.now }
    requires same { free.old.graph ≡ setting.now.graph }
    ensures firm { IfOk result (λ firm. firm ≡ is_firm setting.now labeller.old free.old.free site.now) }
    ensures kept { labeller.new ≡ labeller.old }
    ensures still { free.new ≡ free.old }
{
    let pairs = pairs_of(alloc, site)?;
    for pair in &pairs {
        if !free.are_held(site, pair)? && is_tied(alloc, labeller, setting, pair, steps)? {
            return Ok(true);
        }
    }
    Ok(false)
}

// Whether two ligands tie by all rules.
fn is_tied<D: RootRanker, L: Ledger>(
    alloc: Global,
    labeller: &mut Labeller<D>,
    setting: &LabelContext<'_>,
    pair: &Pair,
    steps: &mut Steps<L>,
) -> Result<bool, AllocError>
    requires fit { IsFit setting.now.graph pair.now.at (pair.now.one ∷ pair.now.other ∷ []) }
    ensures tied { IfOk result (λ tied. tied ≡ is_tied setting.now labeller.old pair.now) }
    ensures kept { labeller.new ≡ labeller.old }
{
    let ligands = pair.ligands(alloc);
    let ranked = labeller.rank_root(alloc, setting, pair.at, &ligands, steps)?;
    Ok(is_tie(&ranked))
}

fn is_tie(ranked: &Ranked) -> bool
    ensures { result ≡ is_tie ranked.now }
{
    matches!(ranked, Ranked::Tie)
}

fn tell_all<D: RootRanker, L: Ledger>(
    alloc: Global,
    labeller: &mut Labeller<D>,
    setting: &LabelContext<'_>,
    found: &mut [UndefinedUnit],
    free: &mut FreeAtoms<'_>,
    steps: &mut Steps<L>,
) -> Result<(), AllocError>
    requires fit { All (λ unit. IsFitSite setting.now.graph unit.site) found.old }
    requires same { free.old.graph ≡ setting.now.graph }
    ensures output { OnOk result (found.new ≡ map (told_unit setting.now labeller.old free.old.free) found.old) }
    ensures kept { labeller.new ≡ labeller.old }
{
    for unit in found.iter_mut() {
        tell(alloc, labeller, setting, unit, free, steps)?;
    }
    Ok(())
}

fn tell<D: RootRanker, L: Ledger>(
    alloc: Global,
    labeller: &mut Labeller<D>,
    setting: &LabelContext<'_>,
    unit: &mut UndefinedUnit,
    free: &mut FreeAtoms<'_>,
    steps: &mut Steps<L>,
) -> Result<(), AllocError>
    requires fit { IsFitSite setting.now.graph unit.old.site }
    requires same { free.old.graph ≡ setting.now.graph }
    ensures output { OnOk result (unit.new ≡ told_unit setting.now labeller.old free.old.free unit.old) }
    ensures kept { labeller.new ≡ labeller.old }
    ensures still { free.new ≡ free.old }
{
    if ties(&unit.state) && !is_firm(alloc, labeller, setting, &unit.site, free, steps)? {
        unit.state = State::Dependent;
    }
    Ok(())
}
