// What the digraphs of a record's units are grown and ranked by.
ghost use Rattle.std.specs.Prelude.{◌≡◌, ◌<◌, IfOk, Some, length, slice_get};
ghost use Rattle.cip_label.specs.Fitting.{IsFitSite};
ghost use Rattle.cip_label.specs.Settings.{IsProper, StandAtSites, setting_of};

use cip_digraph::{FlaggedUnits, Graph, Positions};
use cip_mol::Unit;
use cip_rank::Rules;
use std::alloc::{AllocError, Global};
use std::marker::Model;

/// A graph with its positions, its units and the wording of the rules. Contracts see all four.
#[derive(Drop)]
pub struct LabelContext<'a> {
    rules: Rules,
    graph: &'a Graph,
    positions: &'a Positions,
    units: FlaggedUnits<'a>,
}

impl<'a> Model for LabelContext<'a> {
    ghost use Rattle.cip_label.specs.Settings as settings;
    ghost use Rattle.cip_label.specs.Settings.{IsProper, setting_of};

    ghost Value = { settings.LabelContext };

    ghost view = { λ s. setting_of s.rules s.graph.now s.positions.now s.units };

    ghost invariant = { λ s. IsProper (setting_of s.rules s.graph.now s.positions.now s.units) };
}

impl<'a> LabelContext<'a> {
    /// The units are those at the sites of the graph.
    pub fn new(
        alloc: Global,
        graph: &'a Graph,
        positions: &'a Positions,
        units: &'a [Unit],
        rules: Rules,
    ) -> Result<LabelContext<'a>, AllocError>
        requires sites { StandAtSites graph.now positions.now units.now }
        ensures { IfOk result (λ setting. setting ≡ setting_of rules graph.now positions.now units.now) }
    {
        let count = graph.vertices().len() as u32;
        match FlaggedUnits::of(alloc, units, count) {
            Ok(units) => Ok(LabelContext {
                rules,
                graph,
                positions,
                units,
            }),
            Err(fault) => Err(fault),
        }
    }

    /// The wording of the rules.
    pub fn rules(&self) -> Rules
        ensures { result ≡ self.now.rules }
    {
        self.rules
    }

    /// The graph of the record.
    pub fn graph(&self) -> &'a Graph
        ensures value { result.now ≡ self.now.graph }
        ensures proper { IsProper self.now }
    {
        self.graph
    }

    /// Where the double bonds of its alternating atoms can be.
    pub fn positions(&self) -> &'a Positions
        ensures { result.now ≡ self.now.positions }
    {
        self.positions
    }

    /// Its units, with their atoms flagged.
    pub fn units(&self) -> &FlaggedUnits<'a>
        ensures value { result.now ≡ self.now.units }
        ensures proper { IsProper self.now }
    {
        &self.units
    }

    /// The unit at a place: its ligands can be ranked.
    pub fn unit(&self, place: u32) -> &'a Unit
        requires { place < length self.now.units }
        ensures at { slice_get self.now.units place ≡ Some result.now }
        ensures fit { IsFitSite self.now.graph result.now.site }
    {
        &self.units().as_slice()[place as usize]
    }
}
