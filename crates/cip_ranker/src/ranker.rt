// The digraphs of roots, grown and ranked one after the other by one ranker.
ghost use Rattle.cip_ranker.specs.Standing.{standing_of};

use crate::decisions::RootDecisions;
use crate::two_sphere::rank_two_spheres::rank_by_two_spheres;
use crate::two_sphere::two_spheres::{RootQuery, TwoSphereRanker};
use crate::workspace::{Workspace, rank_by_digraph};
use cip_digraph::Decision;
use cip_label::{LabelContext, Labeller, Ranking, RootRanker};
use cip_mol::Ligands;
use cip_rank::Steps;
use std::alloc::{AllocError, Global};
use std::marker::Model;
use std::sync::ledger::Ledger;

/// Memory in which records are labelled, one after the other.
pub type RecordLabeller = Labeller<Ranker>;

/// Reserved memory for a digraph and its ranking.
#[derive(Drop)]
pub struct Ranker {
    bound: u32,
    early: TwoSphereRanker,
    workspace: Workspace,
    branches: RootDecisions,
    // what was found of the root ranked last is kept in the workspace
    last_is_cached: bool,
}

impl Model for Ranker {
    ghost use Rattle.cip_ranker.specs.Desks.{Held};

    ghost Value = { Held };

    ghost use Rattle.cip_ranker.specs.Desks.{held_of};
    ghost use Rattle.cip_ranker.specs.Keeping.{IsReady};

    ghost view = { held_of };

    ghost invariant = { λ ranker. IsReady ranker.bound ranker.workspace };
}

impl RootRanker for Ranker {
    ghost bound = { λ ranker. ranker.bound };

    ghost standing = { λ ranker. standing_of ranker.standing };

    fn reserve(alloc: Global, nodes: u32) -> Result<Ranker, AllocError> {
        let Ok(early) = TwoSphereRanker::reserve(alloc) else {
            return Err(AllocError);
        };
        let Ok(branches) = RootDecisions::reserve(alloc) else {
            return Err(AllocError);
        };
        let Ok(workspace) = Workspace::reserve(alloc, nodes) else {
            return Err(AllocError);
        };
        Ok(Ranker {
            bound: nodes,
            early,
            workspace,
            branches,
            last_is_cached: false,
        })
    }

    fn rank<L: Ledger>(
        &mut self,
        alloc: Global,
        setting: &LabelContext<'_>,
        root: u32,
        ligands: &Ligands,
        steps: &mut Steps<L>,
    ) -> Result<Ranking, AllocError> {
        let _graph = setting.graph();
        let query = RootQuery {
            setting,
            root,
            ligands,
            bound: self.bound,
        };
        self.last_is_cached = false;
        match rank_by_two_spheres(&query, &mut self.early, &mut self.branches) {
            Ok(true) => Ok(Ranking::Known),
            Ok(false) => {
                let ranking = rank_by_digraph(
                    alloc,
                    &query,
                    &mut self.workspace,
                    &mut self.branches,
                    steps,
                );
                self.last_is_cached = self.workspace.root_cache.found.is_some();
                ranking
            }
            Err(error) => Err(error),
        }
    }

    fn compare_branches(&self, a: u32, b: u32, r_first: bool) -> Option<Decision> {
        self.branches.decision_of(a, b, r_first)
    }

    fn is_cached(&self) -> bool {
        self.last_is_cached
    }
}
