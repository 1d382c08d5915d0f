// What is kept of the root ranked last, where it was costly.
ghost use Rattle.std.specs.Prelude.{◌≡◌, Some, IfSome, OnErr, OnOk};
ghost use Rattle.cip_ranker.specs.Keeping.{kept_of, ranking_in};

use crate::caches::cache_key::CacheKey;
use crate::two_sphere::two_spheres::RootQuery;
use cip_label::Ranking;
use std::alloc::{AllocError, Global};

/// How far what was found of a root rests on the senses of units.
#[derive(Clone, Copy)]
pub enum CachedResult {
    /// Not at all: it is the same whatever they are.
    Final(Ranking),
    /// Its branches are known, and all rules were needed: the last ones are taken anew by other senses.
    Open,
}

impl CachedResult {
    /// How far the ligands of the root are ranked.
    pub fn ranking(self) -> Ranking
        ensures { result ≡ ranking_in self }
    {
        match self {
            CachedResult::Final(ranking) => ranking,
            CachedResult::Open => Ranking::Known,
        }
    }
}

/// The root that is kept, and what was found of it; what was found of no root says that none is.
#[derive(Drop)]
pub struct RootCache {
    pub root: Option<CacheKey>,
    pub found: Option<CachedResult>,
}

impl RootCache {
    /// Keeps what was found of a root.
    pub fn keep(
        &mut self,
        alloc: Global,
        query: &RootQuery<'_, '_>,
        found: CachedResult,
    ) -> Result<(), AllocError>
        ensures found { OnOk result (self.new.found ≡ Some found) }
        ensures root { OnOk result (self.new.root
            ≡ Some (kept_of query.now.setting.now query.now.root query.now.ligands.now)) }
        ensures same { OnErr result (self.new ≡ self.old) }
    {
        let Ok(kept) = CacheKey::of(alloc, query) else {
            return Err(AllocError);
        };
        self.root = Some(kept);
        self.found = Some(found);
        Ok(())
    }

    /// What was found, if it is this root that is kept.
    pub fn get(&self, query: &RootQuery<'_, '_>) -> Option<CachedResult>
        ensures found { IfSome result (λ found. self.now.found ≡ Some found) }
        ensures root { IfSome result (λ _. self.now.root
            ≡ Some (kept_of query.now.setting.now query.now.root query.now.ligands.now)) }
    {
        match (self.found, &self.root) {
            (Some(found), Some(root)) if root.is_of(query) => Some(found),
            _ => None,
        }
    }
}
