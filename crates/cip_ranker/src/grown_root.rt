// A root whose digraph was grown.
ghost use Rattle.std.specs.Prelude.{◌≡◌};
ghost use Rattle.cip_constitution.specs.Settling.{SettledAs};
ghost use Rattle.cip_label.specs.Settings.{IsProper};
ghost use Rattle.cip_ranker.specs.Desks.{settled_by};
ghost use Rattle.cip_ranker.specs.Rooting.{IsRooted, whole_at};

use cip_arena::Arena;
use cip_aux::WholeDigraph;
use cip_constitution::Settled;
use cip_label::LabelContext;
use cip_mol::Ligands;

/// A root with its ligands, and its digraph as far as it was grown.
#[derive(Drop)]
pub struct GrownRoot<'a, 's> {
    pub arena: &'a Arena,
    pub setting: &'a LabelContext<'s>,
    pub root: u32,
    pub ligands: &'a Ligands,
    ghost proper: { IsProper setting.now },
}

/// Its digraph, which is whole.
pub fn whole_digraph<'a>(rooted: &GrownRoot<'a, '_>) -> WholeDigraph<'a, Arena>
    requires rooted { IsRooted rooted.now.setting.now rooted.now.root rooted.now.ligands.now rooted.now.arena.now }
    requires settled { SettledAs (settled_by rooted.now.setting.now rooted.now.ligands.now) rooted.now.arena.now
        Settled.Whole }
    ensures { result ≡ whole_at rooted.now.setting.now rooted.now.arena.now }
{
    let setting = rooted.setting;
    let _ligands = rooted.ligands;
    WholeDigraph::new(
        rooted.arena,
        setting.graph(),
        setting.positions(),
        setting.rules(),
        rooted.root,
        rooted.arena.sphere(),
    )
}
