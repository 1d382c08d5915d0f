// What is found of further units.
ghost use Rattle.std.specs.Prelude.{◌≡◌, IfOk};
ghost use Rattle.cip_label.specs.Fitting.{IsFitSite};
ghost use Rattle.cip_axis.specs.FurtherOutcomes.{further_outcome};
ghost use Rattle.cip_axis.specs.Likeness.{like};

use crate::site::FurtherUnit;
use cip_label::{LabelContext, Labeller, RootRanker};
use cip_mol::{Geometry, Outcome};
use cip_rank::Steps;
use std::alloc::{AllocError, Global};
use std::sync::ledger::Ledger;

/// What is found of a further unit, in the setting of its record.
pub fn label_further<D: RootRanker, L: Ledger>(
    alloc: Global,
    labeller: &mut Labeller<D>,
    setting: &LabelContext<'_>,
    unit: &FurtherUnit,
    steps: &mut Steps<L>,
) -> Result<Outcome, AllocError>
    requires fit { IsFitSite setting.now.graph (like unit.now.site) }
    ensures outcome { IfOk result (λ outcome. outcome ≡ further_outcome setting.now labeller.old unit.now) }
    ensures kept { labeller.new ≡ labeller.old }
{
    match unit.geometry {
        Geometry::Unknown(cause) => Ok(Outcome::NoGeometry(cause)),
        Geometry::Known(sense) => {
            labeller.label_ends(alloc, setting, &unit.site.ends(), sense, steps)
        }
    }
}
