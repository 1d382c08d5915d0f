// The mark that gives a centre the asked letter.
ghost use Rattle.std.specs.Prelude.{◌≡◌, false, true, IfOk};
ghost use Rattle.cip_mol.specs.Drawing.{Drawing};
ghost use Rattle.cip_mol.specs.Points.{is_spatial};
ghost use Rattle.cip_digraph.specs.graph.DrawnGraph.{graph_of};
ghost use Rattle.cip_digraph.specs.units.Units.{centre_site};
ghost use Rattle.cip_edit.specs.FoundCentres.{found_at};
ghost use Rattle.cip_edit.specs.Marking.{has_centre, marked, IsBareAt};
ghost use Rattle.cip_mol.specs.CentreLetters.{asks_small};
ghost use Rattle.cip_edit.specs.SetLetters.{asks_r, by_outcome, is_r, is_small, mark_for_letter, mark_centre, IsGiven};
ghost use Rattle.cip_edit.specs.declared.request.CentreRefusal.{CentreRefusal};
ghost use Rattle.cip_mol.specs.declared.graph.molecule.Mark.TheVariants.{Up};

use crate::centres::eligible_bond::{eligible_ligand, shows_coincident};
use crate::centres::find_centre::{centre_place, find_centre};
use crate::centres::marks::{marked, without_marks};
use crate::request::{CentreRefusal, LetterRequest, MarkedCentre};
use cip_label::{Labeller, RootRanker};
use cip_mol::{CentreLetter, Descriptor, Mark, Molecule, Outcome, Site};
use cip_molfile::Structure;
use cip_orient::orient;
use std::alloc::{AllocError, Global};

/// Which mark at which ligand's bond gives the centre at an atom the asked letter, or the first cause why none does.
pub fn mark_for_letter<D: RootRanker>(
    alloc: Global,
    labeller: &mut Labeller<D>,
    drawn: &Structure,
    request: LetterRequest,
) -> Result<Result<MarkedCentre, CentreRefusal>, AllocError>
    ensures answer { IfOk result (λ answer. answer
        ≡ mark_for_letter request.rules labeller.old drawn.now request.atom request.letter) }
    ensures given { IfOk result (λ answer. IfOk answer
        (IsGiven request.rules labeller.old drawn.now request.atom request.letter)) }
    ensures kept { labeller.new ≡ labeller.old }
{
    // Reading the bonds says that they have no fault.
    let _bonds = drawn.molecule().bonds();
    answer(alloc, labeller, drawn, request)
}

#[tactic(auto, unfolding(crate::specs::SetLetters::mark_for_letter))]
fn answer<D: RootRanker>(
    alloc: Global,
    labeller: &mut Labeller<D>,
    drawn: &Structure,
    request: LetterRequest,
) -> Result<Result<MarkedCentre, CentreRefusal>, AllocError>
    ensures answer { IfOk result (λ answer. answer
        ≡ mark_for_letter request.rules labeller.old drawn.now request.atom request.letter) }
    ensures kept { labeller.new ≡ labeller.old }
{
    let units = drawn.units().list();
    match centre_place(units, request.atom) {
        Some(place) => mark_centre(
            alloc,
            labeller,
            drawn.molecule(),
            &units[place].site,
            request,
        ),
        None => Ok(Err(CentreRefusal::NoCentre)),
    }
}

fn mark_centre<D: RootRanker>(
    alloc: Global,
    labeller: &mut Labeller<D>,
    molecule: &Molecule,
    site: &Site,
    request: LetterRequest,
) -> Result<Result<MarkedCentre, CentreRefusal>, AllocError>
    requires site { site.now ≡ centre_site (graph_of molecule.now) request.atom }
    requires centre { has_centre molecule.now request.atom ≡ true }
    ensures answer { IfOk result (λ answer. answer
        ≡ mark_centre request.rules labeller.old molecule.now request.atom request.letter) }
    ensures kept { labeller.new ≡ labeller.old }
{
    if molecule.is_spatial() {
        Ok(Err(CentreRefusal::ThreeD))
    } else {
        match without_marks(alloc, molecule, request.atom) {
            Ok(bare) => mark_bare(alloc, labeller, &bare, site, request),
            Err(fault) => Err(fault),
        }
    }
}

// In the drawing without marks.
// proof: the caller keeps the drawing, so no exit drops it
fn mark_bare<D: RootRanker>(
    alloc: Global,
    labeller: &mut Labeller<D>,
    bare: &Molecule,
    site: &Site,
    request: LetterRequest,
) -> Result<Result<MarkedCentre, CentreRefusal>, AllocError>
    requires { (drawing : Drawing) × IsBareAt drawing request.atom bare.now site.now }
    ensures answer { IfOk result (λ answer. (drawing : Drawing) → IsBareAt drawing request.atom bare.now site.now →
        answer ≡ mark_centre request.rules labeller.old drawing request.atom request.letter) }
    ensures kept { labeller.new ≡ labeller.old }
{
    if shows_coincident(orient(alloc, bare, site)) {
        Ok(Err(CentreRefusal::Coincident))
    } else {
        match eligible_ligand(alloc, bare, request.atom, site) {
            Ok(Some(neighbour)) => mark_ligand(alloc, labeller, bare, neighbour, request),
            Ok(None) => Ok(Err(CentreRefusal::NoBond)),
            Err(fault) => Err(fault),
        }
    }
}

// By what is found with an up mark.
fn mark_ligand<D: RootRanker>(
    alloc: Global,
    labeller: &mut Labeller<D>,
    bare: &Molecule,
    neighbour: u32,
    request: LetterRequest,
) -> Result<Result<MarkedCentre, CentreRefusal>, AllocError>
    requires { has_centre (marked bare.now request.atom neighbour Up) request.atom ≡ true }
    ensures answer { IfOk result (λ answer. answer
        ≡ by_outcome request.letter neighbour
        (found_at request.rules labeller.old (marked bare.now request.atom neighbour Up) request.atom)) }
    ensures kept { labeller.new ≡ labeller.old }
{
    let Ok(up) = marked(alloc, bare, request.atom, neighbour, Mark::Up) else {
        return Err(AllocError);
    };
    let Ok(drawn) = Structure::of(alloc, up) else {
        return Err(AllocError);
    };
    let answer = mark_drawn(alloc, labeller, &drawn, neighbour, request);
    drawn.release();
    answer
}

// The mark at a neighbour, in the structure of a drawing with a wedge there.
// proof: the caller keeps the structure, so no exit drops it
fn mark_drawn<D: RootRanker>(
    alloc: Global,
    labeller: &mut Labeller<D>,
    drawn: &Structure,
    neighbour: u32,
    request: LetterRequest,
) -> Result<Result<MarkedCentre, CentreRefusal>, AllocError>
    requires { has_centre drawn.now request.atom ≡ true }
    ensures answer { IfOk result (λ answer. answer
        ≡ by_outcome request.letter neighbour (found_at request.rules labeller.old drawn.now request.atom)) }
    ensures kept { labeller.new ≡ labeller.old }
{
    match find_centre(alloc, labeller, drawn, request.atom, request.rules) {
        Ok(outcome) => Ok(by_outcome(request.letter, neighbour, &outcome)),
        Err(fault) => Err(fault),
    }
}

fn by_outcome(
    requested: CentreLetter,
    neighbour: u32,
    outcome: &Outcome,
) -> Result<MarkedCentre, CentreRefusal>
    ensures { result ≡ by_outcome requested neighbour outcome.now }
{
    match outcome {
        Outcome::Label(label) => {
            let small = is_small(label.letter);
            if small == requested.is_small() {
                let mark = if is_r(label.letter) == is_r(requested.descriptor()) {
                    Mark::Up
                } else {
                    Mark::Down
                };
                Ok(MarkedCentre { neighbour, mark })
            } else {
                Err(CentreRefusal::OtherKind { small })
            }
        }
        Outcome::Over => Err(CentreRefusal::Over),
        Outcome::Tie => Err(CentreRefusal::Tie),
        // A mark at an eligible ligand always shows a sense.
        Outcome::NoGeometry(_) => Err(CentreRefusal::NoBond),
    }
}

fn is_small(letter: Descriptor) -> bool
    ensures { result ≡ is_small letter }
{
    matches!(letter, Descriptor::SmallR | Descriptor::SmallS)
}

fn is_r(letter: Descriptor) -> bool
    ensures { result ≡ is_r letter }
{
    matches!(letter, Descriptor::R | Descriptor::SmallR)
}
