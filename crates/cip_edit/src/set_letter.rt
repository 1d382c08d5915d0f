// A record in which a centre is to have a letter.
ghost use Rattle.std.specs.Prelude.{◌≡◌, ◌<◌, ◌-◌, ◌^◌, IfOk, length};
ghost use Rattle.cip_mol.specs.Drawing.{Drawing};
ghost use Rattle.cip_edit.specs.Marking.{with_mark};
ghost use Rattle.cip_edit.specs.SetLetters.{mark_for_letter};
ghost use Rattle.cip_edit.specs.Changed.{changed_record};
ghost use Rattle.cip_edit.specs.SetAnswers.{refusal_of, set_drawn, set_marked, set_without_items, IsFew};

use crate::centres::mark_choice::mark_for_letter;
use crate::centres::marks::with_mark;
use crate::lines::bond_edits::changed_record;
use crate::request::{CentreRefusal, LetterRequest, MarkedCentre};
use crate::set_answer::{SetAnswer, SetRefusal};
use cip_label::{Labeller, RootRanker};
use cip_mol::{CentreLetter, Molecule};
use cip_molfile::Structure;
use cip_rank::Rules;
use cip_text::{Bytes, RecordLines};
use cip_v2000::is_v3000;
use std::alloc::{AllocError, Global};

// A letter that is asked for the centre at an atom, counted from 1, and by which wording of the rules it is labelled.
#[derive(Clone, Copy)]
struct FoundCentre {
    atom: u32,
    letter: CentreLetter,
    rules: Rules,
}

/// The record, which has no label items, in which the centre at an atom, counted from 1, has the asked letter, by a mark
/// at its first ligand that can be marked.
pub fn set_letter_in_lines<D: RootRanker>(
    alloc: Global,
    labeller: &mut Labeller<D>,
    lines: &RecordLines,
    atom: u32,
    letter: CentreLetter,
    rules: Rules,
) -> Result<SetAnswer, AllocError>
    requires few { length lines.now < 2 ^ 32 - 1 }
    ensures answer { IfOk result (λ answer. answer ≡ set_without_items rules labeller.old atom letter lines.now) }
    ensures few { IfOk result (λ answer. IsFew lines.now answer) }
    ensures kept { labeller.new ≡ labeller.old }
{
    let requested = FoundCentre {
        atom,
        letter,
        rules,
    };
    set_lines(alloc, labeller, lines, requested)
}

#[tactic(auto, unfolding(crate::specs::SetAnswers::set_without_items))]
fn set_lines<D: RootRanker>(
    alloc: Global,
    labeller: &mut Labeller<D>,
    lines: &RecordLines,
    requested: FoundCentre,
) -> Result<SetAnswer, AllocError>
    requires few { length lines.now < 2 ^ 32 - 1 }
    ensures answer { IfOk result (λ answer. answer
        ≡ set_without_items requested.rules labeller.old requested.atom requested.letter lines.now) }
    ensures kept { labeller.new ≡ labeller.old }
{
    match Structure::read(alloc, lines.contents()) {
        Ok(Ok(drawn)) => {
            let answer = answer_drawn(alloc, labeller, lines, &drawn, requested);
            drawn.release();
            answer
        }
        Ok(Err(fault)) => Ok(SetAnswer::Refused(SetRefusal::Grammar(fault))),
        Err(fault) => Err(fault),
    }
}

// Of what these lines draw.
fn answer_drawn<D: RootRanker>(
    alloc: Global,
    labeller: &mut Labeller<D>,
    lines: &RecordLines,
    drawn: &Structure,
    requested: FoundCentre,
) -> Result<SetAnswer, AllocError>
    ensures answer { IfOk result (λ answer. answer
        ≡ set_drawn requested.rules labeller.old requested.atom requested.letter lines.now drawn.now) }
    ensures kept { labeller.new ≡ labeller.old }
{
    if is_v3000(lines.contents()) {
        Ok(SetAnswer::Refused(SetRefusal::OnlyV2000))
    } else if requested.atom == 0 {
        Ok(SetAnswer::Refused(SetRefusal::NoCentre))
    } else {
        let request = LetterRequest {
            atom: requested.atom - 1,
            letter: requested.letter,
            rules: requested.rules,
        };
        set_mark(alloc, labeller, drawn, request, lines.bytes())
    }
}

// The record with the mark that is answered, where one is.
fn set_mark<D: RootRanker>(
    alloc: Global,
    labeller: &mut Labeller<D>,
    drawn: &Structure,
    request: LetterRequest,
    bytes: &[u8],
) -> Result<SetAnswer, AllocError>
    ensures answer { IfOk result (λ answer. answer
        ≡ set_marked bytes.now drawn.now request.atom
        (mark_for_letter request.rules labeller.old drawn.now request.atom request.letter)) }
    ensures kept { labeller.new ≡ labeller.old }
{
    match mark_for_letter(alloc, labeller, drawn, request) {
        Ok(Ok(marked)) => match changed(alloc, drawn.molecule(), request.atom, marked, bytes) {
            Ok(text) => Ok(SetAnswer::Written(Bytes::from_vec(text))),
            Err(fault) => Err(fault),
        },
        Ok(Err(refusal)) => Ok(SetAnswer::Refused(refusal_of(refusal))),
        Err(fault) => Err(fault),
    }
}

// The record of a molecule with this mark at the centre at an atom, counted from 0.
fn changed(
    alloc: Global,
    molecule: &Molecule,
    atom: u32,
    marked: MarkedCentre,
    bytes: &[u8],
) -> Result<Vec<u8>, AllocError>
    ensures { IfOk result (λ text. text.items
        ≡ changed_record molecule.now (with_mark molecule.now atom marked.neighbour marked.mark).bonds bytes.now) }
{
    let Ok(drawn) = with_mark(alloc, molecule, atom, marked.neighbour, marked.mark) else {
        return Err(AllocError);
    };
    changed_record(alloc, molecule, drawn.bonds(), bytes)
}

fn refusal_of(refusal: CentreRefusal) -> SetRefusal
    ensures { result ≡ refusal_of refusal }
{
    match refusal {
        CentreRefusal::NoCentre => SetRefusal::NoCentre,
        CentreRefusal::ThreeD => SetRefusal::ThreeD,
        CentreRefusal::Coincident => SetRefusal::Coincident,
        CentreRefusal::NoBond => SetRefusal::NoBond,
        CentreRefusal::Over => SetRefusal::Over,
        CentreRefusal::Tie => SetRefusal::Tie,
        CentreRefusal::OtherKind { small } => SetRefusal::OtherKind { small },
    }
}
