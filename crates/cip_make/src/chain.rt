// A chain of carbon atoms with what words of a generator put on it.
ghost use Rattle.std.specs.Prelude.{◌≡◌, ◌≤◌, ◌-◌, ◌++◌, [], IfOk, OnOk, length};
ghost use Rattle.rand_core.specs.Steps.{first_words};
ghost use Rattle.rand_pcg.specs.Pcg.{pcg32};
ghost use Rattle.cip_make.specs.Chains.{element_of, stereo_of, branch_of, with_branch, branches};

use rand_pcg::Lcg64Xsh32;
use rand_pcg::rand_core::utils::NextWord;
use std::alloc::{AllocError, Global};

/// An element of a made record.
#[derive(Clone, Copy)]
pub enum Element {
    Carbon,
    Oxygen,
    Nitrogen,
    Chlorine,
    Bromine,
    Fluorine,
}

/// How a bond to a substituent is drawn.
#[derive(Clone, Copy)]
pub enum Stereo {
    Plain,
    Up,
    Down,
}

/// A substituent: the chain atom that carries it, counted from 1, its element, and how its bond is drawn.
#[derive(Clone, Copy)]
pub struct Branch {
    pub at: u32,
    pub element: Element,
    pub stereo: Stereo,
}

/// The substituents of a chain of n atoms: the next words say of each inner atom what it carries.
pub fn branches(
    alloc: Global,
    generator: &mut Lcg64Xsh32,
    chain: u32,
) -> Result<Vec<Branch>, AllocError>
    requires least { 4 ≤ chain }
    requires most { chain ≤ 20 }
    ensures made { IfOk result (λ found. found.items ≡ branches 2 (first_words pcg32 (chain - 2) generator.old)) }
    ensures few { IfOk result (λ found. length found.items ≤ 20) }
{
    let Ok(mut found) = Vec::with_capacity(alloc, 20) else {
        return Err(AllocError);
    };
    for at in 2..chain {
        let word = generator.next_word();
        let Ok(()) = push_branch(&mut found, at, word) else {
            return Err(AllocError);
        };
    }
    Ok(found)
}

// Adds what a word puts on a chain atom.
fn push_branch(found: &mut Vec<Branch>, at: u32, word: u32) -> Result<(), AllocError>
    ensures { OnOk result (found.new.items ≡ found.old.items ++ with_branch (branch_of at word) []) }
{
    if let Some(branch) = branch_of(at, word) {
        let Ok(()) = found.push(branch) else {
            return Err(AllocError);
        };
    }
    Ok(())
}

fn branch_of(at: u32, word: u32) -> Option<Branch>
    ensures { result ≡ branch_of at word }
{
    match element_of(word % 6) {
        Some(element) => Some(Branch {
            at,
            element,
            stereo: stereo_of(word / 6 % 3),
        }),
        None => None,
    }
}

fn element_of(kind: u32) -> Option<Element>
    ensures { result ≡ element_of kind }
{
    match kind {
        1 => Some(Element::Oxygen),
        2 => Some(Element::Nitrogen),
        3 => Some(Element::Chlorine),
        4 => Some(Element::Bromine),
        5 => Some(Element::Fluorine),
        _ => None,
    }
}

fn stereo_of(mark: u32) -> Stereo
    ensures { result ≡ stereo_of mark }
{
    match mark {
        1 => Stereo::Up,
        2 => Stereo::Down,
        _ => Stereo::Plain,
    }
}
