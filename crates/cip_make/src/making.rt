// Made records.
ghost use Rattle.std.specs.Prelude.{◌≡◌, ◌<◌, ◌≤◌, ◌+◌, ◌-◌, ◌^◌, ◌++◌, IfOk, OnOk, length};
ghost use Rattle.cip_make.specs.Made.{across, chain_atom, chain_atoms, branch_atom, branch_atoms, chain_bonds, branch_bonds, record_text, made};

use crate::chain::{Branch, Element, Stereo, branches};
use crate::lines::{push_atom_line, push_bond_line, push_counts_line};
use rand_pcg::Lcg64Xsh32;
use rand_pcg::rand_core::utils::NextWord;
use std::alloc::{AllocError, Global};

/// The made record of this number from 1, in the series that starts at a number. It is short.
#[tactic(auto, using(crate::proofs::lemmas::Lengths::made_short))]
pub fn record(alloc: Global, start: u32, number: u32) -> Result<Vec<u8>, AllocError>
    requires { (1 ≤ number) × (number ≤ 100000) }
    ensures made { IfOk result (λ text. text.items ≡ made start number) }
    ensures few { IfOk result (λ text. length text.items < 2 ^ 32 - 1) }
{
    made(alloc, start, number)
}

#[tactic(auto, unfolding(crate::specs::Made::made))]
fn made(alloc: Global, start: u32, number: u32) -> Result<Vec<u8>, AllocError>
    ensures { IfOk result (λ text. text.items ≡ made start number) }
{
    let mut generator = Lcg64Xsh32::new(u64::from(start), u64::from(number));
    let chain = 4 + generator.next_word() % 17;
    let Ok(branches) = branches(alloc, &mut generator, chain) else {
        return Err(AllocError);
    };
    let Ok(name) = format!(in alloc; "make {start} {number}\n\n\n") else {
        return Err(AllocError);
    };
    let mut text = name.into_bytes();
    match push_table(alloc, &mut text, chain, &branches) {
        Ok(()) => Ok(text),
        Err(error) => Err(error),
    }
}

// Adds what follows the name lines.
// proof: text and branches are lent; seven exits that drop them are long to prove
fn push_table(
    alloc: Global,
    text: &mut Vec<u8>,
    chain: u32,
    branches: &[Branch],
) -> Result<(), AllocError>
    requires some { 1 ≤ chain }
    requires most { chain ≤ 20 }
    requires few { length branches.now ≤ 20 }
    ensures { OnOk result (text.new.items ≡ record_text text.old.items chain branches.now) }
{
    let atoms = chain + branches.len() as u32;
    let Ok(()) = push_counts_line(alloc, text, atoms, atoms - 1) else {
        return Err(AllocError);
    };
    let Ok(()) = push_chain_atoms(alloc, text, chain) else {
        return Err(AllocError);
    };
    let Ok(()) = push_branch_atoms(alloc, text, branches) else {
        return Err(AllocError);
    };
    let Ok(()) = push_chain_bonds(alloc, text, chain - 1) else {
        return Err(AllocError);
    };
    match push_branch_bonds(alloc, text, chain, branches) {
        Ok(()) => text.extend_from_slice(b"M  END\n$$$$\n"),
        Err(error) => Err(error),
    }
}

fn push_chain_atoms(alloc: Global, text: &mut Vec<u8>, chain: u32) -> Result<(), AllocError>
    requires { chain ≤ 20 }
    ensures { OnOk result (text.new.items ≡ text.old.items ++ chain_atoms chain) }
{
    for before in 0..chain {
        let Ok(()) = push_chain_atom(alloc, text, before + 1) else {
            return Err(AllocError);
        };
    }
    Ok(())
}

#[tactic(auto, unfolding(crate::specs::Made::chain_atom))]
fn push_chain_atom(alloc: Global, text: &mut Vec<u8>, atom: u32) -> Result<(), AllocError>
    requires { atom ≤ 20 }
    ensures { OnOk result (text.new.items ≡ text.old.items ++ chain_atom atom) }
{
    let height = if atom % 2 == 0 { 5_000 } else { 0 };
    push_atom_line(alloc, text, across(atom), height, Element::Carbon)
}

#[tactic(auto, unfolding(crate::specs::Made::branch_atom))]
fn push_branch_atom(alloc: Global, text: &mut Vec<u8>, branch: Branch) -> Result<(), AllocError>
    ensures { OnOk result (text.new.items ≡ text.old.items ++ branch_atom branch) }
{
    let height = if branch.at % 2 == 0 { 15_000 } else { -10_000 };
    push_atom_line(alloc, text, across(branch.at), height, branch.element)
}

// Where an atom of the chain is from left to right.
#[tactic(auto, unfolding(crate::specs::Made::across))]
fn across(atom: u32) -> i64
    ensures { result ≡ across atom }
{
    8_660 * i64::from(atom)
}

fn push_branch_atoms(
    alloc: Global,
    text: &mut Vec<u8>,
    branches: &[Branch],
) -> Result<(), AllocError>
    ensures { OnOk result (text.new.items ≡ text.old.items ++ branch_atoms branches.now) }
{
    for branch in branches {
        let Ok(()) = push_branch_atom(alloc, text, *branch) else {
            return Err(AllocError);
        };
    }
    Ok(())
}

fn push_chain_bonds(alloc: Global, text: &mut Vec<u8>, bonds: u32) -> Result<(), AllocError>
    requires { bonds ≤ 20 }
    ensures { OnOk result (text.new.items ≡ text.old.items ++ chain_bonds bonds) }
{
    for before in 0..bonds {
        let Ok(()) = push_bond_line(alloc, text, before + 1, before + 2, Stereo::Plain) else {
            return Err(AllocError);
        };
    }
    Ok(())
}

fn push_branch_bonds(
    alloc: Global,
    text: &mut Vec<u8>,
    chain: u32,
    branches: &[Branch],
) -> Result<(), AllocError>
    requires { chain + length branches.now < 1000 }
    ensures { OnOk result (text.new.items ≡ text.old.items ++ branch_bonds (chain + 1) branches.now) }
{
    let mut number = chain;
    for branch in branches {
        number += 1;
        let Ok(()) = push_bond_line(alloc, text, branch.at, number, branch.stereo) else {
            return Err(AllocError);
        };
    }
    Ok(())
}
