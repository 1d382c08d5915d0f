// The groups of a single record.
ghost use Rattle.std.specs.Prelude.{◌≡◌, ◌≤◌, ◌<◌, ◌-◌, ◌^◌, IfOk, IsOk, Ok, length};
ghost use Rattle.cip_text.specs.Bodies.{body_contents};
ghost use Rattle.cip_text.specs.Slices.{texts};
ghost use Rattle.cip_v3000.specs.Grammar.{molecule_of};
ghost use Rattle.cip_v3000.specs.Tables.{seen_table};
ghost use Rattle.cip_stereogroups.specs.Collections.{groups_of, answer_by, IsAnswer};

use cip_mol::{Molecule, ReadRefusal};
use cip_stereogroups::{GroupRefusal, GroupsAnswer, groups_of};
use cip_text::body_contents;
use cip_v3000::{Table, read_table};
use std::alloc::{AllocError, Global};

/// The groups of a record from which this molecule is read, or the first line with a cause and its first one.
pub fn read_groups(
    alloc: Global,
    bytes: &[u8],
    molecule: &Molecule,
) -> Result<GroupsAnswer, AllocError>
    requires few { length bytes.now < 2 ^ 32 - 1 }
    requires read { molecule_of (body_contents bytes.now) ≡ Ok molecule.now }
    ensures { IfOk result (IsAnswer (body_contents bytes.now)) }
{
    let lines = body_contents(alloc, bytes)?;
    lines_answer(alloc, &lines)
}

// Of the lines of a record.
// proof: the caller keeps the lines
fn lines_answer(alloc: Global, lines: &[&[u8]]) -> Result<GroupsAnswer, AllocError>
    requires few { length lines.now < 2 ^ 32 - 1 }
    requires read { IsOk (molecule_of (texts lines.now)) }
    ensures { IfOk result (IsAnswer (texts lines.now)) }
{
    match read_table(alloc, lines) {
        Ok(table) => {
            let answer = table_answer(alloc, &table);
            // proof: dropped by a call, which is quicker to prove than an exit that owns it
            drop(table);
            answer
        }
        Err(ReadRefusal::Fault(_)) => unreachable!(),
        Err(ReadRefusal::Memory) => Err(AllocError),
    }
}

fn table_answer(alloc: Global, table: &Table<'_>) -> Result<GroupsAnswer, AllocError>
    requires few { length table.now.indices.items ≤ 1000000000 }
    ensures { IfOk result (λ answer. answer ≡ answer_by (groups_of (seen_table table.now))) }
{
    match groups_of(alloc, table) {
        Ok(groups) => Ok(GroupsAnswer::Groups(groups)),
        Err(GroupRefusal::Fault(fault)) => Ok(GroupsAnswer::Refused(fault)),
        Err(GroupRefusal::Memory) => Err(AllocError),
    }
}
