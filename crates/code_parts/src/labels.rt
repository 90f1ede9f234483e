ghost use Rattle.std.specs.Prelude.{◌≡◌, ◌++◌, OnOk};
ghost use Rattle.code_parts.specs.Labels.{code_labels, list_labels, part_labels};

use crate::parts::{Code, Part};
use crate::sizes::{behind, code_size, fork_size, part_size};
use sqlite_items::Items;
use std::alloc::{AllocError, Global};

/// Adds the numbers of the nodes of labels, in text order, where the first node of the code has the number `at`; want of
/// memory too where a number passes 2^32.
#[cycle(labelling)]
#[tactic(auto, using(crate::proofs::LabelEquations::label_rules))]
pub fn label_nodes(found: &mut Items<u32>, c: &Code, at: u32) -> Result<(), AllocError>
    ensures { OnOk result (found.new ≡ found.old ++ code_labels c.now at) }
{
    match c {
        Code::Nothing => Ok(()),
        Code::Parts(_, parts) => list_labels(found, parts.as_slice(), at),
    }
}

#[cycle(labelling)]
#[tactic(auto, using(crate::proofs::LabelEquations::label_rules))]
fn list_labels(found: &mut Items<u32>, parts: &[Part], at: u32) -> Result<(), AllocError>
    ensures { OnOk result (found.new ≡ found.old ++ list_labels parts.now at) }
{
    let mut here = at;
    for p in parts {
        part_labels(found, p, here)?;
        here = behind(here, part_size(p))?;
    }
    Ok(())
}

#[cycle(labelling)]
#[tactic(auto, using(crate::proofs::LabelEquations::label_rules))]
fn part_labels(found: &mut Items<u32>, p: &Part, at: u32) -> Result<(), AllocError>
    ensures { OnOk result (found.new ≡ found.old ++ part_labels p.now at) }
{
    match p {
        Part::Node(_, _) => Ok(()),
        Part::Label(_) => found.push(at),
        Part::Jump(_, _, _) => Ok(()),
        Part::Branch(f, a, b) => {
            let first = behind(at, fork_size(f.get()))?;
            let second = behind(first, u64::from(code_size(a.get())))?;
            label_nodes(found, a.get(), first)?;
            label_nodes(found, b.get(), second)
        }
        Part::Loop(_, f, body, _) => {
            let first = behind(behind(at, 1)?, fork_size(f.get()))?;
            label_nodes(found, body.get(), first)
        }
        Part::Forever(_, body, _) => label_nodes(found, body.get(), behind(at, 1)?),
        Part::Do(_, body, _) => label_nodes(found, body.get(), behind(at, 1)?),
        Part::Switch(c) => label_nodes(found, c.get(), at),
    }
}
