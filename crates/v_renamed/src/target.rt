//! Targets with other names.
ghost use Rattle.std.specs.Prelude.{◌≡◌, IfOk, map};
ghost use Rattle.v_syntax.specs.Tree.{target_of};
ghost use Rattle.v_renamed.specs.NewNames.{new_name};
ghost use Rattle.v_renamed.specs.Copies.{target_at, target_under};

use crate::expression::copy_selects;
use crate::names::{Names, name_for};
use std::alloc::{AllocError, Global};
use v_syntax::tree::Target;

/// The target with its names replaced.
#[cycle(target)]
pub(crate) fn copy_target<'a, 's: 'a>(
    alloc: Global,
    target: &Target<'s>,
    names: &Names<'a>,
) -> Result<Target<'a>, AllocError>
    ensures { IfOk result (λ t. target_of t ≡ target_at (new_name names.now) (target_of target.now)) }
{
    match target {
        Target::Place(name, selects) => {
            let selects = copy_selects(alloc, selects, names)?;
            Ok(Target::Place(name_for(names, name), selects))
        }
        Target::Joined(targets) => {
            let targets = copy_targets(alloc, targets, names)?;
            Ok(Target::Joined(targets))
        }
    }
}

/// Targets with their names replaced.
#[cycle(target)]
fn copy_targets<'a, 's: 'a>(
    alloc: Global,
    targets: &[Target<'s>],
    names: &Names<'a>,
) -> Result<Vec<Target<'a>>, AllocError>
    ensures { IfOk result (λ v. map target_of v.items ≡ map (target_under (new_name names.now)) targets.now) }
{
    let mut copies = Vec::with_capacity(alloc, targets.len())?;
    for target in targets {
        let target = copy_target(alloc, target, names)?;
        copies.push(target)?;
    }
    Ok(copies)
}
