//! The refused pods of an input.
ghost use Rattle.std.specs.Prelude.{◌≡◌, ◌++◌, List, OnOk};
ghost use Rattle.spa_refusals.specs.Several.{AreRefused, AreSaid};
ghost use Rattle.spa_refusals.specs.declared.several.NamedRefusal.{NamedRefusal};

use crate::refusal::{Refusal, refusal_of};
use spa_recordings::going_on::{Gap, RefusedPod};
use spa_recordings::reading::Reading;
use std::alloc::{AllocError, Global};

/// A refused pod of the input of this name.
#[derive(Debug, Drop)]
pub struct NamedRefusal<'a> {
    pub name: &'a str,
    pub refusal: Refusal,
    /// What is left out with it, where its size word doesn't say it.
    pub left_out: Option<Gap>,
}

/// Adds the refusals of these pods of a part of an input, which aren't read; so many bytes of the input stand before that part.
pub fn add_refusals<'a>(
    alloc: Global,
    reading: Reading,
    before: usize,
    input: &[u8],
    pods: &[RefusedPod<'a>],
    out: &mut Vec<NamedRefusal<'a>>,
) -> Result<(), AllocError>
    requires { AreRefused reading before input.now pods.now }
    ensures { OnOk result ((more : List NamedRefusal) × AreSaid reading before input.now pods.now more
        × (out.new.items ≡ out.old.items ++ more)) }
{
    for pod in pods {
        let (_, left) = input.split_at(pod.place - before);
        let refusal = refusal_of(alloc, reading, left, pod.place, pod.number)?;
        out.push(NamedRefusal {
            name: pod.name,
            refusal,
            left_out: pod.left_out,
        })?;
    }
    Ok(())
}
