//! Adds whole pods, which the caller has, to those that are built.
ghost use Rattle.std.specs.Prelude.{◌≡◌, IfNone, IfSome};
ghost use Rattle.spa_format.specs.Tree.{Tree};
ghost use Rattle.spa_builder.specs.Answers.{Makes};
ghost use Rattle.spa_builder.specs.Fields.{IsAt};
ghost use Rattle.spa_builder.specs.State.{State};
ghost use Rattle.spa_builder.specs.Step.{Outcome, add, step};
ghost use Rattle.spa_view.specs.View.{pod_bytes};
ghost use Rattle.spav.specs.Building.{AddsPod, IsPodOf, part_of};

use crate::building::{Call, part};
use spa_builder::Builder;
use spa_canonical::{LEVELS, canonical_front, nests_within};
use spa_utils::{Errno, SpaTypes};
use spa_view::Pod;

/// Adds the value of the canonical pod whose offset and length in the texts a call gives.
pub(crate) fn add_pod(builder: &mut Builder, texts: &[u8], call: &Call) -> Result<(), Errno>
    ensures { (s : State) → IsAt builder.old s → (o : Outcome) × AddsPod s (part_of texts.now call.now.bits call.now.len) o
        × Makes o builder.old builder.new result }
{
    let Some(bytes) = part(texts, call.bits as usize, call.len as usize) else {
        return Err(Errno::INVAL);
    };
    match canonical_pod(bytes) {
        Some(pod) => add_value(builder, pod),
        None => Err(Errno::INVAL),
    }
}

/// The pod of which the bytes consist. None: they are no canonical pod, or one in which structs and objects nest more than 1000 deep.
fn canonical_pod(bytes: &[u8]) -> Option<Pod<'_>>
    ensures some { IfSome result (λ pod. (pod_bytes pod ≡ bytes.now) × ((v : Tree) × IsPodOf bytes.now v)) }
    ensures none { IfNone result ((v : Tree) → ¬ (IsPodOf bytes.now v)) }
{
    if !nests_within(bytes, LEVELS) {
        return None;
    }
    let Some(rest) = canonical_front(bytes) else {
        return None;
    };
    if !rest.is_empty() {
        return None;
    }
    let Some(pod) = Pod::from_bytes(bytes) else {
        unreachable!();
    };
    Some(pod)
}

/// Adds the value of a canonical pod.
fn add_value(builder: &mut Builder, pod: Pod<'_>) -> Result<(), Errno>
    requires { (v : Tree) × IsPodOf (pod_bytes pod) v }
    ensures { (s : State) (v : Tree) → IsAt builder.old s → IsPodOf (pod_bytes pod.entry) v
        → Makes (step s (add v)) builder.old builder.new result }
{
    match pod.type_() {
        SpaTypes::None => builder.add_none(),
        SpaTypes::Bool => builder.add_bool(pod.get_bool()?),
        SpaTypes::Id => builder.add_id(pod.get_id()?),
        SpaTypes::Int => builder.add_int(pod.get_int()?),
        SpaTypes::Long => builder.add_long(pod.get_long()?),
        SpaTypes::Float => builder.add_float(pod.get_float()?),
        SpaTypes::Double => builder.add_double(pod.get_double()?),
        SpaTypes::Rectangle => builder.add_rectangle(pod.get_rectangle()?),
        SpaTypes::Fraction => builder.add_fraction(pod.get_fraction()?),
        SpaTypes::Fd => builder.add_fd(pod.get_fd()?),
        _ => builder.add_pod(pod),
    }
}
