//! The pods that stand one after another in an input.
ghost use Rattle.std.specs.Prelude.{◌≡◌, ◌≤◌, ◌<◌, IfNone, IfSome, length};
ghost use Rattle.spa_format.specs.Fixation.{walk_size};
ghost use Rattle.spa_format.specs.Front.{HasFront, front_of};
ghost use Rattle.spa_format.specs.Pod.{AreMembers};
ghost use Rattle.spa_format.specs.Tree.{Trees};
ghost use Rattle.spa_format.specs.Walk.{walk};
ghost use Rattle.spa_format.specs.Words.{extent, word_at};
ghost use Rattle.spa_view.specs.View.{pod_bytes};
ghost use Rattle.spa_pod_commands.specs.Answers.{AreFixated};

use spa_view::{Pod, PodObject};

/// The first pod, where it is there, and how many bytes it takes with its padding.
pub(crate) fn first_of(bytes: &[u8]) -> Option<(Pod<'_>, usize)>
    ensures there { IfSome result (λ first. HasFront bytes.now) }
    ensures front { IfSome result (λ first. pod_bytes first.0 ≡ front_of bytes.now) }
    ensures extent { IfSome result (λ first. first.1 ≡ extent (word_at bytes.now 0)) }
    ensures within { IfSome result (λ first. first.1 ≤ length bytes.now) }
    ensures none { IfNone result (¬ (HasFront bytes.now)) }
{
    let pod = Pod::from_bytes(bytes)?;
    Some((pod, pod.extent()))
}

/// The byte behind some first whole pods where none begins, unless the input ends there.
#[tactic(auto, using(crate::proofs::Fixating::walked_next, crate::proofs::Fixating::walked_end))]
pub(crate) fn first_short(bytes: &[u8]) -> Option<usize>
    ensures whole { IfNone result (walk_size (walk bytes.now) ≡ length bytes.now) }
    ensures short { IfSome result (λ place. place ≡ walk_size (walk bytes.now)) }
    ensures within { IfSome result (λ place. place < length bytes.now) }
{
    let mut left = bytes;
    while let Some((_, extent)) = first_of(left) {
        left = &left[extent..];
    }
    if left.is_empty() {
        return None;
    }
    Some(bytes.len() - left.len())
}

/// Fixates each object among the pods that the bytes consist of.
#[tactic(auto, using(crate::proofs::Fixating::begins))]
pub(crate) fn fixate_all(bytes: &mut [u8])
    ensures { (vs : Trees) → AreMembers vs bytes.old → AreFixated (walk bytes.old) bytes.new }
{
    let mut at = 0;
    while let Some((_, extent)) = first_of(&bytes[at..]) {
        // A pod that isn't an object stays as it came.
        let _ = PodObject::fixate(&mut bytes[at..at + extent]);
        at += extent;
    }
}
