//! Finds the first fault of the caller's bytes, and its offset.
ghost use Rattle.std.specs.Prelude.{◌≡◌, ◌≢◌};
ghost use Rattle.spa_fixed_sized.specs.declared.fault.Refusal.TheVariants as refusal;
ghost use Rattle.spa_format.specs.Pod.{AreMembers};
ghost use Rattle.spa_format.specs.Tree.{Trees};
ghost use Rattle.spa_bodies.specs.Refusing.{Says};
ghost use Rattle.spav.specs.Answers.{IsDone, IsNested, IsTooDeep};
ghost use Rattle.spav.specs.Faults.{FaultStands, NestsTooDeep, fault_number};

use crate::answers::{DONE, TOO_DEEP};
use spa_canonical::{Rejected, look_at_pods};
use spa_fixed_sized::Refusal;

/// The number that stands for no fault.
pub(crate) const NO_FAULT: u32 = 0;

/// Finds the first fault in the input.
///
/// 0: a fault of the kind `kind` stands at the byte `at`, in the pod that begins at the byte `top`; or `kind` is 0, and there is none: the input is
/// pods one after another, and `top` and `at` are unchanged. -ELOOP: there is none before a pod with a nesting depth above 1000; nothing is written.
#[unsafe(no_mangle)]
pub extern "C" fn spav_fault(input: &[u8], kind: &mut u32, top: &mut usize, at: &mut usize) -> i32
    ensures none { IsDone result → kind.new ≡ 0 → (values : Trees) × AreMembers values input.now }
    ensures fault { IsDone result → kind.new ≢ 0 → FaultStands input.now kind.new top.new at.new }
    ensures deep { IsTooDeep result → NestsTooDeep input.now }
    ensures answers { IsNested result }
    ensures unchanged { IsTooDeep result → kind.new ≡ kind.old }
    ensures kept { IsTooDeep result → (top.new ≡ top.old) × (at.new ≡ at.old) }
    ensures kept_without { IsDone result → kind.new ≡ 0 → (top.new ≡ top.old) × (at.new ≡ at.old) }
{
    match look_at_pods(input) {
        Ok(_) => {
            *kind = NO_FAULT;
            DONE
        }
        Err((_left, Rejected::TooDeep)) => TOO_DEEP,
        Err((left, Rejected::Fault(_, behind, why))) => {
            *kind = number_of(why);
            *top = input.len() - left.len();
            *at = *top + behind;
            DONE
        }
    }
}

/// The number of a fault.
pub(crate) fn number_of(why: Refusal) -> u32
    requires { why ≢ refusal.OutOfMemory }
    ensures said { Says (λ k. result ≡ fault_number k) ⊥ why }
    ensures some { result ≢ 0 }
{
    match why {
        Refusal::Short => 1,
        Refusal::Text => 2,
        Refusal::InvalidType => 3,
        Refusal::InvalidChoiceType => 4,
        Refusal::MissingChoiceValues => 5,
        Refusal::WrongSize => 6,
        Refusal::OutOfMemory => unreachable!(),
    }
}
