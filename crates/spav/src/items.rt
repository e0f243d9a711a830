//! Reads the contents of the caller's pods as items, in the caller's memory.
ghost use Rattle.std.specs.Prelude.{◌≡◌, ◌≤◌, ◌⊎◌, IfNone, IfSome, ℕ};
ghost use Rattle.spa_format.specs.Front.{HasFront};
ghost use Rattle.spa_format.specs.Pod.{AreMembers};
ghost use Rattle.spa_format.specs.Tree.{Trees};
ghost use Rattle.spa_canonical.specs.Depth.{levels_looked_into, member_depth};
ghost use Rattle.spa_view.specs.View.{pod_bytes};
ghost use Rattle.spav.specs.Answers.{IsChanged, IsDone, IsFound, IsInvalid, IsMissing, IsNoRoom, IsPut, IsTooDeep};
ghost use Rattle.spav.specs.Faults.{FaultStands, NestsTooDeep};
ghost use Rattle.spav.specs.Items.{ArePast, AreRead, BeginsNoElements, BeginsStruct, HasElements, HasFewerElements, HasMemberAt, HasNoElements, HasNoMember, HasNoValue, HasValueAt, SaysElement, SaysElements, SaysFront, SaysItem};
ghost use Rattle.spav.specs.Reading.{BeginsObject};

use crate::answers::{DONE, INVALID, MISSING, NO_ROOM, TOO_DEEP};
use crate::faults::{NO_FAULT, spav_fault};
use spa_bytes::{HEADER_LEN, SECOND_WORD, u32_at};
use spa_items::{Item, element_item, front_item, list_items, place_of_key, place_of_number};
use spa_utils::SpaTypes;
use spa_view::{Pod, body_bytes, whole_bytes};

/// The elements of an array, or the values that a choice takes.
#[repr(C)]
#[derive(Clone, Copy)]
pub struct Elements {
    /// The type of the pod: Array or Choice.
    pub type_: u32,
    /// The shape of a choice; of an array 0.
    pub shape: u32,
    /// The flags of a choice; of an array 0.
    pub flags: u32,
    /// The type of the elements.
    pub element_type: u32,
    /// The size of one element, in bytes.
    pub element_size: u32,
    /// 0.
    pub reserved: u32,
    /// How many elements there are.
    pub count: usize,
    /// The offset in the pod at which the elements begin.
    pub at: usize,
}

/// The offset in a None choice's pod at which the pod of its value begins.
pub(crate) const NONE_VALUE_AT: usize = 16;

/// The offset in an array's pod at which the elements begin, and that in a choice's pod at which the values begin.
const ARRAY_ELEMENTS_AT: usize = 16;

const CHOICE_VALUES_AT: usize = 24;

/// The offset in an object's pod at which the properties begin.
const PROPERTIES_AT: usize = 16;

/// Writes the items of the pods of which the input consists, and of all pods and elements in them, to the front of `out`.
///
/// 0: `count` is the number of items, and `out` is unchanged behind them. -ENOSPC: the number, `count`, is more than `out` has room for, which is
/// full of the first of them. -EINVAL: the input isn't pods one after another; the first fault, of the kind `kind`, stands at the byte `at`. -ELOOP:
/// the nesting depth is above 1000. Where the answer is neither 0 nor -ENOSPC, `out` is unchanged.
#[tactic(auto, using(crate::proofs::Nesting::too_deep_in))]
#[unsafe(no_mangle)]
pub extern "C" fn spav_read(
    input: &[u8],
    out: &mut [Item],
    count: &mut usize,
    kind: &mut u32,
    at: &mut usize,
) -> i32
    ensures done { IsDone result → AreRead input.now count.new out.old out.new }
    ensures room { IsNoRoom result → ArePast input.now count.new out.new }
    ensures pods { IsPut result → (values : Trees) × AreMembers values input.now
        × (member_depth values ≤ levels_looked_into) }
    ensures refused { IsInvalid result → (top : ℕ) × FaultStands input.now kind.new top at.new }
    ensures deep { IsTooDeep result → NestsTooDeep input.now }
    ensures answers { IsPut result ⊎ IsInvalid result ⊎ IsTooDeep result }
    ensures unchanged { IsInvalid result → out.new ≡ out.old }
    ensures kept { IsTooDeep result → out.new ≡ out.old }
{
    let mut found = NO_FAULT;
    let mut top = 0;
    if spav_fault(input, &mut found, &mut top, at) != DONE {
        return TOO_DEEP;
    }
    if found != NO_FAULT {
        *kind = found;
        return INVALID;
    }
    let Some(listed) = list_items(input, out) else {
        return TOO_DEEP;
    };
    *count = listed;
    if listed > out.len() {
        return NO_ROOM;
    }
    DONE
}

/// Reads the item of the pod at the front, also where it is a None choice.
///
/// 0: done. -EINVAL: no pod is at the front, and nothing is written.
#[unsafe(no_mangle)]
pub extern "C" fn spav_front_item(input: &[u8], item: &mut Item) -> i32
    ensures said { IsDone result → SaysFront input.now item.new }
    ensures refused { IsInvalid result → ¬ (HasFront input.now) }
    ensures answers { IsChanged result }
    ensures unchanged { IsInvalid result → item.new ≡ item.old }
{
    match front_item(input, 0) {
        Some(found) => {
            *item = found;
            DONE
        }
        None => INVALID,
    }
}

/// Reads the item of the element of a number, counted from 0, of the array at the front, or of the value of that number of the choice there.
///
/// 0: done. -EINVAL: neither is at the front. -ENOENT: there are no more elements or values. Where the answer isn't 0, nothing is written.
#[unsafe(no_mangle)]
pub extern "C" fn spav_element(input: &[u8], number: usize, item: &mut Item) -> i32
    ensures said { IsDone result → SaysElement number input.now item.new }
    ensures missing { IsMissing result → HasFewerElements number input.now }
    ensures refused { IsInvalid result → BeginsNoElements input.now }
    ensures answers { IsFound result }
    ensures unchanged { ¬ (IsDone result) → item.new ≡ item.old }
{
    let Some(pod) = Pod::from_bytes(input) else {
        return INVALID;
    };
    if !pod.is_array() && !pod.is_choice() {
        return INVALID;
    }
    match element_item(pod.type_().0, 1, HEADER_LEN, body_bytes(&pod), number) {
        Some(found) => {
            *item = found;
            DONE
        }
        None => MISSING,
    }
}

/// Reads the item of the pod at the front, or of the value of the None choice there.
///
/// 0: done. -EINVAL: no pod is at the front, and nothing is written.
#[unsafe(no_mangle)]
pub extern "C" fn spav_settled_item(input: &[u8], item: &mut Item) -> i32
    ensures said { IsDone result → SaysItem input.now item.new }
    ensures refused { IsInvalid result → ¬ (HasFront input.now) }
    ensures answers { IsChanged result }
    ensures unchanged { IsInvalid result → item.new ≡ item.old }
{
    let Some(pod) = Pod::from_bytes(input) else {
        return INVALID;
    };
    let settled = pod.settled();
    let at = if settled.extent() < pod.extent() {
        NONE_VALUE_AT
    } else {
        0
    };
    match front_item(whole_bytes(&settled), at) {
        Some(found) => {
            *item = found;
            DONE
        }
        None => INVALID,
    }
}

/// Finds the first property with a key in the object at the front: `at` is the byte of the input at which its value begins.
///
/// 0: done. -EINVAL: no object is at the front. -ENOENT: no property has the key. Where the answer isn't 0, nothing is written.
#[unsafe(no_mangle)]
pub extern "C" fn spav_find(input: &[u8], key: u32, at: &mut usize) -> i32
    ensures found { IsDone result → HasValueAt key input.now at.new }
    ensures missing { IsMissing result → HasNoValue key input.now }
    ensures refused { IsInvalid result → ¬ (BeginsObject input.now) }
    ensures answers { IsFound result }
    ensures unchanged { ¬ (IsDone result) → at.new ≡ at.old }
{
    let Some(pod) = Pod::from_bytes(input) else {
        return INVALID;
    };
    if !pod.is_object() {
        return INVALID;
    }
    let (_, properties) = body_bytes(&pod).split_at(HEADER_LEN);
    match place_of_key(properties, key) {
        Some(place) => {
            *at = PROPERTIES_AT + place + HEADER_LEN;
            DONE
        }
        None => MISSING,
    }
}

/// Finds the member of a number, counted from 0, in the struct at the front: `at` is the byte of the input at which it begins.
///
/// 0: done. -EINVAL: no struct is at the front. -ENOENT: it has no such member. Where the answer isn't 0, nothing is written.
#[unsafe(no_mangle)]
pub extern "C" fn spav_member(input: &[u8], number: usize, at: &mut usize) -> i32
    ensures found { IsDone result → HasMemberAt number input.now at.new }
    ensures missing { IsMissing result → HasNoMember number input.now }
    ensures refused { IsInvalid result → ¬ (BeginsStruct input.now) }
    ensures answers { IsFound result }
    ensures unchanged { ¬ (IsDone result) → at.new ≡ at.old }
{
    let Some(pod) = Pod::from_bytes(input) else {
        return INVALID;
    };
    if !pod.is_struct() {
        return INVALID;
    }
    match place_of_number(body_bytes(&pod), number) {
        Some(place) => {
            *at = HEADER_LEN + place;
            DONE
        }
        None => MISSING,
    }
}

/// Reads type, size, number and offset of the elements of the array at the front, or of the values that the choice there takes.
///
/// 0: done. -EINVAL: neither is at the front, and nothing is written.
#[unsafe(no_mangle)]
pub extern "C" fn spav_front_elements(input: &[u8], elements: &mut Elements) -> i32
    ensures said { IsDone result → SaysElements input.now elements.new }
    ensures refused { IsInvalid result → BeginsNoElements input.now }
    ensures answers { IsChanged result }
    ensures unchanged { IsInvalid result → elements.new ≡ elements.old }
{
    let Some(pod) = Pod::from_bytes(input) else {
        return INVALID;
    };
    match elements_of(&pod) {
        Some(found) => {
            *elements = found;
            DONE
        }
        None => INVALID,
    }
}

/// Type, size, number and offset of the elements of an array, or of the values that a choice takes. None: the pod is neither.
fn elements_of(pod: &Pod<'_>) -> Option<Elements>
    ensures some { IfSome result (HasElements (pod_bytes pod.now)) }
    ensures none { IfNone result (HasNoElements (pod_bytes pod.now)) }
{
    if let Ok(array) = pod.as_array() {
        return Some(Elements {
            type_: SpaTypes::Array.0,
            shape: 0,
            flags: 0,
            element_type: array.element_type().0,
            element_size: array.element_size(),
            reserved: 0,
            count: array.len(),
            at: ARRAY_ELEMENTS_AT,
        });
    }
    let Ok(choice) = pod.as_choice() else {
        return None;
    };
    let values = choice.values();
    Some(Elements {
        type_: SpaTypes::Choice.0,
        shape: choice.shape(),
        flags: u32_at(body_bytes(pod), SECOND_WORD),
        element_type: values.element_type().0,
        element_size: values.element_size(),
        reserved: 0,
        count: values.len(),
        at: CHOICE_VALUES_AT,
    })
}
