//! The objects at the fronts of inputs, in canonical bytes.
ghost use Rattle.std.specs.Prelude.{◌≡◌, ◌≢◌, ◌<◌, IfErr, IfNone, IfOk, IfSome, List, length, true, ℕ};
ghost use Rattle.spa_format.specs.Tree.{object_type};
ghost use Rattle.spa_format.specs.Words.{header_size, size_limit, word_at};
ghost use Rattle.spa_bytes.specs.Opening.{Opens};
ghost use Rattle.spa_object_view.specs.Fronts.{BeginsObjectIn, BeginsObjectOf, BeginsView, IsNoObject, IsObjectBody, IsUnread, IsViewIn};
ghost use Rattle.spa_bodies.specs.Reading.{TakesMemory};
ghost use Rattle.spa_canonical.specs.Depth.{NestsDeeper, levels_looked_into};
ghost use Rattle.spa_canonical.specs.Rewriting.{IsRewriting};

use crate::object_view::ObjectView;
use spa_bytes::{Front, HEADER_LEN, SECOND_WORD, open, u32_at};
use spa_canonical::{Rejected, are_flat_properties, canonical_front, look_at_pod};
use spa_fixed_sized::DeserializeError;
use spa_rewrite::rewrite;
use spa_utils::SpaTypes;
use std::alloc::Global;

/// The object at the front of an input, in canonical bytes.
#[derive(Drop)]
pub enum ObjectPod<'a> {
    /// A view of the front, which is canonical.
    Borrowed(ObjectView<'a>),
    /// The rewriting of the front, which isn't canonical or nests too deep to be looked into.
    Rewritten(Vec<u8>),
}

impl ObjectPod<'_> {
    /// The view of the object. None: there is no object in the bytes.
    #[inline(always)]
    pub fn view(&self) -> Option<ObjectView<'_>>
        ensures object { IfSome result (λ object. (input : List ℕ) → BeginsObjectOf input self.now → BeginsView input object) }
        ensures words { IfSome result (λ object. (object.type_ < size_limit) × (object.id < size_limit)) }
        ensures none { IfNone result ((input : List ℕ) → ¬ (BeginsObjectOf input self.now)) }
    {
        match self {
            ObjectPod::Borrowed(object) => Some(ObjectView {
                type_: object.type_,
                id: object.id,
                properties: object.properties,
            }),
            ObjectPod::Rewritten(bytes) => object_in(bytes.as_slice()),
        }
    }
}

/// Why no object is at the front of an input.
#[derive(Clone, Copy)]
pub enum NoObject {
    /// The front isn't there, or is a pod of no value.
    Unread,
    /// It is a pod of another value.
    Other,
    /// A growth was refused.
    OutOfMemory,
}

/// The object at the front of the input. Memory is asked for only where the front isn't canonical, or structs and objects nest more than 1000 deep.
pub fn object_pod(alloc: Global, input: &[u8]) -> Result<ObjectPod<'_>, NoObject>
    ensures object { IfOk result (BeginsObjectOf input.now) }
    ensures cause { IfErr result (IsNoObject input.now) }
{
    let Some(front) = open(input) else {
        return Err(NoObject::Unread);
    };
    if front.type_ != SpaTypes::Object.0 {
        return Err(no_object(alloc, input));
    }
    if let Some(object) = canonical_object(input, front) {
        return Ok(ObjectPod::Borrowed(object));
    }
    let bytes = rewritten(alloc, input)?;
    Ok(ObjectPod::Rewritten(bytes))
}

/// The view of the object at the front of the input, which is open, where a look finds it to be canonical. Most objects hold no structs and no other
/// objects: they are looked at first, by one loop.
#[inline(always)]
fn canonical_object<'a>(input: &[u8], front: Front<'a>) -> Option<ObjectView<'a>>
    requires { Opens input.now object_type front.body.now front.rest.now }
    ensures { IfSome result (BeginsView input.now) }
{
    let object = object_of(front.body)?;
    if are_flat_properties(object.properties) {
        return Some(object);
    }
    let _rest = canonical_front(input)?;
    Some(object)
}

/// The rewriting of a front of a type whose values take memory.
fn rewritten(alloc: Global, input: &[u8]) -> Result<Vec<u8>, NoObject>
    requires { TakesMemory (word_at input.now 4) }
    ensures rewriting { IfOk result (λ bytes. IsRewriting input.now bytes.items) }
    ensures cause { IfErr result (IsUnread input.now) }
{
    match rewrite(alloc, input) {
        Ok((_rest, bytes)) => Ok(bytes),
        Err(DeserializeError::OutOfMemory) => Err(NoObject::OutOfMemory),
        Err(_) => Err(NoObject::Unread),
    }
}

/// Why a front of another type than an object's is refused. Memory is asked for only where structs nest more than 1000 deep.
#[inline(never)]
fn no_object(alloc: Global, input: &[u8]) -> NoObject
    requires { word_at input.now 4 ≢ object_type }
    ensures { IsNoObject input.now result }
{
    match look_at_pod(input) {
        Ok(_) => NoObject::Other,
        Err(rejected) => match rejected {
            Rejected::Fault(_, _, _) => NoObject::Unread,
            Rejected::TooDeep => deep_no_object(alloc, input),
        },
    }
}

/// Why a front that nests too deep to be looked into isn't an object, which rewriting it tells.
fn deep_no_object(alloc: Global, input: &[u8]) -> NoObject
    requires other { word_at input.now 4 ≢ object_type }
    requires deep { NestsDeeper levels_looked_into input.now }
    ensures { IsNoObject input.now result }
{
    let Err(why) = rewritten(alloc, input) else {
        return NoObject::Other;
    };
    why
}

/// The view of the object of a pod.
#[inline(never)]
fn object_in(pod: &[u8]) -> Option<ObjectView<'_>>
    ensures object { IfSome result (IsViewIn pod.now) }
    ensures words { IfSome result (λ object. (object.type_ < size_limit) × (object.id < size_limit)) }
    ensures none { IfNone result ((input : List ℕ) → ¬ (BeginsObjectIn input pod.now)) }
{
    let front = open(pod)?;
    object_of(front.body)
}

/// The view of the object with this body. None: it has no type and id.
#[inline(always)]
fn object_of(body: &[u8]) -> Option<ObjectView<'_>>
    ensures parts { IfSome result (IsObjectBody body.now) }
    ensures words { IfSome result (λ object. (object.type_ < size_limit) × (object.id < size_limit)) }
    ensures none { IfNone result (length body.now < header_size) }
{
    if body.len() < HEADER_LEN {
        return None;
    }
    let (_, properties) = body.split_at(HEADER_LEN);
    Some(ObjectView {
        type_: u32_at(body, 0),
        id: u32_at(body, SECOND_WORD),
        properties,
    })
}
