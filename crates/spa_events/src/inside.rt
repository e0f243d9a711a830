//! The pods inside containers: the members of a struct; the properties of an object, with a key and flags before each.
ghost use Rattle.std.specs.Prelude.{◌≡◌, ◌≢◌, ◌<◌, Bool, Decides, IfNone, IfSome, false, length, true};
ghost use Rattle.spa_format.specs.Tree.{object_type, struct_type};
ghost use Rattle.spa_format.specs.Walk.{extent_behind};
ghost use Rattle.spa_format.specs.Words.{header_size};
ghost use Rattle.spa_events.specs.Inside.{HoldsPods, IsBehindKey, IsContainer, IsInside, OpensFirst, key_size};

use spa_bytes::{Front, HEADER_LEN, open};
use spa_utils::SpaTypes;

/// Pods inside a container.
#[derive(Clone, Copy)]
pub struct Inside<'a> {
    /// Whether a key and flags are before each pod: whether the container is an object.
    pub keyed: bool,
    /// The pods, one after another.
    pub pods: &'a [u8],
}

/// Whether pods of this type are containers: structs or objects.
#[inline(always)]
pub fn is_container(type_: u32) -> bool
    ensures exactly { Decides result (IsContainer type_) }
    ensures other { result ≡ false → (type_ ≢ struct_type) × (type_ ≢ object_type) }
{
    type_ == SpaTypes::Struct.0 || type_ == SpaTypes::Object.0
}

/// Whether the pods inside are keyed, of a container whose body has `size` bytes. None: it is no container, or an object too short for its type
/// and id.
#[inline(always)]
pub fn keyed_inside(type_: u32, size: usize) -> Option<bool>
    ensures some { IfSome result (HoldsPods type_ size) }
    ensures none { IfNone result ((keyed : Bool) → ¬ (HoldsPods type_ size keyed)) }
{
    if type_ == SpaTypes::Struct.0 {
        return Some(false);
    }
    if type_ == SpaTypes::Object.0 && size >= HEADER_LEN {
        return Some(true);
    }
    None
}

/// The pods in the body of a container. None: the type is another one, or the body is too short for an object's type and id.
#[inline(always)]
pub fn inside_of(type_: u32, body: &[u8]) -> Option<Inside<'_>>
    ensures there { IfSome result (λ inside. IsInside type_ body.now inside.keyed inside.pods.now) }
    ensures other { IfNone result (type_ ≢ struct_type) }
    ensures short { IfNone result (type_ ≡ object_type → length body.now < header_size) }
{
    let Some(keyed) = keyed_inside(type_, body.len()) else {
        return None;
    };
    if !keyed {
        return Some(Inside { keyed, pods: body });
    }
    let (_, pods) = body.split_at(HEADER_LEN);
    Some(Inside { keyed, pods })
}

/// How many bytes are before each pod: those of a key and flags, or none.
#[inline(always)]
pub fn key_len(keyed: bool) -> usize
    ensures { result ≡ key_size keyed }
{
    if keyed { HEADER_LEN } else { 0 }
}

/// The bytes behind the first key and flags, where these are before each pod, and else all. None: key and flags aren't there.
#[inline(always)]
pub fn behind_key(keyed: bool, left: &[u8]) -> Option<&[u8]>
    ensures there { IfSome result (λ here. IsBehindKey keyed left.now here.now) }
    ensures short { IfNone result ((keyed ≡ true) × (length left.now < header_size)) }
{
    if !keyed {
        return Some(left);
    }
    if left.len() < HEADER_LEN {
        return None;
    }
    let (_, here) = left.split_at(HEADER_LEN);
    Some(here)
}

/// Opens the first of the pods, behind its key and flags where `keyed` is set. None: it isn't all there.
#[inline(always)]
pub fn open_first(keyed: bool, left: &[u8]) -> Option<Front<'_>>
    ensures there { IfSome result
        (λ front. OpensFirst keyed left.now front.type_ front.body.now front.rest.now) }
    ensures short { IfNone result (length left.now < extent_behind (key_size keyed) left.now) }
{
    let Some(here) = behind_key(keyed, left) else {
        return None;
    };
    open(here)
}
