//! Reads the body of a container up to the next container in it.
ghost use Rattle.std.specs.Prelude.{◌≡◌, ◌≢◌, ◌+◌, ◌*◌, ◌<◌, ◌≤◌, ◌^◌, [], IfErr, IfNone, IfOk, IfSome, OnOk, length};
ghost use Rattle.spa_format.specs.Tree.{Tree};
ghost use Rattle.spa_format.specs.Words.{header_size};
ghost use Rattle.spa_read.specs.Nesting.{HasRoom, IsAlike, LacksKey, Reaches, ReadsOn, RefusesBehind, member_grown, so_far, with_child};
ghost use Rattle.spa_read.specs.declared.inside.Inside.{Inside};
ghost use Rattle.spa_read.specs.declared.inside.Inside.TheVariants as inside_variant;
ghost use Rattle.spa_value.specs.View.{view};

use crate::front::open_in;
use crate::leaves::read_leaf_into;
use crate::refused::Refused;
use bitflags::Flags;
use spa_bytes::{Front, HEADER_LEN, SECOND_WORD, extent_of, u32_at};
use spa_events::is_container;
use spa_fixed_sized::Refusal;
use spa_value::{Object, Property, PropertyFlags, Takes, Value};
use std::alloc::{AllocError, Global};

/// A container whose body is being read: its members or properties so far.
#[derive(Drop)]
pub(crate) enum Inside {
    Struct(Vec<Value>),
    Object(OpenObject),
}

/// An object whose body is being read: its type, its id and its properties so far.
#[derive(Drop)]
pub(crate) struct OpenObject {
    pub(crate) type_: u32,
    pub(crate) id: u32,
    pub(crate) properties: Vec<Property>,
    /// The key of the property whose value is read next.
    pub(crate) key: u32,
    /// The flags of that property.
    pub(crate) flags: PropertyFlags,
}

/// A list of members, or an object, that grows by one pod of a body after another.
pub(crate) trait Grows: Takes {
    ghost inside: { Self → Inside };

    /// The bytes from the next pod on: in an object those behind the property's key and flags. None: the key and the flags are cut short.
    fn reach<'a>(&mut self, left: &'a [u8]) -> Option<&'a [u8]>
        requires { left.now ≢ [] }
        ensures same { so_far (inside self.new) ≡ so_far (inside self.old) }
        ensures reached { IfSome result (λ place. Reaches (inside self.new) left.now place.now) }
        ensures short { IfNone result (LacksKey (inside self.old) left.now) };

    /// Makes room for one more pod; where there is none, also for the whole pods that follow in `behind`. Refused only for want of memory.
    fn reserve(&mut self, behind: &[u8]) -> Result<(), AllocError>
        ensures room { OnOk result (Self.has_room self.new) }
        ensures same { IsAlike (inside self.old) (inside self.new) };

    ghost grown: { (a b : Self) (v : Tree) → Self.takes a v b → so_far (inside b) ≡ with_child (inside a) v };
}

/// The members of a struct.
impl Grows for Vec<Value> {
    ghost inside = { λ it. inside_variant.Struct it };

    ghost grown = { member_grown };

    #[inline(always)]
    fn reach<'a>(&mut self, left: &'a [u8]) -> Option<&'a [u8]> {
        Some(left)
    }

    #[inline(always)]
    fn reserve(&mut self, behind: &[u8]) -> Result<(), AllocError> {
        if self.len() < self.capacity() {
            return Ok(());
        }
        Vec::reserve(self, pods_from(behind, 0))
    }
}

impl Takes for OpenObject {
    ghost has_room = { λ it. HasRoom (inside_variant.Object it) };

    ghost takes = { λ a v b. so_far (inside_variant.Object b) ≡ with_child (inside_variant.Object a) v };

    #[inline(always)]
    fn put(&mut self, value: Value) {
        let property = Property {
            key: self.key,
            flags: self.flags,
            value,
        };
        self.properties.push_reserved(property);
    }
}

impl Grows for OpenObject {
    ghost inside = { λ it. inside_variant.Object it };

    ghost grown = { λ _ _ _ e. e };

    #[inline(always)]
    fn reach<'a>(&mut self, left: &'a [u8]) -> Option<&'a [u8]> {
        if left.len() < HEADER_LEN {
            return None;
        }
        self.key = u32_at(left, 0);
        self.flags = PropertyFlags::from_bits_retain(u32_at(left, SECOND_WORD));
        let (_, behind) = left.split_at(HEADER_LEN);
        Some(behind)
    }

    #[inline(always)]
    fn reserve(&mut self, behind: &[u8]) -> Result<(), AllocError> {
        if self.properties.len() < self.properties.capacity() {
            return Ok(());
        }
        self.properties.reserve(pods_from(behind, HEADER_LEN))
    }
}

/// How many pods to make room for: one, and the whole ones that follow it in `behind`, each with `between` bytes before it.
#[inline(never)]
fn pods_from(behind: &[u8], between: usize) -> usize
    requires { between ≤ header_size }
    ensures { 0 < result }
{
    let mut left = behind;
    let mut count = 1;
    while left.len() >= between + HEADER_LEN {
        let whole = between + extent_of(u32_at(left, between));
        if left.len() < whole {
            break;
        }
        let (_, more) = left.split_at(whole);
        left = more;
        count += 1;
    }
    count
}

/// Reads pods up to the end of a body, where the answer is None, or up to the next container, which is answered, opened; `left` is then at that
/// container.
#[inline(always)]
pub(crate) fn read_leaves<'de, G: Grows, const LENIENT: bool>(
    alloc: Global,
    left: &mut &'de [u8],
    opened: &mut u64,
    to: &mut G,
) -> Result<Option<Front<'de>>, Refused<'de>>
    requires { 8 * opened.old + length left.old.now < 2 ^ 64 }
    ensures few { 8 * opened.new ≤ 8 * opened.old + length left.old.now }
    ensures more { opened.old ≤ opened.new }
    ensures read { IfOk result
        (λ front. ReadsOn LENIENT (G.inside to.old) left.old.now opened.old front
        (G.inside to.new) left.new.now opened.new) }
    ensures refused { IfErr result
        (λ refused. RefusesBehind LENIENT (so_far
        (G.inside to.old)) left.old.now opened.old refused.place.now opened.new refused.why) }
{
    while !left.is_empty() {
        let Some(place) = to.reach(*left) else {
            return Err(Refused {
                place: *left,
                why: Refusal::Short,
            });
        };
        let Some(front) = open_in::<LENIENT>(place, opened) else {
            return Err(Refused {
                place,
                why: Refusal::Short,
            });
        };
        if is_container(front.type_) {
            *left = place;
            return Ok(Some(front));
        }
        if to.reserve(front.rest).is_err() {
            return Err(Refused::lacking_memory());
        }
        if let Err(why) = read_leaf_into(alloc, front.type_, front.body, to) {
            return Err(Refused { place, why });
        }
        *left = front.rest;
    }
    Ok(None)
}

impl Inside {
    /// Reads further members or properties, as `read_leaves` does.
    #[inline(always)]
    pub(crate) fn read_on<'de, const LENIENT: bool>(
        &mut self,
        alloc: Global,
        left: &mut &'de [u8],
        opened: &mut u64,
    ) -> Result<Option<Front<'de>>, Refused<'de>>
        requires { 8 * opened.old + length left.old.now < 2 ^ 64 }
        ensures few { 8 * opened.new ≤ 8 * opened.old + length left.old.now }
        ensures more { opened.old ≤ opened.new }
        ensures read { IfOk result
            (λ front. ReadsOn LENIENT self.old left.old.now opened.old front self.new left.new.now opened.new) }
        ensures refused { IfErr result
            (λ refused. RefusesBehind LENIENT
            (so_far self.old) left.old.now opened.old refused.place.now opened.new refused.why) }
    {
        match self {
            Inside::Struct(members) => read_leaves::<Vec<Value>, LENIENT>(
                alloc, left, opened, members,
            ),
            Inside::Object(object) => read_leaves::<OpenObject, LENIENT>(
                alloc, left, opened, object,
            ),
        }
    }

    /// Makes room for one more pod; where there is none, also for the whole pods that follow in `behind`. Refused only for want of memory.
    #[inline(always)]
    pub(crate) fn reserve(&mut self, behind: &[u8]) -> Result<(), AllocError>
        ensures room { OnOk result (HasRoom self.new) }
        ensures same { IsAlike self.old self.new }
    {
        match self {
            Inside::Struct(members) => Grows::reserve(members, behind),
            Inside::Object(object) => Grows::reserve(object, behind),
        }
    }

    /// Appends the next member, or the value of the property whose key and flags are read.
    #[inline(always)]
    pub(crate) fn put(&mut self, value: Value)
        requires { HasRoom self.old }
        ensures { so_far self.new ≡ with_child self.old (view value) }
    {
        match self {
            Inside::Struct(members) => members.put(value),
            Inside::Object(object) => object.put(value),
        }
    }

    /// The struct or object of the members or properties so far.
    #[inline(always)]
    pub(crate) fn into_value(self) -> Value
        ensures { view result ≡ so_far self }
    {
        match self {
            Inside::Struct(members) => Value::Struct(members),
            Inside::Object(object) => Value::Object(Object {
                type_: object.type_,
                id: object.id,
                properties: object.properties,
            }),
        }
    }
}
