//! Copies structs and objects: up to 512 levels by calls, and what is nested deeper by a loop, with an explicit stack of the containers whose copies
//! are begun.
ghost use Rattle.std.specs.Prelude.{◌≡◌, ◌∷◌, ◌<◌, List, IfOk, OnOk, vec_capacity, vec_len};
ghost use Rattle.spa_value.specs.NestedCopies.{Begins, CopiesOn, Ends, HasPlace, Steps, TakesMember, TakesProperty, completed, copied, nested_view, so_far, values_left, whole, with_left};
ghost use Rattle.spa_value.specs.View.{object_view, view};
ghost use Rattle.spa_value.specs.Views.{views};
ghost use Rattle.spa_value.specs.declared.object.Property.{Property};
ghost use Rattle.spa_format.specs.Tree.{struct};
ghost use Rattle.spa_value.specs.declared.nested_copies.Copying.TheVariants as copying_variant;

use crate::emptying::discard;
use crate::leaves::copy_leaf;
use crate::object::{Object, Property, PropertyFlags};
use crate::taking::Takes;
use crate::value::Value;
use bitflags::Flags;
use std::alloc::{AllocError, Global};
use std::mem;

/// A struct whose copy is begun: the copies of its members so far, and the members that are left to copy.
#[derive(Drop)]
pub(crate) struct CopiedStruct<'a> {
    copies: Vec<Value>,
    left: &'a [Value],
}

/// An object whose copy is begun: the copies of its properties so far, and the properties that are left to copy.
#[derive(Drop)]
pub(crate) struct CopiedObject<'a> {
    type_: u32,
    id: u32,
    copies: Vec<Property>,
    /// The key of the property whose value is copied next.
    key: u32,
    /// The flags of that property.
    flags: PropertyFlags,
    left: &'a [Property],
}

/// A container whose copy is begun.
#[derive(Drop)]
pub(crate) enum Copying<'a> {
    Struct(CopiedStruct<'a>),
    Object(CopiedObject<'a>),
}

/// A borrowed container that is to be copied.
#[derive(Clone, Copy)]
pub(crate) enum Nested<'a> {
    Struct(&'a Vec<Value>),
    Object(&'a Object),
}

impl Takes for Vec<Value> {
    ghost has_room = { λ it. vec_len it < vec_capacity it };

    ghost takes = { TakesMember };

    #[inline(always)]
    fn put(&mut self, value: Value) {
        self.push_reserved(value);
    }
}

impl<'a> Takes for CopiedObject<'a> {
    ghost has_room = { λ it. vec_len it.copies < vec_capacity it.copies };

    ghost takes = { TakesProperty };

    #[inline(always)]
    fn put(&mut self, value: Value) {
        self.copies.push_reserved(Property {
            key: self.key,
            flags: self.flags,
            value,
        });
    }
}

/// Begins the copy of a struct or of an object.
#[inline(always)]
fn begin_copy(nested: Nested<'_>) -> Result<Copying<'_>, AllocError>
    ensures { IfOk result (λ begun. Begins (nested_view nested.entry) begun) }
{
    match nested {
        Nested::Struct(members) => match begin_struct(members) {
            Ok(begun) => Ok(Copying::Struct(begun)),
            Err(error) => Err(error),
        },
        Nested::Object(object) => match begin_object(object) {
            Ok(begun) => Ok(Copying::Object(begun)),
            Err(error) => Err(error),
        },
    }
}

/// Begins the copy of a struct.
#[inline(always)]
fn begin_struct(members: &Vec<Value>) -> Result<CopiedStruct<'_>, AllocError>
    ensures { IfOk result (λ begun. Begins (struct (views members.now.items)) (copying_variant.Struct begun)) }
{
    let copies = Vec::with_capacity(*members.allocator(), members.len())?;
    let left = members.as_slice();
    Ok(CopiedStruct { copies, left })
}

/// Begins the copy of an object.
#[inline(always)]
fn begin_object(object: &Object) -> Result<CopiedObject<'_>, AllocError>
    ensures { IfOk result (λ begun. Begins (object_view object.now) (copying_variant.Object begun)) }
{
    let properties = &object.properties;
    let copies = Vec::with_capacity(*properties.allocator(), properties.len())?;
    Ok(CopiedObject {
        type_: object.type_,
        id: object.id,
        copies,
        key: 0,
        flags: PropertyFlags::from_bits_retain(0),
        left: properties.as_slice(),
    })
}

impl<'a> CopiedStruct<'a> {
    /// Copies members up to the next that is a struct or an object, which is answered, or all of them. Refused only for want of memory.
    #[inline(always)]
    fn copy_on(&mut self) -> Result<Option<Nested<'a>>, AllocError>
        ensures { IfOk result
            (λ nested. CopiesOn (copying_variant.Struct self.old) nested (copying_variant.Struct self.new)) }
    {
        let mut left = self.left;
        while let Some((member, behind)) = left.split_first() {
            left = behind;
            self.copies.reserve(1)?;
            if let Some(nested) = copy_leaf(member, &mut self.copies)? {
                self.left = left;
                return Ok(Some(nested));
            }
        }
        Ok(None)
    }
}

impl<'a> CopiedObject<'a> {
    /// Copies properties up to the next whose value is a struct or an object, which is answered, or all of them. Refused only for want of memory.
    #[inline(always)]
    fn copy_on(&mut self) -> Result<Option<Nested<'a>>, AllocError>
        ensures { IfOk result
            (λ nested. CopiesOn (copying_variant.Object self.old) nested (copying_variant.Object self.new)) }
    {
        let mut left = self.left;
        while let Some((property, behind)) = left.split_first() {
            left = behind;
            self.key = property.key;
            self.flags = property.flags;
            self.copies.reserve(1)?;
            if let Some(nested) = copy_leaf(&property.value, self)? {
                self.left = left;
                return Ok(Some(nested));
            }
        }
        Ok(None)
    }
}

impl CopiedObject<'_> {
    /// The object of the copies so far.
    #[inline(always)]
    fn into_object(self) -> Object
        ensures { object_view result ≡ so_far (copying_variant.Object self.entry) }
    {
        Object {
            type_: self.type_,
            id: self.id,
            properties: self.copies,
        }
    }
}

impl<'a> Copying<'a> {
    /// Copies up to the next container in this one, which is answered, or to its end. Refused only for want of memory.
    #[inline(always)]
    fn copy_on(&mut self) -> Result<Option<Nested<'a>>, AllocError>
        ensures { IfOk result (λ nested. CopiesOn self.old nested self.new) }
    {
        match self {
            Copying::Struct(it) => it.copy_on(),
            Copying::Object(it) => it.copy_on(),
        }
    }

    fn allocator(&self) -> Global {
        match self {
            Copying::Struct(it) => *it.copies.allocator(),
            Copying::Object(it) => *it.copies.allocator(),
        }
    }

    /// Makes room for one more copy. Refused only for want of memory.
    #[inline(always)]
    fn reserve(&mut self) -> Result<(), AllocError>
        ensures place { OnOk result (HasPlace self.new) }
        ensures same { completed self.new ≡ completed self.old }
        ensures left { values_left self.new ≡ values_left self.old }
    {
        match self {
            Copying::Struct(it) => it.copies.reserve(1),
            Copying::Object(it) => it.copies.reserve(1),
        }
    }

    /// Appends the copy of the member, or of the property's value, at which copying stopped.
    #[inline(always)]
    fn put(&mut self, value: Value)
        requires { HasPlace self.old }
        ensures same { whole self.new ≡ completed self.old (view value) }
        ensures left { values_left self.new ≡ values_left self.old }
    {
        match self {
            Copying::Struct(it) => it.copies.push_reserved(value),
            Copying::Object(it) => it.copies.push_reserved(Property {
                key: it.key,
                flags: it.flags,
                value,
            }),
        }
    }

    /// The struct or object of the copies so far.
    #[inline(always)]
    fn into_value(self) -> Value
        ensures { view result ≡ so_far self.entry }
    {
        match self {
            Copying::Struct(it) => Value::Struct(it.copies),
            Copying::Object(it) => Value::Object(it.into_object()),
        }
    }
}

/// The containers whose copies are begun, each inside the one before.
#[derive(Drop)]
pub(crate) struct Copies<'a> {
    inner: Copying<'a>,
    /// The containers around the innermost, the outermost first.
    around: Vec<Copying<'a>>,
}

impl<'a> Copies<'a> {
    /// Copies up to the next container, whose copy is begun, or to the end of the innermost, which is put into the one around it. Answers whether
    /// there is more to do: if not, the innermost is the outermost, and is copied. Refused only for want of memory.
    #[inline(always)]
    fn step(&mut self) -> Result<bool, AllocError>
        ensures { IfOk result (λ goes_on. Steps goes_on self.old self.new) }
    {
        let Some(nested) = self.inner.copy_on()? else {
            return self.end();
        };
        let begun = begin_copy(nested)?;
        if let Err(error) = self.around.reserve(1) {
            drop(begun);
            return Err(error);
        }
        let outer = mem::replace(&mut self.inner, begun);
        self.around.push_reserved(outer);
        Ok(true)
    }

    /// Puts the innermost, whose copy is whole, into the one around it. Answers whether there is one around it.
    #[inline(always)]
    fn end(&mut self) -> Result<bool, AllocError>
        ensures { IfOk result (λ goes_on. Ends goes_on self.old self.new) }
    {
        let Some(outer) = self.around.pop() else {
            return Ok(false);
        };
        let ended = mem::replace(&mut self.inner, outer);
        let value = ended.into_value();
        if let Err(error) = self.inner.reserve() {
            discard(value);
            return Err(error);
        }
        self.inner.put(value);
        Ok(true)
    }

    /// Drops the copies by loops, at any nesting depth.
    #[cold]
    #[inline(never)]
    fn give_up(self) {
        let Copies { inner, around } = self;
        discard(inner.into_value());
        for outer in around {
            discard(outer.into_value());
        }
    }
}

/// How many levels of containers in one another are copied by calls, which is faster; what is nested deeper is copied by a loop.
pub(crate) const CALL_LEVELS: usize = 512;

/// Copies a container: this many levels by calls. Refused only for want of memory, as those below are.
#[cycle(levels)]
#[inline(always)]
pub(crate) fn copy_nested(nested: Nested<'_>, levels: usize) -> Result<Value, AllocError>
    ensures { IfOk result (λ copy. view copy ≡ nested_view nested.entry) }
{
    Ok(match nested {
        Nested::Struct(members) if levels > 0 => Value::Struct(copy_members(members, levels - 1)?),
        Nested::Object(object) if levels > 0 => Value::Object(copy_object(object, levels - 1)?),
        deep => copy_by_loop(deep)?,
    })
}

/// Copies members.
#[cycle(levels)]
#[inline(never)]
fn copy_members(members: &Vec<Value>, levels: usize) -> Result<Vec<Value>, AllocError>
    ensures { IfOk result (λ copies. views copies.items ≡ views members.now.items) }
{
    let mut copies = Vec::with_capacity(*members.allocator(), members.len())?;
    let mut left = members.as_slice();
    while let Some((member, behind)) = left.split_first() {
        left = behind;
        if let Err(error) = copy_member(member, &mut copies, levels) {
            discard(Value::Struct(copies));
            return Err(error);
        }
    }
    Ok(copies)
}

/// Appends the copy of a member to others.
#[cycle(levels)]
#[inline(always)]
fn copy_member(member: &Value, copies: &mut Vec<Value>, levels: usize) -> Result<(), AllocError>
    ensures { OnOk result (TakesMember copies.old (view member.now) copies.new) }
{
    copies.reserve(1)?;
    if let Some(nested) = copy_leaf(member, copies)? {
        copies.put(copy_nested(nested, levels)?);
    }
    Ok(())
}

/// Copies an object.
#[cycle(levels)]
#[inline(never)]
pub(crate) fn copy_object(object: &Object, levels: usize) -> Result<Object, AllocError>
    ensures { IfOk result (λ copy. object_view copy ≡ object_view object.now) }
{
    let mut begun = begin_object(object)?;
    let mut left = begun.left;
    while let Some((property, behind)) = left.split_first() {
        left = behind;
        if let Err(error) = copy_property(property, &mut begun, levels) {
            discard(Value::Object(begun.into_object()));
            return Err(error);
        }
    }
    Ok(begun.into_object())
}

/// Appends the copy of a property to others.
#[cycle(levels)]
#[inline(always)]
fn copy_property(
    property: &Property,
    begun: &mut CopiedObject<'_>,
    levels: usize,
) -> Result<(), AllocError>
    ensures { OnOk result ((left : List Property) → with_left begun.new left ≡ with_left begun.old (property.now ∷ left)) }
{
    begun.key = property.key;
    begun.flags = property.flags;
    begun.copies.reserve(1)?;
    if let Some(nested) = copy_leaf(&property.value, begun)? {
        begun.put(copy_nested(nested, levels)?);
    }
    Ok(())
}

/// Copies a container by a loop.
#[cold]
#[inline(never)]
fn copy_by_loop(nested: Nested<'_>) -> Result<Value, AllocError>
    ensures { IfOk result (λ copy. view copy ≡ nested_view nested.entry) }
{
    let inner = begin_copy(nested)?;
    let around = Vec::new(inner.allocator());
    let mut copies = Copies { inner, around };
    loop {
        match copies.step() {
            Ok(true) => {}
            Ok(false) => {
                drop(copies.around);
                return Ok(copies.inner.into_value());
            }
            Err(error) => {
                copies.give_up();
                return Err(error);
            }
        }
    }
}
