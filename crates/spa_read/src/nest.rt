//! The reader's explicit stack: the containers whose bodies are being read, each inside the next one.
ghost use Rattle.std.specs.Prelude.{◌≡◌, ◌⊎◌, ◌+◌, ◌*◌, ◌<◌, ◌≤◌, ◌^◌, ◌++◌, ◌∷◌, [], ℕ, List, true, IfErr, IfNone, IfOk, IfSome, OnOk, length, reverse};
ghost use Rattle.spa_fixed_sized.specs.declared.fault.Refusal.TheVariants as refusal;
ghost use Rattle.spa_format.specs.Tree.{object_type, struct_type};
ghost use Rattle.spa_format.specs.Words.{header_size};
ghost use Rattle.spa_read.specs.Nesting.{EndsInner, IsBegunAs, IsUnderWay, RefusesIn, Steps, ahead, around, so_far};
ghost use Rattle.spa_value.specs.View.{view};

use crate::inside::{Inside, OpenObject};
use crate::refused::Refused;
use bitflags::Flags;
use spa_bytes::{Front, HEADER_LEN, SECOND_WORD, u32_at};
use spa_fixed_sized::Refusal;
use spa_utils::SpaTypes;
use spa_value::{PropertyFlags, Value, discard};
use std::alloc::{AllocError, Global};
use std::mem;

/// A container whose header is read, and whose body isn't yet read to its end.
#[derive(Drop)]
pub(crate) struct PartlyRead<'de> {
    /// The bytes behind it in the input, which are what is left of the body around it.
    pub(crate) rest: &'de [u8],
    pub(crate) inside: Inside,
}

/// Begins the container of a front, and answers it with what is left of its body. Refused as `WrongSize` where an object's body is too short for
/// its type and id.
#[inline(always)]
pub(crate) fn begin_reading<'de>(
    alloc: Global,
    front: Front<'de>,
) -> Result<(PartlyRead<'de>, &'de [u8]), Refusal>
    requires { (front.type_ ≡ struct_type) ⊎ (front.type_ ≡ object_type) }
    ensures begun { IfOk result
        (λ begun. IsBegunAs front.entry.type_ front.entry.body.now front.entry.rest.now begun.0 begun.1.now) }
    ensures refused { IfErr result (λ why. (why ≡ refusal.WrongSize) × (front.entry.type_ ≡ object_type)
        × (length front.entry.body.now < header_size)) }
{
    if front.type_ == SpaTypes::Struct.0 {
        let begun = PartlyRead {
            rest: front.rest,
            inside: Inside::Struct(Vec::new(alloc)),
        };
        return Ok((begun, front.body));
    }
    if front.body.len() < HEADER_LEN {
        return Err(Refusal::WrongSize);
    }
    let (_, behind) = front.body.split_at(HEADER_LEN);
    let object = OpenObject {
        type_: u32_at(front.body, 0),
        id: u32_at(front.body, SECOND_WORD),
        properties: Vec::new(alloc),
        key: 0,
        flags: PropertyFlags::from_bits_retain(0),
    };
    let begun = PartlyRead {
        rest: front.rest,
        inside: Inside::Object(object),
    };
    Ok((begun, behind))
}

/// The stack of the containers that are begun, each inside the next one.
#[derive(Drop)]
pub(crate) struct Nest<'de> {
    /// The innermost container.
    inner: PartlyRead<'de>,
    /// The containers between it and the outermost, the innermost last.
    between: Vec<PartlyRead<'de>>,
    /// The outermost container, where it isn't the innermost: so two levels take no memory for the list.
    outermost: Option<PartlyRead<'de>>,
}

impl<'de> Nest<'de> {
    /// The stack of one container.
    #[inline(always)]
    pub(crate) fn new(alloc: Global, inner: PartlyRead<'de>) -> Nest<'de>
        ensures inner { result.inner ≡ inner.entry }
        ensures alone { around result ≡ [] }
    {
        Nest {
            inner,
            between: Vec::new(alloc),
            outermost: None,
        }
    }

    /// Reads up to the next container, which is begun, or to the end of the innermost, which is put into the one around it. Answers whether there is
    /// more to do: if not, the innermost is the outermost, and is whole.
    #[inline(always)]
    pub(crate) fn step<const LENIENT: bool>(
        &mut self,
        alloc: Global,
        left: &mut &'de [u8],
        opened: &mut u64,
    ) -> Result<bool, Refused<'de>>
        requires { 8 * opened.old + length left.old.now < 2 ^ 64 }
        ensures few { 8 * opened.new ≤ 8 * opened.old + length left.old.now }
        ensures more { opened.old ≤ opened.new }
        ensures taken { IfOk result (λ goes_on. (input : List ℕ)
            → IsUnderWay LENIENT input self.old.inner (reverse (around self.old)) left.old.now opened.old
            → Steps LENIENT goes_on input self.new.inner (reverse (around self.new)) left.new.now opened.new) }
        ensures nearer { IfOk result (λ goes_on. goes_on ≡ true
            → ahead self.new.inner (reverse (around self.new)) left.new.now < ahead self.old.inner
            (reverse (around self.old)) left.old.now) }
        ensures refused { IfErr result (λ refused. (input : List ℕ)
            → IsUnderWay LENIENT input self.old.inner (reverse (around self.old)) left.old.now opened.old
            → RefusesIn LENIENT input refused.place.now opened.new refused.why) }
    {
        let Some(front) = self.inner.inside.read_on::<LENIENT>(alloc, left, opened)? else {
            *left = self.inner.rest;
            return self.end();
        };
        match begin_reading(alloc, front) {
            Ok((begun, body)) => {
                let Ok(()) = self.push(begun) else {
                    return Err(Refused::lacking_memory());
                };
                *left = body;
                Ok(true)
            }
            Err(why) => Err(Refused { place: *left, why }),
        }
    }

    /// Makes a container that is begun the innermost. Refused only for want of memory.
    #[inline(always)]
    fn push(&mut self, begun: PartlyRead<'de>) -> Result<(), AllocError>
        ensures inner { OnOk result (self.new.inner ≡ begun.entry) }
        ensures around { OnOk result (around self.new ≡ around self.old ++ self.old.inner ∷ []) }
    {
        if self.outermost.is_none() && self.between.is_empty() {
            self.outermost = Some(mem::replace(&mut self.inner, begun));
            return Ok(());
        }
        self.between.reserve(1)?;
        let last = mem::replace(&mut self.inner, begun);
        self.between.push_reserved(last);
        Ok(())
    }

    /// Removes and answers the container around the innermost. None: there is none.
    #[inline(always)]
    fn pop(&mut self) -> Option<PartlyRead<'de>>
        ensures inner { self.new.inner ≡ self.old.inner }
        ensures some { IfSome result (λ last. around self.old ≡ around self.new ++ last ∷ []) }
        ensures none { IfNone result (around self.old ≡ []) }
    {
        if let Some(open) = self.between.pop() {
            return Some(open);
        }
        self.outermost.take()
    }

    /// Puts the innermost, which is whole, into the container around it. Answers whether there is one. Refused only as `OutOfMemory`.
    #[inline(always)]
    fn end(&mut self) -> Result<bool, Refused<'de>>
        ensures ended { IfOk result (λ within. EndsInner within self.old self.new) }
        ensures refused { IfErr result (λ refused. refused.why ≡ refusal.OutOfMemory) }
    {
        let Some(around) = self.pop() else {
            return Ok(false);
        };
        let ended = mem::replace(&mut self.inner, around);
        let behind = ended.rest;
        let value = ended.inside.into_value();
        if self.inner.inside.reserve(behind).is_err() {
            discard(value);
            return Err(Refused::lacking_memory());
        }
        self.inner.inside.put(value);
        Ok(true)
    }

    /// The value of the innermost container, which is the only one.
    #[inline(always)]
    pub(crate) fn into_value(self) -> Value
        ensures { view result ≡ so_far self.entry.inner.inside }
    {
        let Nest {
            inner,
            between: _,
            outermost: _,
        } = self;
        inner.inside.into_value()
    }

    /// Drops what is read so far by loops, at any nesting depth.
    #[cold]
    #[inline(never)]
    pub(crate) fn give_up(self) {
        let Nest {
            inner,
            between,
            outermost,
        } = self;
        discard(inner.inside.into_value());
        for open in between {
            discard(open.inside.into_value());
        }
        if let Some(open) = outermost {
            discard(open.inside.into_value());
        }
    }
}
