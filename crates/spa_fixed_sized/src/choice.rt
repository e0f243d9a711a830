//! Reads the bodies of choices, and writes their pods.
ghost use Rattle.std.specs.Prelude.{◌≡◌, ◌*◌, ◌<◌, ◌≤◌, ◌∷◌, ◌++◌, IfErr, IfOk, IfSome, OnErr, OnOk, drop, length, map, take};
ghost use Rattle.spa_fixed_sized.specs.Choices as spec;
ghost use Rattle.spa_fixed_sized.specs.Choices.{choice_body, choice_tree};
ghost use Rattle.spa_fixed_sized.specs.Reading.{AreWhole, ReadsAs, RefusesChoice, RefusesValues};
ghost use Rattle.spa_format.specs.Faults.{choice_header_size};
ghost use Rattle.spa_format.specs.Kind.{IsFixedBody};
ghost use Rattle.spa_format.specs.Pod.{AreElements, IsBody};
ghost use Rattle.spa_sink.specs.Writing.{Begun, RefusesPiece};
ghost use Rattle.spa_format.specs.Encoding.{encoded_body, encoding_of, fixed_bodies, encoded_pod};
ghost use Rattle.spa_format.specs.Tree.{choice, choice_type, enum_choice, none_choice, range_choice, step_choice};
ghost use Rattle.spa_format.specs.Typed.{AreOf, IsTyped};
ghost use Rattle.spa_format.specs.Words.{size_limit, word_at};

use crate::array::{next_element, open_array, read_elements};
use crate::elements::{body_len, put_parts};
use crate::fault::Refusal;
use crate::fixed::{CanonicalFixedSizedPod, ChoiceElement};
use bitflags::Flags;
use spa_bytes::{HEADER_LEN, joined, two_words, u32_at};
use spa_sink::{GenError, PodSink};
use spa_utils::{Choice, ChoiceEnum, ChoiceFlags, SpaTypes};
use std::alloc::Global;

/// The shape word of a None choice, which has its default alone.
pub const NONE_SHAPE: u32 = 0;

/// The shape word of a choice with a minimum and a maximum.
pub const RANGE_SHAPE: u32 = 1;

/// The shape word of a choice with a minimum, a maximum and a step.
pub const STEP_SHAPE: u32 = 2;

/// The shape word of a choice with alternatives.
pub const ENUM_SHAPE: u32 = 3;

/// The shape word of a choice with flags.
pub const FLAGS_SHAPE: u32 = 4;

/// How many values a choice of this shape takes, the default first; `None`: all that it holds.
#[inline(always)]
pub fn count_taken(shape: u32) -> Option<usize>
    ensures taken { result ≡ spec.count_taken shape }
    ensures few { IfSome result (λ count. count ≤ 4) }
{
    match shape {
        NONE_SHAPE => Some(1),
        RANGE_SHAPE => Some(3),
        STEP_SHAPE => Some(4),
        _ => None,
    }
}

/// The greatest number of values that a choice has without a list of any length: default, minimum, maximum and step.
const MOST_FIRST: usize = 4;

/// The length in bytes of a choice's pod before its values: its header, its shape and flags, and the child header.
const HEADERS_LEN: usize = 24;

/// The greatest length in bytes of the bodies of `MOST_FIRST` values.
const FIRST_LEN: usize = 32;

/// The length in bytes of `HEADERS_LEN` and `FIRST_LEN` together.
const START_LEN: usize = 56;

/// How many elements there are.
fn count<T: ChoiceElement>(elements: &[u8]) -> usize
    requires { AreWhole T.SIZE elements.now }
    ensures { result * T.SIZE ≡ length elements.now }
{
    elements.len() / T::SIZE
}

/// Reads default, minimum and maximum of a Range. The values that follow them are surplus.
#[inline(always)]
fn read_range<T: ChoiceElement>(elements: &[u8]) -> Result<ChoiceEnum<T>, Refusal>
    requires { AreWhole T.SIZE elements.now }
    ensures read { IfOk result (ReadsAs range_choice T.kind T.fixed elements.now) }
    ensures refused { IfErr result (RefusesValues range_choice T.SIZE elements.now) }
{
    if count::<T>(elements) < 3 {
        return Err(Refusal::MissingChoiceValues);
    }
    let (rest, default) = next_element(elements);
    let (rest, min) = next_element(rest);
    let (_, max) = next_element(rest);
    Ok(ChoiceEnum::Range { default, min, max })
}

/// Reads default, minimum, maximum and step of a Step. The values that follow them are surplus.
#[inline(always)]
fn read_step<T: ChoiceElement>(elements: &[u8]) -> Result<ChoiceEnum<T>, Refusal>
    requires { AreWhole T.SIZE elements.now }
    ensures read { IfOk result (ReadsAs step_choice T.kind T.fixed elements.now) }
    ensures refused { IfErr result (RefusesValues step_choice T.SIZE elements.now) }
{
    if count::<T>(elements) < 4 {
        return Err(Refusal::MissingChoiceValues);
    }
    let (rest, default) = next_element(elements);
    let (rest, min) = next_element(rest);
    let (rest, max) = next_element(rest);
    let (_, step) = next_element(rest);
    Ok(ChoiceEnum::Step {
        default,
        min,
        max,
        step,
    })
}

/// Reads the default, and answers it with the bytes that follow it. Refused as `MissingChoiceValues` where there are no values.
#[inline(always)]
fn read_default<T: ChoiceElement>(elements: &[u8]) -> Result<(&[u8], T), Refusal>
    requires { AreWhole T.SIZE elements.now }
    ensures some { OnOk result (T.SIZE ≤ length elements.now) }
    ensures says { IfOk result (λ read. IsFixedBody T.kind (take T.SIZE elements.now) (T.fixed read.1)) }
    ensures rest { IfOk result (λ read. read.0.now ≡ drop T.SIZE elements.now) }
    ensures refused { IfErr result (RefusesValues none_choice T.SIZE elements.now) }
{
    if count::<T>(elements) < 1 {
        return Err(Refusal::MissingChoiceValues);
    }
    Ok(next_element(elements))
}

/// Reads the default, and all values that follow it.
#[inline(always)]
fn read_list<T: ChoiceElement>(alloc: Global, elements: &[u8]) -> Result<(T, Vec<T>), Refusal>
    requires { AreWhole T.SIZE elements.now }
    ensures read { IfOk result (λ list. AreElements T.kind (T.fixed list.0 ∷ map T.fixed list.1.items) elements.now) }
    ensures refused { IfErr result (RefusesValues enum_choice T.SIZE elements.now) }
{
    let (rest, default) = read_default(elements)?;
    Ok((default, read_elements(alloc, rest)?))
}

/// Reads the body of a choice over the type `T`. Refused as `WrongSize` where the child size isn't the type's or the values
/// aren't whole, as `InvalidChoiceType` where the shape word is above 4, as `MissingChoiceValues` where there are fewer values
/// than the shape needs, and else only as `OutOfMemory`. Only Enum and Flags take memory.
#[inline(always)]
pub fn read_choice<T: ChoiceElement>(alloc: Global, body: &[u8]) -> Result<Choice<T>, Refusal>
    requires header { choice_header_size ≤ length body.now }
    requires child_type { word_at body.now 12 ≡ T.TYPE }
    ensures read { IfOk result (λ choice. IsBody (choice_tree T.kind T.fixed choice) body.now) }
    ensures refused { IfErr result (RefusesChoice T.kind body.now) }
{
    let (_, array) = body.split_at(HEADER_LEN);
    let Some(elements) = open_array::<T>(array) else {
        return Err(Refusal::WrongSize);
    };
    let flags = ChoiceFlags::from_bits_retain(u32_at(body, 4));
    match u32_at(body, 0) {
        NONE_SHAPE => Ok(Choice(
            ChoiceFlags::from_bits_retain(0),
            ChoiceEnum::None(read_default(elements)?.1),
        )),
        RANGE_SHAPE => Ok(Choice(flags, read_range(elements)?)),
        STEP_SHAPE => Ok(Choice(flags, read_step(elements)?)),
        ENUM_SHAPE => {
            let (default, alternatives) = read_list(alloc, elements)?;
            let values = ChoiceEnum::Enum {
                default,
                alternatives,
            };
            Ok(Choice(flags, values))
        }
        FLAGS_SHAPE => {
            let (default, flags_listed) = read_list(alloc, elements)?;
            let values = ChoiceEnum::Flags {
                default,
                flags: flags_listed,
            };
            Ok(Choice(flags, values))
        }
        _ => Err(Refusal::InvalidChoiceType),
    }
}

/// The bodies of at most four values one after another, and zeros behind them.
fn first_bodies<T: CanonicalFixedSizedPod>(values: &[&T]) -> [u8; FIRST_LEN]
    requires { length values.now ≤ MOST_FIRST }
    ensures bodies { take (length values.now * T.SIZE) result ≡ fixed_bodies (map (λ x. T.fixed x.now) values.now) }
    ensures typed { AreOf T.kind (map (λ x. T.fixed x.now) values.now) }
{
    let mut bodies = [0; FIRST_LEN];
    let mut at = 0;
    for value in values {
        bodies[at..at + T::SIZE].copy_from_slice(&value.padded_body()[..T::SIZE]);
        at += T::SIZE;
    }
    bodies
}

/// The first bytes of a choice's pod: its header, its shape and flags, the child header, and the first values.
fn start_of(
    pod: [u8; 8],
    choice: [u8; 8],
    child: [u8; 8],
    bodies: [u8; FIRST_LEN],
) -> [u8; START_LEN]
    ensures { result ≡ ((pod ++ choice) ++ child) ++ bodies }
{
    let mut start = [0; START_LEN];
    let (words, back) = start.split_at_mut(HEADERS_LEN);
    back.copy_from_slice(&bodies);
    let (front, last) = words.split_at_mut(2 * HEADER_LEN);
    front.copy_from_slice(&joined(pod, choice));
    last.copy_from_slice(&child);
    start
}

/// Appends the pod of a choice with this shape word, these flags and these values: the first ones, and the others of a list.
fn put_values<T: CanonicalFixedSizedPod, S: PodSink>(
    sink: &mut S,
    shape: u32,
    flags: u32,
    first: &[&T],
    more: &[T],
) -> Result<(), GenError>
    requires { length first.now ≤ MOST_FIRST }
    ensures ok { OnOk result (S.appends sink.old
        (encoded_pod choice_type (choice_body shape flags T.kind (map
        (λ x. T.fixed x.now) first.now ++ map T.fixed more.now))) sink.new) }
    ensures typed { OnOk result ((flags < size_limit)
        × AreOf T.kind (map (λ x. T.fixed x.now) first.now ++ map T.fixed more.now)) }
    ensures fits { OnOk result (length (choice_body shape flags T.kind (map
        (λ x. T.fixed x.now) first.now ++ map T.fixed more.now)) < size_limit) }
    ensures begun { OnErr result (Begun S.appends sink.old
        (encoded_pod choice_type (choice_body shape flags T.kind (map
        (λ x. T.fixed x.now) first.now ++ map T.fixed more.now))) sink.new) }
    ensures refused { IfErr result (RefusesPiece ⊥
        (size_limit ≤ length (choice_body shape flags T.kind (map
        (λ x. T.fixed x.now) first.now ++ map T.fixed more.now)))
        (λ e. S.refuses sink.old (length
        (encoded_pod choice_type (choice_body shape flags T.kind (map
        (λ x. T.fixed x.now) first.now ++ map T.fixed more.now)))) sink.new e) sink.old sink.new) }
{
    let first_len = first.len() * T::SIZE;
    let Some(size) = body_len::<T>(2 * HEADER_LEN + first_len, more.len()) else {
        return Err(GenError::TooLarge);
    };
    let start = start_of(
        two_words(size, SpaTypes::Choice.0),
        two_words(shape, flags),
        two_words(T::SIZE as u32, T::TYPE),
        first_bodies(first),
    );
    put_parts(sink, &start[..HEADERS_LEN + first_len], more, size)
}

/// Appends the encoding of a choice, with the flags that it holds. Refused as `TooLarge` where a size word would be 4294967296
/// or more, before a byte is appended, and else only with the sink's error; the sink may then have taken a beginning of the
/// encoding.
pub fn put_choice<T: ChoiceElement, S: PodSink>(
    sink: &mut S,
    choice: &Choice<T>,
) -> Result<(), GenError>
    ensures ok { OnOk result (S.appends sink.old (encoding_of (choice_tree T.kind T.fixed choice.now)) sink.new) }
    ensures typed { OnOk result (IsTyped (choice_tree T.kind T.fixed choice.now)) }
    ensures fits { OnOk result (length (encoded_body (choice_tree T.kind T.fixed choice.now)) < size_limit) }
    ensures begun { OnErr result (Begun S.appends sink.old
        (encoding_of (choice_tree T.kind T.fixed choice.now)) sink.new) }
    ensures refused { IfErr result (RefusesPiece ⊥
        (size_limit ≤ length (encoded_body (choice_tree T.kind T.fixed choice.now)))
        (λ e. S.refuses sink.old (length
        (encoding_of (choice_tree T.kind T.fixed choice.now))) sink.new e) sink.old sink.new) }
{
    let flags = choice.0.bits();
    match &choice.1 {
        ChoiceEnum::None(value) => put_values(sink, NONE_SHAPE, flags, &[value], &[]),
        ChoiceEnum::Range { default, min, max } => {
            put_values(sink, RANGE_SHAPE, flags, &[default, min, max], &[])
        }
        ChoiceEnum::Step {
            default,
            min,
            max,
            step,
        } => put_values(sink, STEP_SHAPE, flags, &[default, min, max, step], &[]),
        ChoiceEnum::Enum {
            default,
            alternatives,
        } => put_values(sink, ENUM_SHAPE, flags, &[default], alternatives.as_slice()),
        ChoiceEnum::Flags {
            default,
            flags: listed,
        } => { put_values(sink, FLAGS_SHAPE, flags, &[default], listed.as_slice()) }
    }
}

/// Appends the encoding of an Enum without flags, of this default and these alternatives, with the refusals of `put_choice`.
pub fn put_enum<T: ChoiceElement, S: PodSink>(
    sink: &mut S,
    default: &T,
    alternatives: &[T],
) -> Result<(), GenError>
    ensures ok { OnOk result (S.appends sink.old (encoding_of (choice enum_choice 0 T.kind (T.fixed default.now)
        (map T.fixed alternatives.now))) sink.new) }
    ensures typed { OnOk result (IsTyped (choice enum_choice 0 T.kind (T.fixed default.now) (map T.fixed alternatives.now))) }
    ensures fits { OnOk result (length (encoded_body (choice enum_choice 0 T.kind (T.fixed default.now)
        (map T.fixed alternatives.now))) < size_limit) }
    ensures begun { OnErr result (Begun S.appends sink.old
        (encoding_of (choice enum_choice 0 T.kind (T.fixed default.now) (map T.fixed alternatives.now))) sink.new) }
    ensures refused { IfErr result (RefusesPiece ⊥
        (size_limit ≤ length (encoded_body (choice enum_choice 0 T.kind (T.fixed default.now)
        (map T.fixed alternatives.now))))
        (λ e. S.refuses sink.old (length (encoding_of (choice enum_choice 0 T.kind (T.fixed default.now)
        (map T.fixed alternatives.now)))) sink.new e) sink.old sink.new) }
{
    put_values(sink, ENUM_SHAPE, 0, &[default], alternatives)
}
