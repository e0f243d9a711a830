//! The calls of a builder, over its bytes and its frames.
ghost use Rattle.std.specs.Prelude.{◌≡◌, ◌+◌, ◌*◌, ◌<◌, ◌≤◌, ◌∷◌, ◌++◌, [], List, ℕ, None, IsTrue, false, length, map, Decides, IfOk, true};
ghost use Rattle.spa_format.specs.Kind.{Fixed};
ghost use Rattle.spa_fixed_sized.specs.Choices.{choice_tree};
ghost use Rattle.spa_fixed_sized.specs.Reading.{AreWhole};
ghost use Rattle.spa_format.specs.Pod.{AreElements};
ghost use Rattle.spa_format.specs.Tree.{array, fixed};
ghost use Rattle.spa_format.specs.Encoding.{encoded_body};
ghost use Rattle.spa_format.specs.Words.{header_size, size_limit, word_bytes};
ghost use Rattle.spa_value.specs.View.{array_view};
ghost use Rattle.spa_builder.specs.State.{Partial, State};
ghost use Rattle.spa_builder.specs.Step.{state_after_abandon, add, state_after_pop, state_with_key, outcome_if_fits, outcome_with_tree, step, outcome_of};
ghost use Rattle.spa_builder.specs.Fields.{IsAt, IsFair, HasState, fields_of, so_far, what_of};
ghost use Rattle.spa_builder.specs.Framed.{is_nothing};
ghost use Rattle.spa_builder.specs.Innermost.{takes_elements};
ghost use Rattle.spa_builder.specs.Answers.{AddsBody, AddsElement, AddsEncoding, Makes};

use crate::begun::{BegunPod, Stage, What};
use crate::bytes::{put_bodies, put_fixed_pod, put_padding, put_pod};
use crate::elements::{is_finished, is_first, takes_element, takes_elements, with_element};
use crate::frames::{Frames, SIZE_LIMIT, admit, fill, takes_key, takes_trees};
use spa_bytes::{HEADER_LEN, two_words};
use spa_fixed_sized::{CanonicalFixedSizedPod, ChoiceElement, choice_size, put_array, put_choice};
use spa_spare_capacity::Written;
use spa_utils::{Choice, Errno, Frame};
use spa_value::ValueArray;

/// Adds a pod whose body is given in two parts, where a value of any type is allowed.
#[inline(always)]
pub(crate) fn add_body(
    bytes: &mut Written,
    frames: &mut Frames,
    type_: u32,
    front: &[u8],
    back: &[u8],
) -> Result<(), Errno>
    requires holds { HasState (fields_of bytes.old frames.old) }
    requires back { length back.now ≤ header_size }
    ensures { AddsBody type_ (front.now ++ back.now) (fields_of bytes.old frames.old)
        (fields_of bytes.new frames.new) result }
{
    let innermost = frames.innermost();
    let size = front.len().saturating_add(back.len());
    admit(bytes.len(), frames, size)?;
    put_pod(bytes, type_, front, back)?;
    fill(frames, innermost);
    Ok(())
}

/// Adds a value by its encoding, with a body of this size, where a value of any type is allowed.
#[inline(always)]
pub(crate) fn add_encoding(
    bytes: &mut Written,
    frames: &mut Frames,
    size: usize,
    encoding: &[u8],
) -> Result<(), Errno>
    requires holds { HasState (fields_of bytes.old frames.old) }
    ensures { AddsEncoding size encoding.now (fields_of bytes.old frames.old)
        (fields_of bytes.new frames.new) result }
{
    let innermost = frames.innermost();
    admit(bytes.len(), frames, size)?;
    bytes.append(encoding)?;
    fill(frames, innermost);
    Ok(())
}

/// The size in bytes of the body of an array with `count` elements; where it is 4294967296 or more, any size that is.
fn array_size<T: CanonicalFixedSizedPod>(count: usize) -> usize
    ensures exact { result < size_limit → result ≡ header_size + count * T.SIZE }
    ensures large { size_limit ≤ result → size_limit ≤ header_size + count * T.SIZE }
{
    count.saturating_mul(T::SIZE).saturating_add(HEADER_LEN)
}

/// Adds an array of these values, where a value of any type is allowed. Where memory runs out, the part that was written is
/// removed.
pub(crate) fn add_values<T: CanonicalFixedSizedPod>(
    bytes: &mut Written,
    frames: &mut Frames,
    values: &[T],
) -> Result<(), Errno>
    requires holds { HasState (fields_of bytes.old frames.old) }
    ensures { (s : State) → IsAt (fields_of bytes.old frames.old) s
        → Makes (step s (add (array T.kind (map T.fixed values.now)))) (fields_of bytes.old frames.old)
        (fields_of bytes.new frames.new) result }
{
    let innermost = frames.innermost();
    let had = bytes.len();
    let size = array_size::<T>(values.len());
    admit(had, frames, size)?;
    bytes.reserve(size.saturating_add(2 * HEADER_LEN));
    match put_array(bytes, values) {
        Ok(()) => {
            fill(frames, innermost);
            Ok(())
        }
        Err(_) => {
            bytes.truncate(had);
            Err(Errno::NOMEM)
        }
    }
}

/// The size in bytes of the body of a choice; where it is 4294967296 or more, any size that is.
fn size_of_choice<T: ChoiceElement>(choice: &Choice<T>) -> usize
    ensures exact { result < size_limit → result ≡ length (encoded_body (choice_tree T.kind T.fixed choice.now)) }
    ensures large { size_limit ≤ result → size_limit ≤ length (encoded_body (choice_tree T.kind T.fixed choice.now)) }
{
    match choice_size(choice) {
        Some(size) => size as usize,
        None => SIZE_LIMIT,
    }
}

/// Adds a choice, where a value of any type is allowed. Where memory runs out, the part that was written is removed.
pub(crate) fn add_whole_choice<T: ChoiceElement>(
    bytes: &mut Written,
    frames: &mut Frames,
    choice: &Choice<T>,
) -> Result<(), Errno>
    requires holds { HasState (fields_of bytes.old frames.old) }
    ensures { (s : State) → IsAt (fields_of bytes.old frames.old) s
        → Makes (step s (add (choice_tree T.kind T.fixed choice.now))) (fields_of bytes.old frames.old)
        (fields_of bytes.new frames.new) result }
{
    let innermost = frames.innermost();
    let had = bytes.len();
    let size = size_of_choice(choice);
    admit(had, frames, size)?;
    bytes.reserve(size.saturating_add(2 * HEADER_LEN));
    match put_choice(bytes, choice) {
        Ok(()) => {
            fill(frames, innermost);
            Ok(())
        }
        Err(_) => {
            bytes.truncate(had);
            Err(Errno::NOMEM)
        }
    }
}

/// Whether the bytes are bodies of the type, one after another without remainder.
pub(crate) fn are_bodies<T: CanonicalFixedSizedPod>(bytes: &[u8]) -> bool
    ensures { Decides result (AreWhole T.SIZE bytes.now) }
{
    if T::SIZE == 0 {
        return bytes.is_empty();
    }
    bytes.len() % T::SIZE == 0
}

/// Adds an array from the bodies of its elements, where a value of any type is allowed. Where memory runs out, the part that was written is
/// removed.
pub(crate) fn add_bodies<T: CanonicalFixedSizedPod>(
    bytes: &mut Written,
    frames: &mut Frames,
    bodies: &[u8],
) -> Result<(), Errno>
    requires holds { HasState (fields_of bytes.old frames.old) }
    requires whole { AreWhole T.SIZE bodies.now }
    ensures { (s : State) (xs : List Fixed) → IsAt (fields_of bytes.old frames.old) s
        → AreElements T.kind xs bodies.now
        → Makes (step s (add (array T.kind xs))) (fields_of bytes.old frames.old)
        (fields_of bytes.new frames.new) result }
{
    let innermost = frames.innermost();
    let had = bytes.len();
    admit(had, frames, HEADER_LEN + bodies.len())?;
    bytes.reserve(bodies.len().saturating_add(3 * HEADER_LEN));
    match put_bodies::<T>(bytes, bodies) {
        Ok(()) => {
            fill(frames, innermost);
            Ok(())
        }
        Err(_) => {
            bytes.truncate(had);
            Err(Errno::NOMEM)
        }
    }
}

/// Adds an array, where a value of any type is allowed.
pub(crate) fn add_elements(
    bytes: &mut Written,
    frames: &mut Frames,
    values: &ValueArray,
) -> Result<(), Errno>
    requires holds { HasState (fields_of bytes.old frames.old) }
    ensures { (s : State) → IsAt (fields_of bytes.old frames.old) s
        → Makes (step s (add (array_view values.now))) (fields_of bytes.old frames.old)
        (fields_of bytes.new frames.new) result }
{
    match values {
        ValueArray::None(xs) => add_values(bytes, frames, xs.as_slice()),
        ValueArray::Bool(xs) => add_values(bytes, frames, xs.as_slice()),
        ValueArray::Id(xs) => add_values(bytes, frames, xs.as_slice()),
        ValueArray::Int(xs) => add_values(bytes, frames, xs.as_slice()),
        ValueArray::Long(xs) => add_values(bytes, frames, xs.as_slice()),
        ValueArray::Float(xs) => add_values(bytes, frames, xs.as_slice()),
        ValueArray::Double(xs) => add_values(bytes, frames, xs.as_slice()),
        ValueArray::Rectangle(xs) => add_values(bytes, frames, xs.as_slice()),
        ValueArray::Fraction(xs) => add_values(bytes, frames, xs.as_slice()),
        ValueArray::Fd(xs) => add_values(bytes, frames, xs.as_slice()),
    }
}

/// Adds a value of fixed size: as an element to an array or a choice, and else as a pod.
#[inline(always)]
pub(crate) fn add_fixed<T: CanonicalFixedSizedPod>(
    bytes: &mut Written,
    frames: &mut Frames,
    value: &T,
) -> Result<(), Errno>
    requires holds { HasState (fields_of bytes.old frames.old) }
    ensures { (s : State) → IsAt (fields_of bytes.old frames.old) s
        → Makes (step s (add (fixed (T.fixed value.now)))) (fields_of bytes.old frames.old)
        (fields_of bytes.new frames.new) result }
{
    let innermost = frames.innermost();
    if takes_elements(innermost) {
        return add_element(bytes, frames, T::TYPE, &value.padded_body()[..T::SIZE]);
    }
    admit(bytes.len(), frames, T::SIZE)?;
    put_fixed_pod(bytes, value)?;
    fill(frames, innermost);
    Ok(())
}

/// Adds an element to the innermost array or choice.
#[inline(never)]
fn add_element(
    bytes: &mut Written,
    frames: &mut Frames,
    type_: u32,
    body: &[u8],
) -> Result<(), Errno>
    requires holds { HasState (fields_of bytes.old frames.old) }
    requires body { length body.now ≤ header_size }
    ensures { AddsElement type_ body.now (fields_of bytes.old frames.old)
        (fields_of bytes.new frames.new) result }
{
    let Some(open) = frames.innermost() else {
        return Err(Errno::INVAL);
    };
    if !takes_element(open.what, type_) {
        return Err(Errno::INVAL);
    }
    if !frames.has_room(bytes.len(), body.len()) {
        return Err(Errno::NOSPC);
    }
    let had = bytes.len();
    bytes.append(body)?;
    set_child(
        bytes,
        is_first(open.what),
        had - HEADER_LEN,
        body.len() as u32,
        type_,
    );
    frames.set_innermost(with_element(open.what, type_));
    Ok(())
}

/// Writes the child header at the offset `at`, where the element is the first one.
fn set_child(bytes: &mut Written, first: bool, at: usize, size: u32, type_: u32)
    requires { at + 8 ≤ length bytes.old }
    ensures first { first ≡ true → (front back : List ℕ) (a b : ℕ) → at ≡ length front
        → bytes.old ≡ front ++ (word_bytes a ++ (word_bytes b ++ back))
        → bytes.new ≡ front ++ (word_bytes size ++ (word_bytes type_ ++ back)) }
    ensures later { first ≡ false → bytes.new ≡ bytes.old }
{
    if first {
        bytes.patch_two(at, size, type_);
    }
}

/// Adds the key and the flags of a property, whose value comes next.
#[inline(always)]
pub(crate) fn add_key(
    bytes: &mut Written,
    frames: &mut Frames,
    key: u32,
    flags: u32,
) -> Result<(), Errno>
    requires { HasState (fields_of bytes.old frames.old) }
    ensures { (s : State) → IsAt (fields_of bytes.old frames.old) s
        → Makes (outcome_if_fits true (state_with_key s.closed s.opened key flags)) (fields_of bytes.old frames.old)
        (fields_of bytes.new frames.new) result }
{
    if !takes_key(frames.innermost()) {
        return Err(Errno::INVAL);
    }
    if !frames.has_room(bytes.len(), HEADER_LEN) {
        return Err(Errno::NOSPC);
    }
    bytes.append_array(two_words(key, flags))?;
    frames.set_stage(Stage::Property);
    Ok(())
}

/// Opens a pod with these bytes, which are its header with a size word of 0, and the words that follow it.
#[inline(always)]
pub(crate) fn begin_tree<const N: usize>(
    bytes: &mut Written,
    frames: &mut Frames,
    what: What,
    head: [u8; N],
) -> Result<Frame, Errno>
    requires holds { HasState (fields_of bytes.old frames.old) }
    requires what { is_nothing what ≡ false }
    requires head { (n : ℕ) × (n ≤ 2) × (N ≡ 8 + 8 * n) }
    requires size { length head ≡ N }
    ensures step { (s : State) (p : Partial) → IsAt (fields_of bytes.old frames.old) s
        → what ≡ what_of p → head.entry ≡ so_far p → IsFair p
        → Makes (outcome_with_tree s p) (fields_of bytes.old frames.old)
        (fields_of bytes.new frames.new) result }
    ensures frame { (s : State) → IsAt (fields_of bytes.old frames.old) s
        → IfOk result (λ f. f.0 ≡ length s.opened + 1) }
{
    if !takes_trees(frames.innermost()) {
        return Err(Errno::INVAL);
    }
    let start = bytes.place();
    if !frames.has_room(start, head.len()) {
        return Err(Errno::NOSPC);
    }
    frames.push(BegunPod { start, what }, bytes, head)?;
    Ok(Frame(frames.len()))
}

/// Closes the innermost open pod.
#[inline(always)]
pub(crate) fn close(bytes: &mut Written, frames: &mut Frames, frame: usize) -> Result<(), Errno>
    requires { HasState (fields_of bytes.old frames.old) }
    ensures { (s : State) → IsAt (fields_of bytes.old frames.old) s
        → Makes (outcome_of (state_after_pop s.closed s.opened frame)) (fields_of bytes.old frames.old)
        (fields_of bytes.new frames.new) result }
{
    let Some(open) = frames.innermost() else {
        return Err(Errno::INVAL);
    };
    if frame != frames.len() {
        return Err(Errno::INVAL);
    }
    if !is_finished(open.what) {
        return Err(Errno::INVAL);
    }
    let size = bytes.len() - (open.start + HEADER_LEN);
    put_padding(bytes, size)?;
    bytes.patch(open.start, size as u32);
    frames.pop();
    let outer = frames.innermost();
    fill(frames, outer);
    Ok(())
}

/// Gives up the innermost open pod, and removes its bytes.
#[inline(always)]
pub(crate) fn leave(bytes: &mut Written, frames: &mut Frames, frame: usize) -> Result<(), Errno>
    requires { HasState (fields_of bytes.old frames.old) }
    ensures { (s : State) → IsAt (fields_of bytes.old frames.old) s
        → Makes (outcome_of (state_after_abandon s.closed s.opened frame)) (fields_of bytes.old frames.old)
        (fields_of bytes.new frames.new) result }
{
    let Some(open) = frames.innermost() else {
        return Err(Errno::INVAL);
    };
    if frames.len() != frame {
        return Err(Errno::INVAL);
    }
    bytes.truncate(open.start);
    frames.pop();
    Ok(())
}
