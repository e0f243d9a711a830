//! Builds pods by a list of calls, in the caller's memory.
ghost use Rattle.std.specs.Prelude.{◌≡◌, ◌≢◌, ◌<◌, ◌⊎◌, Err, IfErr, IfNone, IfOk, IfSome, List, None, Option, Some, length, ℕ};
ghost use Rattle.spa_format.specs.Tree.{bytes_type, string_type};
ghost use Rattle.spa_builder.specs.Answers.{Makes};
ghost use Rattle.spa_builder.specs.Fields.{IsAt};
ghost use Rattle.spa_builder.specs.Replay.{IsAnswered};
ghost use Rattle.spa_builder.specs.State.{State, start};
ghost use Rattle.spa_builder.specs.Step.{Accepts, Inval, Nospc, Outcome, pop, step};
ghost use Rattle.spa_utils.specs.declared.errno.TheConstants.Errno.{INVAL, NOSPC};
ghost use Rattle.spav.specs.Answers.{IsBuilt, IsDone, IsInvalid, IsNoMemory, IsNoRoom, IsPast, IsStopped};
ghost use Rattle.spav.specs.Building.{Builds, ComesTo, Leads, LeavesOpen, StopsAt, adds, array_in, array_number, begun_by, frame_of, outcome_of, part_of, said_by};
ghost use Rattle.spav.specs.Lists.{IsWritten};

use crate::answers::{INVALID, NO_MEMORY, PAST};
use crate::lists::put_front;
use crate::pods::add_pod;
use spa_builder::Builder;
use spa_fixed_sized::CanonicalFixedSizedPod;
use spa_utils::{Errno, Fd, Float32, Float64, Fraction, Frame, Id, Rectangle, SpaTypes};
use std::alloc::Global;
use std::str;

/// The number of a call that gives the key and the flags of a property.
const KEY: u32 = 256;

/// The number of a call that closes the innermost open pod.
const POP: u32 = 257;

/// The number of a call that adds a whole array.
const ARRAY: u32 = 258;

/// The number of a call that adds a whole pod.
const POD: u32 = 259;

/// A call of a builder.
#[repr(C)]
#[derive(Clone, Copy)]
pub struct Call {
    /// The type of the value that is added, or of the pod that is begun; or KEY, POP, ARRAY or POD.
    pub what: u32,
    /// An Id, a truth value (0 is false), the bits of a Float, a width, a numerator, a pointer's type, an object's type, a choice's shape, a key, or
    /// the type of an array's elements.
    pub first: u32,
    /// A height, a denominator, an object's id, a choice's flags, or a property's flags.
    pub second: u32,
    /// An Int.
    pub number: i32,
    /// A Long, or the number of a file descriptor.
    pub wide: i64,
    /// The bits of a Double, a pointer's address, the byte of the texts at which a text, the elements of an array or a pod begin, the frame of the pod
    /// that is closed, or 0 for the innermost.
    pub bits: u64,
    /// How many bytes a text or a pod has, or how many elements an array has.
    pub len: u64,
    /// 0.
    pub reserved: u64,
}

/// Writes the pods that a list of calls builds, one after another, to the front of `out`. The texts of strings, bytes, the elements of whole arrays,
/// without padding between, and whole pods are parts of `texts`. A whole pod has to be canonical, and to nest at most 1000 deep.
///
/// 0: `written` is their length in bytes, and `out` is unchanged behind them. -ENOSPC: their length, `written`, is more than `out` has. -EINVAL:
/// the call at the index `at` of the list isn't allowed there, or is none; where `at` is the number of calls, a pod is still open behind the
/// last. -EOVERFLOW: that call would make the size of a pod 4294967296 or more. -ENOMEM: memory was asked for and refused. Where the answer isn't
/// 0, `out` is unchanged.
#[unsafe(no_mangle)]
pub extern "C" fn spav_build(
    alloc: Global,
    calls: &[Call],
    texts: &[u8],
    out: &mut [u8],
    written: &mut usize,
    at: &mut usize,
) -> i32
    ensures done { IsDone result → (bytes : List ℕ) × Builds texts.now calls.now bytes
        × IsWritten bytes written.new out.old out.new }
    ensures room { IsNoRoom result → (bytes : List ℕ) × Builds texts.now calls.now bytes
        × (written.new ≡ length bytes) × (length out.old < length bytes) }
    ensures refused { IsInvalid result → StopsAt texts.now calls.now at.new (λ o. o ≡ Inval)
        ⊎ LeavesOpen texts.now calls.now at.new }
    ensures past { IsPast result → StopsAt texts.now calls.now at.new (λ o. o ≡ Nospc) }
    // Memory runs out only at a call that would otherwise be accepted.
    ensures memory { IsNoMemory result → (place : ℕ)
        × StopsAt texts.now calls.now place (λ o. (s : State) × (o ≡ Accepts s)) }
    ensures answers { IsBuilt result }
    ensures unchanged { ¬ (IsDone result) → out.new ≡ out.old }
{
    let mut builder = Builder::new(Vec::new(alloc));
    if let Err((stopped, cause)) = run(&mut builder, texts, calls) {
        *at = stopped;
        return answer_of(cause);
    }
    match builder.finish() {
        Ok(made) => put_front(made.as_slice(), out, written),
        Err(_) => {
            *at = calls.len();
            INVALID
        }
    }
}

/// The answer to a list of calls that stops with this error.
fn answer_of(cause: Errno) -> i32
    ensures invalid { IsInvalid result → cause ≡ INVAL }
    ensures past { IsPast result → cause ≡ NOSPC }
    ensures memory { IsNoMemory result → (cause ≢ INVAL) × (cause ≢ NOSPC) }
    ensures answers { IsStopped result }
{
    if cause == Errno::INVAL {
        return INVALID;
    }
    if cause == Errno::NOSPC {
        return PAST;
    }
    NO_MEMORY
}

/// Makes the calls. Refused at the first that isn't accepted, with its index and the cause.
fn run(builder: &mut Builder, texts: &[u8], calls: &[Call]) -> Result<(), (usize, Errno)>
    requires { IsAt builder.old start }
    ensures all { IfOk result (λ _. (s : State) × Leads texts.now start calls.now s × IsAt builder.new s) }
    ensures stops { IfErr result (λ r. StopsAt texts.now calls.now r.0 (λ o. IsAnswered o (Err r.1))) }
{
    let mut at = 0;
    while at < calls.len() {
        if let Err(cause) = make(builder, texts, &calls[at]) {
            return Err((at, cause));
        }
        at += 1;
    }
    Ok(())
}

/// Makes one call. One whose reserved field isn't 0 is none.
fn make(builder: &mut Builder, texts: &[u8], call: &Call) -> Result<(), Errno>
    ensures { (s : State) → IsAt builder.old s → (o : Outcome) × ComesTo texts.now s call.now o
        × Makes o builder.old builder.new result }
{
    if call.reserved != 0 {
        return Err(Errno::INVAL);
    }
    if call.what == POD {
        return add_pod(builder, texts, call);
    }
    make_known(builder, texts, call)
}

/// Makes a call of the header's words that adds no whole pod.
fn make_known(builder: &mut Builder, texts: &[u8], call: &Call) -> Result<(), Errno>
    ensures { (s : State) → IsAt builder.old s
        → Makes (outcome_of s (said_by s call.now.what texts.now call.now)) builder.old builder.new result }
{
    match SpaTypes(call.what) {
        SpaTypes::None => builder.add_none(),
        SpaTypes::Bool => builder.add_bool(call.first != 0),
        SpaTypes::Id => builder.add_id(Id(call.first)),
        SpaTypes::Int => builder.add_int(call.number),
        SpaTypes::Long => builder.add_long(call.wide),
        SpaTypes::Float => builder.add_float(Float32(call.first)),
        SpaTypes::Double => builder.add_double(Float64(call.bits)),
        SpaTypes::Rectangle => builder.add_rectangle(Rectangle {
            width: call.first,
            height: call.second,
        }),
        SpaTypes::Fraction => builder.add_fraction(Fraction {
            num: call.first,
            denom: call.second,
        }),
        SpaTypes::Fd => builder.add_fd(call.wide),
        SpaTypes::String => add_text(builder, texts, call),
        SpaTypes::Bytes => add_part(builder, texts, call),
        SpaTypes::Pointer => builder.add_pointer(Id(call.first), call.bits),
        SpaTypes(ARRAY) => add_array(builder, texts, call),
        _ => begin_or_close_pod(builder, call),
    }
}

/// Makes a call that opens or closes a pod, or gives a key.
fn begin_or_close_pod(builder: &mut Builder, call: &Call) -> Result<(), Errno>
    ensures { (s : State) → IsAt builder.old s
        → Makes (outcome_of s (begun_by s call.now.what call.now)) builder.old builder.new result }
{
    match SpaTypes(call.what) {
        SpaTypes::Array => {
            builder.push_array()?;
        }
        SpaTypes::Struct => {
            builder.push_struct()?;
        }
        SpaTypes::Object => {
            builder.push_object(call.first, call.second)?;
        }
        SpaTypes::Choice => {
            builder.push_choice(call.first, call.second)?;
        }
        SpaTypes(KEY) => return builder.add_prop(call.first, call.second),
        SpaTypes(POP) => return close_pod(builder, call),
        _ => return Err(Errno::INVAL),
    }
    Ok(())
}

/// Closes the innermost open pod, which has to be the call's frame, unless that is 0.
fn close_pod(builder: &mut Builder, call: &Call) -> Result<(), Errno>
    ensures { (s : State) → IsAt builder.old s
        → Makes (step s (pop (frame_of s call.now))) builder.old builder.new result }
{
    let frame = if call.bits == 0 {
        builder.open_frames()
    } else {
        call.bits as usize
    };
    builder.pop(Frame(frame))
}

/// The `len` bytes of the texts from the offset `from` on. None: the texts are shorter.
pub(crate) fn part(texts: &[u8], from: usize, len: usize) -> Option<&[u8]>
    ensures some { IfSome result (λ text. part_of texts.now from len ≡ Some text.now) }
    ensures none { IfNone result (part_of texts.now from len ≡ None) }
{
    if from > texts.len() || texts.len() - from < len {
        return None;
    }
    Some(&texts[from..from + len])
}

/// Adds the bytes whose offset and length in the texts a call gives.
fn add_part(builder: &mut Builder, texts: &[u8], call: &Call) -> Result<(), Errno>
    ensures { (s : State) → IsAt builder.old s
        → Makes (outcome_of s (said_by s bytes_type texts.now call.now)) builder.old builder.new result }
{
    match part(texts, call.bits as usize, call.len as usize) {
        Some(bytes) => builder.add_bytes(bytes),
        None => Err(Errno::INVAL),
    }
}

/// Adds the array whose element type, offset in the texts and number of elements a call gives.
fn add_array(builder: &mut Builder, texts: &[u8], call: &Call) -> Result<(), Errno>
    ensures { (s : State) → IsAt builder.old s
        → Makes (outcome_of s (said_by s array_number texts.now call.now)) builder.old builder.new result }
{
    match SpaTypes(call.first) {
        SpaTypes::None => add_array_of::<()>(builder, texts, call),
        SpaTypes::Bool => add_array_of::<bool>(builder, texts, call),
        SpaTypes::Id => add_array_of::<Id>(builder, texts, call),
        SpaTypes::Int => add_array_of::<i32>(builder, texts, call),
        SpaTypes::Long => add_array_of::<i64>(builder, texts, call),
        SpaTypes::Float => add_array_of::<Float32>(builder, texts, call),
        SpaTypes::Double => add_array_of::<Float64>(builder, texts, call),
        SpaTypes::Rectangle => add_array_of::<Rectangle>(builder, texts, call),
        SpaTypes::Fraction => add_array_of::<Fraction>(builder, texts, call),
        SpaTypes::Fd => add_array_of::<Fd>(builder, texts, call),
        _ => Err(Errno::INVAL),
    }
}

/// Adds the array whose offset in the texts and number of elements a call gives, over the type `T`.
fn add_array_of<T: CanonicalFixedSizedPod>(
    builder: &mut Builder,
    texts: &[u8],
    call: &Call,
) -> Result<(), Errno>
    ensures { (s : State) → IsAt builder.old s
        → Makes (outcome_of s (adds (array_in T.kind texts.now call.now) None)) builder.old builder.new result }
{
    let Some(len) = (call.len as usize).checked_mul(T::SIZE) else {
        return Err(Errno::INVAL);
    };
    match part(texts, call.bits as usize, len) {
        Some(bodies) => builder.add_array_in::<T>(bodies),
        None => Err(Errno::INVAL),
    }
}

/// Adds the text whose offset and length in the texts a call gives.
fn add_text(builder: &mut Builder, texts: &[u8], call: &Call) -> Result<(), Errno>
    ensures { (s : State) → IsAt builder.old s
        → Makes (outcome_of s (said_by s string_type texts.now call.now)) builder.old builder.new result }
{
    let Some(bytes) = part(texts, call.bits as usize, call.len as usize) else {
        return Err(Errno::INVAL);
    };
    match str::from_utf8(bytes) {
        Ok(text) => builder.add_string(text),
        Err(_) => Err(Errno::INVAL),
    }
}
