//! The path from a top-level pod to one inside it.
ghost use Rattle.std.specs.Prelude.{◌≡◌, ◌+◌, ◌<◌, ◌^◌, ◌++◌, IfOk, OnOk, length, slice_index_or, string_bytes};
ghost use Rattle.spa_text_commands.specs.Numbers.{AreNumbers, IsCountedIn};
ghost use Rattle.spa_text_commands.specs.Paths as spec;
ghost use Rattle.spa_text_commands.specs.Paths.{is_keyed, is_object_in, numbered, path_to, step_in};

use spa_bytes::{HEADER_LEN, u32_at};
use spa_events::Event;
use spa_names::{Table, keys_of, name_of};
use spa_utils::SpaTypes;
use std::alloc::{AllocError, Global};
use std::fmt;
use std::fmt::Write;

/// How many bytes the header, the type and the id of an object take.
pub(crate) const OBJECT_LEN: usize = 16;

/// How many steps of a path are written.
pub(crate) const STEP_LIMIT: usize = 32;

/// The event of this number; one of no pod where there is none.
pub(crate) fn event_at(events: &[Event], number: usize) -> Event
    ensures { result ≡ spec.event_at events.now number }
{
    if number < events.len() {
        return events[number];
    }
    Event {
        type_: 0,
        size: 0,
        depth: 0,
        at: 0,
        parent: 0,
    }
}

/// Whether the event is of an object, whose type and id are there.
pub(crate) fn is_object_in(pod: &[u8], event: Event) -> bool
    ensures { result ≡ is_object_in pod.now event }
{
    (event.type_ == SpaTypes::Object.0 && HEADER_LEN <= event.size as usize)
        && OBJECT_LEN <= pod.len().saturating_sub(event.at)
}

/// Whether a key and flags stand before this byte.
pub(crate) fn is_keyed(pod: &[u8], at: usize) -> bool
    ensures { result ≡ is_keyed pod.now at }
{
    HEADER_LEN <= at && at <= pod.len()
}

/// How many pods stand before each in the same one.
pub(crate) fn numbers_of(alloc: Global, events: &[Event]) -> Result<Vec<usize>, AllocError>
    ensures { IfOk result (λ numbers. AreNumbers events.now numbers.items) }
{
    let mut counts = Vec::new(alloc);
    counts.resize(events.len(), 0)?;
    let mut numbers = Vec::new(alloc);
    for number in 0..events.len() {
        let parent = event_at(events, number).parent;
        numbers.push(count_one(counts.as_mut_slice(), parent))?;
    }
    Ok(numbers)
}

/// Counts a pod in the one of this number, and answers how many were counted there before. One that is in none isn't counted.
fn count_one(counts: &mut [usize], parent: usize) -> usize
    requires { slice_index_or counts.now parent 0 + 1 < 2 ^ 64 }
    ensures { IsCountedIn counts.old counts.new parent result }
{
    if parent >= counts.len() {
        return 0;
    }
    let before = counts[parent];
    counts[parent] = before + 1;
    before
}

/// Writes the steps from a top-level pod to the one of the event of this number: of more than so many the last ones, behind two points.
pub(crate) fn put_path(
    text: &mut String,
    limit: usize,
    pod: &[u8],
    events: &[Event],
    numbers: &[usize],
    number: usize,
) -> Result<(), AllocError>
    requires numbers { AreNumbers events.now numbers.now }
    requires number { number < length events.now }
    ensures { OnOk result (string_bytes text.new ≡ string_bytes text.old ++ path_to limit events.now pod.now number) }
{
    let event = event_at(events, number);
    if event.parent >= events.len() {
        return Ok(());
    }
    if limit == 0 {
        return text.push_str("..");
    }
    put_path(text, limit - 1, pod, events, numbers, event.parent)?;
    put_step(
        text,
        pod,
        event_at(events, event.parent),
        event,
        numbers[number],
    )
}

/// Writes the step to the pod of this event from the one that it is in, of which so many others stand before it.
fn put_step(
    text: &mut String,
    pod: &[u8],
    holder: Event,
    event: Event,
    count: usize,
) -> Result<(), AllocError>
    ensures { OnOk result (string_bytes text.new ≡ string_bytes text.old ++ step_in pod.now holder event count) }
{
    if is_object_in(pod, holder) && is_keyed(pod, event.at) {
        let type_ = u32_at(pod, holder.at + HEADER_LEN);
        return write!(
            text,
            "{}",
            Step::Key(type_, u32_at(pod, event.at - HEADER_LEN))
        );
    }
    write!(text, "{}", Step::Member(count))
}

/// The number of the top-level pod, which so many stand before, and these steps; nothing where there are none.
pub(crate) fn numbered(alloc: Global, count: usize, steps: &str) -> Result<String, AllocError>
    requires { count + 1 < 2 ^ 64 }
    ensures { IfOk result (λ path. string_bytes path ≡ numbered count steps.now) }
{
    if steps.is_empty() {
        return Ok(String::new(alloc));
    }
    let number = count + 1;
    format!(in alloc; "{number}{steps}")
}

/// A step from a container to one of its entries.
#[derive(Clone, Copy)]
pub(crate) enum Step {
    /// To the member of a struct that so many others stand before.
    Member(usize),
    /// To the value of a property: the type of the object, and the key.
    Key(u32, u32),
}

impl fmt::Display for Step {
    ghost use Rattle.std.specs.Prelude.{Some};
    ghost use Rattle.spa_text_commands.specs.Unread.{step_text};

    ghost output = { λ step. Some (step_text step) };

    fn fmt<W: fmt::Write>(&self, f: &mut fmt::Formatter<W>) -> fmt::Result {
        match *self {
            Step::Member(count) => write!(f, "[{count}]"),
            Step::Key(type_, key) => {
                let name = Name(keys_of(SpaTypes(type_)), key);
                write!(f, ".{name}")
            }
        }
    }
}

/// The name of a number in a table, or its digits where it has none.
#[derive(Clone, Copy)]
pub(crate) struct Name(pub(crate) Table, pub(crate) u32);

impl fmt::Display for Name {
    ghost use Rattle.std.specs.Prelude.{Some};
    ghost use Rattle.spa_text_commands.specs.Paths.{name_text};

    ghost output = { λ name. Some (name_text name.0 name.1) };

    fn fmt<W: fmt::Write>(&self, f: &mut fmt::Formatter<W>) -> fmt::Result {
        match name_of(self.0, self.1) {
            Some(name) => write!(f, "{name}"),
            None => {
                let number = self.1;
                write!(f, "{number}")
            }
        }
    }
}
