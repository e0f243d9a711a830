//! What is looked for in a pod, at any depth: values under keys, objects.
ghost use Rattle.std.specs.Prelude.{◌≡◌, ◌≤◌, ◌+◌, ◌<◌, ◌^◌, ◌++◌, IfNone, IfOk, IfSome, OnOk, drop, length, string_bytes};
ghost use Rattle.spa_events.specs.Events.{events_of};
ghost use Rattle.spa_format.specs.Front.{HasFront, front_of};
ghost use Rattle.spa_text_commands.specs.Lines.{AddsParts};
ghost use Rattle.spa_text_commands.specs.Numbers.{AreNumbers};
ghost use Rattle.spa_text_commands.specs.Paths as in_list;
ghost use Rattle.spa_text_commands.specs.Paths.{path_to, step_limit};
ghost use Rattle.spa_text_commands.specs.Selection as spec;
ghost use Rattle.spa_text_commands.specs.Selection.{found_at, found_in};
ghost use Rattle.spa_view.specs.View.{pod_bytes};

use crate::listing::{Part, add_part};
use crate::page::Page;
use crate::paths::{
    OBJECT_LEN, STEP_LIMIT, event_at, is_keyed, is_object_in, numbers_of, put_path,
};
use crate::selection::{Printout, Selection, is_among, is_asked};
use spa_bytes::{HEADER_LEN, SECOND_WORD, u32_at};
use spa_events::{Event, NO_PARENT, laws, list_events};
use spa_names::{Table, expected_under, ids_of, keys_of};
use spa_utils::SpaTypes;
use spa_view::{Pod, split_first, whole_bytes};
use std::alloc::{AllocError, Global};
use std::fmt::Write;

/// A top-level pod in which something is looked for.
#[derive(Clone, Copy)]
struct Searched<'a> {
    pod: Pod<'a>,
    /// How many top-level pods precede it.
    count: usize,
    /// The byte of the input where it begins.
    place: usize,
    /// Its bytes.
    bytes: &'a [u8],
    /// The events of it and of all pods inside it.
    events: &'a [Event],
    /// How many pods precede each of these in the same one.
    numbers: &'a [usize],
}

/// Adds what is printed of what is looked for in the pod, which so many pods and bytes of the input stand before, and answers how many of those are
/// refused.
pub(crate) fn add_found(
    alloc: Global,
    page: &mut Page,
    printout: Printout<'_>,
    pod: Pod<'_>,
    count: usize,
    place: usize,
) -> Result<usize, AllocError>
    requires count { count + 1 < 2 ^ 64 }
    requires place { place + length (pod_bytes pod) < 2 ^ 64 }
    ensures added { IfOk result
        (AddsParts printout.entry.form (found_in printout.entry.selection count place (pod_bytes pod.entry))
        page.old.lines.items page.new.lines.items) }
    ensures few { IfOk result (λ refused. refused ≤ length (pod_bytes pod.entry)) }
{
    let bytes = whole_bytes(&pod);
    let listed = list_inside(alloc, bytes)?;
    let events = listed.as_slice();
    let numbered = numbers_of(alloc, events)?;
    let searched = Searched {
        pod,
        count,
        place,
        bytes,
        events,
        numbers: numbered.as_slice(),
    };
    let mut refused: usize = 0;
    for number in 0..events.len() {
        refused += add_if_found(alloc, page, printout, searched, number)?;
    }
    Ok(refused)
}

/// The events of a pod and of all pods inside it.
fn list_inside(alloc: Global, pod: &[u8]) -> Result<Vec<Event>, AllocError>
    ensures events { IfOk result (λ listed. listed.items ≡ events_of pod.now) }
    ensures few { IfOk result (λ listed. length listed.items ≤ length pod.now) }
{
    let none = Event {
        type_: 0,
        size: 0,
        depth: 0,
        at: 0,
        parent: NO_PARENT,
    };
    let mut events = Vec::new(alloc);
    events.resize(pod.len() / HEADER_LEN, none)?;
    laws::events_are_few();
    let Some(count) = list_events(pod, events.as_mut_slice()) else {
        unreachable!()
    };
    events.truncate(count);
    Ok(events)
}

/// Adds what is printed of the pod of the event of this number inside a top-level one, where it is looked for, and answers how many pods are refused:
/// it or none.
fn add_if_found(
    alloc: Global,
    page: &mut Page,
    printout: Printout<'_>,
    searched: Searched<'_>,
    number: usize,
) -> Result<usize, AllocError>
    requires numbers { AreNumbers searched.events.now searched.numbers.now }
    requires number { number < length searched.events.now }
    requires count { searched.count + 1 < 2 ^ 64 }
    requires place { searched.place + length searched.bytes.now < 2 ^ 64 }
    ensures added { IfOk result
        (AddsParts printout.entry.form
        (found_at printout.entry.selection searched.entry.count searched.entry.place searched.entry.bytes.now searched.entry.events.now number
        (in_list.event_at searched.entry.events.now number))
        page.old.lines.items page.new.lines.items) }
    ensures few { IfOk result (λ refused. refused ≤ 1) }
{
    let event = event_at(searched.events, number);
    let sought = is_sought(alloc, printout.selection, searched, number, event)?;
    if !sought {
        return Ok(0);
    }
    let Some(pod) = pod_at(searched.bytes, event.at) else {
        return Ok(0);
    };
    let holder = event_at(searched.events, event.parent);
    let mut path = String::new(alloc);
    put_steps(&mut path, searched, number)?;
    let part = Part {
        pod,
        ids: ids_at(searched.bytes, holder, event.at),
        count: searched.count,
        place: searched.place + event.at,
        path: path.as_str(),
        outer: searched.pod,
    };
    add_part(alloc, page, printout.form, part)
}

/// Whether the pod of the event of this number is looked for.
fn is_sought(
    alloc: Global,
    selection: Selection<'_>,
    searched: Searched<'_>,
    number: usize,
    event: Event,
) -> Result<bool, AllocError>
    requires numbers { AreNumbers searched.events.now searched.numbers.now }
    requires number { number < length searched.events.now }
    requires count { searched.count + 1 < 2 ^ 64 }
    ensures { IfOk result (λ is. is
        ≡ spec.is_sought selection.entry.path selection.entry searched.entry.count searched.entry.bytes.now searched.entry.events.now number event) }
{
    let Some(wanted) = selection.path else {
        return Ok(is_found(searched.bytes, selection, searched.events, event));
    };
    let mut path = String::new(alloc);
    write!(path, "{}", searched.count + 1)?;
    put_steps(&mut path, searched, number)?;
    Ok(path.as_str() == wanted)
}

/// Writes the steps to the pod of the event of this number.
fn put_steps(text: &mut String, searched: Searched<'_>, number: usize) -> Result<(), AllocError>
    requires numbers { AreNumbers searched.events.now searched.numbers.now }
    requires number { number < length searched.events.now }
    ensures { OnOk result (string_bytes text.new
        ≡ string_bytes text.old ++ path_to step_limit searched.entry.events.now searched.entry.bytes.now number) }
{
    put_path(
        text,
        STEP_LIMIT,
        searched.bytes,
        searched.events,
        searched.numbers,
        number,
    )
}

/// Whether the pod of this event is looked for, without a path.
fn is_found(bytes: &[u8], selection: Selection<'_>, events: &[Event], event: Event) -> bool
    ensures { result ≡ spec.is_found selection.entry.key selection.entry bytes.now events.now event }
{
    match selection.key {
        Some(names) => is_value_of(
            bytes,
            selection,
            names,
            event_at(events, event.parent),
            event.at,
        ),
        None => is_of(bytes, selection, event),
    }
}

/// Whether the event is of an object, whose type and id are there and have the names that are asked for.
fn is_of(bytes: &[u8], selection: Selection<'_>, object: Event) -> bool
    ensures { result ≡ spec.is_of selection.entry bytes.now object }
{
    if !is_object_in(bytes, object) {
        return false;
    }
    let type_ = u32_at(bytes, object.at + HEADER_LEN);
    let id = u32_at(bytes, object.at + HEADER_LEN + SECOND_WORD);
    is_asked(selection.type_, Table::Types, type_)
        && is_asked(selection.id, ids_of(SpaTypes(type_)), id)
}

/// Whether the pod at this byte stands in such an object, under a key of these names.
fn is_value_of(
    bytes: &[u8],
    selection: Selection<'_>,
    names: &str,
    object: Event,
    at: usize,
) -> bool
    ensures { result ≡ spec.is_value_of selection.entry names.now bytes.now object at }
{
    is_of(bytes, selection, object)
        && is_keyed(bytes, at)
        && is_among(
            keys_of(SpaTypes(u32_at(bytes, object.at + HEADER_LEN))),
            u32_at(bytes, at - HEADER_LEN),
            names,
        )
}

/// The names of ids in the pod at this byte, which stands in this object.
fn ids_at(bytes: &[u8], object: Event, at: usize) -> Table {
    if at > bytes.len() || at < OBJECT_LEN || object.at > at - OBJECT_LEN {
        return Table::Nothing;
    }
    let keys = keys_of(SpaTypes(u32_at(bytes, object.at + HEADER_LEN)));
    expected_under(keys, u32_at(bytes, at - HEADER_LEN)).ids
}

/// The pod that begins at this byte. None: no whole one does.
fn pod_at(bytes: &[u8], at: usize) -> Option<Pod<'_>>
    ensures there { IfSome result (λ _. HasFront (drop at bytes.now)) }
    ensures front { IfSome result (λ pod. pod_bytes pod ≡ front_of (drop at bytes.now)) }
    ensures none { IfNone result (¬ (HasFront (drop at bytes.now))) }
{
    if at > bytes.len() {
        return None;
    }
    match split_first(&bytes[at..]) {
        Some((pod, _)) => Some(pod),
        None => None,
    }
}
