//! The head of a recorded message: when it passed, which way, whose it is, and by which method.
ghost use Rattle.std.specs.Prelude.{◌≡◌, ◌++◌, OnOk, codes, if◌then◌else◌, is_some, option_map, string_bytes, unwrap_or};
ghost use Rattle.spa_text_commands.specs.Messages.{across_runs, bool_in, head_in, head_text, int_in, is_mark, long_in, message_in, method_text, name_in, time_text, way_text, whose_text, without_run};
ghost use Rattle.spa_text_commands.specs.Unread.{message_of, words_of};
ghost use Rattle.spa_value.specs.View.{view};
ghost use Rattle.spa_value.specs.Views.{views};

use spa_text_read::letters::push_letters;
use spa_value::Value;
use spa_view::Pod;
use std::alloc::AllocError;
use std::fmt::Write;

/// What the first member of a recorded message says.
const MARK: &[u8] = b"spav-guard 1";

/// The nanoseconds of a day, an hour, a minute and a second, and of the last digit that is written.
const DAY: i64 = 86_400_000_000_000;

const HOUR: u64 = 3_600_000_000_000;

const MINUTE: u64 = 60_000_000_000;

const SECOND: u64 = 1_000_000_000;

const DIGIT: u64 = 100_000;

/// Which members of a recorded message say its time and the client's process.
const TIME: usize = 1;

const PROCESS: usize = 4;

/// What a recorded message says of itself: docs/FORMAT.md, "Recorded messages".
#[derive(Clone, Copy)]
pub(crate) struct Head<'a> {
    /// In nanoseconds since 1970.
    time: i64,
    pub(crate) to_daemon: bool,
    pub(crate) client: i32,
    pub(crate) object: i32,
    pub(crate) opcode: i32,
    interface: Option<&'a str>,
    method: Option<&'a str>,
}

/// The head of a recorded message. None: the pod is no such message.
pub(crate) fn head_of<'a>(pod: Pod<'a>) -> Option<Head<'a>> {
    let parent = pod.as_struct().ok()?;
    let mut fields = parent.fields();
    if fields.next()?.get_string_raw().ok()? != MARK {
        return None;
    }
    let time = fields.next()?.get_long().ok()?;
    let to_daemon = fields.next()?.get_bool().ok()?;
    let client = fields.next()?.get_int().ok()?;
    let _process = fields.next()?.get_int().ok()?;
    let object = fields.next()?.get_int().ok()?;
    let opcode = fields.next()?.get_int().ok()?;
    let interface = name_in(fields.next()?)?;
    let method = name_in(fields.next()?)?;
    Some(Head {
        time,
        to_daemon,
        client,
        object,
        opcode,
        interface,
        method,
    })
}

/// The name that a member says, which is none where the member is None. None: it is another pod.
fn name_in<'a>(pod: Pod<'a>) -> Option<Option<&'a str>> {
    if pod.is_none() {
        return Some(None);
    }
    let bytes = pod.get_string_raw().ok()?;
    Some(str::from_utf8(bytes).ok())
}

/// The head of the value, where it is a recorded message.
pub(crate) fn head_of_value<'a>(value: &'a Value) -> Option<Head<'a>>
    ensures { words_of result ≡ head_in (view value.now) }
{
    match value {
        Value::Struct(members) => head_of_members(members.as_slice()),
        _ => None,
    }
}

/// The head of the struct of these members, where it is a recorded message.
fn head_of_members<'a>(members: &'a [Value]) -> Option<Head<'a>>
    ensures { option_map message_of result ≡ message_in (views members.now) }
{
    let [
        mark,
        time,
        way,
        client,
        process,
        object,
        opcode,
        interface,
        method,
        ..
    ] = members
    else {
        return None;
    };
    if !is_mark(mark) {
        return None;
    }
    let time = long_of(time)?;
    let to_daemon = bool_of(way)?;
    let client = int_of(client)?;
    let _process = int_of(process)?;
    let object = int_of(object)?;
    let opcode = int_of(opcode)?;
    let interface = name_of(interface)?;
    let method = name_of(method)?;
    Some(Head {
        time,
        to_daemon,
        client,
        object,
        opcode,
        interface,
        method,
    })
}

/// Whether the value is the first member of a recorded message.
#[tactic(auto, using(crate::proofs::Heads::no_mark))]
fn is_mark(value: &Value) -> bool
    ensures { result ≡ is_mark (view value.now) }
{
    match value {
        Value::String(text) => text.as_bytes() == MARK,
        _ => false,
    }
}

/// The truth value that a member says.
#[tactic(auto, using(crate::proofs::Heads::no_truth))]
fn bool_of(value: &Value) -> Option<bool>
    ensures { result ≡ bool_in (view value.now) }
{
    match value {
        Value::Bool(x) => Some(*x),
        _ => None,
    }
}

/// The number that a member says.
#[tactic(auto, using(crate::proofs::Heads::no_number))]
fn int_of(value: &Value) -> Option<i32>
    ensures { result ≡ int_in (view value.now) }
{
    match value {
        Value::Int(x) => Some(*x),
        _ => None,
    }
}

/// The number that a member says.
#[tactic(auto, using(crate::proofs::Heads::no_wide))]
fn long_of(value: &Value) -> Option<i64>
    ensures { result ≡ long_in (view value.now) }
{
    match value {
        Value::Long(x) => Some(*x),
        _ => None,
    }
}

/// The name that a member says, which is none where the member is None. None: it is another value.
#[tactic(auto, using(crate::proofs::Heads::no_name))]
fn name_of<'a>(value: &'a Value) -> Option<Option<&'a str>>
    ensures { option_map (λ name. option_map (λ s. s.now) name) result ≡ name_in (view value.now) }
{
    match value {
        Value::String(name) => Some(Some(name.as_str())),
        Value::None => Some(None),
        _ => None,
    }
}

/// A recorded message with 0 in place of its time and its process; another value as it is.
pub(crate) fn across_runs(value: Value) -> Value
    ensures { view result ≡ across_runs (view value) }
{
    match value {
        Value::Struct(members) => Value::Struct(members_across_runs(members)),
        other => other,
    }
}

/// The members of such a struct.
fn members_across_runs(mut members: Vec<Value>) -> Vec<Value>
    ensures { views result.items ≡ (if is_some (message_in (views members.items)) then without_run (views members.items) else views members.items) }
{
    if head_of_members(members.as_slice()).is_some() {
        members[TIME] = Value::Long(0);
        members[PROCESS] = Value::Int(0);
    }
    members
}

/// Writes the line of a head: `12:01:03.0412 > client 34, ClientNode 7 port_set_param`.
pub(crate) fn put_head(text: &mut String, head: Head<'_>) -> Result<(), AllocError>
    ensures { OnOk result (string_bytes text.new ≡ string_bytes text.old ++ head_text (message_of head.entry)) }
{
    put_time(text, head.time)?;
    put_way(text, head.to_daemon)?;
    put_whose(
        text,
        head.client,
        name_or_object(head.interface),
        head.object,
    )?;
    put_method(text, head.method, head.opcode)
}

/// Writes which way a message passed.
fn put_way(text: &mut String, to_daemon: bool) -> Result<(), AllocError>
    ensures { OnOk result (string_bytes text.new ≡ string_bytes text.old ++ way_text to_daemon) }
{
    if to_daemon {
        text.push_str(" > ")
    } else {
        text.push_str(" < ")
    }
}

/// The name of an interface, or `object` where it isn't known.
fn name_or_object<'a>(interface: Option<&'a str>) -> &'a str
    ensures { result.now ≡ unwrap_or (option_map (λ s. s.now) interface.entry) (codes "object") }
{
    match interface {
        Some(name) => name,
        None => "object",
    }
}

/// Writes which client's message it is, and of which object.
fn put_whose(text: &mut String, client: i32, interface: &str, object: i32) -> Result<(), AllocError>
    ensures { OnOk result (string_bytes text.new ≡ string_bytes text.old ++ whose_text client interface.now object) }
{
    write!(text, "client {client}, ")?;
    push_letters(text, interface)?;
    write!(text, " {object} ")
}

/// Writes the method's name, or its opcode.
fn put_method(text: &mut String, method: Option<&str>, opcode: i32) -> Result<(), AllocError>
    ensures { OnOk result (string_bytes text.new ≡ string_bytes text.old ++ method_text (option_map (λ s. s.now) method.entry) opcode) }
{
    match method {
        Some(method) => push_letters(text, method),
        None => write!(text, "opcode {opcode}"),
    }
}

/// Writes the time of the day in UTC.
fn put_time(text: &mut String, time: i64) -> Result<(), AllocError>
    ensures { OnOk result (string_bytes text.new ≡ string_bytes text.old ++ time_text time) }
{
    let time = time.rem_euclid(DAY).unsigned_abs();
    write!(
        text,
        "{:02}:{:02}:{:02}.{:04}",
        time / HOUR,
        time % HOUR / MINUTE,
        time % MINUTE / SECOND,
        time % SECOND / DIGIT
    )
}
