//! What README.md and docs/CALLING.md show of the library, word for word, and what each of these functions answers on bytes that PipeWire's own C
//! builder made, or on a worked example of docs/FORMAT.md.
use crate::bytes::{assert_holds, assert_number, assert_spelt};
use crate::readme::fixate::settle;
use crate::readme::look::sample_rate;
use crate::readme::look_up::channels;
use crate::readme::read::count;
use crate::readme::result_codes::outcome_of;
use crate::readme::rewrite::{all_rewritten, say_the_same};
use crate::readme::write::{encoded_int, encoded_pair};
use std::alloc::{AllocError, Global};
use std::process::Abort;
use std::test::Fail;
use test_bytes::{bytes_spelled, nested_structs};

mod read {
    use libspa::pod::deserialize::{DeserializeError, PodDeserializer};
    use libspa::pod::{Held, Value};
    use std::alloc::Global;

    /// How many properties the object at the front has.
    pub fn count(alloc: Global, bytes: &[u8]) -> Result<usize, DeserializeError<&[u8]>> {
        let (_rest, value) = PodDeserializer::deserialize_any_from(alloc, bytes)?;
        let held = Held::from(value);
        match &*held {
            Value::Object(object) => Ok(object.properties.len()),
            _ => Ok(0),
        }
    }
}

mod write {
    use arrayvec::ArrayVec;
    use libspa::pod::Value;
    use libspa::pod::serialize::{GenError, PodSerializer};
    use std::alloc::{AllocError, Global};

    /// A struct of an Int and a text.
    pub fn pair(alloc: Global) -> Result<Value, AllocError> {
        let text = String::from_str(alloc, "foo")?;
        Ok(Value::Struct(vec![in alloc; Value::Int(313), Value::String(text)]?))
    }

    /// Its encoding, and the length of that.
    pub fn encoded_pair(alloc: Global) -> Result<(Vec<u8>, u64), GenError> {
        PodSerializer::serialize(Vec::new(alloc), &pair(alloc)?)
    }

    /// The encoding of an Int.
    pub fn encoded_int(number: i32) -> Result<(ArrayVec<u8, 16>, u64), GenError> {
        PodSerializer::serialize(ArrayVec::new(), &Value::Int(number))
    }
}

mod rewrite {
    use libspa::pod::{rewrite, rewrite_all};
    use std::alloc::Global;

    /// Do two pods say the same value? None: one is refused.
    pub fn say_the_same(alloc: Global, one: &[u8], other: &[u8]) -> Option<bool> {
        let (_, one) = rewrite(alloc, one).ok()?;
        let (_, other) = rewrite(alloc, other).ok()?;
        Some(one == other)
    }

    /// All pods rewritten, or the byte at which the refused one begins, and why.
    pub fn all_rewritten(alloc: Global, pods: &[u8]) -> Result<Vec<u8>, (usize, &'static str)> {
        let mut out = Vec::new(alloc);
        match rewrite_all(pods, &mut out) {
            Ok(()) => Ok(out),
            Err((left, why)) => Err((pods.len() - left.len(), why.kind())),
        }
    }
}

mod look {
    use libspa::pod::Pod;
    use libspa::utils::Id;
    use spa_names::keys;

    /// The sample rate of the format at the front, also where fixation left a None choice of it.
    pub fn sample_rate(format: &[u8]) -> Option<i32> {
        let object = Pod::from_bytes(format)?.as_object().ok()?;
        object.get(Id(keys::FORMAT_AUDIO_RATE))
    }
}

mod fixate {
    use libspa::pod::PodObject;
    use libspa::utils::Errno;

    /// Each unprotected choice of the object becomes its default.
    pub fn settle(bytes: &mut [u8]) -> Result<(), Errno> {
        PodObject::fixate(bytes)
    }
}

mod look_up {
    use bitflags::Flags;
    use libspa::utils::dict::{DictRef, Flags as DictFlags};

    /// The number of channels, where it is said.
    pub fn channels(pairs: &[(&[u8], &[u8])]) -> Option<u32> {
        let dict = DictRef::new(pairs, DictFlags::empty());
        dict.parse::<u32>("audio.channels")?.ok()
    }
}

mod result_codes {
    use libspa::utils::result::{SpaResult, SpaSuccess};

    /// What a result code says.
    pub fn outcome_of(code: i32) -> &'static str {
        match SpaResult::from_c(code).into_result() {
            Ok(SpaSuccess::Sync(_)) => "done",
            Ok(SpaSuccess::Async(_)) => "done later",
            Err(_) => "failed",
        }
    }
}

/// examples/buffers.pod: five properties, under the keys 2 and 4 the Ints 1 and 4, under the others choices.
const BUFFERS: &str = "
192 15 262148 5
1 0 28 19 1 0 4 4 2 1 32 0
2 0 4 4 1 0
3 0 28 19 1 0 4 4 4096 16 2147483647 0
4 0 4 4 4 0
6 0 20 19 4 0 4 4 14 0";

/// `BUFFERS` with the shape words of the choices at 0.
const FIXATED: &str = "
192 15 262148 5
1 0 28 19 0 0 4 4 2 1 32 0
2 0 4 4 1 0
3 0 28 19 0 0 4 4 4096 16 2147483647 0
4 0 4 4 4 0
6 0 20 19 0 0 4 4 14 0";

/// `FIXATED` without the surplus values of its None choices.
const REWRITTEN: &str = "
176 15 262148 5
1 0 20 19 0 0 4 4 2 0
2 0 4 4 1 0
3 0 20 19 0 0 4 4 4096 0
4 0 4 4 4 0
6 0 20 19 0 0 4 4 14 0";

#[test]
fn reads(rt: HostRuntime) -> Result<(), Fail> {
    let bytes = bytes_spelled(rt.alloc(), BUFFERS)?;
    let found = count_at(rt.alloc(), bytes.as_slice())?;
    assert_number(&rt, found, 5, "the properties");
    Ok(())
}

/// How many structs are nested in one another: a function that calls itself for each needs more than a stack of 8 MB.
const LEVELS: u32 = 100_000;

#[test]
fn reads_at_any_depth(rt: HostRuntime) -> Result<(), Fail> {
    let bytes = nested_structs(rt.alloc(), LEVELS, &[0, 14])?;
    let found = count_at(rt.alloc(), bytes.as_slice())?;
    assert_number(&rt, found, 0, "the properties of a struct");
    Ok(())
}

fn count_at(alloc: Global, bytes: &[u8]) -> Result<usize, Fail> {
    Ok(count(alloc, bytes)?)
}

#[test]
fn writes(rt: HostRuntime) -> Result<(), Fail> {
    let (bytes, count) = encoded_pair(rt.alloc())?;
    assert_spelt(
        &rt,
        rt.alloc(),
        bytes.as_slice(),
        "32 14 4 4 313 0 4 8 7303014 0",
    )?;
    assert_holds(&rt, count == 40, "the length");
    let (bytes, count) = encoded_int(3)?;
    assert_spelt(&rt, rt.alloc(), bytes.as_slice(), "4 4 3 0")?;
    assert_holds(&rt, count == 16, "the length of an Int");
    Ok(())
}

/// Two pods, and whether they say the same value.
const ALIKE: &[(&str, &str, bool)] = &[
    ("4 2 1 0", "4 2 7 9", true),
    ("4 2 1 0", "4 2 0 0", false),
    (REWRITTEN, FIXATED, true),
    (FIXATED, BUFFERS, false),
];

/// Those rows. This function alone names them: one that does is proved with all of them.
fn pairs_alike() -> &'static [(&'static str, &'static str, bool)] {
    ALIKE
}

#[test]
fn rewrites(rt: HostRuntime) -> Result<(), Fail> {
    for (one, other, wanted) in pairs_alike() {
        let are_same = are_same(rt.alloc(), one, other)?;
        assert_holds(&rt, are_same == *wanted, other);
    }
    Ok(())
}

/// Whether two pods say the same. None of these is refused, so that there is an answer, unless memory is wanting.
fn are_same(alloc: Global, one: &str, other: &str) -> Result<bool, Fail> {
    let one = bytes_spelled(alloc, one)?;
    let other = bytes_spelled(alloc, other)?;
    match say_the_same(alloc, one.as_slice(), other.as_slice()) {
        Some(are_same) => Ok(are_same),
        None => Err(Fail::from(AllocError)),
    }
}

#[test]
fn rewrites_lists(rt: HostRuntime) -> Result<(), Fail> {
    let pods = bytes_spelled(rt.alloc(), "4 2 7 9 4 4 3 0")?;
    let rewritten = match all_rewritten(rt.alloc(), pods.as_slice()) {
        Ok(rewritten) => rewritten,
        Err((_, why)) => return Err(Fail::from(why)),
    };
    assert_spelt(&rt, rt.alloc(), rewritten.as_slice(), "4 2 1 0 4 4 3 0")?;
    let pods = bytes_spelled(rt.alloc(), "4 4 3 0 8 4 3 0")?;
    let place = refused_place(rt.alloc(), pods.as_slice());
    assert_number(&rt, place, 16, "the refused pod");
    Ok(())
}

fn refused_place(alloc: Global, pods: &[u8]) -> usize {
    match all_rewritten(alloc, pods) {
        Ok(_) => usize::MAX,
        Err((place, _)) => place,
    }
}

/// Formats, and the sample rate of each.
const RATES: &[(&str, Option<i32>)] = &[
    ("32 15 262147 4 65539 0 4 4 48000 0", Some(48000)),
    ("48 15 262147 4 65539 0 20 19 0 0 4 4 44100 0", Some(44100)),
    (
        "56 15 262147 3 65539 0 28 19 1 0 4 4 48000 8000 96000 0",
        None,
    ),
    ("32 15 262147 4 65540 0 4 4 2 0", None),
];

/// Those rows. This function alone names them: one that does is proved with all of them.
fn rates() -> &'static [(&'static str, Option<i32>)] {
    RATES
}

fn assert_rate(rt: &impl Abort, found: Option<i32>, wanted: Option<i32>, words: &str) {
    assert_eq!(rt; found, wanted, "of {words}");
}

#[test]
fn looks(rt: HostRuntime) -> Result<(), Fail> {
    for (words, wanted) in rates() {
        let format = bytes_spelled(rt.alloc(), *words)?;
        let found = sample_rate(format.as_slice());
        assert_rate(&rt, found, *wanted, *words);
    }
    Ok(())
}

#[test]
fn fixates(rt: HostRuntime) -> Result<(), Fail> {
    let mut bytes = bytes_spelled(rt.alloc(), BUFFERS)?;
    settle(bytes.as_mut_slice())?;
    assert_spelt(&rt, rt.alloc(), bytes.as_slice(), FIXATED)
}

/// Pairs of a dictionary.
const PAIRS: &[(&[u8], &[u8])] = &[(b"media.class", b"Audio/Sink"), (b"audio.channels", b"2")];

#[test]
fn looks_up(rt: HostRuntime) {
    let found = channels(PAIRS);
    assert_holds(&rt, found == Some(2), "two channels");
    let found = channels(&[]);
    assert_holds(&rt, found.is_none(), "no channels");
}

/// Result codes, and what they say.
const CODES: &[(i32, &str)] = &[(7, "done"), (1073741824, "done later"), (-22, "failed")];

/// Those rows. This function alone names them: one that does is proved with all of them.
fn codes() -> &'static [(i32, &'static str)] {
    CODES
}

#[test]
fn tells(rt: HostRuntime) {
    for (code, wanted) in codes() {
        assert_holds(&rt, outcome_of(*code) == *wanted, wanted);
    }
}
