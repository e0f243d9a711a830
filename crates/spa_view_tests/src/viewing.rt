//! The worked rows of views and fixation, and each public call. A table is a text with a row a line, so that it is data.
use crate::compare::{assert_bytes, assert_holds, assert_said};
use crate::rows::{object_at, parts, pod_at};
use bitflags::Flags;
use spa_utils::{Errno, Id};
use spa_view::{Pod, PodObject, PodObjectIter, PodProp, PodPropFlags, PodStruct, PodStructIter};
use std::alloc::{AllocError, Global};
use std::fmt::Debug;
use std::process::Abort;
use std::test::Fail;
use test_bytes::bytes_spelled;

/// Words of a pod; the types whose tests it passes; and the types whose getters read it, with what they give. The words
/// 6422625, 6513249 and 1684234849 are the bytes `a`, NUL, `b`, NUL, the bytes `abc`, NUL, and the bytes `abcd`.
const READ: &str = r#"0 1 | 1 |
4 2 7 9 | 2 | 2 true
4 2 0 0 | 2 | 2 false
4 3 7 0 | 3 | 3 Id(7)
4 4 3 0 | 4 | 4 3
8 5 1 0 | 5 | 5 1
8 5 4294967295 4294967295 | 5 | 5 -1
4 6 1138491392 0 | 6 | 6 Float32(1138491392)
8 7 1 0 | 7 | 7 Float64(1)
1 8 0 0 | 8 | 8 []
2 8 97 0 | 8 | 8 [97]
4 8 6422625 0 | 8 | 8 [97]
4 8 6513249 0 | 8 | 8 [97, 98, 99]
4 8 1684234849 0 | 8 |
3 9 197121 0 | 9 | 9 [1, 2, 3]
0 9 | 9 | 9 []
8 10 31 14 | 10 | 10 Rectangle { width: 31, height: 14 }
8 11 16 9 | 11 | 11 Fraction { num: 16, denom: 9 }
3 12 197121 0 | 12 | 12 [1, 2, 3]
0 12 | 12 | 12 []
8 13 0 1 | 13 |
20 13 4 4 10 15 19 0 | 13 |
0 14 | 14 |
16 14 4 4 3 0 | 14 |
8 15 5 3 | 15 |
8 16 0 0 | 16 |
12 17 7 0 4096 9 | 17 | 17 (4096, Id(7))
16 17 7 0 4096 1 | 17 | 17 (4294971392, Id(7))
8 18 9 0 | 18 | 18 9
28 19 1 0 4 4 5 2 10 0 | 19 |
4 1 0 0 | |
8 2 0 0 | |
8 4 3 0 | |
4 5 3 0 | |
0 8 | |
4 13 4 0 | |
4 15 5 0 | |
8 17 7 0 | |
12 19 0 0 4 0 | |
0 20 | |
0 21 | |"#;

/// Words of a struct, and the type and size of each member that is whole.
const MEMBERS: &str = r#"0 14 |
16 14 4 4 3 0 | 4:4
8 14 4 4 3 0 |
24 14 4 4 3 0 9 9 | 4:4
24 14 17 9 4 4 3 0 |
32 14 4 4 3 0 8 5 1 0 | 4:4 5:8
56 14 4 4 313 0 4 8 7303014 0 16 14 8 10 31 14 | 4:4 8:4 14:16"#;

/// Words of an object, and its type and id, then key, flags, type and size of each property that is whole, then the value
/// of key 1 as a number.
const PROPERTIES: &str = r#"8 15 5 3 | 5 3 none
32 15 5 3 1 0 4 4 3 0 | 5 3 1:0:4:4 3
32 15 5 3 2 0 4 4 3 0 | 5 3 2:0:4:4 none
56 15 5 3 1 0 4 4 3 0 1 0 4 4 9 0 | 5 3 1:0:4:4 1:0:4:4 3
56 15 5 3 2 0 4 4 3 0 1 2147483649 4 4 9 0 | 5 3 2:0:4:4 1:2147483649:4:4 9
24 15 5 3 1 0 4 4 | 5 3 none
40 15 5 3 1 0 4 4 3 0 1 0 | 5 3 1:0:4:4 3"#;

/// Words of an object, the words after fixation, and whether it is fixated then.
const FIXATED: &str =
    r#"56 15 5 3 1 0 28 19 1 0 4 4 5 2 10 0 | 56 15 5 3 1 0 28 19 0 0 4 4 5 2 10 0 | true
56 15 5 3 1 16 28 19 1 0 4 4 5 2 10 0 | 56 15 5 3 1 16 28 19 1 0 4 4 5 2 10 0 | false
72 15 5 3 1 0 48 15 6 4 2 0 20 19 3 0 4 4 7 0 | 72 15 5 3 1 0 48 15 6 4 2 0 20 19 3 0 4 4 7 0 | true
48 15 5 3 1 0 20 19 9 5 4 4 7 0 | 48 15 5 3 1 0 20 19 0 5 4 4 7 0 | true
88 15 5 3 1 8 20 19 3 0 4 4 7 0 2 0 20 19 4 0 4 4 7 0 1 1 | 88 15 5 3 1 8 20 19 0 0 4 4 7 0 2 0 20 19 0 0 4 4 7 0 1 1 | true
8 15 5 3 20 19 | 8 15 5 3 20 19 | true"#;

/// The names of flags, and their bits.
const FLAGS: &[(&str, u32)] = &[
    ("READONLY", 1),
    ("HARDWARE", 2),
    ("HINT_DICT", 4),
    ("MANDATORY", 8),
    ("DONT_FIXATE", 16),
];

/// Those rows. This function alone names them: one that does is proved with all of them.
fn named_flags() -> &'static [(&'static str, u32)] {
    FLAGS
}

/// Words that are no object.
const NO_OBJECTS: &str = "0 14
4 15 5 0
4
56 15 5 3";

fn struct_at(bytes: &[u8]) -> Result<PodStruct<'_>, &'static str> {
    pod_at(bytes)?.as_struct().ok().ok_or("no struct")
}

/// Whether the pod passes the test of the type with this number.
fn passes(pod: &Pod, number: u32) -> bool {
    match number {
        1 => pod.is_none(),
        2 => pod.is_bool(),
        3 => pod.is_id(),
        4 => pod.is_int(),
        5 => pod.is_long(),
        6 => pod.is_float(),
        7 => pod.is_double(),
        8 => pod.is_string(),
        9 => pod.is_bytes(),
        10 => pod.is_rectangle(),
        11 => pod.is_fraction(),
        12 => pod.is_bitmap(),
        13 => pod.is_array(),
        14 => pod.is_struct(),
        15 => pod.is_object(),
        16 => pod.is_sequence(),
        17 => pod.is_pointer(),
        18 => pod.is_fd(),
        19 => pod.is_choice(),
        _ => false,
    }
}

/// What the getter of the type with this number gives, behind the number. Nothing where it answers INVAL.
fn push_said(said: &mut String, pod: &Pod, number: u32) -> Result<(), AllocError> {
    match number {
        2 => push_shown(said, number, pod.get_bool()),
        3 => push_shown(said, number, pod.get_id()),
        4 => push_shown(said, number, pod.get_int()),
        5 => push_shown(said, number, pod.get_long()),
        6 => push_shown(said, number, pod.get_float()),
        7 => push_shown(said, number, pod.get_double()),
        8 => push_shown(said, number, pod.get_string_raw()),
        9 => push_shown(said, number, pod.get_bytes()),
        10 => push_shown(said, number, pod.get_rectangle()),
        11 => push_shown(said, number, pod.get_fraction()),
        12 => push_shown(said, number, pod.get_bitmap()),
        17 => push_shown(said, number, pod.get_pointer()),
        18 => push_shown(said, number, pod.get_fd()),
        _ => Ok(()),
    }
}

fn push_shown<T: Debug + Drop>(
    said: &mut String,
    number: u32,
    read: Result<T, Errno>,
) -> Result<(), AllocError> {
    match read {
        Ok(value) => write!(said, "{number} {value:?} "),
        Err(errno) if errno == Errno::INVAL => Ok(()),
        Err(_) => said.push_str("not INVAL "),
    }
}

/// The numbers of the types whose tests the pod passes.
fn types_of(alloc: Global, pod: &Pod) -> Result<String, AllocError> {
    let mut passed = String::new(alloc);
    for number in 0..31 {
        if passes(pod, number) {
            write!(&mut passed, "{number} ")?;
        }
    }
    Ok(passed)
}

/// What the getters of the pod give, each behind the number of its type.
fn values_of(alloc: Global, pod: &Pod) -> Result<String, AllocError> {
    let mut said = String::new(alloc);
    for number in 0..31 {
        push_said(&mut said, pod, number)?;
    }
    Ok(said)
}

fn opens_as_struct(pod: &Pod) -> bool {
    pod.as_struct().is_ok()
}

fn opens_as_object(pod: &Pod) -> bool {
    pod.as_object().is_ok()
}

fn assert_types(rt: &impl Abort, alloc: Global, pod: &Pod, row: &str) -> Result<(), Fail> {
    let (words, types, _) = parts(row);
    let found = types_of(alloc, pod)?;
    assert_said(rt, found.as_str().trim(), types, words);
    Ok(())
}

fn assert_values(rt: &impl Abort, alloc: Global, pod: &Pod, row: &str) -> Result<(), Fail> {
    let (words, _, values) = parts(row);
    let found = values_of(alloc, pod)?;
    assert_said(rt, found.as_str().trim(), values, words);
    Ok(())
}

/// Compares the pod's types and values with those of its row.
fn assert_viewed(rt: &impl Abort, alloc: Global, row: &str) -> Result<(), Fail> {
    let (words, _, _) = parts(row);
    let bytes = bytes_spelled(alloc, words)?;
    let pod = pod_at(&bytes)?;
    assert_types(rt, alloc, &pod, row)?;
    assert_values(rt, alloc, &pod, row)?;
    assert_holds(rt, opens_as_struct(&pod) == passes(&pod, 14), words);
    assert_holds(rt, opens_as_object(&pod) == passes(&pod, 15), words);
    Ok(())
}

#[test]
fn tests_and_getters_read_pods(rt: HostRuntime) -> Result<(), Fail> {
    for row in READ.lines() {
        assert_viewed(&rt, rt.alloc(), row)?;
    }
    Ok(())
}

/// The bytes of the pod are whole, and no front of them is one.
fn is_least_pod(bytes: &[u8]) -> bool {
    for len in 0..bytes.len() {
        if Pod::from_bytes(&bytes[..len]).is_some() {
            return false;
        }
    }
    Pod::from_bytes(bytes).is_some()
}

/// How many bytes the pod has without its padding, and how many with it.
fn lengths(pod: &Pod) -> (usize, usize) {
    let size = pod.size();
    (8 + size as usize, 8 + size.div_ceil(8) as usize * 8)
}

/// Looks at the view's bytes, and for the least pod among those of the row.
fn assert_least(rt: &impl Abort, alloc: Global, row: &str) -> Result<(), Fail> {
    let (words, _, _) = parts(row);
    let bytes = bytes_spelled(alloc, words)?;
    let pod = pod_at(&bytes)?;
    let (unpadded, extent) = lengths(&pod);
    let front = bytes.as_slice().get(..extent).ok_or("short")?;
    assert_holds(rt, is_least_pod(front), words);
    let wanted = front.get(..unpadded).ok_or("short")?;
    assert_bytes(rt, pod.as_bytes(), wanted, words);
    Ok(())
}

/// The tables whose rows begin with a pod.
const PODS: &[&str] = &[READ, PROPERTIES, FIXATED];

#[test]
fn proper_fronts_are_no_pods(rt: HostRuntime) -> Result<(), Fail> {
    for table in PODS {
        for row in table.lines() {
            assert_least(&rt, rt.alloc(), row)?;
        }
    }
    Ok(())
}

/// The members that are still to come, of the struct at the front of the bytes.
fn fields_at(bytes: &[u8]) -> Result<PodStructIter<'_>, &'static str> {
    Ok(struct_at(bytes)?.fields())
}

/// The type and the size of each member.
fn members_said(alloc: Global, fields: PodStructIter) -> Result<String, AllocError> {
    let mut found = String::new(alloc);
    for field in fields {
        write!(&mut found, "{}:{} ", field.type_().as_raw(), field.size())?;
    }
    Ok(found)
}

/// How many members the struct at the front of the bytes has.
fn member_count(bytes: &[u8]) -> Result<usize, &'static str> {
    Ok(struct_at(bytes)?.fields().count())
}

fn word_count(text: &str) -> usize {
    text.split_whitespace().count()
}

/// Compares the members with those of the row.
fn assert_members(rt: &impl Abort, alloc: Global, row: &str) -> Result<(), Fail> {
    let (words, members, _) = parts(row);
    let bytes = bytes_spelled(alloc, words)?;
    let fields = fields_at(&bytes)?;
    let found = members_said(alloc, fields)?;
    assert_said(rt, found.as_str().trim(), members, words);
    let count = member_count(&bytes)?;
    assert_holds(rt, count == word_count(members), words);
    Ok(())
}

#[test]
fn members_end_where_none_is_whole(rt: HostRuntime) -> Result<(), Fail> {
    for row in MEMBERS.lines() {
        assert_members(&rt, rt.alloc(), row)?;
    }
    Ok(())
}

#[test]
fn the_iterators_end_for_good(rt: HostRuntime) -> Result<(), Fail> {
    let bytes = bytes_spelled(rt.alloc(), "24 14 17 9 4 4 3 0")?;
    let mut fields = fields_at(&bytes)?;
    assert_holds(&rt, fields.next().is_none(), "the first");
    assert_holds(&rt, fields.next().is_none(), "the second");
    Ok(())
}

/// The properties that are still to come, of the object.
fn props_of<'a>(object: &PodObject<'a>) -> PodObjectIter<'a> {
    object.props()
}

/// The property with key 1.
fn first_of<'a>(object: &PodObject<'a>) -> Option<PodProp<'a>> {
    object.find_prop(Id(1))
}

/// Key, flags, type and size of a property.
fn push_property(said: &mut String, prop: &PodProp) -> Result<(), AllocError> {
    let value = prop.value();
    let flags = prop.flags().bits();
    write!(said, "{}:{flags}:", prop.key().as_raw())?;
    write!(said, "{}:{} ", value.type_().as_raw(), value.size())
}

/// The value of the property with key 1.
fn push_first(said: &mut String, object: &PodObject) -> Result<(), AllocError> {
    match first_of(object) {
        Some(prop) => write!(said, "{}", prop.value().get_int().unwrap_or(-1)),
        None => said.push_str("none"),
    }
}

/// What a row of properties says of the object.
fn object_said(alloc: Global, object: &PodObject) -> Result<String, AllocError> {
    let mut said = String::new(alloc);
    let (type_, id) = (object.type_().as_raw(), object.id().as_raw());
    write!(&mut said, "{type_} {id} ")?;
    for prop in props_of(object) {
        push_property(&mut said, &prop)?;
    }
    push_first(&mut said, object)?;
    Ok(said)
}

/// Compares the properties with those of the row.
fn assert_properties(rt: &impl Abort, alloc: Global, row: &str) -> Result<(), Fail> {
    let (words, wanted, _) = parts(row);
    let bytes = bytes_spelled(alloc, words)?;
    let object = object_at(&bytes)?;
    let found = object_said(alloc, &object)?;
    assert_said(rt, found.as_str(), wanted, words);
    Ok(())
}

#[test]
fn properties_are_found(rt: HostRuntime) -> Result<(), Fail> {
    for row in PROPERTIES.lines() {
        assert_properties(&rt, rt.alloc(), row)?;
    }
    Ok(())
}

/// Whether the pod of these words is refused as a sequence.
fn has_no_controls(alloc: Global, words: &str) -> Result<bool, Fail> {
    let bytes = bytes_spelled(alloc, words)?;
    Ok(pod_at(&bytes)?.controls().err() == Some(Errno::INVAL))
}

#[test]
fn controls_of_a_sequence_are_given(rt: HostRuntime) -> Result<(), Fail> {
    let bytes = bytes_spelled(rt.alloc(), "48 16 0 0 5 2 3 9 4209808 0 48 2 0 9")?;
    let mut said = String::new(rt.alloc());
    for control in pod_at(&bytes)?.controls().ok().ok_or("no sequence")? {
        push_property(&mut said, &control)?;
    }
    assert_said(&rt, said.as_str(), "5:2:9:3 48:2:9:0 ", "controls");
    for words in &["4 16 0 0", "8 15 0 0", "0 14"] {
        assert_holds(&rt, has_no_controls(rt.alloc(), *words)?, *words);
    }
    Ok(())
}

fn assert_fixates(rt: &impl Abort, bytes: &mut [u8], wanted: Result<(), Errno>, words: &str) {
    assert_holds(rt, PodObject::fixate(bytes) == wanted, words);
}

fn is_fixated(bytes: &[u8]) -> Result<bool, &'static str> {
    Ok(object_at(bytes)?.is_fixated())
}

/// Compares what fixation answers and leaves with what the row has.
fn assert_fixated(rt: &impl Abort, alloc: Global, row: &str) -> Result<(), Fail> {
    let (words, after, settled) = parts(row);
    let mut bytes = bytes_spelled(alloc, words)?;
    let fixated = bytes_spelled(alloc, after)?;
    assert_fixates(rt, bytes.as_mut_slice(), Ok(()), words);
    assert_bytes(rt, bytes.as_slice(), fixated.as_slice(), words);
    assert_holds(rt, is_fixated(&bytes)? == (settled == "true"), words);
    Ok(())
}

#[test]
fn objects_are_fixated_in_place(rt: HostRuntime) -> Result<(), Fail> {
    for row in FIXATED.lines() {
        assert_fixated(&rt, rt.alloc(), row)?;
    }
    Ok(())
}

/// Expects that fixation refuses these words and leaves them.
fn assert_unfixable(rt: &impl Abort, alloc: Global, words: &str) -> Result<(), Fail> {
    let mut bytes = bytes_spelled(alloc, words)?;
    let same = bytes_spelled(alloc, words)?;
    assert_fixates(rt, bytes.as_mut_slice(), Err(Errno::INVAL), words);
    assert_bytes(rt, bytes.as_slice(), same.as_slice(), words);
    Ok(())
}

#[test]
fn only_objects_are_fixated(rt: HostRuntime) -> Result<(), Fail> {
    for words in NO_OBJECTS.lines() {
        assert_unfixable(&rt, rt.alloc(), words)?;
    }
    Ok(())
}

fn struct_from(pod: Pod<'_>) -> Result<PodStruct<'_>, &'static str> {
    PodStruct::try_from(pod).ok().ok_or("no struct")
}

fn object_from(pod: Pod<'_>) -> Result<PodObject<'_>, &'static str> {
    PodObject::try_from(pod).ok().ok_or("no object")
}

/// Compares the bytes of the struct's pod, by each way back to it.
fn assert_struct_bytes(rt: &impl Abort, members: PodStruct, wanted: &[u8]) {
    assert_bytes(rt, members.as_pod().as_bytes(), wanted, "as_pod");
    assert_bytes(rt, Pod::from(members).as_bytes(), wanted, "from");
    assert_bytes(rt, members.as_ref().as_bytes(), wanted, "as_ref");
}

/// Compares the bytes of the object's pod, by each way back to it.
fn assert_object_bytes(rt: &impl Abort, object: PodObject, wanted: &[u8]) {
    assert_bytes(rt, object.as_pod().as_bytes(), wanted, "as_pod");
    assert_bytes(rt, Pod::from(object).as_bytes(), wanted, "from");
    assert_bytes(rt, object.as_ref().as_bytes(), wanted, "as_ref");
}

#[test]
fn structs_convert(rt: HostRuntime) -> Result<(), Fail> {
    let bytes = bytes_spelled(rt.alloc(), "16 14 4 4 3 0")?;
    let pod = pod_at(&bytes)?;
    assert_struct_bytes(&rt, struct_from(pod)?, &bytes);
    assert_holds(&rt, object_from(pod).is_err(), "a struct");
    Ok(())
}

#[test]
fn objects_convert(rt: HostRuntime) -> Result<(), Fail> {
    let bytes = bytes_spelled(rt.alloc(), "8 15 5 3")?;
    let pod = pod_at(&bytes)?;
    assert_object_bytes(&rt, object_from(pod)?, &bytes);
    assert_holds(&rt, struct_from(pod).is_err(), "an object");
    Ok(())
}

/// The bits of the flag with this name.
fn bits_of(name: &str) -> Option<u32> {
    Some(PodPropFlags::from_name(name)?.bits())
}

/// Compares the bits of the flag with this name.
fn assert_bits(rt: &impl Abort, name: &str, bits: u32) {
    assert_holds(rt, bits_of(name) == Some(bits), name);
}

fn retained_bits(bits: u32) -> u32 {
    PodPropFlags::from_bits_retain(bits).bits()
}

#[test]
fn flags_have_their_bits(rt: HostRuntime) {
    for (name, bits) in named_flags() {
        assert_bits(&rt, name, *bits);
    }
}

#[test]
fn flags_keep_their_bits(rt: HostRuntime) {
    let protected = PodPropFlags::DONT_FIXATE.bits();
    assert_holds(&rt, protected == 16, "DONT_FIXATE");
    assert_holds(&rt, retained_bits(0x8000_0010) == 0x8000_0010, "all bits");
    assert_holds(&rt, PodPropFlags::empty().bits() == 0, "no bits");
}
