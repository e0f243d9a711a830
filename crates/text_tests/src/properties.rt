//! Properties and their flags.
use crate::compare::{assert_holds, assert_same, assert_same_at};
use crate::table::int_property;
use bitflags::Flags;
use spa_value::{Property, PropertyFlags, Value};
use std::process::Abort;

/// A new property.
fn new_property() -> Property {
    Property::new(1, Value::Int(3))
}

/// The bits of flags.
fn bits_of(flags: PropertyFlags) -> u32 {
    flags.bits()
}

/// The flags of a new property.
fn new_flags() -> u32 {
    let Property { flags, value, .. } = new_property();
    drop(value);
    bits_of(flags)
}

/// Whether two are equal.
fn are_equal<T: PartialEq + Drop>(found: T, wanted: T) -> bool {
    found == wanted
}

#[test]
fn new_properties_have_no_flags(rt: HostRuntime) {
    assert_same(&rt, &new_flags(), &0, "a new property");
    let equal = are_equal(new_property(), int_property(1, 0, 3));
    assert_holds(&rt, equal, "a new property");
}

/// The bits of the flags of these bits.
fn kept(bits: u32) -> u32 {
    PropertyFlags::from_bits_retain(bits).bits()
}

/// Whether the flags of these bits contain a flag.
fn contains(bits: u32, flag: PropertyFlags) -> bool {
    PropertyFlags::from_bits_retain(bits).contains(flag)
}

/// The bits of the flags of these bits, together with a flag.
fn union(bits: u32, flag: PropertyFlags) -> u32 {
    PropertyFlags::from_bits_retain(bits).union(flag).bits()
}

/// The named flags, and the bit of each.
const NAMED: &[(PropertyFlags, u32)] = &[
    (PropertyFlags::READONLY, 1),
    (PropertyFlags::HARDWARE, 2),
    (PropertyFlags::HINT_DICT, 4),
    (PropertyFlags::MANDATORY, 8),
    (PropertyFlags::DONT_FIXATE, 16),
];

/// Those rows. This function alone names them: one that does is proved with all of them.
fn named_flags() -> &'static [(PropertyFlags, u32)] {
    NAMED
}

/// Bits of flags: none, some of the named, all of these, one without a name, and all.
const BITS: &[u32] = &[0, 1, 2, 24, 31, 0x8000_0000, 0xffff_ffff];

#[test]
fn property_flags_have_their_bits(rt: HostRuntime) {
    assert_same(&rt, &bits_of(PropertyFlags::empty()), &0, "no flags");
    for (flag, bit) in named_flags() {
        assert_same_at(&rt, &bits_of(*flag), bit, &[*bit]);
    }
    for bits in BITS {
        assert_same_at(&rt, &kept(*bits), bits, &[*bits]);
    }
}

/// Looks for a flag in the flags of these bits, and puts it to them.
fn assert_united(rt: &impl Abort, bits: u32, flag: PropertyFlags, bit: u32) {
    assert_same_at(rt, &contains(bits, flag), &(bits & bit == bit), &[bits]);
    assert_same_at(rt, &union(bits, flag), &(bits | bit), &[bits]);
}

#[test]
fn property_flags_are_united(rt: HostRuntime) {
    for bits in BITS {
        for (flag, bit) in named_flags() {
            assert_united(&rt, *bits, *flag, *bit);
        }
    }
}
