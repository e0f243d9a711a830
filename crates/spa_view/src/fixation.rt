//! Fixation in place: each choice among an object's properties becomes its default.
ghost use Rattle.std.specs.Prelude.{◌≡◌, ◌≤◌, ◌<◌, ◌+◌, ℕ, IfErr, IfOk, OnErr, OnOk, length};
ghost use Rattle.spa_format.specs.Fixation.{default_properties, fixated_bytes, fixated_properties, fixated_property};
ghost use Rattle.spa_format.specs.Front.{Begins, rest_of};
ghost use Rattle.spa_format.specs.Tree.{Properties, object};
ghost use Rattle.spa_format.specs.Walk.{HasObject, extent_behind};
ghost use Rattle.spa_format.specs.Words.{header_size};

use crate::pod::Pod;
use crate::props::{PodObject, PodProp, prop_extent};
use crate::type_tests::CHOICE_SHAPE_AT;
use spa_bytes::HEADER_LEN;
use spa_utils::Errno;

/// The offset in an object's pod at which its properties begin: behind its header, its type and its id.
const PROPERTIES_AT: usize = HEADER_LEN + HEADER_LEN;

/// The offsets in a property at which the shape word of its choice begins and ends.
const SHAPE_AT: usize = HEADER_LEN + CHOICE_SHAPE_AT;

const SHAPE_END: usize = SHAPE_AT + 4;

/// Sets the shape word of a property's choice to that of None, unless its flags have DONT_FIXATE.
fn fixate_prop(prop: &mut [u8])
    requires { length prop.old ≡ extent_behind header_size prop.old }
    ensures { prop.new ≡ fixated_property prop.old }
{
    let view = PodProp { bytes: prop };
    if view.is_fixable() {
        prop[SHAPE_AT..SHAPE_END].copy_from_slice(&[0; 4]);
    }
}

/// Fixates each property that the walk over these bytes finds.
fn fixate_props(props: &mut [u8])
    ensures { props.new ≡ fixated_properties props.old }
{
    let mut at = 0;
    while let Some(extent) = prop_extent(&props[at..]) {
        fixate_prop(&mut props[at..at + extent]);
        at += extent;
    }
}

impl<'a> PodObject<'a> {
    /// Makes each choice among the properties of the object at the front its default: sets to 0 the shape word of each
    /// property's value that is a choice, unless the property's flags have DONT_FIXATE, and changes no other byte. INVAL,
    /// and nothing is changed, where no object is at the front.
    pub fn fixate(bytes: &mut [u8]) -> Result<(), Errno>
        ensures ok { OnOk result (HasObject bytes.old) }
        ensures fixated { OnOk result (bytes.new ≡ fixated_bytes bytes.old) }
        ensures accepted { IfOk result (λ _. (t i : ℕ) (ps : Properties) → Begins bytes.old (object t i ps) →
            Begins bytes.new (object t i (default_properties ps))) }
        ensures length { length bytes.new ≡ length bytes.old }
        ensures rest { rest_of bytes.new ≡ rest_of bytes.old }
        ensures refused { IfErr result (λ e. (¬ (HasObject bytes.old)) × (e ≡ Errno.INVAL)) }
        ensures unchanged { OnErr result (bytes.new ≡ bytes.old) }
    {
        let Some(pod) = Pod::from_bytes(bytes) else {
            return Err(Errno::INVAL);
        };
        if !pod.is_object() {
            return Err(Errno::INVAL);
        }
        let end = HEADER_LEN + pod.size() as usize;
        fixate_props(&mut bytes[PROPERTIES_AT..end]);
        Ok(())
    }
}
