//! Zero-copy views of objects, and of their properties.
ghost use Rattle.std.specs.Prelude.{◌≡◌, ◌≤◌, ◌<◌, ◌+◌, ◌*◌, ℕ, IfErr, IfNone, IfOk, IfSome, OnOk, drop, length};
ghost use Rattle.spa_format.specs.Words.{body_of, header_size, size_limit, word_at};
ghost use Rattle.spa_format.specs.Walk.{extent_behind};

use crate::flags::{DONT_FIXATE, PodPropFlags};
use crate::pod::Pod;
use spa_bytes::{HEADER_LEN, extent_of, u32_at};
use spa_utils::{Errno, Id, SpaTypes};

/// The offsets of the type and of the id in an object's body.
const OBJECT_TYPE_AT: usize = 0;

const OBJECT_ID_AT: usize = 4;

/// The offsets of the key, the flags and the value's size word in a property.
const KEY_AT: usize = 0;

const FLAGS_AT: usize = 4;

const VALUE_AT: usize = 8;

/// A view of an object.
#[derive(Clone, Copy, Debug)]
pub struct PodObject<'a> {
    pub(crate) pod: Pod<'a>,
    ghost parts: { header_size ≤ word_at pod.bytes.now 0 },
}

impl<'a> PodObject<'a> {
    ghost use Rattle.spa_view.specs.View.{object_bytes, pod_bytes, props_left};
    ghost use Rattle.spa_view.specs.Found.{IsFirst};
    ghost use Rattle.spa_format.specs.Fixation.{all_settled, are_settled};
    ghost use Rattle.spa_format.specs.Pod.{IsPod};
    ghost use Rattle.spa_format.specs.Tree.{Properties, object};
    ghost use Rattle.spa_format.specs.Walk.{ArePropertiesOf, properties_of, property_walk};

    /// The object's pod.
    pub fn as_pod(&self) -> Pod<'a>
        ensures { pod_bytes result ≡ object_bytes self.now }
    {
        self.pod
    }

    /// The object's type.
    pub fn type_(&self) -> SpaTypes
        ensures { result.0 ≡ word_at (body_of (object_bytes self.now)) 0 }
    {
        SpaTypes(u32_at(self.pod.body(), OBJECT_TYPE_AT))
    }

    /// The object's id.
    pub fn id(&self) -> Id
        ensures { result.0 ≡ word_at (body_of (object_bytes self.now)) 4 }
    {
        Id(u32_at(self.pod.body(), OBJECT_ID_AT))
    }

    /// An iterator over the properties in order, up to the first that isn't whole.
    pub fn props(&self) -> PodObjectIter<'a>
        ensures walk { props_left result ≡ property_walk (properties_of (object_bytes self.now)) }
        ensures accepted { (t i : ℕ) (ps : Properties) → IsPod (object_bytes self.now) (object t i ps) →
            ArePropertiesOf ps (props_left result) }
        ensures few { length (props_left result) * header_size ≤ word_at (object_bytes self.now) 0 }
        ensures bound { length (props_left result) < size_limit }
    {
        let (_, left) = self.pod.body().split_at(HEADER_LEN);
        PodObjectIter { left }
    }

    /// The first property with the key. None: no property has it.
    pub fn find_prop(&self, key: Id) -> Option<PodProp<'a>>
        ensures { IsFirst key.0 (property_walk (properties_of (object_bytes self.now))) result }
    {
        for prop in self.props() {
            if prop.key() == key {
                return Some(prop);
            }
        }
        None
    }

    /// Whether no property's value is a choice of a shape other than None.
    pub fn is_fixated(&self) -> bool
        ensures settled { result ≡ all_settled (property_walk (properties_of (object_bytes self.now))) }
        ensures accepted { (t i : ℕ) (ps : Properties) → IsPod (object_bytes self.now) (object t i ps) →
            result ≡ are_settled ps }
    {
        for prop in self.props() {
            if !prop.value().is_settled() {
                return false;
            }
        }
        true
    }
}

impl<'a> Pod<'a> {
    ghost use Rattle.spa_view.specs.Tests.{HoldsControls};
    ghost use Rattle.spa_view.specs.View.{pod_bytes, props_left};
    ghost use Rattle.spa_format.specs.Walk.{properties_of, property_walk};

    /// An iterator over the controls of a sequence, which are as the properties of an object: their keys are offsets, and their flags the numbers of
    /// their types. INVAL exactly where the pod is no sequence, or has no room for the two words before the controls.
    pub fn controls(&self) -> Result<PodObjectIter<'a>, Errno>
        ensures ok { OnOk result (HoldsControls (pod_bytes self.now)) }
        ensures walk { IfOk result (λ controls. props_left controls ≡ property_walk (properties_of (pod_bytes self.now))) }
        ensures refused { IfErr result (λ e. (¬ (HoldsControls (pod_bytes self.now))) × (e ≡ Errno.INVAL)) }
    {
        let body = self.body();
        if !self.is_sequence() || body.len() < HEADER_LEN {
            return Err(Errno::INVAL);
        }
        let (_, left) = body.split_at(HEADER_LEN);
        Ok(PodObjectIter { left })
    }
}

/// A view of a property: key, flags and a whole pod.
#[derive(Clone, Copy, Debug)]
pub struct PodProp<'a> {
    pub(crate) bytes: &'a [u8],
    ghost whole: { length bytes.now ≡ extent_behind header_size bytes.now },
}

impl<'a> PodProp<'a> {
    ghost use Rattle.spa_view.specs.View.{flag_bits, pod_bytes, prop_bytes};
    ghost use Rattle.spa_format.specs.Fixation.{is_fixable};

    /// The key.
    pub fn key(&self) -> Id
        ensures { result.0 ≡ word_at (prop_bytes self.now) 0 }
    {
        Id(u32_at(self.bytes, KEY_AT))
    }

    /// The flags.
    pub fn flags(&self) -> PodPropFlags
        ensures { flag_bits result ≡ word_at (prop_bytes self.now) 4 }
    {
        PodPropFlags(u32_at(self.bytes, FLAGS_AT))
    }

    /// The value.
    pub fn value(&self) -> Pod<'a>
        ensures { pod_bytes result ≡ drop header_size (prop_bytes self.now) }
    {
        let (_, bytes) = self.bytes.split_at(HEADER_LEN);
        Pod { bytes }
    }

    /// Whether fixation changes the value: it is a choice, and the flags lack DONT_FIXATE.
    pub(crate) fn is_fixable(&self) -> bool
        ensures { result ≡ is_fixable (prop_bytes self.now) }
    {
        self.flags().0 & DONT_FIXATE == 0 && self.value().is_choice()
    }
}

/// The length of the first property in bytes. None: there is no whole one.
pub(crate) fn prop_extent(left: &[u8]) -> Option<usize>
    ensures there { IfSome result (λ n. (n ≡ extent_behind header_size left.now) × (n ≤ length left.now)) }
    ensures none { IfNone result (length left.now < extent_behind header_size left.now) }
{
    if left.len() < HEADER_LEN + HEADER_LEN {
        return None;
    }
    let extent = HEADER_LEN + extent_of(u32_at(left, VALUE_AT));
    if left.len() < extent {
        return None;
    }
    Some(extent)
}

/// An iterator over the properties of an object. It ends for good at the first that isn't whole.
#[derive(Clone, Copy, Debug)]
pub struct PodObjectIter<'a> {
    left: &'a [u8],
}

impl<'a> Iterator for PodObjectIter<'a> {
    ghost use Rattle.std.specs.Iterator.{item_count, YieldsFirstBy};
    ghost use Rattle.spa_view.specs.View.{prop_bytes, props_left};

    type Item = PodProp<'a>;

    ghost next_gives = { YieldsFirstBy prop_bytes props_left };

    ghost remaining = { item_count props_left };

    fn next(&mut self) -> Option<PodProp<'a>> {
        let extent = prop_extent(self.left)?;
        let (bytes, left) = self.left.split_at(extent);
        self.left = left;
        Some(PodProp { bytes })
    }
}
