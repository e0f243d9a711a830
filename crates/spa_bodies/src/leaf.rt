//! Writes values of the types of fixed size, and arrays and choices of them.
ghost use Rattle.std.specs.Prelude.{IfErr, OnErr, OnOk, map};
ghost use Rattle.spa_fixed_sized.specs.Choices.{choice_tree};
ghost use Rattle.spa_sink.specs.Writing.{Begun, RefusesWrite};
ghost use Rattle.spa_format.specs.Encoding.{encoding_of};
ghost use Rattle.spa_format.specs.Tree as tree;
ghost use Rattle.spa_bodies.specs.Written.{IsPut, RefusesLeaf};

use spa_fixed_sized::{CanonicalFixedSizedPod, ChoiceElement, put_array, put_choice, put_fixed};
use spa_sink::{GenError, PodSink};
use spa_utils::Choice;

/// Appends the encoding of a value of fixed size.
#[inline(always)]
pub fn put_number<T: CanonicalFixedSizedPod, S: PodSink>(
    sink: &mut S,
    value: &T,
) -> Result<(), GenError>
    ensures put { OnOk result (IsPut S.appends sink.old (tree.fixed (T.fixed value.now)) sink.new) }
    ensures begun { OnErr result (Begun S.appends sink.old (encoding_of (tree.fixed (T.fixed value.now))) sink.new) }
    ensures refused { IfErr result (RefusesLeaf S.refuses sink.old (tree.fixed (T.fixed value.now)) sink.new) }
{
    put_fixed(sink, value)
}

/// Appends the encoding of an array of these elements.
pub fn put_elements<T: CanonicalFixedSizedPod, S: PodSink>(
    sink: &mut S,
    values: &[T],
) -> Result<(), GenError>
    ensures put { OnOk result (IsPut S.appends sink.old (tree.array T.kind (map T.fixed values.now)) sink.new) }
    ensures begun { OnErr result (Begun S.appends sink.old
        (encoding_of (tree.array T.kind (map T.fixed values.now))) sink.new) }
    ensures refused { IfErr result (RefusesLeaf S.refuses sink.old
        (tree.array T.kind (map T.fixed values.now)) sink.new) }
{
    put_array(sink, values)
}

/// Appends the encoding of a choice over one type of fixed size.
pub fn put_alternatives<T: ChoiceElement, S: PodSink>(
    sink: &mut S,
    choice: &Choice<T>,
) -> Result<(), GenError>
    ensures put { OnOk result (IsPut S.appends sink.old (choice_tree T.kind T.fixed choice.now) sink.new) }
    ensures begun { OnErr result (Begun S.appends sink.old
        (encoding_of (choice_tree T.kind T.fixed choice.now)) sink.new) }
    ensures refused { IfErr result (RefusesLeaf S.refuses sink.old (choice_tree T.kind T.fixed choice.now) sink.new) }
{
    put_choice(sink, choice)
}
