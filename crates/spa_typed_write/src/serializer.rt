//! Types that are written as pods, and the writer of one pod.
ghost use Rattle.std.specs.Prelude.{◌≡◌, ◌+◌, ◌++◌, ◌⊎◌, List, ℕ, IfErr, IfOk, OnOk, length};
ghost use Rattle.spa_sink.specs.Writing.{MayRefuse};
ghost use Rattle.spa_sink.specs.declared.gen_error.GenError.{GenError};
ghost use Rattle.spa_format.specs.Front.{front_of};
ghost use Rattle.spa_format.specs.Normal.{normal_of};
ghost use Rattle.spa_format.specs.Pod.{IsPod};
ghost use Rattle.spa_format.specs.Encoding.{encoding_of};
ghost use Rattle.spa_format.specs.Tree.{Tree};
ghost use Rattle.spa_format.specs.Typed.{IsTyped};
ghost use Rattle.spa_format.specs.Writable.{IsWritable};

use spa_format::laws::encodings_read_back;
use spa_sink::{GenError, PodOutput};
use std::marker::Model;

/// A type that is written as a pod.
pub trait PodSerialize {
    /// The tree of the value that is written.
    ghost value: { Self → Tree };

    /// The errors with which the type may refuse the value, whatever the output is. A type that promises nothing here keeps the default.
    ghost refuses: { Self → GenError → Type 0 } = { λ _ _. Unit {0} };

    /// Appends the value's encoding to the serializer's output. Refused as `refuses` states, or with an error with which the
    /// output may refuse as many bytes as the encoding has.
    fn serialize<O: PodOutput>(
        &self,
        serializer: PodSerializer<O>,
    ) -> Result<SerializeSuccess<O>, GenError>
        ensures encoding { IfOk result
            (λ s. O.content s.output ≡ O.content serializer ++ encoding_of (value self.now)) }
        ensures count { IfOk result (λ s. s.count ≡ length (encoding_of (value self.now))) }
        ensures typed { OnOk result (IsTyped (value self.now)) }
        ensures writable { OnOk result (IsWritable (value self.now)) }
        ensures cause { IfErr result (λ e. refuses self.now e ⊎
            MayRefuse O.refuses serializer (length (encoding_of (value self.now))) e) };
}

/// Writes one pod to the end of an output.
#[derive(Drop)]
pub struct PodSerializer<O: PodOutput> {
    pub(crate) out: O,
}

impl<O: PodOutput> Model for PodSerializer<O> {
    ghost Value = { O };

    ghost view = { λ s. s.out };
}

/// A pod was written: the output, and the length of the pod in bytes.
#[derive(Drop)]
pub struct SerializeSuccess<O: PodOutput> {
    pub(crate) out: O,
    pub(crate) len: u64,
}

impl<O: PodOutput> Model for SerializeSuccess<O> {
    ghost use Rattle.spa_typed_write.specs.Success.{Success};

    ghost Value = { Success O };

    ghost view = { λ s. record { output = s.out; count = s.len } };
}

impl<O: PodOutput> PodSerializer<O> {
    /// Writes a value to the end of an output, and answers the output and the length of the value's encoding in bytes. Refused as the type
    /// `P` refuses the value, or with an error of the output; the output isn't handed back then.
    pub fn serialize<P: PodSerialize>(out: O, pod: &P) -> Result<(O, u64), GenError>
        ensures encoding { IfOk result (λ done. O.content done.0 ≡ O.content out ++ encoding_of (P.value pod.now)) }
        ensures count { IfOk result (λ done. done.1 ≡ length (encoding_of (P.value pod.now))) }
        ensures typed { OnOk result (IsTyped (P.value pod.now)) }
        ensures writable { OnOk result (IsWritable (P.value pod.now)) }
        // The encoding reads back as the value's normal form, whatever follows it.
        ensures front { OnOk result ((r : List ℕ)
            → front_of (encoding_of (P.value pod.now) ++ r) ≡ encoding_of (P.value pod.now)) }
        ensures back { OnOk result (IsPod (encoding_of (P.value pod.now)) (normal_of (P.value pod.now))) }
        // It is refused as the type refuses the value, or as the output may refuse this many bytes.
        ensures cause { IfErr result (λ e. P.refuses pod.now e
            ⊎ MayRefuse O.refuses out (length (encoding_of (P.value pod.now))) e) }
    {
        encodings_read_back();
        let SerializeSuccess { out, len } = pod.serialize(PodSerializer { out })?;
        Ok((out, len))
    }
}
