//! The builder.
ghost use Rattle.std.specs.Prelude.{◌≡◌, ◌≢◌, ◌+◌, [], IfErr, IfOk, IsErrAnd, IsOkAnd, List, length, map};
ghost use Rattle.spa_fixed_sized.specs.Choices.{choice_tree};
ghost use Rattle.spa_fixed_sized.specs.Reading.{AreWhole};
ghost use Rattle.spa_format.specs.Kind.{Fixed, bool, double, fd, float, fraction, id, int, long, none, rectangle};
ghost use Rattle.spa_format.specs.Encoding.{encoding_of, member_encodings};
ghost use Rattle.spa_format.specs.Pod.{AreElements};
ghost use Rattle.spa_format.specs.Tree.{Tree, array, bytes, fixed, pointer, string};
ghost use Rattle.spa_value.specs.View.{array_view, view};
ghost use Rattle.spa_builder.specs.State.{State, start};
ghost use Rattle.spa_builder.specs.Step.{abandon, add, add_prop, pop, push_array, push_choice, push_object, push_struct, step};
ghost use Rattle.spa_builder.specs.Fields.{IsAt};
ghost use Rattle.spa_builder.specs.Making.{state_of_value};
ghost use Rattle.spa_builder.specs.Answers.{IsCopied, Makes, MakesPod, MakesValue, Spells};
ghost use Rattle.spa_view.specs.View.{pod_bytes};
ghost use Rattle.spa_utils.specs.declared.errno.TheConstants.Errno.{INVAL};

use crate::begun::{Elements, NO_ELEMENTS, Stage, What};
use crate::building::{
    add_bodies, add_body, add_elements, add_encoding, add_fixed, add_key, add_values,
    add_whole_choice, are_bodies, begin_tree, close, leave,
};
use crate::bytes::pointer_pod;
use crate::frames::Frames;
use crate::heads::{array_head, choice_head, object_head, struct_head};
use crate::pods::add_seen;
use crate::values::add_any;
use spa_bytes::POINTER_LEN;
use spa_fixed_sized::{CanonicalFixedSizedPod, ChoiceElement, FLAGS_SHAPE};
use spa_spare_capacity::Written;
use spa_utils::{Choice, Errno, Fd, Float32, Float64, Fraction, Frame, Id, Rectangle, SpaTypes};
use spa_value::{Value, ValueArray};
use spa_view::Pod;
use std::marker::Model;

/// Builds pods call by call, one behind another, at the end of one vector.
///
/// A value is added to the innermost open pod, or is a top-level pod where no pod is open. A call is refused as INVAL
/// where it isn't allowed there, as NOSPC where it would make the size of the value or of an open pod 4294967296 or more,
/// and as NOMEM where there is no memory; in this order. A refused call changes nothing.
#[derive(Drop)]
pub struct Builder {
    bytes: Written,
    frames: Frames,
}

impl Model for Builder {
    ghost use Rattle.spa_builder.specs.Fields.{BuilderFields, HasState, fields_of};

    ghost Value = { BuilderFields };

    ghost view = { λ b. fields_of b.bytes b.frames };

    ghost invariant = { λ b. HasState (fields_of b.bytes b.frames) };
}

impl Builder {
    /// A builder over this vector, which is emptied.
    pub fn new(bytes: Vec<u8>) -> Builder
        ensures { IsAt result start }
    {
        let frames = Frames::new(*bytes.allocator());
        let bytes = Written::new(bytes);
        Builder { bytes, frames }
    }

    /// The bytes of the vector: the closed pods, and behind them those of the open pods so far.
    pub fn as_bytes(&self) -> &[u8]
        ensures { (s : State) → IsAt self.now s → Spells result.now s }
    {
        self.bytes.as_slice()
    }

    /// How many pods are open. It is the number of the innermost one's frame.
    pub fn open_frames(&self) -> usize
        ensures { (s : State) → IsAt self.now s → result ≡ length s.opened }
    {
        self.frames.len()
    }

    /// The vector with the pods that were built. Refused as INVAL where a pod is open: the vector is given up then.
    pub fn finish(self) -> Result<Vec<u8>, Errno>
        ensures made { (s : State) → IsAt self s
            → IfOk result (λ made. (s.opened ≡ []) × (made.items ≡ member_encodings s.closed)) }
        ensures refused { (s : State) → IsAt self s → IfErr result (λ e. (e ≡ INVAL) × (s.opened ≢ [])) }
        // A single value gives its encoding.
        ensures built { (v : Tree) → IsAt self (state_of_value v)
            → IsOkAnd result (λ made. made.items ≡ encoding_of v) }
    {
        if self.frames.len() > 0 {
            return Err(Errno::INVAL);
        }
        Ok(self.bytes.into_inner())
    }

    /// The vector, also where pods are open.
    pub fn into_inner(self) -> Vec<u8>
        ensures { (s : State) → IsAt self s → Spells result.items s }
    {
        self.bytes.into_inner()
    }

    /// Adds a value of fixed size.
    #[inline(always)]
    fn add_sized<T: CanonicalFixedSizedPod>(&mut self, value: &T) -> Result<(), Errno>
        ensures { (s : State) → IsAt self.old s
            → Makes (step s (add (fixed (T.fixed value.now)))) self.old self.new result }
    {
        add_fixed(&mut self.bytes, &mut self.frames, value)
    }

    /// Adds a None.
    #[inline(always)]
    pub fn add_none(&mut self) -> Result<(), Errno>
        ensures { (s : State) → IsAt self.old s → Makes (step s (add (fixed none))) self.old self.new result }
    {
        self.add_sized(&())
    }

    /// Adds a truth value.
    #[inline(always)]
    pub fn add_bool(&mut self, value: bool) -> Result<(), Errno>
        ensures { (s : State) → IsAt self.old s → Makes (step s (add (fixed (bool value)))) self.old self.new result }
    {
        self.add_sized(&value)
    }

    /// Adds an id.
    #[inline(always)]
    pub fn add_id(&mut self, value: Id) -> Result<(), Errno>
        ensures { (s : State) → IsAt self.old s → Makes (step s (add (fixed (id value.0)))) self.old self.new result }
    {
        self.add_sized(&value)
    }

    /// Adds a signed number of 32 bits.
    #[inline(always)]
    pub fn add_int(&mut self, value: i32) -> Result<(), Errno>
        ensures { (s : State) → IsAt self.old s → Makes (step s (add (fixed (int value)))) self.old self.new result }
    {
        self.add_sized(&value)
    }

    /// Adds a signed number of 64 bits.
    #[inline(always)]
    pub fn add_long(&mut self, value: i64) -> Result<(), Errno>
        ensures { (s : State) → IsAt self.old s → Makes (step s (add (fixed (long value)))) self.old self.new result }
    {
        self.add_sized(&value)
    }

    /// Adds a float of 32 bits.
    #[inline(always)]
    pub fn add_float(&mut self, value: Float32) -> Result<(), Errno>
        ensures { (s : State) → IsAt self.old s
            → Makes (step s (add (fixed (float value.0)))) self.old self.new result }
    {
        self.add_sized(&value)
    }

    /// Adds a float of 64 bits.
    #[inline(always)]
    pub fn add_double(&mut self, value: Float64) -> Result<(), Errno>
        ensures { (s : State) → IsAt self.old s
            → Makes (step s (add (fixed (double value.0)))) self.old self.new result }
    {
        self.add_sized(&value)
    }

    /// Adds a text. Refused as INVAL also where it holds NUL.
    #[inline(always)]
    pub fn add_string(&mut self, value: &str) -> Result<(), Errno>
        ensures { (s : State) → IsAt self.old s → Makes (step s (add (string value.now))) self.old self.new result }
    {
        let text = value.as_bytes();
        if text.contains(&0) {
            return Err(Errno::INVAL);
        }
        add_body(
            &mut self.bytes,
            &mut self.frames,
            SpaTypes::String.0,
            text,
            &[0],
        )
    }

    /// Adds bytes.
    pub fn add_bytes(&mut self, value: &[u8]) -> Result<(), Errno>
        ensures { (s : State) → IsAt self.old s → Makes (step s (add (bytes value.now))) self.old self.new result }
    {
        add_body(
            &mut self.bytes,
            &mut self.frames,
            SpaTypes::Bytes.0,
            value,
            &[],
        )
    }

    /// Adds a pointer: a type number and an address.
    #[inline(always)]
    pub fn add_pointer(&mut self, type_: Id, address: u64) -> Result<(), Errno>
        ensures { (s : State) → IsAt self.old s
            → Makes (step s (add (pointer type_.0 address))) self.old self.new result }
    {
        let pod = pointer_pod(type_.0, address);
        add_encoding(&mut self.bytes, &mut self.frames, POINTER_LEN, &pod)
    }

    /// Adds a file descriptor's number.
    #[inline(always)]
    pub fn add_fd(&mut self, value: i64) -> Result<(), Errno>
        ensures { (s : State) → IsAt self.old s → Makes (step s (add (fixed (fd value)))) self.old self.new result }
    {
        self.add_sized(&Fd(value))
    }

    /// Adds a rectangle.
    #[inline(always)]
    pub fn add_rectangle(&mut self, value: Rectangle) -> Result<(), Errno>
        ensures { (s : State) → IsAt self.old s
            → Makes (step s (add (fixed (rectangle value.width value.height)))) self.old self.new result }
    {
        self.add_sized(&value)
    }

    /// Adds a fraction.
    #[inline(always)]
    pub fn add_fraction(&mut self, value: Fraction) -> Result<(), Errno>
        ensures { (s : State) → IsAt self.old s
            → Makes (step s (add (fixed (fraction value.num value.denom)))) self.old self.new result }
    {
        self.add_sized(&value)
    }

    /// Adds a whole array.
    pub fn add_array(&mut self, values: &ValueArray) -> Result<(), Errno>
        ensures { (s : State) → IsAt self.old s
            → Makes (step s (add (array_view values.now))) self.old self.new result }
    {
        add_elements(&mut self.bytes, &mut self.frames, values)
    }

    /// Adds a whole array of these elements.
    pub fn add_array_of<T: CanonicalFixedSizedPod>(&mut self, values: &[T]) -> Result<(), Errno>
        ensures { (s : State) → IsAt self.old s
            → Makes (step s (add (array T.kind (map T.fixed values.now)))) self.old self.new result }
    {
        add_values(&mut self.bytes, &mut self.frames, values)
    }

    /// Adds a whole array of this type from the bodies of its elements, one after another in these bytes; there may be none. Refused as INVAL also
    /// where the bytes aren't a whole number of bodies. It asks for no memory but the builder's own.
    pub fn add_array_in<T: CanonicalFixedSizedPod>(&mut self, bodies: &[u8]) -> Result<(), Errno>
        ensures made { (s : State) (xs : List Fixed) → IsAt self.old s → AreElements T.kind xs bodies.now
            → Makes (step s (add (array T.kind xs))) self.old self.new result }
        ensures refused { ¬ (AreWhole T.SIZE bodies.now) → IsErrAnd result (λ e. e ≡ INVAL) × (self.new ≡ self.old) }
    {
        if !are_bodies::<T>(bodies) {
            return Err(Errno::INVAL);
        }
        add_bodies::<T>(&mut self.bytes, &mut self.frames, bodies)
    }

    /// Adds a whole choice.
    pub fn add_choice<T: ChoiceElement>(&mut self, choice: &Choice<T>) -> Result<(), Errno>
        ensures { (s : State) → IsAt self.old s
            → Makes (step s (add (choice_tree T.kind T.fixed choice.now))) self.old self.new result }
    {
        add_whole_choice(&mut self.bytes, &mut self.frames, choice)
    }

    /// Adds any value: one of fixed size as the call of its kind does, any other as its encoding. The value is walked once:
    /// where it is allowed next, want of memory, or a size in it that doesn't fit 32 bits, is answered where it is found, even
    /// if a later text in the value holds NUL.
    pub fn add_value(&mut self, value: &Value) -> Result<(), Errno>
        ensures { (s : State) → IsAt self.old s → MakesValue s (view value.now) self.old self.new result }
    {
        add_any(&mut self.bytes, &mut self.frames, value)
    }

    /// Adds the value of a pod, as `add_value` does. Where a value of any type is allowed, a canonical pod with a nesting depth
    /// of at most 1000 is copied; any other is read first. Refused as INVAL also where the pod is of no value.
    pub fn add_pod(&mut self, pod: Pod<'_>) -> Result<(), Errno>
        ensures makes { (s : State) → IsAt self.old s → MakesPod s (pod_bytes pod.entry) self.old self.new result }
        ensures copied { (s : State) (v : Tree) → IsAt self.old s → IsCopied s (pod_bytes pod.entry) v
            → Makes (step s (add v)) self.old self.new result }
    {
        add_seen(&mut self.bytes, &mut self.frames, &pod)
    }

    /// Adds the key and the flags of a property. The next call has to add its value or open it.
    #[inline(always)]
    pub fn add_prop(&mut self, key: u32, flags: u32) -> Result<(), Errno>
        ensures { (s : State) → IsAt self.old s → Makes (step s (add_prop key flags)) self.old self.new result }
    {
        add_key(&mut self.bytes, &mut self.frames, key, flags)
    }

    /// Opens an array. Its elements have to be of the first one's kind, of fixed size.
    #[inline(always)]
    pub fn push_array(&mut self) -> Result<Frame, Errno>
        ensures step { (s : State) → IsAt self.old s → Makes (step s push_array) self.old self.new result }
        ensures frame { (s : State) → IsAt self.old s → IfOk result (λ f. f.0 ≡ length s.opened + 1) }
    {
        begin_tree(
            &mut self.bytes,
            &mut self.frames,
            What {
                stage: Stage::Array,
                elements: NO_ELEMENTS,
            },
            array_head(),
        )
    }

    /// Opens a choice of this shape: 0 None, 1 Range, 2 Step, 3 Enum, 4 Flags; any other number is refused as INVAL. Its
    /// values have to be of the first one's kind, of fixed size and not None. There has to be at least one value: of a Range
    /// default, minimum and maximum, of a Step these and the step. Only Enum and Flags take more.
    pub fn push_choice(&mut self, shape: u32, flags: u32) -> Result<Frame, Errno>
        ensures step { (s : State) → IsAt self.old s
            → Makes (step s (push_choice shape flags)) self.old self.new result }
        ensures frame { (s : State) → IsAt self.old s → IfOk result (λ f. f.0 ≡ length s.opened + 1) }
    {
        if shape > FLAGS_SHAPE {
            return Err(Errno::INVAL);
        }
        begin_tree(
            &mut self.bytes,
            &mut self.frames,
            What {
                stage: Stage::Choice,
                elements: Elements {
                    shape,
                    first: None,
                    count: 0,
                },
            },
            choice_head(shape, flags),
        )
    }

    /// Opens a struct.
    #[inline(always)]
    pub fn push_struct(&mut self) -> Result<Frame, Errno>
        ensures step { (s : State) → IsAt self.old s → Makes (step s push_struct) self.old self.new result }
        ensures frame { (s : State) → IsAt self.old s → IfOk result (λ f. f.0 ≡ length s.opened + 1) }
    {
        begin_tree(
            &mut self.bytes,
            &mut self.frames,
            What {
                stage: Stage::Struct,
                elements: NO_ELEMENTS,
            },
            struct_head(),
        )
    }

    /// Opens an object of this type and id.
    #[inline(always)]
    pub fn push_object(&mut self, type_: u32, id: u32) -> Result<Frame, Errno>
        ensures step { (s : State) → IsAt self.old s → Makes (step s (push_object type_ id)) self.old self.new result }
        ensures frame { (s : State) → IsAt self.old s → IfOk result (λ f. f.0 ≡ length s.opened + 1) }
    {
        begin_tree(
            &mut self.bytes,
            &mut self.frames,
            What {
                stage: Stage::Object,
                elements: NO_ELEMENTS,
            },
            object_head(type_, id),
        )
    }

    /// Closes the innermost open pod, whose frame this has to be. Refused as INVAL for any other frame, for an object in
    /// which a key waits for its value, and for a choice that lacks values. Never NOSPC.
    #[inline(always)]
    pub fn pop(&mut self, frame: Frame) -> Result<(), Errno>
        ensures { (s : State) → IsAt self.old s → Makes (step s (pop frame.0)) self.old self.new result }
    {
        close(&mut self.bytes, &mut self.frames, frame.0)
    }

    /// Gives up the innermost open pod, whose frame this has to be, with all that was added to it: everything is as it was
    /// before the pod was opened, and a key that waited for it waits again. Refused as INVAL for any other frame. Never NOSPC or
    /// NOMEM.
    pub fn abandon(&mut self, frame: Frame) -> Result<(), Errno>
        ensures { (s : State) → IsAt self.old s → Makes (step s (abandon frame.0)) self.old self.new result }
    {
        leave(&mut self.bytes, &mut self.frames, frame.0)
    }
}
