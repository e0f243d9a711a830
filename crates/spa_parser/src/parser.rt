//! The pull parser.
ghost use Rattle.std.specs.Prelude.{◌≡◌, ◌≢◌, ◌⊎◌, ◌<◌, ◌∷◌, [], IfErr, IfOk, OnErr, OnOk, MatchResult, false, true, ℕ};
ghost use Rattle.spa_format.specs.Front.{Begins};
ghost use Rattle.spa_format.specs.Pod.{IsPod};
ghost use Rattle.spa_format.specs.Tree.{Properties, Tree, Trees, object, struct};
ghost use Rattle.spa_parser.specs.State.{next_pod, open_count, state_inside, start_of};
ghost use Rattle.spa_parser.specs.Steps.{ClosesFrame, HoldsMembers, IsObjectOf, NextIs, NextPasses, RefusesObject, RefusesStruct};
ghost use Rattle.spa_view.specs.Tests as t;

use spa_utils::{Errno, Frame, Id};
use spa_view::{Pod, body_bytes, split_first, whole_bytes};
use std::alloc::Global;
use std::marker::Model;

/// The remaining bytes of the input or of an open body.
#[derive(Drop)]
pub(crate) struct Remainder<'d> {
    pub(crate) bytes: &'d [u8],
    of_object: bool,
}

impl<'d> Model for Remainder<'d> {
    ghost use Rattle.spa_parser.specs.State as state;

    ghost Value = { state.Remainder };

    ghost view = { λ r. record { bytes = r.bytes.now; of_object = r.of_object } };
}

impl<'d> Remainder<'d> {
    ghost use Rattle.std.specs.Prelude.{None, Some};
    ghost use Rattle.spa_format.specs.Front.{rest_of};
    ghost use Rattle.spa_parser.specs.State.{next_of};
    ghost use Rattle.spa_view.specs.View.{pod_bytes};

    /// The next pod, and the bytes left behind it. PIPE inside an object, or where no whole pod is left.
    pub(crate) fn next(&self) -> Result<(Pod<'d>, &'d [u8]), Errno>
        ensures pod { IfOk result (λ taken. next_of self.now ≡ Some (pod_bytes taken.0)) }
        ensures left { IfOk result (λ taken. taken.1.now ≡ rest_of self.now.bytes) }
        ensures of_pods { OnOk result (self.now.of_object ≡ false) }
        ensures ended { IfErr result (λ e. (next_of self.now ≡ None) × (e ≡ Errno.PIPE)) }
    {
        if self.of_object {
            return Err(Errno::PIPE);
        }
        match split_first(self.bytes) {
            Some(taken) => Ok(taken),
            None => Err(Errno::PIPE),
        }
    }
}

/// Reads an input pod by pod. Its model: the remaining bytes of the input and of each open body, the innermost first.
///
/// A get or a push asks for the next pod by its type and its size. It is refused with PIPE inside an object, or where no
/// whole pod is left; else with INVAL where the next pod is another one. A refused call changes nothing. Only a push
/// takes memory.
#[derive(Drop)]
pub struct Parser<'d> {
    pub(crate) innermost: Remainder<'d>,
    pub(crate) outer: Vec<Remainder<'d>>,
}

impl<'d> Model for Parser<'d> {
    ghost use Rattle.std.specs.Prelude.{reverse};
    ghost use Rattle.spa_parser.specs.State as state;

    ghost Value = { state.ParserState };

    ghost view = { λ p. record { innermost = p.innermost; outer = reverse p.outer.items } };
}

#[tactic(auto, using(crate::proofs::AcceptedPods::accepted_parts))]
impl<'d> Parser<'d> {
    ghost use Rattle.std.specs.Prelude.{Some};
    ghost use Rattle.spa_format.specs.Words.{body_of, word_at};
    ghost use Rattle.spa_view.specs.View.{pod_bytes};

    /// A parser at the front of the bytes, with nothing open.
    pub fn new(alloc: Global, input: &'d [u8]) -> Parser<'d>
        ensures start { result ≡ start_of input.now }
        ensures accepted { (v : Tree) → Begins input.now v → NextIs v result }
    {
        Parser {
            innermost: Remainder {
                bytes: input,
                of_object: false,
            },
            outer: Vec::new(alloc),
        }
    }

    /// A parser at the front of the pod, whose first get sees the pod itself.
    pub fn from_pod(alloc: Global, pod: Pod<'d>) -> Parser<'d>
        ensures start { result ≡ start_of (pod_bytes pod.entry) }
        ensures first { next_pod result ≡ Some (pod_bytes pod.entry) }
        ensures accepted { (v : Tree) → IsPod (pod_bytes pod.entry) v → NextIs v result }
    {
        Parser::new(alloc, whole_bytes(&pod))
    }

    /// Opens the next struct: its members are the next pods, until its frame is popped. INVAL where the next pod isn't a
    /// struct; else NOMEM where there is no memory for one more frame.
    pub fn push_struct(&mut self) -> Result<Frame, Errno>
        ensures opened { OnOk result (NextPasses
            (λ pod. t.IsStructPod pod × (self.new ≡ state_inside pod false self.old)) self.old) }
        ensures frame { IfOk result (λ frame. frame.0 ≡ open_count self.new) }
        ensures accepted { (vs : Trees) → NextIs (struct vs) self.old →
            MatchResult result (λ _. HoldsMembers vs self.new) (λ e. e ≡ Errno.NOMEM) }
        ensures refused { IfErr result (RefusesStruct self.old) }
        ensures unchanged { OnErr result (self.new ≡ self.old) }
    {
        let (pod, left) = self.innermost.next()?;
        let _members = pod.as_struct()?;
        self.open(body_bytes(&pod), false, left)
    }

    /// Opens the next object, and answers its frame and its id. Inside it there is no next pod. INVAL where the next pod isn't an
    /// object of at least 8 bytes; else PROTO where it is of another type; else NOMEM where there is no memory for one
    /// more frame.
    pub fn push_object(&mut self, type_: u32) -> Result<(Frame, Id), Errno>
        ensures opened { OnOk result (NextPasses
            (λ pod. IsObjectOf type_ pod × (self.new ≡ state_inside pod true self.old)) self.old) }
        ensures frame { IfOk result (λ pushed. pushed.0.0 ≡ open_count self.new) }
        ensures id { IfOk result (λ pushed. NextPasses (λ pod. pushed.1.0 ≡ word_at (body_of pod) 4) self.old) }
        ensures accepted { (id : ℕ) (ps : Properties) → NextIs (object type_ id ps) self.old →
            MatchResult result (λ pushed. pushed.1.0 ≡ id) (λ e. e ≡ Errno.NOMEM) }
        ensures refused { IfErr result (RefusesObject type_ self.old) }
        ensures unchanged { OnErr result (self.new ≡ self.old) }
    {
        let (pod, left) = self.innermost.next()?;
        let object = pod.as_object()?;
        if object.type_().as_raw() != type_ {
            return Err(Errno::PROTO);
        }
        let frame = self.open(body_bytes(&pod), true, left)?;
        Ok((frame, object.id()))
    }

    /// Opens a body, with `left` left behind its pod in the one around it. NOMEM where the list of frames can't grow.
    fn open(&mut self, body: &'d [u8], of_object: bool, left: &'d [u8]) -> Result<Frame, Errno>
        ensures opened { OnOk result (self.new ≡ record {
          innermost = record { bytes = body.now; of_object = of_object };
          outer = record { bytes = left.now; of_object = false } ∷ self.old.outer;
        }) }
        ensures frame { IfOk result (λ frame. frame.0 ≡ open_count self.new) }
        ensures refused { IfErr result (λ e. e ≡ Errno.NOMEM) }
        ensures unchanged { OnErr result (self.new ≡ self.old) }
    {
        let outer = Remainder {
            bytes: left,
            of_object: false,
        };
        if self.outer.push(outer).is_err() {
            return Err(Errno::NOMEM);
        }
        self.innermost = Remainder {
            bytes: body,
            of_object,
        };
        Ok(Frame(self.outer.len()))
    }

    /// Closes the innermost frame, and skips the bytes left in it. INVAL where the frame is another one, or none is open.
    pub fn pop(&mut self, frame: Frame) -> Result<(), Errno>
        ensures innermost { OnOk result (frame.0 ≡ open_count self.old) }
        ensures closed { OnOk result (ClosesFrame self.old self.new) }
        ensures refused { IfErr result (λ e. ((frame.0 ≢ open_count self.old) ⊎ (open_count self.old ≡ 0))
            × (e ≡ Errno.INVAL)) }
        ensures unchanged { OnErr result (self.new ≡ self.old) }
    {
        if frame.0 != self.outer.len() {
            return Err(Errno::INVAL);
        }
        match self.outer.pop() {
            Some(outer) => {
                self.innermost = outer;
                Ok(())
            }
            None => Err(Errno::INVAL),
        }
    }
}
