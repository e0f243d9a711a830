//! The gets of a parser. Each call asks for the next pod by its type and its size, and moves past it.
ghost use Rattle.std.specs.Prelude.{◌≡◌, Bool, IfErr, IfOk, IsErr, IsOk, IsOkAnd, List, None, Ok, OnErr, OnOk, Some, ℕ, ℤ};
ghost use Rattle.spa_format.specs.Kind as k;
ghost use Rattle.spa_format.specs.Pod.{IsPod};
ghost use Rattle.spa_format.specs.Tree.{Properties, Tree, bytes, fixed, object, pointer, string};
ghost use Rattle.spa_parser.specs.State.{state_behind, next_pod};
ghost use Rattle.spa_parser.specs.Steps.{IsObjectOf, IsTextPod, IsValueOf, NextIs, NextPasses, RefusesGet, RefusesObjectGet, SaysFixed, SaysBytes, SaysPointer, SaysString};
ghost use Rattle.spa_view.specs.Found.{first_value, property_at};
ghost use Rattle.spa_view.specs.Tests as t;

use crate::parser::Parser;
use crate::text::text_of;
use spa_utils::{Errno, Float32, Float64, Fraction, Id, Rectangle};
use spa_view::{Pod, PodObject};

#[tactic(auto, using(crate::proofs::AcceptedPods::accepted_fixed))]
impl<'d> Parser<'d> {
    /// Takes a None. INVAL where the next pod isn't one.
    pub fn get_none(&mut self) -> Result<(), Errno>
        ensures said { OnOk result (NextPasses (t.IsOfKind k.none_kind) self.old) }
        ensures moved { OnOk result (self.new ≡ state_behind self.old) }
        ensures accepted { NextIs (fixed k.none) self.old → IsOk result }
        ensures refused { IfErr result (RefusesGet (t.IsOfKind k.none_kind) self.old) }
        ensures unchanged { OnErr result (self.new ≡ self.old) }
    {
        let (pod, left) = self.innermost.next()?;
        if !pod.is_none() {
            return Err(Errno::INVAL);
        }
        self.innermost.bytes = left;
        Ok(())
    }

    /// The truth value: any word but 0 is true. INVAL where the next pod isn't a Bool of its size.
    pub fn get_bool(&mut self) -> Result<bool, Errno>
        ensures said { IfOk result (λ x. NextPasses (SaysFixed (k.bool x)) self.old) }
        ensures moved { OnOk result (self.new ≡ state_behind self.old) }
        ensures accepted { (n : Bool) → NextIs (fixed (k.bool n)) self.old → result ≡ Ok n }
        ensures refused { IfErr result (RefusesGet (t.IsOfKind k.bool_kind) self.old) }
        ensures unchanged { OnErr result (self.new ≡ self.old) }
    {
        let (pod, left) = self.innermost.next()?;
        let value = pod.get_bool()?;
        self.innermost.bytes = left;
        Ok(value)
    }

    /// The id. INVAL where the next pod isn't an Id of its size.
    pub fn get_id(&mut self) -> Result<Id, Errno>
        ensures said { IfOk result (λ x. NextPasses (SaysFixed (k.id x.0)) self.old) }
        ensures moved { OnOk result (self.new ≡ state_behind self.old) }
        ensures accepted { (n : ℕ) → NextIs (fixed (k.id n)) self.old → IsOkAnd result (λ x. x.0 ≡ n) }
        ensures refused { IfErr result (RefusesGet (t.IsOfKind k.id_kind) self.old) }
        ensures unchanged { OnErr result (self.new ≡ self.old) }
    {
        let (pod, left) = self.innermost.next()?;
        let value = pod.get_id()?;
        self.innermost.bytes = left;
        Ok(value)
    }

    /// The number. INVAL where the next pod isn't an Int of its size.
    pub fn get_int(&mut self) -> Result<i32, Errno>
        ensures said { IfOk result (λ x. NextPasses (SaysFixed (k.int x)) self.old) }
        ensures moved { OnOk result (self.new ≡ state_behind self.old) }
        ensures accepted { (n : ℤ) → NextIs (fixed (k.int n)) self.old → result ≡ Ok n }
        ensures refused { IfErr result (RefusesGet (t.IsOfKind k.int_kind) self.old) }
        ensures unchanged { OnErr result (self.new ≡ self.old) }
    {
        let (pod, left) = self.innermost.next()?;
        let value = pod.get_int()?;
        self.innermost.bytes = left;
        Ok(value)
    }

    /// The number. INVAL where the next pod isn't a Long of its size.
    pub fn get_long(&mut self) -> Result<i64, Errno>
        ensures said { IfOk result (λ x. NextPasses (SaysFixed (k.long x)) self.old) }
        ensures moved { OnOk result (self.new ≡ state_behind self.old) }
        ensures accepted { (n : ℤ) → NextIs (fixed (k.long n)) self.old → result ≡ Ok n }
        ensures refused { IfErr result (RefusesGet (t.IsOfKind k.long_kind) self.old) }
        ensures unchanged { OnErr result (self.new ≡ self.old) }
    {
        let (pod, left) = self.innermost.next()?;
        let value = pod.get_long()?;
        self.innermost.bytes = left;
        Ok(value)
    }

    /// The bits of the float. INVAL where the next pod isn't a Float of its size.
    pub fn get_float(&mut self) -> Result<Float32, Errno>
        ensures said { IfOk result (λ x. NextPasses (SaysFixed (k.float x.0)) self.old) }
        ensures moved { OnOk result (self.new ≡ state_behind self.old) }
        ensures accepted { (n : ℕ) → NextIs (fixed (k.float n)) self.old → IsOkAnd result (λ x. x.0 ≡ n) }
        ensures refused { IfErr result (RefusesGet (t.IsOfKind k.float_kind) self.old) }
        ensures unchanged { OnErr result (self.new ≡ self.old) }
    {
        let (pod, left) = self.innermost.next()?;
        let value = pod.get_float()?;
        self.innermost.bytes = left;
        Ok(value)
    }

    /// The bits of the float. INVAL where the next pod isn't a Double of its size.
    pub fn get_double(&mut self) -> Result<Float64, Errno>
        ensures said { IfOk result (λ x. NextPasses (SaysFixed (k.double x.0)) self.old) }
        ensures moved { OnOk result (self.new ≡ state_behind self.old) }
        ensures accepted { (n : ℕ) → NextIs (fixed (k.double n)) self.old → IsOkAnd result (λ x. x.0 ≡ n) }
        ensures refused { IfErr result (RefusesGet (t.IsOfKind k.double_kind) self.old) }
        ensures unchanged { OnErr result (self.new ≡ self.old) }
    {
        let (pod, left) = self.innermost.next()?;
        let value = pod.get_double()?;
        self.innermost.bytes = left;
        Ok(value)
    }

    /// The number of the file descriptor. INVAL where the next pod isn't a Fd of its size.
    pub fn get_fd(&mut self) -> Result<i64, Errno>
        ensures said { IfOk result (λ x. NextPasses (SaysFixed (k.fd x)) self.old) }
        ensures moved { OnOk result (self.new ≡ state_behind self.old) }
        ensures accepted { (n : ℤ) → NextIs (fixed (k.fd n)) self.old → result ≡ Ok n }
        ensures refused { IfErr result (RefusesGet (t.IsOfKind k.fd_kind) self.old) }
        ensures unchanged { OnErr result (self.new ≡ self.old) }
    {
        let (pod, left) = self.innermost.next()?;
        let value = pod.get_fd()?;
        self.innermost.bytes = left;
        Ok(value)
    }

    /// The rectangle. INVAL where the next pod isn't a Rectangle of its size.
    pub fn get_rectangle(&mut self) -> Result<Rectangle, Errno>
        ensures said { IfOk result (λ x. NextPasses (SaysFixed (k.rectangle x.width x.height)) self.old) }
        ensures moved { OnOk result (self.new ≡ state_behind self.old) }
        ensures accepted { (w h : ℕ) → NextIs (fixed (k.rectangle w h)) self.old
            → IsOkAnd result (λ x. (x.width ≡ w) × (x.height ≡ h)) }
        ensures refused { IfErr result (RefusesGet (t.IsOfKind k.rectangle_kind) self.old) }
        ensures unchanged { OnErr result (self.new ≡ self.old) }
    {
        let (pod, left) = self.innermost.next()?;
        let value = pod.get_rectangle()?;
        self.innermost.bytes = left;
        Ok(value)
    }

    /// The fraction. INVAL where the next pod isn't a Fraction of its size.
    pub fn get_fraction(&mut self) -> Result<Fraction, Errno>
        ensures said { IfOk result (λ x. NextPasses (SaysFixed (k.fraction x.num x.denom)) self.old) }
        ensures moved { OnOk result (self.new ≡ state_behind self.old) }
        ensures accepted { (n d : ℕ) → NextIs (fixed (k.fraction n d)) self.old
            → IsOkAnd result (λ x. (x.num ≡ n) × (x.denom ≡ d)) }
        ensures refused { IfErr result (RefusesGet (t.IsOfKind k.fraction_kind) self.old) }
        ensures unchanged { OnErr result (self.new ≡ self.old) }
    {
        let (pod, left) = self.innermost.next()?;
        let value = pod.get_fraction()?;
        self.innermost.bytes = left;
        Ok(value)
    }
}

#[tactic(auto, using(crate::proofs::AcceptedPods::accepted_others))]
impl<'d> Parser<'d> {
    ghost use Rattle.spa_view.specs.View.{object_bytes, pod_bytes};

    /// The address, and the type of what it points to. INVAL where the next pod isn't a Pointer of 12 or 16 bytes.
    pub fn get_pointer(&mut self) -> Result<(u64, Id), Errno>
        ensures said { IfOk result (λ x. NextPasses (SaysPointer x.1.0 x.0) self.old) }
        ensures moved { OnOk result (self.new ≡ state_behind self.old) }
        ensures accepted { (type address : ℕ) → NextIs (pointer type address) self.old
            → IsOkAnd result (λ x. (x.0 ≡ address) × (x.1.0 ≡ type)) }
        ensures refused { IfErr result (RefusesGet t.IsPointerPod self.old) }
        ensures unchanged { OnErr result (self.new ≡ self.old) }
    {
        let (pod, left) = self.innermost.next()?;
        let value = pod.get_pointer()?;
        self.innermost.bytes = left;
        Ok(value)
    }

    /// The bytes before the first NUL of a String. INVAL where the next pod isn't one, or doesn't end in NUL.
    pub fn get_string_raw(&mut self) -> Result<&'d [u8], Errno>
        ensures said { IfOk result (λ x. NextPasses (SaysString x.now) self.old) }
        ensures moved { OnOk result (self.new ≡ state_behind self.old) }
        ensures accepted { (s : List ℕ) → NextIs (string s) self.old → IsOkAnd result (λ x. x.now ≡ s) }
        ensures refused { IfErr result (RefusesGet t.IsNulEnded self.old) }
        ensures unchanged { OnErr result (self.new ≡ self.old) }
    {
        let (pod, left) = self.innermost.next()?;
        let value = pod.get_string_raw()?;
        self.innermost.bytes = left;
        Ok(value)
    }

    /// The text of a String: the bytes before its first NUL. INVAL where the next pod isn't one, doesn't end in NUL, or
    /// these bytes aren't UTF-8.
    pub fn get_string(&mut self) -> Result<&'d str, Errno>
        ensures said { IfOk result (λ x. NextPasses (SaysString x.now) self.old) }
        ensures moved { OnOk result (self.new ≡ state_behind self.old) }
        ensures accepted { (s : List ℕ) → NextIs (string s) self.old → IsOkAnd result (λ x. x.now ≡ s) }
        ensures refused { IfErr result (RefusesGet IsTextPod self.old) }
        ensures unchanged { OnErr result (self.new ≡ self.old) }
    {
        let (pod, left) = self.innermost.next()?;
        let text = text_of(&pod)?;
        self.innermost.bytes = left;
        Ok(text)
    }

    /// The bytes of a Bytes. INVAL where the next pod isn't one.
    pub fn get_bytes(&mut self) -> Result<&'d [u8], Errno>
        ensures said { IfOk result (λ x. NextPasses (SaysBytes x.now) self.old) }
        ensures moved { OnOk result (self.new ≡ state_behind self.old) }
        ensures accepted { (s : List ℕ) → NextIs (bytes s) self.old → IsOkAnd result (λ x. x.now ≡ s) }
        ensures refused { IfErr result (RefusesGet t.IsBytesPod self.old) }
        ensures unchanged { OnErr result (self.new ≡ self.old) }
    {
        let (pod, left) = self.innermost.next()?;
        let value = pod.get_bytes()?;
        self.innermost.bytes = left;
        Ok(value)
    }

    /// The view of the next object, whole. INVAL where the next pod isn't an object of at least 8 bytes; else PROTO where it
    /// is of another type.
    pub fn get_object(&mut self, type_: u32) -> Result<PodObject<'d>, Errno>
        ensures said { IfOk result (λ object. NextPasses
            (λ pod. IsObjectOf type_ pod × (object_bytes object ≡ pod)) self.old) }
        ensures moved { OnOk result (self.new ≡ state_behind self.old) }
        ensures accepted { (id : ℕ) (ps : Properties) → NextIs (object type_ id ps) self.old
            → IsOkAnd result (λ view. IsPod (object_bytes view) (object type_ id ps)) }
        ensures refused { IfErr result (RefusesObjectGet type_ self.old) }
        ensures unchanged { OnErr result (self.new ≡ self.old) }
    {
        let (pod, left) = self.innermost.next()?;
        let object = pod.as_object()?;
        if object.type_().as_raw() != type_ {
            return Err(Errno::PROTO);
        }
        self.innermost.bytes = left;
        Ok(object)
    }

    /// A parser at the front of the value of the object's first property with this key. PIPE where no property has it.
    pub fn value_of(&self, view: &PodObject<'d>, key: u32) -> Result<Parser<'d>, Errno>
        ensures found { IfOk result (IsValueOf key (object_bytes view.now)) }
        ensures missing { IfErr result (λ e. (property_at key (object_bytes view.now) ≡ None) × (e ≡ Errno.PIPE)) }
        ensures accepted { (type id : ℕ) (ps : Properties) (v : Tree)
            → IsPod (object_bytes view.now) (object type id ps) → first_value key ps ≡ Some v
            → IsOkAnd result (NextIs v) }
        ensures absent { (type id : ℕ) (ps : Properties) → IsPod (object_bytes view.now) (object type id ps)
            → first_value key ps ≡ None → IsErr result }
    {
        match view.find_prop(Id(key)) {
            Some(property) => Ok(Parser::from_pod(*self.outer.allocator(), property.value())),
            None => Err(Errno::PIPE),
        }
    }

    /// The view of the next pod, of any type.
    pub fn get_pod(&mut self) -> Result<Pod<'d>, Errno>
        ensures pod { IfOk result (λ pod. next_pod self.old ≡ Some (pod_bytes pod)) }
        ensures moved { OnOk result (self.new ≡ state_behind self.old) }
        ensures accepted { (v : Tree) → NextIs v self.old → IsOkAnd result (λ pod. IsPod (pod_bytes pod) v) }
        ensures refused { IfErr result (λ e. (next_pod self.old ≡ None) × (e ≡ Errno.PIPE)) }
        ensures unchanged { OnErr result (self.new ≡ self.old) }
    {
        let (pod, left) = self.innermost.next()?;
        self.innermost.bytes = left;
        Ok(pod)
    }
}
