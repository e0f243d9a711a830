//! What is said of a refused pod.
ghost use Rattle.std.specs.Prelude.{◌≡◌, IfNone, IfOk, IfSome};
ghost use Rattle.spa_recordings.specs.Reading.{IsAccepted, IsNothing};
ghost use Rattle.spa_refusals.specs.Refusals.{IsCutOf, IsFirstRefusal, IsNextOf, IsRefusalFor, IsRefusalOf};

use crate::inside::malformed;
use crate::names::{TypeName, type_name};
use spa_bytes::{HEADER_LEN, extent_of, u32_at};
use spa_recordings::count_whole;
use spa_recordings::plausible::next_plausible;
use spa_recordings::reading::{Reading, first_unread};
use std::alloc::{AllocError, Global};
use std::fmt;
use std::fmt::Write;

/// A pod of an input that is refused. It prints all of that: `pod 17 (Format), byte 5504, at .position (Choice): a choice has no such shape
/// (InvalidChoiceType)`.
#[derive(Debug, Drop)]
pub struct Refusal {
    /// Which pod of the input it is, the first being 1. Each takes as many bytes as its size word says.
    pub number: usize,
    /// The byte of the input where it begins.
    pub place: usize,
    /// Its type, of an object the object's type, where its header is there.
    pub type_: Option<TypeName>,
    /// The path to the pod inside it that is malformed: keys as `.rate`, places of members as `[2]`, the first being 0. It is empty where that
    /// is the pod itself, and in the lenient reading.
    pub path: String,
    /// The type of that one.
    pub inner_type: Option<TypeName>,
    /// The name of the cause, as `DeserializeError::kind` gives it.
    pub kind: &'static str,
    /// The cause in words, as `DeserializeError` prints.
    pub words: String,
    /// What is there of a pod that isn't whole.
    pub cut: Option<Cut>,
}

/// What is there of a pod that isn't whole.
#[derive(Clone, Copy, Debug)]
pub struct Cut {
    /// How many bytes it takes with its padding; where fewer are there than a header has, how many that has.
    pub takes: usize,
    /// How many of them are there.
    pub there: usize,
    /// The byte of the input where behind its header the next pod plausibly begins, if one does.
    pub next: Option<usize>,
}

/// The refusal of the first pod of the input that isn't read; None where all of it is read.
pub fn first_refusal(
    alloc: Global,
    reading: Reading,
    input: &[u8],
) -> Result<Option<Refusal>, AllocError>
    ensures read { IfOk result (λ found. IfNone found (IsAccepted reading input.now)) }
    ensures refused { IfOk result (λ found. IfSome found (IsFirstRefusal reading input.now)) }
{
    let Some(unread) = first_unread(alloc, reading, input)? else {
        return Ok(None);
    };
    let place = input.len() - unread.left.len();
    let (before, pod) = input.split_at(place);
    let refusal = refusal_of(alloc, reading, pod, place, count_whole(before) + 1)?;
    Ok(Some(refusal))
}

/// The refusal of the pod of this number, which begins with these bytes at this byte of an input, and isn't read.
#[tactic(auto, using(crate::proofs::Unreading::short_kind))]
pub fn refusal_of(
    alloc: Global,
    reading: Reading,
    pod: &[u8],
    place: usize,
    number: usize,
) -> Result<Refusal, AllocError>
    requires { IsNothing reading pod.now }
    ensures place { IfOk result (λ refusal. refusal.place ≡ place) }
    ensures number { IfOk result (λ refusal. refusal.number ≡ number) }
    ensures refusal { IfOk result (IsRefusalOf reading pod.now) }
{
    let (path, inner) = malformed(alloc, reading, pod)?;
    let mut words = String::new(alloc);
    write!(words, "{}", inner.error)?;
    Ok(Refusal {
        number,
        place,
        type_: type_name(pod),
        path,
        inner_type: type_name(inner.pod),
        kind: inner.error.kind(),
        words,
        cut: cut_of(place, pod),
    })
}

/// The refusal of the pod of this number, which begins with these bytes at this byte of an input, for a cause of this name and in these words,
/// which isn't in its bytes.
pub fn refusal_for(
    alloc: Global,
    pod: &[u8],
    place: usize,
    number: usize,
    kind: &'static str,
    words: &str,
) -> Result<Refusal, AllocError>
    ensures place { IfOk result (λ refusal. refusal.place ≡ place) }
    ensures number { IfOk result (λ refusal. refusal.number ≡ number) }
    ensures refusal { IfOk result (IsRefusalFor pod.now kind.now words.now) }
{
    let type_ = type_name(pod);
    let mut its_words = String::new(alloc);
    its_words.push_str(words)?;
    Ok(Refusal {
        number,
        place,
        type_,
        path: String::new(alloc),
        inner_type: None,
        kind,
        words: its_words,
        cut: None,
    })
}

/// What is there of the pod at the front, which begins at this byte, where it isn't whole.
fn cut_of(place: usize, pod: &[u8]) -> Option<Cut>
    ensures { IsCutOf place pod.now result }
{
    let takes = if pod.len() < HEADER_LEN {
        HEADER_LEN
    } else {
        extent_of(u32_at(pod, 0))
    };
    if pod.len() < takes {
        return Some(Cut {
            takes,
            there: pod.len(),
            next: next_of(place, pod),
        });
    }
    None
}

/// The byte where behind the header of the pod at this byte the next one plausibly begins, if one does.
fn next_of(place: usize, pod: &[u8]) -> Option<usize>
    ensures { IsNextOf place pod.now result }
{
    match next_plausible(pod, HEADER_LEN) {
        Some(bytes) => place.checked_add(bytes),
        None => None,
    }
}

/// How much of a pod is there, where it isn't whole.
#[derive(Clone, Copy)]
struct There(Option<Cut>);

impl fmt::Display for There {
    ghost use Rattle.std.specs.Prelude.{Some};
    ghost use Rattle.spa_refusals.specs.Refusals.{there_text};

    ghost output = { λ there. Some (there_text there.0) };

    fn fmt<W: fmt::Write>(&self, f: &mut fmt::Formatter<W>) -> fmt::Result {
        match self.0 {
            Some(cut) => {
                let next = Next(cut.next);
                write!(f, ": {} of {} are there{next}", cut.there, cut.takes)
            }
            None => Ok(()),
        }
    }
}

/// Where the next pod plausibly begins, if one does.
#[derive(Clone, Copy)]
struct Next(Option<usize>);

impl fmt::Display for Next {
    ghost use Rattle.std.specs.Prelude.{Some};
    ghost use Rattle.spa_refusals.specs.Refusals.{next_text};

    ghost output = { λ next. Some (next_text next.0) };

    fn fmt<W: fmt::Write>(&self, f: &mut fmt::Formatter<W>) -> fmt::Result {
        match self.0 {
            Some(at) => write!(f, ", and a pod may begin at byte {at}"),
            None => Ok(()),
        }
    }
}

/// A type in brackets, where there is one.
#[derive(Clone, Copy)]
struct Title(Option<TypeName>);

impl fmt::Display for Title {
    ghost use Rattle.std.specs.Prelude.{Some};
    ghost use Rattle.spa_refusals.specs.Refusals.{title_text};

    ghost output = { λ title. Some (title_text title.0) };

    fn fmt<W: fmt::Write>(&self, f: &mut fmt::Formatter<W>) -> fmt::Result {
        match self.0 {
            Some(type_) => write!(f, " ({type_})"),
            None => Ok(()),
        }
    }
}

/// The path to a pod, and its type, where the path isn't empty.
#[derive(Clone, Copy)]
struct Inner<'a> {
    path: &'a str,
    type_: Option<TypeName>,
}

impl fmt::Display for Inner<'_> {
    ghost use Rattle.std.specs.Prelude.{Some};
    ghost use Rattle.spa_refusals.specs.Refusals.{inner_text};

    ghost output = { λ inner. Some (inner_text inner.path.now inner.type_) };

    #[tactic(auto, using(crate::proofs::Saying::no_inner, crate::proofs::Saying::some_inner))]
    fn fmt<W: fmt::Write>(&self, f: &mut fmt::Formatter<W>) -> fmt::Result {
        if self.path.is_empty() {
            return Ok(());
        }
        write!(f, ", at {}{}", self.path, Title(self.type_))
    }
}

impl fmt::Display for Refusal {
    ghost use Rattle.std.specs.Prelude.{Some};
    ghost use Rattle.spa_refusals.specs.Refusals.{refusal_text};

    ghost output = { λ refusal. Some (refusal_text refusal) };

    fn fmt<W: fmt::Write>(&self, f: &mut fmt::Formatter<W>) -> fmt::Result {
        let title = Title(self.type_);
        let inner = Inner {
            path: self.path.as_str(),
            type_: self.inner_type,
        };
        let there = There(self.cut);
        write!(
            f,
            "pod {}{title}, byte {}{inner}: {}{there} ({})",
            self.number, self.place, self.words, self.kind
        )
    }
}
