//! Structs read from texts member by member: the pod of a member is written once it is read, and there is no value of the struct.
ghost use Rattle.std.specs.Prelude.{◌≡◌, ◌+◌, ◌≤◌, ◌++◌, true, false, IfNone, IfSome, length};
ghost use Rattle.spa_format.specs.Encoding.{encoding_of};
ghost use Rattle.spa_format.specs.Tree.{Tree, struct_type};
ghost use Rattle.spa_format.specs.Words.{header_size, word_bytes};
ghost use Rattle.spa_write.specs.Nesting.{closed_at};
ghost use Rattle.spa_text_commands.specs.Structs.{AddsFront, BeginsStruct, EndsStruct, IsLonger};
ghost use Rattle.spa_text_forms.specs.Forms.{IsTextAsItStands};

use json::{Reader, Scratch, Token};
use spa_bodies::{begin, close};
use spa_text::Strictness;
use spa_text_read::read_front;
use spa_utils::SpaTypes;
use spa_value::Held;
use spa_write::write_sized;
use std::alloc::Global;

/// A struct whose end isn't read yet.
#[derive(Clone, Copy)]
struct Open {
    /// The offset of its header in the output.
    start: usize,
    /// Whether a brace follows its end.
    braced: bool,
}

/// What is next in a text.
#[derive(Clone, Copy)]
enum Next {
    /// A struct begins, and a brace follows its end or doesn't.
    Begin(bool),
    /// The innermost struct ends.
    End,
    /// A value.
    Value,
}

/// Adds the pod of the struct that a text is, as it stands, and tells whether it did. Else the output is as it was, and nothing is known of the
/// text: memory may have run out, too.
#[tactic(auto, using(crate::proofs::OpenStructs::whole, crate::proofs::OpenStructs::cut_back))]
pub(crate) fn add_struct(
    alloc: Global,
    scratch: &mut Scratch,
    strictness: Strictness,
    text: &str,
    pods: &mut Vec<u8>,
) -> bool
    ensures added { result ≡ true → (v : Tree) × IsTextAsItStands strictness v text.now
        × (pods.new.items ≡ pods.old.items ++ encoding_of v) }
    ensures unchanged { result ≡ false → pods.new.items ≡ pods.old.items }
{
    if let Next::Value = next_at(text.as_bytes().trim_ascii_start()) {
        return false;
    }
    let Ok(mut reader) = Reader::new(text, scratch) else {
        return false;
    };
    let len = pods.len();
    if let Some(()) = put_struct(alloc, text, &mut reader, strictness, pods) {
        if let None = reader.next() {
            return true;
        }
    }
    pods.truncate(len);
    false
}

/// What begins with these bytes, if the text is one of a value. Nothing is promised: who goes by it looks at the tokens.
fn next_at(bytes: &[u8]) -> Next {
    match bytes.split_first() {
        Some((b'[', _)) => Next::Begin(false),
        Some((b']', _)) => Next::End,
        Some((b'{', behind)) if behind.trim_ascii_start().starts_with(b"\"struct\"") => {
            Next::Begin(true)
        }
        _ => Next::Value,
    }
}

/// Appends the pod of the struct at the front of the tokens that are left. Where it isn't appended, the output may end with a beginning of it.
fn put_struct(
    alloc: Global,
    text: &str,
    reader: &mut Reader<'_>,
    strictness: Strictness,
    pods: &mut Vec<u8>,
) -> Option<()>
    ensures added { IfSome result (λ _. AddsFront strictness reader.old reader.new pods.old.items pods.new.items) }
    ensures longer { IsLonger pods.old.items pods.new.items }
{
    let mut open: Vec<Open> = Vec::new(alloc);
    // No text has more tokens than bytes.
    for _ in 0..text.len() {
        match next_at(text.as_bytes().get(reader.offset()..).unwrap_or(&[])) {
            Next::Begin(braced) => {
                let Some(inner) = begin_struct(reader, braced, pods) else {
                    return None;
                };
                let Ok(()) = open.push(inner) else {
                    return None;
                };
            }
            Next::End => {
                let Some(inner) = open.pop() else {
                    return None;
                };
                let Some(()) = end_struct(reader, inner, pods) else {
                    return None;
                };
                if open.is_empty() {
                    return Some(());
                }
            }
            Next::Value => {
                if open.is_empty() {
                    return None;
                }
                let Some(()) = put_front(alloc, reader, strictness, pods) else {
                    return None;
                };
            }
        }
    }
    None
}

/// Begins the pod of a struct, whose brackets follow.
#[tactic(auto, using(crate::proofs::OpenStructs::same_longer, crate::proofs::OpenStructs::appended_longer))]
fn begin_struct(reader: &mut Reader<'_>, braced: bool, pods: &mut Vec<u8>) -> Option<Open>
    ensures begun { IfSome result (λ o. BeginsStruct o.braced reader.old reader.new) }
    ensures header { IfSome result (λ o. (o.start ≡ length pods.old.items)
        × (pods.new.items ≡ pods.old.items ++ (word_bytes 0 ++ word_bytes struct_type))) }
    ensures longer { IsLonger pods.old.items pods.new.items }
{
    take_begin(reader, braced)?;
    match begin(pods, SpaTypes::Struct.0) {
        Ok(start) => Some(Open { start, braced }),
        Err(_) => None,
    }
}

/// Takes the bracket at which a struct begins; of one that is tagged also the brace and the key before it.
#[tactic(auto, using(crate::proofs::OpenStructs::braced_begun))]
fn take_begin(reader: &mut Reader<'_>, braced: bool) -> Option<()>
    ensures { IfSome result (λ _. BeginsStruct braced reader.old reader.new) }
{
    if braced {
        return match take_tagged(reader) {
            Some(()) => Some(()),
            None => None,
        };
    }
    match reader.next() {
        Some(Token::BeginArray) => Some(()),
        _ => None,
    }
}

/// Takes the brace, the key and the bracket at which a tagged struct begins.
fn take_tagged(reader: &mut Reader<'_>) -> Option<()>
    ensures { IfSome result (λ _. BeginsStruct true reader.old reader.new) }
{
    let Some(Token::BeginObject) = reader.next() else {
        return None;
    };
    let Some(Token::Key(key)) = reader.next() else {
        return None;
    };
    if key != "struct" {
        return None;
    }
    match reader.next() {
        Some(Token::BeginArray) => Some(()),
        _ => None,
    }
}

/// Ends the pod of a struct that is open, behind its last member.
fn end_struct(reader: &mut Reader<'_>, inner: Open, pods: &mut Vec<u8>) -> Option<()>
    requires { inner.start + header_size ≤ length pods.old.items }
    ensures ended { IfSome result (λ _. EndsStruct inner.braced reader.old reader.new) }
    ensures closed { IfSome result (λ _. pods.new.items ≡ closed_at inner.start pods.old.items) }
    ensures unchanged { IfNone result (pods.new.items ≡ pods.old.items) }
{
    take_end(reader, inner.braced)?;
    match close(pods, inner.start) {
        Ok(()) => Some(()),
        Err(_) => None,
    }
}

/// Takes the bracket at which a struct ends, and the brace behind it, where there is one.
fn take_end(reader: &mut Reader<'_>, braced: bool) -> Option<()>
    ensures { IfSome result (λ _. EndsStruct braced reader.old reader.new) }
{
    let Some(Token::EndArray) = reader.next() else {
        return None;
    };
    if braced {
        let Some(Token::EndObject) = reader.next() else {
            return None;
        };
    }
    Some(())
}

/// Appends the pod of the value at the front of the tokens that are left. Where it isn't appended, the output may end with a beginning of it.
fn put_front(
    alloc: Global,
    reader: &mut Reader<'_>,
    strictness: Strictness,
    pods: &mut Vec<u8>,
) -> Option<()>
    ensures added { IfSome result (λ _. AddsFront strictness reader.old reader.new pods.old.items pods.new.items) }
    ensures longer { IsLonger pods.old.items pods.new.items }
{
    let Ok(value) = read_front(alloc, reader, strictness) else {
        return None;
    };
    let value = Held::from(value);
    match write_sized(pods, &*value) {
        Ok(_) => Some(()),
        Err(_) => None,
    }
}
