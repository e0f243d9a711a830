//! The laws of the text, as contracts of functions.
ghost use Rattle.std.specs.Prelude.{◌≡◌, [], IfOk};
ghost use Rattle.std.specs.Str.{IsUtf8};
ghost use Rattle.spa_format.specs.Tree.{Tree};
ghost use Rattle.spa_text_read.specs.Grammar.{IsTextOf};
ghost use Rattle.spa_text.specs.Printed.{HasNoFloat};
ghost use Rattle.spa_value.specs.View.{view};

use crate::pretty::print_pretty;
use crate::printing::print;
pub use spa_text_read::laws::reads_one_value;
use spa_text_read::{Cause, read};
use spa_value::{Value, discard};
use std::alloc::{AllocError, Global};

/// Prints a value, and reads what is printed: the same, unless memory runs out.
pub fn print_then_read(alloc: Global, value: &Value) -> Result<Value, AllocError>
    ensures { IfOk result (λ again. view again ≡ view value.now) }
{
    let mut bytes = Vec::new(alloc);
    print(alloc, value, &mut bytes)?;
    read_again(alloc, bytes.as_slice())
}

/// Prints a value indented, and reads what is printed: the same value, unless memory runs out.
pub fn print_pretty_then_read(alloc: Global, value: &Value) -> Result<Value, AllocError>
    ensures { IfOk result (λ again. view again ≡ view value.now) }
{
    let mut bytes = Vec::new(alloc);
    print_pretty(alloc, value, &mut bytes)?;
    read_again(alloc, bytes.as_slice())
}

/// Prints a value, reads what is printed, and prints what is read: of a value without floats the same text, unless memory runs out.
pub fn print_again(alloc: Global, value: &Value) -> Result<(Vec<u8>, Vec<u8>), AllocError>
    ensures { IfOk result (λ texts. HasNoFloat (view value.now) → texts.1.items ≡ texts.0.items) }
{
    let mut first = Vec::new(alloc);
    print(alloc, value, &mut first)?;
    let again = read_again(alloc, first.as_slice())?;
    let mut second = Vec::new(alloc);
    let printed = print(alloc, &again, &mut second);
    discard(again);
    printed?;
    Ok((first, second))
}

/// The value of a text that is one's.
fn read_again(alloc: Global, bytes: &[u8]) -> Result<Value, AllocError>
    requires { IsUtf8 bytes.now × ((v : Tree) × IsTextOf v bytes.now) }
    ensures { (v : Tree) → IsTextOf v bytes.now → IfOk result (λ again. view again ≡ v) }
{
    reads_one_value();
    let Ok(text) = str::from_utf8(bytes) else {
        unreachable!()
    };
    match read(alloc, text) {
        Ok(again) => Ok(again),
        Err(error) => match error.cause {
            Cause::OutOfMemory => Err(AllocError),
            _ => unreachable!(),
        },
    }
}
