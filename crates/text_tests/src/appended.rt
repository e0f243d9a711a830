//! Texts behind what was there.
use crate::texts::assert_so;
use spa_text::{TextPrinter, print};
use spa_value::Value;
use std::alloc::{AllocError, Global};

/// Two texts behind a line.
fn print_twice(alloc: Global) -> Result<Vec<u8>, AllocError> {
    let mut bytes = Vec::from_slice(alloc, b"a\n")?;
    print(alloc, &Value::Int(5), &mut bytes)?;
    print(alloc, &Value::None, &mut bytes)?;
    Ok(bytes)
}

#[test]
fn texts_stand_behind_what_was_there(rt: HostRuntime) -> Result<(), AllocError> {
    let bytes = print_twice(rt.alloc())?;
    assert_so(
        &rt,
        bytes.as_slice() == b"a\n5null".as_slice(),
        "5 and null",
    );
    Ok(())
}

/// Appends 5 and null by one printer, which keeps its memory.
fn print_twice_by_one(alloc: Global) -> Result<Vec<u8>, AllocError> {
    let mut printer = TextPrinter::new(alloc);
    let mut bytes = Vec::from_slice(alloc, b"a\n")?;
    printer.print(&Value::Int(5), &mut bytes)?;
    printer.print(&Value::None, &mut bytes)?;
    Ok(bytes)
}

#[test]
fn a_printer_keeps_nothing_of_the_value_before(rt: HostRuntime) -> Result<(), AllocError> {
    let bytes = print_twice_by_one(rt.alloc())?;
    assert_so(
        &rt,
        bytes.as_slice() == b"a\n5null".as_slice(),
        "5 and null, by one printer",
    );
    Ok(())
}
