//! Deeply nested structs, printed, added to a builder, and opened and closed by a parser.
use crate::deep::bytes::{DEPTHS, NONE, assert_holds, between, read};
use libspa::pod::builder::Builder;
use libspa::pod::parser::Parser;
use libspa::pod::{Frame, Printed, Value};
use libspa::utils::Errno;
use std::alloc::{AllocError, Global};
use std::test::Fail;

/// Whether the text of a value is that of this many structs around a None.
fn is_printed(alloc: Global, value: &Value, depth: u32) -> Result<bool, AllocError> {
    let printed = Printed::new(alloc, value);
    let found = format!(in alloc; "{printed:?}")?;
    let mut wanted = String::new(alloc);
    for _ in 0..depth {
        wanted.push_str("Struct([")?;
    }
    wanted.push_str("None")?;
    for _ in 0..depth {
        wanted.push_str("])")?;
    }
    Ok(found == wanted)
}

#[test]
fn depth_ends_no_print(rt: HostRuntime) -> Result<(), Fail> {
    for depth in DEPTHS {
        let input = between(rt.alloc(), &[], (*depth, NONE), &[])?;
        let value = read(rt.alloc(), input.as_slice())?;
        let is_printed = is_printed(rt.alloc(), &*value, *depth)?;
        assert_holds(&rt, is_printed, "printed", *depth);
    }
    Ok(())
}

/// Whether a builder with a struct of the value and an Int has these bytes.
fn is_added(alloc: Global, value: &Value, wanted: &[u8]) -> Result<bool, Errno> {
    let mut builder = Builder::new(Vec::new(alloc));
    let frame = builder.push_struct()?;
    builder.add_value(value)?;
    builder.add_int(3)?;
    builder.pop(frame)?;
    Ok(builder.as_bytes() == wanted)
}

#[test]
fn depth_ends_no_addition(rt: HostRuntime) -> Result<(), Fail> {
    for depth in DEPTHS {
        let input = between(rt.alloc(), &[], (*depth, NONE), &[])?;
        let wanted = between(rt.alloc(), &[16, 14], (*depth, NONE), &[4, 4, 3, 0])?;
        let value = read(rt.alloc(), input.as_slice())?;
        let is_added = is_added(rt.alloc(), &*value, wanted.as_slice())?;
        assert_holds(&rt, is_added, "added", *depth);
    }
    Ok(())
}

/// Opens this many structs, and closes them from the innermost, in which no number is.
fn is_opened(parser: &mut Parser, depth: u32) -> Result<bool, Errno> {
    for _ in 0..depth {
        let _ = parser.push_struct()?;
    }
    let has_none = parser.get_int() == Err(Errno::INVAL);
    for closed in 0..depth {
        parser.pop(Frame((depth - closed) as usize))?;
    }
    Ok(has_none && parser.get_int() == Err(Errno::PIPE))
}

#[test]
fn depth_ends_no_parser(rt: HostRuntime) -> Result<(), Fail> {
    for depth in DEPTHS {
        let input = between(rt.alloc(), &[], (*depth, NONE), &[])?;
        let mut parser = Parser::new(rt.alloc(), &input);
        let is_opened = is_opened(&mut parser, *depth)?;
        assert_holds(&rt, is_opened, "opened and closed", *depth);
    }
    Ok(())
}
