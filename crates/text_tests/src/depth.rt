//! Deeply nested texts.
use crate::texts::{assert_so, held, printed};
use spa_text::print_pretty;
use spa_value::{Held, Value, same};
use std::alloc::{AllocError, Global};

/// How deep the text nests.
const LEVELS: usize = 100_000;

/// The text of `LEVELS` nested structs.
fn nested_text(alloc: Global) -> Result<String, AllocError> {
    let mut text = "[".repeat(alloc, LEVELS)?;
    text.push_str("]".repeat(alloc, LEVELS)?.as_str())?;
    Ok(text)
}

/// The value of `nested_text`.
fn nested_structs(alloc: Global) -> Result<Held, AllocError> {
    let mut nested = Held::from(Value::Struct(Vec::new(alloc)));
    for _ in 1..LEVELS {
        let mut members = Vec::with_capacity(alloc, 1)?;
        members.push_reserved(nested.into_inner());
        nested = Held::from(Value::Struct(members));
    }
    Ok(nested)
}

/// Whether the text is read as the value.
fn is_deep_read(alloc: Global) -> Result<bool, AllocError> {
    let text = nested_text(alloc)?;
    let wanted = nested_structs(alloc)?;
    match held(alloc, text.as_str())? {
        Ok(value) => same(alloc, &*value, &*wanted),
        Err(_) => Ok(false),
    }
}

/// Whether the value is printed as the text.
fn is_deep_printed(alloc: Global) -> Result<bool, AllocError> {
    let value = nested_structs(alloc)?;
    let wanted = nested_text(alloc)?;
    let printed = printed(alloc, &*value)?;
    Ok(printed.as_slice() == wanted.as_bytes())
}

/// Whether the value, which nests too deep to be indented, is printed on one line.
fn is_deep_on_one_line(alloc: Global) -> Result<bool, AllocError> {
    let value = nested_structs(alloc)?;
    let wanted = nested_text(alloc)?;
    let mut printed = Vec::new(alloc);
    print_pretty(alloc, &value, &mut printed)?;
    Ok(printed.as_slice() == wanted.as_bytes())
}

#[test]
fn deep_texts_are_read(rt: HostRuntime) -> Result<(), AllocError> {
    let holds = is_deep_read(rt.alloc())?;
    assert_so(&rt, holds, "deep brackets");
    Ok(())
}

#[test]
fn deep_values_are_printed(rt: HostRuntime) -> Result<(), AllocError> {
    let holds = is_deep_printed(rt.alloc())?;
    assert_so(&rt, holds, "deep structs");
    Ok(())
}

#[test]
fn deep_values_are_not_indented(rt: HostRuntime) -> Result<(), AllocError> {
    let holds = is_deep_on_one_line(rt.alloc())?;
    assert_so(&rt, holds, "deep structs, indented");
    Ok(())
}
