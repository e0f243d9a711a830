//! Texts with each byte changed to each other one: blanks around them change nothing of what is read, nor whether it is.
use crate::texts::{assert_so, held};
use spa_value::same;
use std::alloc::{AllocError, Global};
use std::process::Abort;

/// Values without members, and structs, a line each.
const LEAVES: &str = r#"[1,[],[null,{"long":2}],"x"]
{"float":1.5}
{"double":"0x7ff8000000000001"}
{"width":640,"height":480}
{"bytes":"00ff10"}
{"pointer":"Buffer","address":"0xffff8000deadbeef"}"#;

/// Arrays, choices and objects, a line each.
const LISTS: &str = r#"{"array":"Int","values":[1,-1]}
{"choice":"Step","flags":9,"of":"Long","values":[1,2,3,4]}
{"type":999,"id":3,"props":{"5":1,"6":{"flags":3,"value":true}}}
{"type":"Format","id":"EnumFormat","props":{"rate":5,"format":"S16LE"}}"#;

#[test]
fn blanks_change_nothing_of_changed_leaves(rt: HostRuntime) -> Result<(), AllocError> {
    change_all(&rt, rt.alloc(), LEAVES)
}

#[test]
fn blanks_change_nothing_of_changed_lists(rt: HostRuntime) -> Result<(), AllocError> {
    change_all(&rt, rt.alloc(), LISTS)
}

/// Changes each byte of each line.
fn change_all(rt: &impl Abort, alloc: Global, texts: &str) -> Result<(), AllocError> {
    for text in texts.lines() {
        for at in 0..text.len() {
            change_byte(rt, alloc, text, at)?;
        }
    }
    Ok(())
}

/// Changes this byte to each one.
fn change_byte(rt: &impl Abort, alloc: Global, text: &str, at: usize) -> Result<(), AllocError> {
    for byte in 0..=255u8 {
        if let Some(changed) = changed(alloc, text, at, byte)? {
            let holds = reads_alike(alloc, changed.as_str())?;
            assert_so(rt, holds, changed.as_str());
        }
    }
    Ok(())
}

/// The text with this byte there, if that is one.
fn changed(alloc: Global, text: &str, at: usize, byte: u8) -> Result<Option<String>, AllocError> {
    let mut bytes = Vec::from_slice(alloc, text.as_bytes())?;
    if at < bytes.len() {
        bytes[at] = byte;
    }
    Ok(String::from_utf8(bytes).ok())
}

/// Whether the text is read as the same value between blanks, or refused for the same cause.
fn reads_alike(alloc: Global, text: &str) -> Result<bool, AllocError> {
    let mut wide = String::from_str(alloc, " \n")?;
    wide.push_str(text)?;
    wide.push_str("\t\r")?;
    let narrow = held(alloc, text)?;
    match held(alloc, wide.as_str())? {
        Ok(other) => match narrow {
            Ok(value) => same(alloc, &*value, &*other),
            Err(_) => Ok(false),
        },
        Err(cause) => Ok(narrow.err() == Some(cause)),
    }
}
