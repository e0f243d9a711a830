//! Makes pods of values that are given as JSON, a line each, and prints these pods as JSON again: with names, each value in the one way
//! that it is printed.
#![tactic(auto)]

use libspa::pod::Held;
use libspa::pod::deserialize::PodDeserializer;
use libspa::pod::serialize::write_value;
use spa_text::{TextPrinter, TextReader};
use std::alloc::Global;
use std::io::{self, Write};

/// The pods of the values of which the lines are texts, one behind another.
fn pods_of(alloc: Global, lines: &str) -> anyhow::Result<Vec<u8>> {
    let mut reader = TextReader::new(alloc);
    let mut pods = Vec::new(alloc);
    for line in lines.lines() {
        let value = Held::from(reader.read(line)?);
        write_value(alloc, &mut pods, &*value)?;
    }
    Ok(pods)
}

/// The texts of the values of these pods, a line each. Where a pod is refused, there are none.
fn lines_of(alloc: Global, pods: &[u8]) -> anyhow::Result<Vec<u8>> {
    let mut printer = TextPrinter::new(alloc);
    let mut lines = Vec::new(alloc);
    let mut left = pods;
    while !left.is_empty() {
        let (rest, value) = PodDeserializer::deserialize_any_from(alloc, left)?;
        let value = Held::from(value);
        printer.print(&*value, &mut lines)?;
        lines.push(b'\n')?;
        left = rest;
    }
    Ok(lines)
}

fn main(rt: HostRuntime) -> anyhow::Result<()> {
    let given = io::read_to_string(rt.alloc(), rt.stdin())?;
    let pods = pods_of(rt.alloc(), given.as_str())?;
    let lines = lines_of(rt.alloc(), pods.as_slice())?;
    rt.stdout().write_all(lines.as_slice())?;
    Ok(())
}
