//! The lines of `podtool show`.
ghost use Rattle.std.specs.Prelude.{◌≡◌, ◌≤◌, ◌+◌, ◌∷◌, ◌++◌, [], ℕ, List, IfErr, IfNone, IfSome, OnOk, length, string_bytes};
ghost use Rattle.spa_format.specs.Fixation.{walk_size};
ghost use Rattle.spa_format.specs.Walk.{walk};
ghost use Rattle.spa_format.specs.Words.{header_size};
ghost use Rattle.spa_view.specs.View.{pod_bytes};
ghost use Rattle.spa_pod_commands.specs.Answers.{IsCutOff};
ghost use Rattle.spa_pod_commands.specs.Lines.{AreLines, Inside, Says, level_pods, line_of_pod};

use crate::answer::Failure;
use crate::output::write;
use crate::pods::first_of;
use spa_view::{Pod, PodObjectIter, PodStructIter};
use std::alloc::Global;
use std::io::Write;

/// The lines are written whenever this many bytes of them wait.
const WAITING_LIMIT: usize = 65536;

/// What is left of the input, or of an open struct or object.
#[derive(Drop)]
pub(crate) enum Level<'a> {
    Pods(&'a [u8]),
    Fields(PodStructIter<'a>),
    Properties(PodObjectIter<'a>),
}

/// Makes the lines of pods one after another: of each pod a line with its depth, type number and size, and then
/// the lines of its fields or of the values of its properties, in order. Lines are appended to those that wait,
/// and written from time to time.
pub(crate) fn list<W: Write>(
    alloc: Global,
    pods: &[u8],
    lines: &mut String,
    output: &mut W,
) -> Result<(), Failure>
    ensures listed { OnOk result ((out : List ℕ) × AreLines 0 (walk pods.now) out
        × Says (W.contents output.old) (string_bytes lines.old) (W.contents output.new) (string_bytes lines.new) out) }
    ensures cause { IfErr result IsCutOff }
{
    let mut levels = Vec::new(alloc);
    push(&mut levels, Level::Pods(pods))?;
    while let Some(mut level) = levels.pop() {
        if let Some(pod) = level.next() {
            add_line(levels.len(), pod, lines, output)?;
            push(&mut levels, level)?;
            push(&mut levels, inside(pod))?;
        }
    }
    Ok(())
}

impl<'a> Level<'a> {
    /// The next pod.
    fn next(&mut self) -> Option<Pod<'a>>
        ensures next { IfSome result (λ pod. level_pods self.old ≡ pod_bytes pod ∷ level_pods self.new) }
        ensures end { IfNone result (level_pods self.old ≡ []) }
    {
        match self {
            Level::Pods(left) => {
                let (pod, extent) = first_of(*left)?;
                *left = &(*left)[extent..];
                Some(pod)
            }
            Level::Fields(fields) => fields.next(),
            Level::Properties(properties) => match properties.next() {
                Some(property) => Some(property.value()),
                None => None,
            },
        }
    }
}

/// What is inside a pod: the fields of a struct, the values of an object's properties, of any other nothing.
fn inside(pod: Pod<'_>) -> Level<'_>
    ensures inside { Inside (pod_bytes pod.entry) (level_pods result) }
    ensures smaller { walk_size (level_pods result) + header_size ≤ length (pod_bytes pod.entry) }
{
    if let Ok(parent) = pod.as_struct() {
        Level::Fields(parent.fields())
    } else if let Ok(parent) = pod.as_object() {
        Level::Properties(parent.props())
    } else {
        Level::Pods(&[])
    }
}

/// Opens a level inside those that are open.
fn push<'a>(levels: &mut Vec<Level<'a>>, level: Level<'a>) -> Result<(), Failure>
    ensures pushed { OnOk result (levels.new.items ≡ levels.old.items ++ level.entry ∷ []) }
    ensures cause { IfErr result IsCutOff }
{
    if levels.push(level).is_err() {
        return Err(Failure::OutOfMemory);
    }
    Ok(())
}

/// Makes the line of a pod at this depth.
fn add_line<W: Write>(
    depth: usize,
    pod: Pod<'_>,
    lines: &mut String,
    output: &mut W,
) -> Result<(), Failure>
    ensures added { OnOk result (Says (W.contents output.old) (string_bytes lines.old)
        (W.contents output.new) (string_bytes lines.new) (line_of_pod depth (pod_bytes pod.entry))) }
    ensures cause { IfErr result IsCutOff }
{
    if writeln!(lines, "{depth} {} {}", pod.type_().as_raw(), pod.size()).is_err() {
        return Err(Failure::OutOfMemory);
    }
    if lines.len() >= WAITING_LIMIT {
        write(output, lines.as_bytes())?;
        lines.clear();
    }
    Ok(())
}
