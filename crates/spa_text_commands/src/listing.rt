//! Pods shown: a line for each value, each key and each sixteen bytes.
ghost use Rattle.std.specs.Prelude.{◌≡◌, ◌≤◌, ◌+◌, ◌<◌, ◌^◌, ◌∷◌, ◌++◌, [], IfNone, IfOk, IfSome, None, OnOk, if◌then◌else◌, is_some, length};
ghost use Rattle.hex.specs.Hex.{encode_lower};
ghost use Rattle.json.specs.Ascii.{quote};
ghost use Rattle.spa_format.specs.Pod.{AreMembers};
ghost use Rattle.spa_format.specs.Tree.{Trees};
ghost use Rattle.spa_text_commands.specs.Lines.{Adds, AddsPart, AddsParts, AddsPodLines, MayAdd};
ghost use Rattle.spa_text_commands.specs.Selection.{part_of, selected_of};
ghost use Rattle.spa_text_commands.specs.Texts.{IsTextAt, wrapped};
ghost use Rattle.spa_text_commands.specs.Unread.{AddsTexts};
ghost use Rattle.spa_view.specs.View.{pod_bytes};

use crate::dump::{add_hex, add_rows};
use crate::inner_values::add_found;
use crate::inside::{Inside, Item, Label};
use crate::lines::{put_indent, put_label, put_refusal, put_rest, put_value};
use crate::message::{head_of, put_head};
use crate::page::Page;
use crate::parts::{Parts, Shown};
use crate::paths::numbered;
use crate::printing::{Layout, Position, add_texts, begin_at};
use crate::selection::{Form, Printout};
use spa_fixed_sized::DeserializeError;
use spa_names::Table;
use spa_rewrite::accept_all;
use spa_view::{Pod, whole_bytes};
use std::alloc::{AllocError, Global};

/// How many bytes stand before the value of a property or a control.
const FRONT_LEN: usize = 8;

/// The refusal where fewer bytes are left than a pod takes.
const SHORT: &str = "Short";

/// A pod that is printed.
#[derive(Clone, Copy)]
pub(crate) struct Part<'a> {
    pub(crate) pod: Pod<'a>,
    /// The names of ids in it.
    pub(crate) ids: Table,
    /// How many top-level pods precede it, or the one that it is in.
    pub(crate) count: usize,
    /// The byte of the input where it begins.
    pub(crate) place: usize,
    /// The steps to it from the top-level pod, which has none itself.
    pub(crate) path: &'a str,
    /// The top-level pod that it is in, or itself.
    pub(crate) outer: Pod<'a>,
}

/// A top-level pod that is being shown.
#[derive(Drop)]
struct Listing<'a> {
    /// What is left inside the open values, the outermost first.
    levels: Vec<Inside<'a>>,
    /// Why the reader refuses the top-level pod, until the place of that is shown.
    refusal: Option<&'static str>,
    alloc: Global,
}

/// Adds what is printed of a selected pod, which so many pods and bytes of the input stand before, and answers how many of the printed pods are refused.
pub(crate) fn add_selected(
    alloc: Global,
    page: &mut Page,
    printout: Printout<'_>,
    pod: Pod<'_>,
    count: usize,
    place: usize,
) -> Result<usize, AllocError>
    requires count { count + 1 < 2 ^ 64 }
    requires place { place + length (pod_bytes pod) < 2 ^ 64 }
    ensures added { IfOk result
        (AddsParts printout.entry.form
        (selected_of printout.entry.selection count place (pod_bytes pod.entry))
        page.old.lines.items page.new.lines.items) }
    ensures few { IfOk result (λ refused. refused ≤ length (pod_bytes pod.entry)) }
{
    if !printout.selection.has_pod(count) {
        return Ok(0);
    }
    if printout.selection.looks_inside() {
        return add_found(alloc, page, printout, pod, count, place);
    }
    let part = Part {
        pod,
        ids: Table::Nothing,
        count,
        place,
        path: "",
        outer: pod,
    };
    add_part(alloc, page, printout.form, part)
}

/// Adds what is printed of a pod, and answers 1 where it is refused, else 0.
pub(crate) fn add_part(
    alloc: Global,
    page: &mut Page,
    form: Form,
    part: Part<'_>,
) -> Result<usize, AllocError>
    requires count { part.count + 1 < 2 ^ 64 }
    requires place { part.place + length (pod_bytes part.pod) < 2 ^ 64 }
    ensures added { IfOk result
        (AddsParts form (part_of part.entry.count part.entry.place part.entry.path.now (pod_bytes part.entry.pod) ∷ [])
        page.old.lines.items page.new.lines.items) }
    ensures few { IfOk result (λ refused. refused ≤ 1) }
{
    let refusal = refusal_of(alloc, part.pod)?;
    let refused = count_of(refusal);
    print_part(alloc, page, form, part, refusal, refused)?;
    Ok(refused)
}

/// Adds what is printed of a pod that is refused for this reason, and counts for so many refused ones.
fn print_part(
    alloc: Global,
    page: &mut Page,
    form: Form,
    part: Part<'_>,
    refusal: Option<&'static str>,
    refused: usize,
) -> Result<(), AllocError>
    requires count { part.count + 1 < 2 ^ 64 }
    requires place { part.place + length (pod_bytes part.pod) < 2 ^ 64 }
    ensures { OnOk result
        (AddsPart form (part_of part.entry.count part.entry.place part.entry.path.now (pod_bytes part.entry.pod)) refused
        page.old.lines.items page.new.lines.items) }
{
    match form {
        Form::Lines => list(alloc, page, part, refusal),
        Form::LinesAndBytes => {
            list(alloc, page, part, refusal)?;
            add_rows(&mut page.lines, part.place, whole_bytes(&part.pod))
        }
        Form::Text(layout) => {
            if refused > 0 {
                return Ok(());
            }
            let path = numbered(alloc, part.count, part.path)?;
            let position = Position {
                path: path.as_str(),
                outer: Some(part.outer),
            };
            add_pod_text(alloc, &mut page.lines, layout, position, part.pod)
        }
        Form::Pods => page.lines.extend_from_slice(whole_bytes(&part.pod)),
        Form::Bytes => {
            let path = numbered(alloc, part.count, part.path)?;
            add_string(&mut page.lines, path.as_str(), whole_bytes(&part.pod))
        }
    }
}

/// How many pods are refused: one where there is a refusal, else none.
fn count_of(refusal: Option<&'static str>) -> usize
    ensures { result ≡ (if is_some refusal.entry then 1 else 0) }
{
    match refusal {
        Some(_) => 1,
        None => 0,
    }
}

/// Adds the text of an accepted pod, which is at this position.
fn add_pod_text(
    alloc: Global,
    lines: &mut Vec<u8>,
    layout: Layout,
    position: Position<'_>,
    pod: Pod<'_>,
) -> Result<(), AllocError>
    ensures { OnOk result
        (AddsTexts (IsTextAt layout position.entry.path.now) (pod_bytes pod.entry) lines.old.items lines.new.items) }
{
    // What is accepted isn't printed for lack of memory alone.
    match add_texts(alloc, layout, position, whole_bytes(&pod), lines) {
        Ok(()) => Ok(()),
        Err(_) => Err(AllocError),
    }
}

/// Adds bytes, which stand at this path, as a JSON string of their hex digits, on a line.
fn add_string(lines: &mut Vec<u8>, path: &str, bytes: &[u8]) -> Result<(), AllocError>
    ensures { OnOk result (lines.new.items
        ≡ lines.old.items ++ (wrapped path.now None (quote ∷ (encode_lower bytes.now ++ (quote ∷ []))) ++ 10 ∷ [])) }
{
    let ending = begin_at(lines, path)?;
    lines.push(b'"')?;
    add_hex(lines, bytes)?;
    lines.push(b'"')?;
    lines.extend_from_slice(ending.as_bytes())?;
    lines.push(b'\n')?;
    Ok(())
}

/// Adds the lines of one pod: the line that counts it and gives its byte, the head of the message that it is in, the reason why it is refused, where
/// there are such, and a line for each value in it.
fn list(
    alloc: Global,
    page: &mut Page,
    part: Part<'_>,
    refusal: Option<&'static str>,
) -> Result<(), AllocError>
    requires { part.count + 1 < 2 ^ 64 }
    ensures { OnOk result
        (AddsPodLines (part_of part.entry.count part.entry.place part.entry.path.now (pod_bytes part.entry.pod))
        page.old.lines.items page.new.lines.items) }
{
    let levels = Vec::new(alloc);
    let mut listing = Listing {
        levels,
        refusal,
        alloc,
    };
    page.add_head(part.count, part.place, part.path)?;
    listing.add_pod(
        page,
        Shown::of_pod(part.pod, part.ids),
        part.place,
        part.outer,
    )
}

impl<'a> Listing<'a> {
    /// Adds the lines of the pod, which begins at this byte and is in this top-level one, and of what is inside it.
    fn add_pod(
        &mut self,
        page: &mut Page,
        value: Shown<'a>,
        place: usize,
        outer: Pod<'_>,
    ) -> Result<(), AllocError>
        ensures { OnOk result (Adds page.old.lines.items page.new.lines.items) }
    {
        self.add_first(page, value, place, outer)?;
        // Each turn shows an item or closes a value, of which an input has far fewer than this.
        for _ in 0..u64::MAX {
            if self.levels.is_empty() {
                break;
            }
            self.add_next(page)?;
        }
        self.add_refusal(page, self.refusal, place, 0)
    }

    /// Adds the head of the message that the pod is in, if it is in one, and the line of the pod.
    fn add_first(
        &mut self,
        page: &mut Page,
        value: Shown<'a>,
        place: usize,
        outer: Pod<'_>,
    ) -> Result<(), AllocError>
        ensures { OnOk result (Adds page.old.lines.items page.new.lines.items) }
    {
        let Some(head) = head_of(outer) else {
            return self.add_value(page, value, place, 0);
        };
        let begun = put_head(&mut page.line, head);
        page.end_line(begun)?;
        self.add_value(page, value, place, 0)
    }

    /// Adds the lines of the next item of the innermost open value, or closes the value where it has none left.
    fn add_next(&mut self, page: &mut Page) -> Result<(), AllocError>
        ensures { OnOk result (MayAdd page.old.lines.items page.new.lines.items) }
    {
        let Some(level) = self.levels.last_mut() else {
            return Ok(());
        };
        let place = level.place;
        let depth = level.depth;
        match level.next() {
            Some(item) => self.add_item(page, item, place, depth),
            None => {
                self.levels.pop();
                Ok(())
            }
        }
    }

    /// Adds the lines of an item that begins at this byte.
    fn add_item(
        &mut self,
        page: &mut Page,
        item: Item<'a>,
        place: usize,
        depth: usize,
    ) -> Result<(), AllocError>
        ensures { OnOk result (Adds page.old.lines.items page.new.lines.items) }
    {
        match item {
            Item::Value(Label::Bare, value) => self.add_value(page, value, place, depth),
            Item::Value(label, value) => {
                let begun = put_label(&mut page.line, depth, label);
                page.end_line(begun)?;
                self.add_value(
                    page,
                    value,
                    place.saturating_add(FRONT_LEN),
                    depth.saturating_add(1),
                )
            }
            Item::Row(row) => {
                let begun = put_indent(&mut page.line, depth);
                page.end_row(begun, place, row)
            }
            Item::Rest(bytes) => self.add_rest(page, bytes, place, depth),
        }
    }

    /// Adds the line of bytes that are no whole item.
    fn add_rest(
        &mut self,
        page: &mut Page,
        bytes: &'a [u8],
        place: usize,
        depth: usize,
    ) -> Result<(), AllocError>
        ensures { OnOk result (Adds page.old.lines.items page.new.lines.items) }
    {
        let begun = put_rest(&mut page.line, depth, bytes.len());
        page.end_line(begun)?;
        self.add_refusal(page, Some(SHORT), place, depth)?;
        let rows = Inside::of(Parts::Bytes(bytes), Table::Nothing, place, depth);
        self.open(rows)
    }

    /// Adds the line of a value that begins at this byte, and opens it where it has others inside.
    fn add_value(
        &mut self,
        page: &mut Page,
        value: Shown<'a>,
        place: usize,
        depth: usize,
    ) -> Result<(), AllocError>
        ensures { OnOk result (Adds page.old.lines.items page.new.lines.items) }
    {
        let parts = value.parts();
        let begun = put_value(&mut page.line, depth, value, parts);
        page.end_line(begun)?;
        self.add_refusal_of(page, value, parts, place, depth)?;
        self.open(Inside::of(parts, value.ids, value.body_place(place), depth))
    }

    /// Adds the line of the refusal, where it isn't shown yet and is that of this value.
    fn add_refusal_of(
        &mut self,
        page: &mut Page,
        value: Shown<'a>,
        parts: Parts<'a>,
        place: usize,
        depth: usize,
    ) -> Result<(), AllocError>
        ensures { OnOk result (MayAdd page.old.lines.items page.new.lines.items) }
    {
        if self.refusal.is_none() || has_members(parts) {
            return Ok(());
        }
        let Some(pod) = value.pod else {
            return Ok(());
        };
        let refusal = refusal_of(self.alloc, pod)?;
        self.add_refusal(page, refusal, place, depth)
    }

    /// Adds the line of this refusal, where it is the reader's and isn't shown yet.
    fn add_refusal(
        &mut self,
        page: &mut Page,
        wanted: Option<&'static str>,
        place: usize,
        depth: usize,
    ) -> Result<(), AllocError>
        ensures { OnOk result (MayAdd page.old.lines.items page.new.lines.items) }
    {
        if self.refusal != wanted {
            return Ok(());
        }
        let Some(refusal) = self.refusal.take() else {
            return Ok(());
        };
        let begun = put_refusal(&mut page.line, depth, place, refusal);
        page.end_line(begun)
    }

    /// Opens a value, where it has something inside.
    fn open(&mut self, inside: Option<Inside<'a>>) -> Result<(), AllocError> {
        let Some(inside) = inside else {
            return Ok(());
        };
        self.levels.push(inside)?;
        Ok(())
    }
}

/// Whether a value holds pods that the reader checks one by one: the members of a struct, the properties of an object.
fn has_members(parts: Parts<'_>) -> bool {
    matches!(parts, Parts::Struct(_) | Parts::Object { .. })
}

/// Why the reader refuses the pod, if it does.
fn refusal_of(alloc: Global, pod: Pod<'_>) -> Result<Option<&'static str>, AllocError>
    ensures accepted { IfOk result (λ found. IfNone found ((vs : Trees) × AreMembers vs (pod_bytes pod.entry))) }
    ensures refused { IfOk result
        (λ found. IfSome found (λ _. (vs : Trees) → ¬ (AreMembers vs (pod_bytes pod.entry)))) }
{
    let Err((_, error)) = accept_all(alloc, whole_bytes(&pod)) else {
        return Ok(None);
    };
    match error {
        DeserializeError::OutOfMemory => Err(AllocError),
        _ => Ok(Some(error.kind())),
    }
}
