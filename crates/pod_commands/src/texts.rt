//! How the texts of `read` are read.
ghost use Rattle.std.specs.Prelude.{◌≡◌, codes, false, true, IfErr, IfOk, option_map};
ghost use Rattle.clap.specs.Matches.{found_of};
ghost use Rattle.clap.specs.Walk.{rows_of};
ghost use Rattle.pod_commands.specs.Requests as spec;
ghost use Rattle.pod_commands.specs.Requests.{AreNoParams, AreParams, AreRead, AreTextsIn, AreUnread, HasNoTexts};

use crate::misuse::{Misuse, OfRead};
use crate::request::{Texts, is_set};
use clap::ArgMatches;
use spa_names::Table;
use spa_text_forms::key_number;
use spa_text_read::Strictness;
use spa_text_read::names::ids_of;

/// How the word of this name reads texts; only `read` does.
pub(crate) fn texts_for<'a>(name: &str, given: &ArgMatches<'a>) -> Result<Texts, Misuse<'a>>
    ensures texts { IfOk result (λ read_as. name.now ≡ codes "read" → AreTextsIn (rows_of (found_of given.now)) read_as) }
    ensures wrong { IfErr result (HasNoTexts (rows_of (found_of given.now))) }
{
    if name != "read" {
        return Ok(Texts::Named(Strictness::Strict));
    }
    texts_of(
        is_set(given, "from-hex"),
        is_set(given, "loose"),
        is_set(given, "pw-dump"),
        given.get_str("type"),
        given.get_str("id"),
    )
}

/// How texts are read where `--from-hex` is given, or isn't, `--loose` and `--pw-dump`, and `--type` and `--id` have these values.
fn texts_of<'a>(
    from_hex: bool,
    is_loose: bool,
    is_dump: bool,
    type_: Option<&'a str>,
    id: Option<&'a str>,
) -> Result<Texts, Misuse<'a>>
    ensures texts { IfOk result (AreRead from_hex is_loose is_dump (option_map (λ s. s.now) type_.entry) (option_map (λ s. s.now) id.entry)) }
    ensures wrong { IfErr result (AreUnread from_hex is_loose is_dump (option_map (λ s. s.now) type_.entry) (option_map (λ s. s.now) id.entry)) }
{
    match (is_dump, from_hex, is_loose) {
        (false, _, _) => match (type_, id) {
            (None, None) => Ok(texts_by(from_hex, is_loose)),
            _ => Err(Misuse::Read(OfRead::WithoutDump)),
        },
        (true, true, _) => Err(Misuse::Read(OfRead::HexDump)),
        (true, false, true) => Err(Misuse::Read(OfRead::LooseDump)),
        (true, false, false) => match (type_, id) {
            (Some(type_), Some(id)) => params_of(type_, id),
            _ => Err(Misuse::Read(OfRead::DumpAlone)),
        },
    }
}

/// How texts are read without `--pw-dump`, where `--from-hex` is given, or isn't, and `--loose`.
fn texts_by(from_hex: bool, is_loose: bool) -> Texts
    ensures { result ≡ spec.texts_by from_hex is_loose }
{
    if from_hex {
        Texts::Hex
    } else {
        Texts::Named(strictness_by(is_loose))
    }
}

/// Params of the type and the id of these names.
fn params_of<'a>(type_: &'a str, id: &'a str) -> Result<Texts, Misuse<'a>>
    ensures texts { IfOk result (AreParams type_.entry.now id.entry.now) }
    ensures wrong { IfErr result (AreNoParams type_.entry.now id.entry.now) }
{
    let Some(number) = key_number(Table::Types, type_) else {
        return Err(Misuse::Read(OfRead::TypeName(type_)));
    };
    match key_number(ids_of(number), id) {
        Some(id) => Ok(Texts::Dump { type_: number, id }),
        None => Err(Misuse::Read(OfRead::IdName(id))),
    }
}

/// The strictness where `--loose` is given, or isn't.
fn strictness_by(is_loose: bool) -> Strictness
    ensures { result ≡ spec.strictness_by is_loose }
{
    if is_loose {
        Strictness::Plain
    } else {
        Strictness::Strict
    }
}
