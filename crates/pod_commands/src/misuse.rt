//! What is wrong with a command line that `clap` accepts.
ghost use Rattle.std.specs.Prelude.{◌≡◌};
ghost use Rattle.pod_commands.specs.Misuses as spec;

use crate::plain::Plain;
use spa_recordings::going_on::Refused;
use spa_text_commands::naming::Named;
use std::fmt;

/// An option that `--stream` excludes.
#[derive(Clone, Copy, Debug)]
pub enum Excluded {
    /// `-o`
    Output,
    /// `--resync`
    Resync,
}

/// What is wrong with the options of `read`.
#[derive(Clone, Copy, Debug)]
pub enum OfRead<'a> {
    /// The value of `--type` is neither the name of a type nor a number.
    TypeName(&'a str),
    /// The value of `--id` is neither the name of an id of the type nor a number.
    IdName(&'a str),
    /// `--pw-dump` is given without `--type` or without `--id`.
    DumpAlone,
    /// `read` is given `--type` or `--id` without `--pw-dump`.
    WithoutDump,
    /// `--pw-dump` excludes `--from-hex`.
    HexDump,
    /// `--pw-dump` excludes `--loose`.
    LooseDump,
}

/// What is wrong with a command line.
#[derive(Clone, Copy, Debug)]
pub enum Misuse<'a> {
    /// It names no word of the program's, which `clap` refuses itself.
    NoWord,
    /// The value of `--nth` is no number, which `clap` refuses itself.
    Nth(&'a str),
    /// No number stands at the front of this path.
    Path(&'a str),
    /// The value of `--color` isn't `auto`, `always` or `never`.
    Color(&'a str),
    /// The value of `--type`, `--id` or `--key` names none of these, nor has one such a number, and nearly this name is one's.
    Name(Named, &'a str, Option<&'static str>),
    /// `diff` has one file.
    TooFew,
    /// This is the third file of a word that takes two at most.
    TooMany(&'a str),
    /// Pods would be written to a terminal, and `-o` doesn't ask for it.
    ToTerminal,
    /// `--stream` excludes this option.
    WithStream(Excluded),
    /// `--nth`, `--type`, `--id`, `--key` and `--hex` exclude the option by which this becomes of refused pods.
    WithPart(Refused),
    /// `--resync` excludes the option by which this becomes of refused pods.
    WithResync(Refused),
    /// `json` is given `--pw-dump`, and an option that goes by other texts, parts of inputs or blocks.
    WithDump,
    /// Options of `read` are wrong, for this reason.
    Read(OfRead<'a>),
}

impl fmt::Display for Excluded {
    ghost use Rattle.std.specs.Prelude.{Some};
    ghost use Rattle.pod_commands.specs.Misuses.{excluded_text};

    ghost output = { λ excluded. Some (excluded_text excluded) };

    fn fmt<W: fmt::Write>(&self, f: &mut fmt::Formatter<W>) -> fmt::Result {
        match self {
            Excluded::Output => f.write_str("--output"),
            Excluded::Resync => f.write_str("--resync"),
        }
    }
}

/// Why `--stream` excludes this option.
fn stream_reason(excluded: Excluded) -> &'static str
    ensures { result.now ≡ spec.stream_reason excluded }
{
    match excluded {
        Excluded::Output => "it writes as input comes, and a file is written at the end",
        Excluded::Resync => "an input is held whole to find where the next pod begins",
    }
}

/// What has a name, which is also the option for it.
fn word_of(named: Named) -> &'static str
    ensures { result.now ≡ spec.word_of named }
{
    match named {
        Named::Types => "type",
        Named::Ids => "id",
        Named::Keys => "key",
    }
}

/// The option by which this becomes of refused pods.
fn option_of(refused: Refused) -> &'static str
    ensures { result.now ≡ spec.option_of refused }
{
    match refused {
        Refused::LeftOut => "--keep-going",
        Refused::Kept => "--keep-refused",
        Refused::Resynced => "--resync",
    }
}

/// A name that is nearly the one that was given, where there is one.
#[derive(Clone, Copy)]
struct Similar(Option<&'static str>);

impl fmt::Display for Similar {
    ghost use Rattle.std.specs.Prelude.{Some};
    ghost use Rattle.pod_commands.specs.Misuses.{similar_text};

    ghost output = { λ similar. Some (similar_text similar.0) };

    fn fmt<W: fmt::Write>(&self, f: &mut fmt::Formatter<W>) -> fmt::Result {
        match self.0 {
            Some(name) => write!(f, "; one has '{name}'"),
            None => Ok(()),
        }
    }
}

impl fmt::Display for OfRead<'_> {
    ghost use Rattle.std.specs.Prelude.{Some};
    ghost use Rattle.pod_commands.specs.Misuses.{read_text};

    ghost output = { λ why. Some (read_text why) };

    fn fmt<W: fmt::Write>(&self, f: &mut fmt::Formatter<W>) -> fmt::Result {
        match self {
            OfRead::TypeName(value) => {
                let value = Plain(*value);
                write!(f, "--type: no type has the name or number '{value}'")
            }
            OfRead::IdName(value) => {
                let value = Plain(*value);
                write!(
                    f,
                    "--id: no id of the type has the name or number '{value}'"
                )
            }
            OfRead::DumpAlone => {
                f.write_str("--pw-dump needs --type and --id, which pw-dump doesn't print")
            }
            OfRead::WithoutDump => {
                f.write_str("read takes --type and --id only with --pw-dump: other texts have both")
            }
            OfRead::HexDump => {
                f.write_str("--pw-dump can't be used with --from-hex: what pw-dump prints is JSON")
            }
            OfRead::LooseDump => {
                f.write_str("--pw-dump can't be used with --loose: the tables say what a list is")
            }
        }
    }
}

/// Two options that exclude each other. Of another misuse it prints nothing.
#[derive(Clone, Copy)]
struct Conflict<'a>(Misuse<'a>);

impl fmt::Display for Conflict<'_> {
    ghost use Rattle.std.specs.Prelude.{Some};
    ghost use Rattle.pod_commands.specs.Misuses.{conflict_text};

    ghost output = { λ conflict. Some (conflict_text conflict.0) };

    fn fmt<W: fmt::Write>(&self, f: &mut fmt::Formatter<W>) -> fmt::Result {
        match self.0 {
            Misuse::WithStream(other) => {
                let why = stream_reason(other);
                write!(f, "--stream can't be used with {other}: {why}")
            }
            Misuse::WithResync(refused) => write!(
                f,
                "--resync can't be used with {}: that goes on where a refused pod's size word says",
                option_of(refused)
            ),
            Misuse::WithDump => f.write_str(
                "--pretty, --hex, --nth, --type, --id, --key and --stream can't be used with json --pw-dump: it prints each pod of whole inputs on a line",
            ),
            Misuse::WithPart(refused) => write!(
                f,
                "--nth, --type, --id, --key and --hex can't be used with {}: they count refused pods, too; 'pod rewrite --keep-going' leaves these out",
                option_of(refused)
            ),
            _ => Ok(()),
        }
    }
}

impl fmt::Display for Misuse<'_> {
    ghost use Rattle.std.specs.Prelude.{Some};
    ghost use Rattle.pod_commands.specs.Misuses.{misuse_text};

    ghost output = { λ misuse. Some (misuse_text misuse) };

    fn fmt<W: fmt::Write>(&self, f: &mut fmt::Formatter<W>) -> fmt::Result {
        match self {
            Misuse::NoWord => f.write_str("there is no command"),
            Misuse::Nth(value) => {
                write!(f, "--nth takes a number from 1 on, not '{}'", Plain(*value))
            }
            Misuse::Path(path) => {
                write!(
                    f,
                    "PATH begins with the number of a pod, such as 3 or '3[2].rate', not '{}'",
                    Plain(*path)
                )
            }
            Misuse::Color(value) => {
                let value = Plain(*value);
                write!(f, "--color takes auto, always or never, not '{value}'")
            }
            Misuse::Name(named, value, similar) => {
                let word = word_of(*named);
                let value = Plain(*value);
                let similar = Similar(*similar);
                write!(
                    f,
                    "--{word}: no {word} has the name or number '{value}'{similar}"
                )
            }
            Misuse::Read(why) => write!(f, "{why}"),
            Misuse::TooFew => f.write_str("diff takes two FILEs"),
            Misuse::TooMany(name) => {
                write!(f, "unexpected FILE '{}': two are the most", Plain(*name))
            }
            Misuse::ToTerminal => f.write_str(
                "pods are bytes, and the standard output is a terminal: -o FILE writes a file, -o - writes there all the same",
            ),
            Misuse::WithStream(_)
            | Misuse::WithResync(_)
            | Misuse::WithDump
            | Misuse::WithPart(_) => write!(f, "{}", Conflict(*self)),
        }
    }
}
