//! The command line: the program's words, what each takes, and its help.
ghost use Rattle.std.specs.Prelude.{◌≡◌, IfOk, codes, false};
ghost use Rattle.clap.specs.Words.{app_of, rule_of, with_rule};
ghost use Rattle.clap.specs.declared.builder.command.Command.TheViews.{out-Command};
ghost use Rattle.pod_commands.specs.Program as spec;

use clap::builder::ValueParser;
use clap::{Arg, ArgAction, Command};
use std::alloc::{AllocError, Global};

/// The program's version.
const VERSION: &str = "0.2.0";

const ABOUT: &str =
    "Shows, prints, cuts out, reads, rewrites, fixates, checks and compares pods of PipeWire, and finds what two objects agree on";

/// What stands behind the help of the program.
const EXAMPLES: &str =
    "Without a FILE, or where FILE is -, the standard input is read. --stream writes as input is read; so do show, --nth, --type, --id, --key and --hex, unless --lenient is given. Other output is written once all input is accepted, or with --keep-going, --keep-refused and --resync once it is read.

Status: 0 the work is done; 1 a pod is refused, two inputs differ, nothing has the type, id, key or path that is looked for, or something can't be read or written; 2 the command line is wrong.

Example: cat props.pod route.pod | pod rewrite -o clean.pod

Example: pod filter ours.pods theirs.pods | pod fixate | pod json";

/// `FILE ..`
fn files<'a>(alloc: Global) -> Arg<'a>
    ensures rule { rule_of result ≡ spec.files }
    ensures local { result.global ≡ false }
{
    Arg::new(alloc, "FILE").action(ArgAction::Append).help(
        "An input; without one, or where it is -, the standard input is read",
    )
}

/// `-o FILE`
fn output<'a>(alloc: Global) -> Arg<'a>
    ensures rule { rule_of result ≡ spec.output }
    ensures local { result.global ≡ false }
{
    Arg::new(alloc, "output")
        .short('o')
        .long("output")
        .value_name("FILE")
        .help(
            "Writes to this file, once all output is there, and not to the standard output; - is that output, also where it is a terminal",
        )
}

/// A flag of this name.
fn flag<'a>(alloc: Global, name: &'a str, help: &'a str) -> Arg<'a>
    ensures rule { rule_of result ≡ spec.flag name.entry.now }
    ensures local { result.global ≡ false }
{
    Arg::new(alloc, name)
        .long(name)
        .action(ArgAction::SetTrue)
        .help(help)
}

/// An option of this name, with one value.
fn valued<'a>(alloc: Global, name: &'a str, value: &'a str, help: &'a str) -> Arg<'a>
    ensures rule { rule_of result ≡ spec.valued name.entry.now }
    ensures local { result.global ≡ false }
{
    Arg::new(alloc, name)
        .long(name)
        .value_name(value)
        .help(help)
}

/// `--nth N`
fn nth<'a>(alloc: Global) -> Arg<'a>
    ensures rule { rule_of result ≡ spec.nth }
    ensures local { result.global ≡ false }
{
    let help =
        "Prints only the N-th pod of each input, counted from 1; nothing of an input with fewer pods";
    valued(alloc, "nth", "N", help).value_parser(ValueParser::Unsigned(1, u64::MAX))
}

/// A word of the program, with what help says of it and an example.
fn word<'a>(
    alloc: Global,
    name: &'a str,
    about: &'a str,
    example: &'a str,
) -> Result<Command<'a>, AllocError>
    ensures app { IfOk result (λ it. app_of it ≡ spec.word name.entry.now) }
    ensures local { IfOk result (λ it. (out-Command it).has_globals ≡ false) }
{
    let bare = Command::new(alloc, name).about(about).after_help(example);
    let with_files = bare.arg(files(alloc))?;
    with_files.arg(output(alloc))
}

/// A command with this flag, too.
fn with_flag<'a>(
    alloc: Global,
    command: Command<'a>,
    name: &'a str,
    help: &'a str,
) -> Result<Command<'a>, AllocError>
    requires { (out-Command command).has_globals ≡ false }
    ensures app { IfOk result (λ it. app_of it ≡ with_rule (app_of command.entry) (spec.flag name.entry.now)) }
    ensures local { IfOk result (λ it. (out-Command it).has_globals ≡ false) }
{
    command.arg(flag(alloc, name, help))
}

/// A word that reads pods, as it is told to.
fn reading_pods<'a>(alloc: Global, command: Command<'a>) -> Result<Command<'a>, AllocError>
    requires { (out-Command command).has_globals ≡ false }
    ensures app { IfOk result (λ it. app_of it ≡ spec.reading_pods (app_of command.entry)) }
    ensures local { IfOk result (λ it. (out-Command it).has_globals ≡ false) }
{
    with_flag(
        alloc,
        command,
        "lenient",
        "Reads as PipeWire does, also pods that aren't encoded exactly",
    )
}

/// A word that goes over pods.
fn over_pods<'a>(alloc: Global, command: Command<'a>) -> Result<Command<'a>, AllocError>
    requires { (out-Command command).has_globals ≡ false }
    ensures app { IfOk result (λ it. app_of it ≡ spec.over_pods (app_of command.entry)) }
    ensures local { IfOk result (λ it. (out-Command it).has_globals ≡ false) }
{
    let with_lenient = reading_pods(alloc, command)?;
    let going_on = with_flag(
        alloc,
        with_lenient,
        "keep-going",
        "Leaves refused pods out and names each of them on standard error; the status is 1 then",
    )?;
    with_flag(
        alloc,
        going_on,
        "resync",
        "Leaves refused pods out and, where one's size word may be wrong, all up to where the next pod plausibly begins; says what is left out, and the status is 1 then",
    )
}

/// A word that writes pods for pods, with what help says of it and an example.
fn to_pods<'a>(
    alloc: Global,
    name: &'a str,
    about: &'a str,
    example: &'a str,
) -> Result<Command<'a>, AllocError>
    ensures app { IfOk result (λ it. app_of it ≡ spec.to_pods name.entry.now) }
    ensures local { IfOk result (λ it. (out-Command it).has_globals ≡ false) }
{
    let plain = word(alloc, name, about, example)?;
    let with_reading = over_pods(alloc, plain)?;
    with_reading.arg(flag(
        alloc,
        "keep-refused",
        "Copies refused pods unchanged and names each of them on standard error; the status is 1 then",
    ))
}

/// `--stream`
fn stream<'a>(alloc: Global) -> Arg<'a>
    ensures rule { rule_of result ≡ spec.stream }
    ensures local { result.global ≡ false }
{
    flag(
        alloc,
        "stream",
        "Writes each block of input before the next is read, in constant memory, but for about 100 bytes for each refused pod that --keep-going names; what was written before a refused pod stays",
    )
}

/// A word that prints parts of inputs, and in colours.
fn with_parts<'a>(alloc: Global, command: Command<'a>) -> Result<Command<'a>, AllocError>
    requires { (out-Command command).has_globals ≡ false }
    ensures app { IfOk result (λ it. app_of it ≡ spec.with_parts (app_of command.entry)) }
    ensures local { IfOk result (λ it. (out-Command it).has_globals ≡ false) }
{
    let with_nth = command.arg(nth(alloc))?;
    let with_names = with_names(alloc, with_nth)?;
    let with_hex = with_names.arg(flag(
        alloc,
        "hex",
        "Prints bytes in hex: show below the lines of each pod, json as a string for each pod",
    ))?;
    with_hex.arg(valued(
        alloc,
        "color",
        "WHEN",
        "Prints in colours: always, never, or auto, which is where the output is a terminal and NO_COLOR isn't set",
    ))
}

/// A word that looks for objects and values inside pods.
fn with_names<'a>(alloc: Global, command: Command<'a>) -> Result<Command<'a>, AllocError>
    requires { (out-Command command).has_globals ≡ false }
    ensures app { IfOk result (λ it. app_of it ≡ spec.with_names (app_of command.entry)) }
    ensures local { IfOk result (λ it. (out-Command it).has_globals ≡ false) }
{
    let with_type = command.arg(valued(
        alloc,
        "type",
        "NAME",
        "Prints only the objects of the types of these names or numbers, between commas, at any depth of structs and objects",
    ))?;
    let with_id = with_type.arg(valued(
        alloc,
        "id",
        "NAME",
        "Prints only the objects with the ids of these names or numbers, between commas, at any depth",
    ))?;
    with_id.arg(valued(
        alloc,
        "key",
        "NAME",
        "Prints only the values that such objects, or without --type and --id all objects, have under the keys of these names or numbers, between commas",
    ))
}

/// The word `show`.
fn show<'a>(alloc: Global) -> Result<Command<'a>, AllocError>
    ensures app { IfOk result (λ it. app_of it ≡ spec.show) }
    ensures local { IfOk result (λ it. (out-Command it).has_globals ≡ false) }
{
    let plain = word(
        alloc,
        "show",
        "Shows each pod as lines with names, also refused ones; the status is 1 if there are any",
        "Example: pod show --nth 17 --hex recording.pods",
    )?;
    let with_reading = reading_pods(alloc, plain)?;
    let with_parts = with_parts(alloc, with_reading)?;
    with_parts.arg(stream(alloc))
}

/// The word `rewrite`.
fn rewrite<'a>(alloc: Global) -> Result<Command<'a>, AllocError>
    ensures app { IfOk result (λ it. app_of it ≡ spec.rewrite) }
    ensures local { IfOk result (λ it. (out-Command it).has_globals ≡ false) }
{
    let plain = to_pods(
        alloc,
        "rewrite",
        "Writes each pod in its canonical encoding: padding is zeros, true is 1, unused bytes are left out",
        "Example: pod rewrite --keep-going recording.pods -o clean.pods",
    )?;
    plain.arg(stream(alloc))
}

/// The word `fixate`.
fn fixate<'a>(alloc: Global) -> Result<Command<'a>, AllocError>
    ensures app { IfOk result (λ it. app_of it ≡ spec.fixate) }
    ensures local { IfOk result (λ it. (out-Command it).has_globals ≡ false) }
{
    let plain = to_pods(
        alloc,
        "fixate",
        "Sets each choice in a top-level object, as get cuts one out, to its default, unless its property is marked not to be fixated",
        "Example: pod fixate buffers.pod -o fixed.pod",
    )?;
    with_flag(
        alloc,
        plain,
        "settle",
        "Writes each pod in its canonical encoding, with the plain default in place of each choice that is set to it",
    )
}

/// The word `check`.
fn check<'a>(alloc: Global) -> Result<Command<'a>, AllocError>
    ensures app { IfOk result (λ it. app_of it ≡ spec.over_pods (spec.word (codes "check"))) }
    ensures local { IfOk result (λ it. (out-Command it).has_globals ≡ false) }
{
    let plain = word(
        alloc,
        "check",
        "Checks that each input consists of pods that are accepted; writes nothing",
        "Example: pod check *.pod && echo all are pods",
    )?;
    over_pods(alloc, plain)
}

/// The word `json`.
fn json<'a>(alloc: Global) -> Result<Command<'a>, AllocError>
    ensures app { IfOk result (λ it. app_of it ≡ spec.json) }
    ensures local { IfOk result (λ it. (out-Command it).has_globals ≡ false) }
{
    let bare = word(
        alloc,
        "json",
        "Prints each pod as a line of JSON with names",
        "Example: pod json --key rate formats.pods",
    )?;
    let plain = over_pods(alloc, bare)?;
    let with_layouts = with_layouts(alloc, plain)?;
    let with_parts = with_parts(alloc, with_layouts)?;
    with_parts.arg(stream(alloc))
}

/// A word that prints texts, which may be indented, or as `pw-dump` prints objects.
fn with_layouts<'a>(alloc: Global, command: Command<'a>) -> Result<Command<'a>, AllocError>
    requires { (out-Command command).has_globals ≡ false }
    ensures app { IfOk result (λ it. app_of it ≡ spec.with_layouts (app_of command.entry)) }
    ensures local { IfOk result (λ it. (out-Command it).has_globals ≡ false) }
{
    let with_pretty = with_flag(alloc, command, "pretty", "Indents the JSON")?;
    with_flag(
        alloc,
        with_pretty,
        "pw-dump",
        "Prints each object as pw-dump prints one of params, for read --pw-dump; a pod for which that has no form is refused",
    )
}

/// `PATH`
fn path<'a>(alloc: Global) -> Arg<'a>
    ensures rule { rule_of result ≡ spec.path }
    ensures local { result.global ≡ false }
{
    Arg::new(alloc, "PATH").required(true).help(
        "The path to a pod as show and json print it, such as '3[2].rate'; 3 is the third pod itself",
    )
}

/// The word `get`.
fn get<'a>(alloc: Global) -> Result<Command<'a>, AllocError>
    ensures app { IfOk result (λ it. app_of it ≡ spec.get) }
    ensures local { IfOk result (λ it. (out-Command it).has_globals ≡ false) }
{
    let bare = Command::new(alloc, "get")
        .about("Writes the bytes of the pod at a path, also of a refused one; the status is 1 then")
        .after_help("Example: pod get '3[9][2]' recording.pods | pod fixate | pod json");
    let with_path = bare.arg(path(alloc))?;
    let with_all = with_path.arg(files(alloc))?;
    with_all.arg(output(alloc))
}

/// The word `read`.
fn read<'a>(alloc: Global) -> Result<Command<'a>, AllocError>
    ensures app { IfOk result (λ it. app_of it ≡ spec.read) }
    ensures local { IfOk result (λ it. (out-Command it).has_globals ≡ false) }
{
    let plain = word(
        alloc,
        "read",
        "Reads JSON with names, whose keys come in any order, and writes it as pods",
        "Example: pod read formats.json -o formats.pods",
    )?;
    let with_loose = plain.arg(flag(
        alloc,
        "loose",
        "Also takes a value whose type isn't the one that PipeWire's tables have for its key",
    ))?;
    let with_hex = with_loose.arg(flag(
        alloc,
        "from-hex",
        "Reads bytes in hexadecimal, also rows of xxd, hexdump -Cv and od -v -t x1, and writes these bytes as they are",
    ))?;
    with_params(alloc, with_hex)
}

/// A word that reads what `pw-dump` prints, too.
fn with_params<'a>(alloc: Global, command: Command<'a>) -> Result<Command<'a>, AllocError>
    requires { (out-Command command).has_globals ≡ false }
    ensures app { IfOk result (λ it. app_of it ≡ spec.with_params (app_of command.entry)) }
    ensures local { IfOk result (λ it. (out-Command it).has_globals ≡ false) }
{
    let with_dump = command.arg(flag(
        alloc,
        "pw-dump",
        "Reads what pw-dump prints of params: an object, or a list of them, as .info.params.EnumFormat",
    ))?;
    let with_type = with_dump.arg(valued(
        alloc,
        "type",
        "NAME",
        "With --pw-dump: the type of the objects by its name or number, such as Format",
    ))?;
    with_type.arg(valued(
        alloc,
        "id",
        "NAME",
        "With --pw-dump: the id of the objects by its name or number, such as EnumFormat",
    ))
}

/// The program without its words.
fn bare<'a>(alloc: Global) -> Result<Command<'a>, AllocError>
    ensures { IfOk result (λ it. app_of it ≡ spec.bare) }
{
    Command::new(alloc, "pod")
        .about(ABOUT)
        .after_help(EXAMPLES)
        .no_binary_name(true)
        .version(VERSION)
        .subcommand_required(true)
        .arg_required_else_help(true)
        .bin_name("pod")
}

/// The word `diff`.
fn diff<'a>(alloc: Global) -> Result<Command<'a>, AllocError>
    ensures app { IfOk result (λ it. app_of it ≡ spec.diff) }
    ensures local { IfOk result (λ it. (out-Command it).has_globals ≡ false) }
{
    let plain = word(
        alloc,
        "diff",
        "Aligns the pods of two FILEs and prints what differs; the status is 1 if something does",
        "Example: pod diff --across-runs before.pods after.pods",
    )?;
    let with_reading = reading_pods(alloc, plain)?;
    with_flag(
        alloc,
        with_reading,
        "across-runs",
        "Compares recorded messages without the times and the processes, which each run has anew; prints 0 for them",
    )
}

/// A command with one more word, of two inputs.
fn with_pair<'a>(
    alloc: Global,
    command: Command<'a>,
    name: &'a str,
    about: &'a str,
    example: &'a str,
) -> Result<Command<'a>, AllocError>
    ensures { IfOk result (λ it. app_of it ≡ spec.with_pair (app_of command.entry) name.entry.now) }
{
    let plain = word(alloc, name, about, example)?;
    let one = reading_pods(alloc, plain)?;
    command.subcommand(one)
}

/// The program.
pub(crate) fn program<'a>(alloc: Global) -> Result<Command<'a>, AllocError>
    ensures { IfOk result (λ it. app_of it ≡ spec.program) }
{
    let bare = bare(alloc)?;
    let show = show(alloc)?;
    let first = bare.subcommand(show)?;
    let second = with_json(alloc, first)?;
    let third = with_writers(alloc, second)?;
    with_pairs(alloc, third)
}

fn with_json<'a>(alloc: Global, command: Command<'a>) -> Result<Command<'a>, AllocError>
    ensures { IfOk result (λ it. app_of it ≡ spec.with_json (app_of command.entry)) }
{
    let one = json(alloc)?;
    let first = command.subcommand(one)?;
    let two = get(alloc)?;
    let second = first.subcommand(two)?;
    let three = read(alloc)?;
    second.subcommand(three)
}

fn with_writers<'a>(alloc: Global, command: Command<'a>) -> Result<Command<'a>, AllocError>
    ensures { IfOk result (λ it. app_of it ≡ spec.with_writers (app_of command.entry)) }
{
    let one = rewrite(alloc)?;
    let first = command.subcommand(one)?;
    let fixate = fixate(alloc)?;
    let second = first.subcommand(fixate)?;
    let check = check(alloc)?;
    second.subcommand(check)
}

fn with_pairs<'a>(alloc: Global, command: Command<'a>) -> Result<Command<'a>, AllocError>
    ensures { IfOk result (λ it. app_of it ≡ spec.with_pairs (app_of command.entry)) }
{
    let one = diff(alloc)?;
    let first = command.subcommand(one)?;
    let second = with_pair(
        alloc,
        first,
        "meet",
        "Negotiates: writes the object on which two top-level objects agree, as get cuts them out, those of one FILE or the first pair of two FILEs that does",
        "Example: pod meet ours.pods theirs.pods | pod show",
    )?;
    with_pair(
        alloc,
        second,
        "filter",
        "Filters: writes the object of the values that two top-level objects share, as get cuts them out, those of one FILE or the first pair of two FILEs that does",
        "Example: pod filter ours.pods theirs.pods | pod fixate",
    )
}
