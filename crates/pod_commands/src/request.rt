//! What the program's words ask for.
ghost use Rattle.std.specs.Prelude.{◌≡◌, ◌<◌, ◌⊎◌, codes, Bool, false, true, IfErr, IfNone, IfOk, IfSome, option_map, is_some, ◌==◌};
ghost use Rattle.std.specs.List.{before_first};
ghost use Rattle.pod_commands.specs.Requests as spec;
ghost use Rattle.clap.specs.Faults.{fault_of};
ghost use Rattle.clap.specs.Kinds.{HasKind};
ghost use Rattle.clap.specs.Walk.{rows_of, texts};
ghost use Rattle.clap.specs.Words.{first_of};
ghost use Rattle.clap.specs.Matches.{found_of};
ghost use Rattle.pod_commands.specs.Program.{program};
ghost use Rattle.pod_commands.specs.Requests.{AreColours, AreGiven, HasNoSelection, HasUnknownValue, Asks, AsksNothing, HasFlags, HasManner, HasNoFate, HasNoNumber, HasPrintout, HasStream, HasUnknownName, HasUnknownWhen, IsAllAsJson, IsFate, IsFateIn, IsNoFate, AreNamesOf, IsNumber, IsSelected, ReadsAs, is_given, is_true_text, layout_in, name_of, names_in, reading_in, HasNoPath, AsksForDump, DumpsAs, ExcludesDump};
ghost use Rattle.pod_commands.specs.declared.request.Word.{Word};
ghost use Rattle.pod_commands.specs.declared.request.Fate.{Fate as FateOf};
ghost use Rattle.pod_commands.specs.declared.request.Flags.{Flags as FlagsOf};
ghost use Rattle.pod_commands.specs.declared.request.Options.{Options as OptionsOf};
ghost use Rattle.pod_commands.specs.declared.request.Texts.{Texts as TextsOf};

use crate::colours::Colours;
use crate::command::program;
use crate::misuse::Misuse;
use crate::screen::Screen;
use crate::suggesting::similar_name;
use crate::texts::texts_for;
use clap::{ArgMatches, Error};
use spa_meet_commands::pair::Work;
use spa_recordings::going_on::Refused;
use spa_recordings::reading::Reading;
use spa_text_commands::comparing::Comparison;
use spa_text_commands::naming::{Named, are_names};
use spa_text_commands::printing::Layout;
use spa_text_commands::selection::{Form, Printout, Selection};
use spa_text_read::Strictness;
use std::alloc::{AllocError, Global};

/// How texts are printed.
#[derive(Clone, Copy)]
pub struct Style {
    pub layout: Layout,
    pub colours: Colours,
}

/// What is printed of pods, and whether in colours.
#[derive(Clone, Copy)]
pub struct Printing<'a> {
    pub printout: Printout<'a>,
    pub colours: Colours,
}

/// How texts are read.
#[derive(Clone, Copy)]
pub enum Texts {
    /// As values with names, so strictly.
    Named(Strictness),
    /// As what `pw-dump` prints of params, which are objects of this type and this id.
    Dump { type_: u32, id: u32 },
    /// As bytes in hexadecimal.
    Hex,
}

/// What is made of each input.
#[derive(Clone, Copy)]
pub enum Making<'a> {
    /// The texts of its pods, as JSON in this style.
    Json(Style),
    /// What `pw-dump` prints of its pods, in colours or without.
    Dump(Colours),
    /// The pods of its texts, which are read so, or the bytes that they have in hexadecimal.
    Read(Texts),
    /// The rewritings of its pods.
    Rewrite,
    /// Its pods, of which objects are fixated.
    Fixate,
    /// The canonical encodings of its pods' values, objects with plain values in place of choices.
    Settle,
    /// This is printed of its pods.
    Print(Printing<'a>),
    /// Nothing: it has to consist of pods.
    Check,
}

/// What becomes of an input with a refused pod.
#[derive(Clone, Copy)]
pub enum Fate {
    /// It is refused.
    Stops,
    /// The others are worked on, and this becomes of the refused pod.
    GoesOn(Refused),
}

/// How inputs of pods are read.
#[derive(Clone, Copy)]
pub struct Manner {
    pub reading: Reading,
    pub fate: Fate,
}

/// What is written block by block, as input comes.
#[derive(Clone, Copy)]
pub enum Streaming<'a> {
    /// The texts of its pods, as JSON in this style.
    Json(Style),
    /// The rewritings of its pods.
    Rewrite,
    /// This of its pods, refused ones too.
    Print(Printing<'a>),
    /// Nothing: it has to consist of pods.
    Check,
}

/// What is done.
#[derive(Clone, Copy)]
pub enum Word<'a> {
    /// This is printed of pods, refused ones too: as they come, or where a file is written, all of it at the end. Of inputs that are read leniently
    /// it is printed at the end, too. `--keep-going` doesn't go with it.
    Print(Printing<'a>, Manner),
    /// This is made of each input, which is read so.
    Make(Making<'a>, Manner),
    /// This is written of each input as it comes, which is read so. `-o` and `--resync` don't go with it.
    Stream(Streaming<'a>, Manner),
    /// Two inputs, which are read so, are compared so.
    Diff(Comparison, Reading),
    /// The object is sought on which two of one input agree, or the first pair of two lists, of inputs that are read so.
    Agree(Work, Reading),
}

/// The flags that not all words take.
#[derive(Clone, Copy)]
pub struct Flags {
    /// What is written is written as input comes: `show`, `json` and `rewrite`.
    pub streams: bool,
    /// `fixate` puts plain values in place of choices.
    pub settles: bool,
    /// `diff` compares recorded messages without what each run sets anew.
    pub across_runs: bool,
}

/// What the words ask for.
#[derive(Drop)]
pub struct Request<'a> {
    pub word: Word<'a>,
    /// The inputs' names; `-` is the standard input.
    pub names: Vec<&'a str>,
    /// The file that is written; without one, and where it is `-`, the standard output.
    pub target: Option<&'a str>,
}

/// What these words ask for, the program's own name not among them, where this is the standard output; or why they ask for nothing though `clap`
/// accepts them.
pub(crate) fn request_of<'a>(
    alloc: Global,
    words: &'a [&'a str],
    screen: Screen,
) -> Result<Result<Request<'a>, Misuse<'a>>, Error>
    ensures asked { IfOk result (λ asked. IfOk asked (Asks words.now screen)) }
    ensures nothing { IfOk result (λ asked. IfErr asked (AsksNothing words.now)) }
    ensures refused { IfErr result (HasKind (fault_of program (texts words.now))) }
{
    let command = program(alloc)?;
    let matches = command.try_get_matches_from(words)?;
    let Some((name, given)) = matches.subcommand() else {
        return Ok(Err(Misuse::NoWord));
    };
    let options = match options_of(given, screen) {
        Ok(options) => options,
        Err(why) => return Ok(Err(why)),
    };
    let read_as = match texts_for(name, given) {
        Ok(read_as) => read_as,
        Err(wrong) => return Ok(Err(wrong)),
    };
    let manner = match manner_of(given) {
        Ok(manner) => manner,
        Err(two) => return Ok(Err(two)),
    };
    let dumps = match dump_for(name, given) {
        Ok(dumps) => dumps,
        Err(excluded) => return Ok(Err(excluded)),
    };
    let Some(word) = word_of(name, options, manner, read_as, flags_in(given), dumps) else {
        return Ok(Err(Misuse::NoWord));
    };
    let names = names_of(alloc, given)?;
    Ok(Ok(Request {
        word,
        names,
        target: given.get_str("output"),
    }))
}

/// The word of this name.
fn word_of<'a>(
    name: &str,
    options: Options<'a>,
    manner: Manner,
    read_as: Texts,
    flags: Flags,
    dumps: bool,
) -> Option<Word<'a>>
    ensures word { IfSome result (λ word. name.now ≡ name_of word) }
    ensures printout { IfSome result (HasPrintout options.entry) }
    ensures manner { IfSome result (HasManner manner.reading manner.fate) }
    ensures stream { IfSome result (HasStream flags.streams) }
    ensures texts { IfSome result (ReadsAs read_as) }
    ensures flags { IfSome result (HasFlags flags) }
    ensures dump { IfSome result (DumpsAs dumps) }
    ensures none { IfNone result ((word : Word) → ¬ (name.now ≡ name_of word)) }
{
    match name {
        "get" => Some(cut_out(options, manner, flags.streams)),
        "show" => Some(shown(options, manner.reading, flags.streams)),
        "json" => Some(json_or_dump(options, manner, flags.streams, dumps)),
        "read" => Some(Word::Make(Making::Read(read_as), PLAIN)),
        "rewrite" => Some(rewriting(manner, flags.streams)),
        "fixate" => Some(Word::Make(fixating(flags.settles), manner)),
        "check" => Some(Word::Make(Making::Check, manner)),
        "diff" => Some(Word::Diff(comparison_by(flags.across_runs), manner.reading)),
        "meet" => Some(Word::Agree(Work::Negotiate, manner.reading)),
        "filter" => Some(Word::Agree(Work::Filter, manner.reading)),
        _ => None,
    }
}

/// What is printed of inputs, and how.
#[derive(Clone, Copy)]
pub struct Options<'a> {
    /// The layout of texts.
    pub layout: Layout,
    pub colours: Colours,
    /// Whether bytes are printed in hex.
    pub hex: bool,
    pub selection: Selection<'a>,
}

impl<'a> Options<'a> {
    /// The style of texts.
    fn style(&self) -> Style
        ensures { result ≡ spec.style_of self.now }
    {
        Style {
            layout: self.layout,
            colours: self.colours,
        }
    }

    /// What is printed in this form.
    fn printing(&self, form: Form) -> Printing<'a>
        ensures { result ≡ spec.printing_of self.now form }
    {
        Printing {
            printout: Printout {
                form,
                selection: self.selection,
            },
            colours: self.colours,
        }
    }

    /// Whether neither a part of an input is asked for nor bytes are.
    fn is_plain(&self) -> bool
        ensures { result ≡ spec.is_plain self.now }
    {
        !(self.hex || self.selection.nth.is_some() || self.selection.looks_inside())
    }
}

/// The options that are given, where this is the standard output; or the one whose value is none of its own.
fn options_of<'a>(given: &ArgMatches<'a>, screen: Screen) -> Result<Options<'a>, Misuse<'a>>
    ensures given { IfOk result (AreGiven (rows_of (found_of given.now)) screen) }
    ensures unknown { IfErr result (HasUnknownValue (rows_of (found_of given.now))) }
{
    let selection = match selection_of(given) {
        Ok(selection) => selection,
        Err(why) => return Err(why),
    };
    let to_terminal = takes_colours(screen, given.get_str("output"));
    let colours = match colours_of(given.get_str("color"), to_terminal) {
        Ok(colours) => colours,
        Err(why) => return Err(why),
    };
    Ok(Options {
        layout: layout_of(given),
        colours,
        hex: is_set(given, "hex"),
        selection,
    })
}

/// Which pods are asked for, and what is looked for in them; or the option whose value is none of its own.
fn selection_of<'a>(given: &ArgMatches<'a>) -> Result<Selection<'a>, Misuse<'a>>
    ensures given { IfOk result (IsSelected (rows_of (found_of given.now))) }
    ensures unknown { IfErr result (HasNoSelection (rows_of (found_of given.now))) }
{
    let path = given.get_str("PATH");
    let nth = match number_given(path, given.get_str("nth")) {
        Ok(nth) => nth,
        Err(why) => return Err(why),
    };
    let key = match names_given(Named::Keys, given.get_str("key")) {
        Ok(key) => key,
        Err(why) => return Err(why),
    };
    let type_ = match names_given(Named::Types, given.get_str("type")) {
        Ok(type_) => type_,
        Err(why) => return Err(why),
    };
    let id = match names_given(Named::Ids, given.get_str("id")) {
        Ok(id) => id,
        Err(why) => return Err(why),
    };
    Ok(Selection {
        nth,
        path,
        key,
        type_,
        id,
    })
}

/// Whether texts are coloured where `--color` has this value.
fn colours_of<'a>(when: Option<&'a str>, to_terminal: bool) -> Result<Colours, Misuse<'a>>
    ensures colours { IfOk result (AreColours (option_map (λ s. s.now) when.entry) to_terminal) }
    ensures unknown { IfErr result (HasUnknownWhen (option_map (λ s. s.now) when.entry)) }
{
    let Some(when) = when else {
        return Ok(colours_by(to_terminal));
    };
    match when {
        "auto" => Ok(colours_by(to_terminal)),
        "always" => Ok(Colours::On),
        "never" => Ok(Colours::Off),
        _ => Err(Misuse::Color(when)),
    }
}

/// The value of the option for names of types, of ids or of keys, if it is given.
fn names_given<'a>(named: Named, given: Option<&'a str>) -> Result<Option<&'a str>, Misuse<'a>>
    ensures names { IfOk result (λ names. AreNamesOf named (option_map (λ s. s.now) given.entry)
        (option_map (λ s. s.now) names)) }
    ensures unknown { IfErr result (HasUnknownName named (option_map (λ s. s.now) given.entry)) }
{
    let Some(names) = given else {
        return Ok(None);
    };
    if are_names(named, names) {
        return Ok(Some(names));
    }
    Err(Misuse::Name(named, names, similar_name(named, names)))
}

/// Whether texts are coloured where `--color` doesn't say: they go to a terminal, and `NO_COLOR` isn't set.
fn takes_colours(screen: Screen, output: Option<&str>) -> bool
    ensures { result ≡ spec.takes_colours screen (option_map (λ s. s.now) output.entry) }
{
    goes_to_terminal(screen.is_terminal, output) && !screen.no_color
}

/// Whether pods would go to a terminal, which `-o` doesn't ask for.
pub(crate) fn fills_terminal(request: &Request<'_>, screen: Screen) -> bool
    ensures { result ≡ spec.fills_terminal screen request.now }
{
    writes_pods(request.word) && goes_to_terminal(screen.is_terminal, request.target)
}

/// Whether this word writes pods, and no text.
fn writes_pods(word: Word<'_>) -> bool
    ensures { result ≡ spec.writes_pods word.entry }
{
    match word {
        Word::Print(printing, _) => printing.printout.form.is_pods(),
        Word::Make(making, _) => makes_pods(making),
        Word::Stream(streaming, _) => streams_pods(streaming),
        Word::Diff(_, _) => false,
        Word::Agree(_, _) => true,
    }
}

/// Whether this is made of pods.
fn makes_pods(making: Making<'_>) -> bool
    ensures { result ≡ spec.makes_pods making.entry }
{
    match making {
        Making::Json(_) => false,
        Making::Dump(_) => false,
        Making::Read(_) => true,
        Making::Rewrite => true,
        Making::Fixate => true,
        Making::Settle => true,
        Making::Print(printing) => printing.printout.form.is_pods(),
        Making::Check => false,
    }
}

/// Whether pods are written as inputs come.
fn streams_pods(streaming: Streaming<'_>) -> bool
    ensures { result ≡ spec.streams_pods streaming.entry }
{
    match streaming {
        Streaming::Json(_) => false,
        Streaming::Rewrite => true,
        Streaming::Print(printing) => printing.printout.form.is_pods(),
        Streaming::Check => false,
    }
}

/// The file that is written: none where `-` is given, which is the standard output.
pub(crate) fn file_of<'a>(target: Option<&'a str>) -> Option<&'a str>
    ensures { result ≡ spec.file_of target.entry }
{
    let Some(name) = target else {
        return None;
    };
    if name == "-" {
        return None;
    }
    Some(name)
}

/// Whether what is printed goes to a terminal: the standard output is one, and no file is written.
fn goes_to_terminal(is_terminal: bool, output: Option<&str>) -> bool
    ensures { result ≡ spec.goes_to_terminal is_terminal (option_map (λ s. s.now) output.entry) }
{
    match output {
        Some(_) => false,
        None => is_terminal,
    }
}

/// The colours of what goes to a terminal, or doesn't.
fn colours_by(to_terminal: bool) -> Colours
    ensures { result ≡ spec.colours_by to_terminal }
{
    if to_terminal {
        Colours::On
    } else {
        Colours::Off
    }
}

/// The number of the only pod in which something is printed: that of this path, or the value of `--nth`, if one of them is given.
fn number_given<'a>(
    path: Option<&'a str>,
    nth: Option<&'a str>,
) -> Result<Option<usize>, Misuse<'a>>
    ensures number { IfOk result
        (IsNumber (spec.number_given (option_map (λ s. s.now) path.entry) (option_map (λ s. s.now) nth.entry))) }
    ensures unknown { IfErr result (λ why. HasNoNumber (option_map (λ s. s.now) nth.entry) why
        ⊎ HasNoPath (option_map (λ s. s.now) path.entry) why) }
{
    let Some(path) = path else {
        return number_of(nth);
    };
    match number_of(Some(number_in(path))) {
        Ok(number) => Ok(number),
        Err(_) => Err(Misuse::Path(path)),
    }
}

/// The number at the front of a path, before the first of its steps.
fn number_in(path: &str) -> &str
    ensures { result.now ≡ spec.number_in path.now }
{
    before(before(path, '['), '.')
}

/// What stands before the first of these signs.
fn before(path: &str, sign: char) -> &str
    requires { sign < 128 }
    ensures { result.now ≡ before_first (λ b. b == sign) path.now }
{
    match path.split_once(sign) {
        Some((front, _)) => front,
        None => path,
    }
}

/// The number that the value of `--nth` says, if it is given.
fn number_of<'a>(text: Option<&'a str>) -> Result<Option<usize>, Misuse<'a>>
    ensures number { IfOk result (IsNumber (option_map (λ s. s.now) text.entry)) }
    ensures unknown { IfErr result (HasNoNumber (option_map (λ s. s.now) text.entry)) }
{
    let Some(text) = text else {
        return Ok(None);
    };
    match text.parse::<usize>() {
        Ok(number) => Ok(Some(number)),
        Err(_) => Err(Misuse::Nth(text)),
    }
}

/// The word `show` with these options, of inputs that are read so, with `--stream` or without it.
fn shown<'a>(options: Options<'a>, reading: Reading, streams: bool) -> Word<'a>
    ensures word { codes "show" ≡ name_of result }
    ensures printout { HasPrintout options.entry result }
    ensures manner { (fate : FateOf) → HasManner reading fate result }
    ensures stream { HasStream streams result }
    ensures texts { (read_as : TextsOf) → ReadsAs read_as result }
    ensures flags { (flags : FlagsOf) → HasFlags flags result }
    ensures dump { (dumps : Bool) → DumpsAs dumps result }
{
    let form = if options.hex {
        Form::LinesAndBytes
    } else {
        Form::Lines
    };
    let printing = options.printing(form);
    // Refused pods are shown, too.
    let manner = Manner {
        reading,
        fate: Fate::Stops,
    };
    if streams {
        Word::Stream(Streaming::Print(printing), manner)
    } else {
        Word::Print(printing, manner)
    }
}

/// The word `get` with these options, with `--stream` or without it: `clap` refuses that option of this word.
fn cut_out<'a>(options: Options<'a>, manner: Manner, streams: bool) -> Word<'a>
    ensures word { codes "get" ≡ name_of result }
    ensures printout { HasPrintout options.entry result }
    ensures manner { HasManner manner.reading manner.fate result }
    ensures stream { HasStream streams result }
    ensures texts { (read_as : TextsOf) → ReadsAs read_as result }
    ensures flags { (flags : FlagsOf) → HasFlags flags result }
    ensures dump { (dumps : Bool) → DumpsAs dumps result }
{
    let printing = options.printing(Form::Pods);
    if streams {
        Word::Stream(Streaming::Print(printing), manner)
    } else {
        Word::Print(printing, manner)
    }
}

/// The word `json` with these options, with `--stream` or without it, and with `--pw-dump` or without it.
fn json_or_dump<'a>(options: Options<'a>, manner: Manner, streams: bool, dumps: bool) -> Word<'a>
    ensures word { codes "json" ≡ name_of result }
    ensures printout { HasPrintout options.entry result }
    ensures manner { HasManner manner.reading manner.fate result }
    ensures stream { HasStream streams result }
    ensures texts { (read_as : TextsOf) → ReadsAs read_as result }
    ensures flags { (flags : FlagsOf) → HasFlags flags result }
    ensures dump { DumpsAs dumps result }
{
    if dumps {
        return Word::Make(Making::Dump(options.colours), manner);
    }
    if options.is_plain() {
        return all_as_json(options.style(), manner, streams);
    }
    let form = if options.hex {
        Form::Bytes
    } else {
        Form::Text(options.layout)
    };
    let printing = options.printing(form);
    if streams {
        Word::Stream(Streaming::Print(printing), manner)
    } else {
        Word::Print(printing, manner)
    }
}

/// The word `json` in this style of whole inputs, with `--stream` or without it.
fn all_as_json<'a>(style: Style, manner: Manner, streams: bool) -> Word<'a>
    ensures { IsAllAsJson style manner streams result }
{
    if streams {
        Word::Stream(Streaming::Json(style), manner)
    } else {
        Word::Make(Making::Json(style), manner)
    }
}

/// The word `rewrite`, with `--stream` or without it.
fn rewriting<'a>(manner: Manner, streams: bool) -> Word<'a>
    ensures word { codes "rewrite" ≡ name_of result }
    ensures printout { (options : OptionsOf) → HasPrintout options result }
    ensures manner { HasManner manner.reading manner.fate result }
    ensures stream { HasStream streams result }
    ensures texts { (read_as : TextsOf) → ReadsAs read_as result }
    ensures flags { (flags : FlagsOf) → HasFlags flags result }
    ensures dump { (dumps : Bool) → DumpsAs dumps result }
{
    if streams {
        Word::Stream(Streaming::Rewrite, manner)
    } else {
        Word::Make(Making::Rewrite, manner)
    }
}

/// The flags that not all words take, as they are given.
fn flags_in(given: &ArgMatches<'_>) -> Flags
    ensures { result ≡ spec.flags_in (rows_of (found_of given.now)) }
{
    Flags {
        streams: is_set(given, "stream"),
        settles: is_set(given, "settle"),
        across_runs: is_set(given, "across-runs"),
    }
}

/// As what pods are compared where `--across-runs` is given, or isn't.
fn comparison_by(across_runs: bool) -> Comparison
    ensures { result ≡ spec.comparison_by across_runs }
{
    if across_runs {
        Comparison::AcrossRuns
    } else {
        Comparison::Whole
    }
}

/// Objects are fixated, with `--settle` or without it.
fn fixating<'a>(settles: bool) -> Making<'a>
    ensures { result ≡ spec.fixating settles }
{
    if settles {
        Making::Settle
    } else {
        Making::Fixate
    }
}

/// Texts are never read leniently, nor passed over.
const PLAIN: Manner = Manner {
    reading: Reading::Exact,
    fate: Fate::Stops,
};

/// How inputs are to be read; or options for refused pods that exclude each other.
fn manner_of<'a>(given: &ArgMatches<'a>) -> Result<Manner, Misuse<'a>>
    ensures reading { IfOk result (λ manner. manner.reading ≡ reading_in (rows_of (found_of given.now))) }
    ensures fate { IfOk result (λ manner. IsFateIn (rows_of (found_of given.now)) manner.fate) }
    ensures wrong { IfErr result (HasNoFate (rows_of (found_of given.now))) }
{
    let reading = reading_by(is_set(given, "lenient"));
    match fate_by(
        is_set(given, "resync"),
        is_set(given, "keep-refused"),
        is_set(given, "keep-going"),
    ) {
        Ok(fate) => Ok(Manner { reading, fate }),
        Err(why) => Err(why),
    }
}

/// Whether the flag of this name is given.
pub(crate) fn is_set(given: &ArgMatches<'_>, name: &str) -> bool
    ensures { result ≡ is_given name.now (rows_of (found_of given.now)) }
{
    is_true(given.get_str(name))
}

/// Whether a flag of this value is given.
fn is_true(flag: Option<&str>) -> bool
    ensures { result ≡ is_true_text (option_map (λ s. s.now) flag.entry) }
{
    match flag {
        Some(flag) => flag == "true",
        None => false,
    }
}

/// The reading where `--lenient` is given, or isn't.
fn reading_by(is_lenient: bool) -> Reading
    ensures { result ≡ spec.reading_by is_lenient }
{
    if is_lenient {
        Reading::Lenient
    } else {
        Reading::Exact
    }
}

/// What becomes of an input with a refused pod where `--resync` is given, or isn't, `--keep-refused` and `--keep-going`.
fn fate_by<'a>(resyncs: bool, keeps: bool, goes_on: bool) -> Result<Fate, Misuse<'a>>
    ensures fate { IfOk result (IsFate resyncs keeps goes_on) }
    ensures wrong { IfErr result (IsNoFate resyncs keeps goes_on) }
{
    match (resyncs, keeps, goes_on) {
        (false, false, false) => Ok(Fate::Stops),
        (false, false, true) => Ok(Fate::GoesOn(Refused::LeftOut)),
        (false, true, _) => Ok(Fate::GoesOn(Refused::Kept)),
        (true, false, false) => Ok(Fate::GoesOn(Refused::Resynced)),
        (true, false, true) => Err(Misuse::WithResync(Refused::LeftOut)),
        (true, true, _) => Err(Misuse::WithResync(Refused::Kept)),
    }
}

/// The layout that is asked for.
fn layout_of(given: &ArgMatches<'_>) -> Layout
    ensures { result ≡ layout_in (rows_of (found_of given.now)) }
{
    layout_by(is_set(given, "pretty"))
}

/// The layout where `--pretty` is given, or isn't.
fn layout_by(is_pretty: bool) -> Layout
    ensures { result ≡ spec.layout_by is_pretty }
{
    if is_pretty {
        Layout::Indented
    } else {
        Layout::OneLine
    }
}

/// Whether the word of this name prints as `pw-dump` does, which only `json` can; or an option is given that excludes it.
fn dump_for<'a>(name: &str, given: &ArgMatches<'a>) -> Result<bool, Misuse<'a>>
    ensures dumps { IfOk result (λ dumps. name.now ≡ codes "json" → AsksForDump (rows_of (found_of given.now)) dumps) }
    ensures excluded { IfErr result (ExcludesDump (rows_of (found_of given.now))) }
{
    if name != "json" || !is_set(given, "pw-dump") {
        return Ok(false);
    }
    if excludes_dump(given) {
        return Err(Misuse::WithDump);
    }
    Ok(true)
}

/// Whether an option is given that doesn't go with `--pw-dump`.
fn excludes_dump(given: &ArgMatches<'_>) -> bool
    ensures { result ≡ spec.excludes_dump (rows_of (found_of given.now)) }
{
    is_set(given, "pretty")
        || is_set(given, "hex")
        || is_set(given, "stream")
        || has_value(given, "nth")
        || has_value(given, "type")
        || has_value(given, "id")
        || has_value(given, "key")
}

/// Whether the option of this name is given with a value.
fn has_value(given: &ArgMatches<'_>, name: &str) -> bool
    ensures { result ≡ is_some (first_of name.now (rows_of (found_of given.now))) }
{
    given.get_str(name).is_some()
}

/// The inputs' names.
fn names_of<'a>(alloc: Global, given: &ArgMatches<'a>) -> Result<Vec<&'a str>, AllocError>
    ensures { IfOk result (λ names. texts names.items ≡ names_in (rows_of (found_of given.now))) }
{
    let given = given.get_strs("FILE").unwrap_or(&[]);
    let mut names = Vec::new(alloc);
    if given.is_empty() {
        names.push("-")?;
        return Ok(names);
    }
    names.extend_from_slice(given)?;
    Ok(names)
}
