//! The command line of the program: its options, and the call that the arguments describe.
ghost use Rattle.std.specs.List.{list_any};
ghost use Rattle.std.specs.Prelude.{◌≡◌, ◌==◌, length, ◌⊎◌, All, is_some, Bool, IfOk, IfErr, OnOk, IfSome, None, Ok, map, false, [], codes};
ghost use Rattle.clap.specs.Values.{kind_of};
ghost use Rattle.clap.specs.Words.{all_of, app_of, first_of, found_of, rows_of, rule_of, subcommand_rows_of};
ghost use Rattle.clap.specs.declared.builder.command.Command.TheViews.{out-Command as fields_of};
ghost use Rattle.xw_arguments.specs.Calls.{AreFiles, IsCall, IsCallOf, is_explained, has_nameless, is_empty, is_nameless, is_set, clash_in, clash_of, clash_text, misnaming_in, misnaming_text, reads_input_twice};
ghost use Rattle.xw_arguments.specs.Usage.{IsMisnamed, IsNoCallFor, IsNoCallTold, IsTold, IsUsageOf};
ghost use Rattle.xw_arguments.specs.Shapes as shapes;
ghost use Rattle.xw_arguments.specs.Shapes.{HasNoGlobals, IsLocal};

use crate::tips::{tip_due, with_tip};
use clap::error::ErrorKind;
use clap::{Arg, ArgAction, ArgMatches, Command, Error};
use std::alloc::{AllocError, Global};
use std::convert::AsStr;
use xw_commands::version::VERSION;

/// The example that the help of the program and of `edit` prints.
const EXAMPLE: &str = "Example:
  $ xw edit --dict words.txt --to mine.puz
  size 3 1
  ok
  add cat
  ok
  words 1 across
  1
  CAT
  ok
  fill 10
  filled
  ok
  clue 1 across It purrs
  ok";

/// The files of an `edit` call, each if it is given.
#[derive(Clone, Copy, Debug, PartialEq, Eq)]
pub struct SessionFiles<'a> {
    /// The word list.
    pub dict: Option<&'a str>,
    /// The puzzle to start with.
    pub from_file: Option<&'a str>,
    /// The commands to start with.
    pub resume_file: Option<&'a str>,
    /// The file for the puzzle at the end.
    pub to_file: Option<&'a str>,
    /// The file for the record at the end.
    pub save_file: Option<&'a str>,
    /// The journal.
    pub journal_file: Option<&'a str>,
    /// Whether each line of the journal is synced to the device before its answer.
    pub is_synced: bool,
    /// Whether a long search tells how far it is where no terminal asks for it.
    pub shows_progress: bool,
}

impl<'a> SessionFiles<'a> {
    /// Returns whether a file has an empty name.
    fn is_nameless(&self) -> bool
        ensures { result ≡ has_nameless self.now }
    {
        is_empty(self.dict)
            || is_empty(self.from_file)
            || is_empty(self.resume_file)
            || is_empty(self.to_file)
            || is_empty(self.save_file)
            || is_empty(self.journal_file)
    }
}

/// Returns whether a file is named, and the name is empty.
fn is_empty(name: Option<&str>) -> bool
    ensures { result ≡ is_empty name.entry }
{
    match name {
        Some(name) => name.is_empty(),
        None => false,
    }
}

/// Returns whether one of these names is empty.
fn is_one_empty(names: &[&str]) -> bool
    ensures { result ≡ list_any (λ name. length name.now == 0) names.now }
{
    names.iter().any(|name| name.is_empty())
}

/// Options of `edit` that do not go together.
#[derive(Clone, Copy, Debug, PartialEq, Eq)]
pub enum Clash {
    /// A puzzle and commands to start with.
    TwoStarts,
    /// A journal, and a puzzle or commands to start with.
    JournalAndStart,
    /// `--sync` without a journal.
    SyncAlone,
}

impl Clash {
    /// Returns the message.
    pub fn message(self) -> &'static str
        ensures { result.now ≡ clash_text self }
    {
        match self {
            Clash::TwoStarts => "xw: --from and --resume cannot be given together\n",
            Clash::JournalAndStart => "xw: --journal cannot be given with --from or --resume\n",
            Clash::SyncAlone => "xw: --sync needs --journal\n",
        }
    }
}

/// Why parsed arguments are no call.
#[derive(Clone, Copy, Debug, PartialEq, Eq)]
pub enum NoCall {
    Clash(Clash),
    /// A file is missing. `clap` reports this itself.
    Incomplete,
    Memory,
}

/// Why the names of a call are no names of files.
#[derive(Clone, Copy, Debug, PartialEq, Eq)]
pub enum Misnaming {
    /// A name is empty.
    Nameless,
    /// Two files to check are standard input.
    InputTwice,
}

impl Misnaming {
    /// Returns the message.
    pub fn message(self) -> &'static str
        ensures { result.now ≡ misnaming_text self }
    {
        match self {
            Misnaming::Nameless => "xw: the name of a file is empty\n",
            Misnaming::InputTwice => "xw: -: standard input can be read only once\n",
        }
    }
}

/// What the program has to do. `explain` asks for the location of a fault, or the error of the system, after the
/// message.
#[derive(Debug, Drop)]
pub enum Call<'a> {
    /// Answers commands on standard input.
    Edit {
        files: SessionFiles<'a>,
        explain: bool,
    },
    /// Converts a puzzle file into another format.
    Convert {
        from_file: &'a str,
        to_file: &'a str,
        explain: bool,
    },
    /// Reports the format, size and number of lights of each puzzle file.
    Check {
        files: Vec<&'a str>,
        explain: bool,
    },
}

impl<'a> Call<'a> {
    /// Returns whether faults are explained.
    pub fn is_explained(&self) -> bool
        ensures { result ≡ is_explained self.now }
    {
        match self {
            Call::Edit { explain, .. } => *explain,
            Call::Convert { explain, .. } => *explain,
            Call::Check { explain, .. } => *explain,
        }
    }

    /// Returns whether a file of the call has an empty name.
    fn is_nameless(&self) -> bool
        ensures { result ≡ is_nameless self.now }
    {
        match self {
            Call::Edit { files, .. } => files.is_nameless(),
            Call::Convert {
                from_file,
                to_file,
                ..
            } => from_file.is_empty() || to_file.is_empty(),
            Call::Check { files, .. } => is_one_empty(files.as_slice()),
        }
    }

    /// Returns whether two files to check are standard input.
    fn reads_input_twice(&self) -> bool
        ensures { result ≡ reads_input_twice self.now }
    {
        match self {
            Call::Check { files, .. } => files.iter().filter(|file| **file == "-").count() > 1,
            _ => false,
        }
    }

    /// Returns why the names of the call are no names of files, if they are not.
    pub fn misnaming(&self) -> Option<Misnaming>
        ensures { result ≡ misnaming_in self.now }
    {
        if self.is_nameless() {
            return Some(Misnaming::Nameless);
        }
        if self.reads_input_twice() {
            return Some(Misnaming::InputTwice);
        }
        None
    }
}

/// Why the arguments are not a call, with the text to print. `Help` means that help or the version was requested.
#[derive(Debug, Drop)]
pub enum Usage {
    Help(String),
    Wrong(String),
    Memory,
}

/// Returns an option that takes a file.
fn option<'a>(alloc: Global, name: &'a str, help: &'a str) -> Arg<'a>
    ensures rule { rule_of result ≡ shapes.option name.entry.now }
    ensures local { IsLocal result }
{
    Arg::new(alloc, name)
        .long(name)
        .value_name("FILE")
        .help(help)
}

/// Returns an option without a value.
fn flag<'a>(alloc: Global, name: &'a str, help: &'a str) -> Arg<'a>
    ensures rule { rule_of result ≡ shapes.flag name.entry.now }
    ensures local { IsLocal result }
{
    Arg::new(alloc, name)
        .long(name)
        .help(help)
        .action(ArgAction::SetTrue)
}

/// Returns the option `--explain`.
fn explain<'a>(alloc: Global) -> Arg<'a>
    ensures rule { rule_of result ≡ shapes.explain }
    ensures local { IsLocal result }
{
    flag(
        alloc,
        "explain",
        "Say in more lines where a fault of a file is, and what it means",
    )
}

/// Returns a required operand that is a file.
fn operand<'a>(alloc: Global, name: &'a str, shown: &'a str, help: &'a str) -> Arg<'a>
    ensures rule { rule_of result ≡ shapes.operand name.entry.now }
    ensures local { IsLocal result }
{
    Arg::new(alloc, name)
        .value_name(shown)
        .help(help)
        .required(true)
}

/// Returns a required operand that is a list of files.
fn operands<'a>(alloc: Global, name: &'a str, shown: &'a str, help: &'a str) -> Arg<'a>
    ensures rule { rule_of result ≡ shapes.operands name.entry.now }
    ensures local { IsLocal result }
{
    operand(alloc, name, shown, help).num_args(1..)
}

/// Adds options and operands to a command, in turn.
fn with_args<'a>(command: Command<'a>, args: Vec<Arg<'a>>) -> Result<Command<'a>, AllocError>
    requires local { All IsLocal args.items }
    ensures shape { IfOk result (λ with. app_of with ≡ shapes.with_rules (app_of command.entry) (map rule_of args.entry.items)) }
    ensures local { IfOk result (λ with. (fields_of with).has_globals ≡ (fields_of command.entry).has_globals) }
{
    command.args(args)
}

/// Adds subcommands to a command, in turn.
fn with_subcommands<'a>(
    command: Command<'a>,
    subcommands: Vec<Command<'a>>,
) -> Result<Command<'a>, AllocError>
    requires local { All HasNoGlobals subcommands.items }
    ensures shape { IfOk result (λ with. app_of with ≡ shapes.with_subcommands (app_of command.entry) (map app_of subcommands.entry.items)) }
    ensures local { IfOk result (λ with. (fields_of with).has_globals ≡ (fields_of command.entry).has_globals) }
{
    command.subcommands(subcommands)
}

fn edit<'a>(alloc: Global) -> Result<Command<'a>, AllocError>
    ensures shape { IfOk result (λ command. app_of command ≡ shapes.edit) }
    ensures local { IfOk result HasNoGlobals }
{
    let options = vec![in alloc;
        option(alloc, "dict", "Load a word list, one word per line"),
        option(
            alloc,
            "from",
            "Start with this puzzle, .puz or text [default: an empty grid of 15 by 15]"
        ),
        option(
            alloc,
            "resume",
            "Run the commands of this file first, without answers, as --save wrote them"
        ),
        option(
            alloc,
            "to",
            "Write the puzzle here at the end: as .puz if the name ends in .puz, otherwise as text"
        ),
        option(
            alloc,
            "save",
            "Write the session here at the end, as commands for --resume"
        ),
        option(
            alloc,
            "journal",
            "Append every change here, and resume from it"
        ),
        flag(
            alloc,
            "sync",
            "Sync each line of the journal to the device before its answer"
        ),
        flag(
            alloc,
            "progress",
            "Say on standard error how far a long search is, as on a terminal"
        ),
        explain(alloc),
    ]?;
    let command = Command::new(alloc, "edit")
        .about("Answer commands from standard input, one per line")
        .after_help(EXAMPLE);
    with_args(command, options)
}

fn convert<'a>(alloc: Global) -> Result<Command<'a>, AllocError>
    ensures shape { IfOk result (λ command. app_of command ≡ shapes.convert) }
    ensures local { IfOk result HasNoGlobals }
{
    let operands = vec![in alloc;
        operand(alloc, "from", "FROM", "Puzzle to read, .puz or text"),
        operand(
            alloc,
            "to",
            "TO",
            "File to write: as .puz if the name ends in .puz, otherwise as text"
        ),
        explain(alloc),
    ]?;
    let command = Command::new(alloc, "convert").about("Convert a puzzle file to another format");
    with_args(command, operands)
}

fn check<'a>(alloc: Global) -> Result<Command<'a>, AllocError>
    ensures shape { IfOk result (λ command. app_of command ≡ shapes.check) }
    ensures local { IfOk result HasNoGlobals }
{
    let operands = vec![in alloc;
        operands(alloc, "file", "FILE", "Puzzles to read, .puz or text"),
        explain(alloc),
    ]?;
    let command = Command::new(alloc, "check").about(
        "Read puzzle files and print their format, size and number of lights",
    );
    with_args(command, operands)
}

/// Returns the program without its subcommands.
fn program<'a>(alloc: Global) -> Command<'a>
    ensures shape { app_of result ≡ shapes.program }
    ensures local { HasNoGlobals result }
{
    Command::new(alloc, "xw")
        .about("A crossword construction engine")
        .version(VERSION.strip_prefix("xw ").unwrap_or(VERSION))
        .after_help(EXAMPLE)
        .subcommand_required(true)
}

/// Returns the program with its subcommands.
fn command<'a>(alloc: Global) -> Result<Command<'a>, AllocError>
    ensures shape { IfOk result (λ command. app_of command ≡ shapes.xw) }
    ensures local { IfOk result HasNoGlobals }
{
    let subcommands = vec![in alloc; edit(alloc)?, convert(alloc)?, check(alloc)?]?;
    with_subcommands(program(alloc), subcommands)
}

/// Parses the arguments, of which the first is the program's name. Returns `Help` if help or the version is requested,
/// `Wrong` if the arguments are invalid, and `Memory` if an allocation fails.
pub fn arguments<'a, S: AsStr>(alloc: Global, words: &'a [S]) -> Result<Call<'a>, Usage>
    // The call is the subcommand that `clap` finds, and its files are the values that `clap` finds.
    ensures call { IfOk result (λ call. IsCall call (shapes.subcommand_in (map S.text words.entry.now))) }
    ensures named { IfOk result (λ call. misnaming_in call ≡ None) }
    // Parsing succeeds only if `clap` finds no error.
    ensures parsed { OnOk result (shapes.faults_in (map S.text words.entry.now) ≡ []) }
    ensures usage { IfErr result (IsUsageOf (shapes.faults_in (map S.text words.entry.now)) (map S.text words.entry.now) (shapes.subcommand_in (map S.text words.entry.now))) }
{
    let command = command(alloc)?;
    let matches = match command.try_get_matches_from(words) {
        Ok(matches) => matches,
        Err(error) => {
            let text = error.to_string(alloc)?;
            return Err(explanation(alloc, words, &error, text));
        }
    };
    match call_of(alloc, &matches) {
        Ok(call) => named(alloc, call),
        Err(reason) => Err(usage_of(alloc, reason)),
    }
}

/// Returns a call, unless its names are no names of files.
fn named<'a>(alloc: Global, call: Call<'a>) -> Result<Call<'a>, Usage>
    ensures call { IfOk result (λ same. (same ≡ call.entry) × (misnaming_in same ≡ None)) }
    ensures usage { IfErr result (IsMisnamed call.entry) }
{
    match call.misnaming() {
        Some(misnaming) => Err(Usage::Wrong(String::from_str(alloc, misnaming.message())?)),
        None => Ok(call),
    }
}

/// Returns what to print for parsed arguments that are no call.
fn usage_of(alloc: Global, reason: NoCall) -> Usage
    ensures { IsNoCallTold reason result }
{
    let message = match reason {
        NoCall::Clash(clash) => clash.message(),
        NoCall::Incomplete => "xw: a file is missing\n",
        NoCall::Memory => return Usage::Memory,
    };
    match String::from_str(alloc, message) {
        Ok(text) => Usage::Wrong(text),
        Err(_) => Usage::Memory,
    }
}

/// Returns whether an option is given.
fn is_given(matches: &ArgMatches<'_>, name: &str) -> bool
    ensures { result ≡ is_some (first_of name.now (rows_of (found_of matches.now))) }
{
    matches.get_str(name).is_some()
}

/// Returns whether an option without a value is given.
fn is_set(matches: &ArgMatches<'_>, name: &str) -> bool
    ensures { result ≡ is_set (first_of name.now (rows_of (found_of matches.now))) }
{
    match matches.get_str(name) {
        Some(text) => text == "true",
        None => false,
    }
}

/// Returns the options that do not go together, if any, from whether each option is given.
fn clash_among(from: bool, resume: bool, journal: bool, sync: bool) -> Option<Clash>
    ensures { result ≡ clash_of from resume journal sync }
{
    match (from, resume, journal, sync) {
        (true, true, _, _) => Some(Clash::TwoStarts),
        (true, false, true, _) | (false, true, true, _) => Some(Clash::JournalAndStart),
        (_, _, false, true) => Some(Clash::SyncAlone),
        _ => None,
    }
}

/// Returns the options that do not go together, if any.
fn clash_found(matches: &ArgMatches<'_>) -> Option<Clash>
    ensures { result ≡ clash_in (rows_of (found_of matches.now)) }
{
    let (from, resume) = (is_given(matches, "from"), is_given(matches, "resume"));
    let (journal, sync) = (is_given(matches, "journal"), is_set(matches, "sync"));
    clash_among(from, resume, journal, sync)
}

/// Returns the files of a session, or the options that do not go together.
fn session_files<'a>(matches: &ArgMatches<'a>) -> Result<SessionFiles<'a>, Clash>
    ensures files { IfOk result (λ files. AreFiles files (rows_of (found_of matches.now))) }
    ensures clash { IfErr result (λ clash. clash_in (rows_of (found_of matches.now)) ≡ Some clash) }
{
    if let Some(clash) = clash_found(matches) {
        return Err(clash);
    }
    Ok(SessionFiles {
        dict: matches.get_str("dict"),
        from_file: matches.get_str("from"),
        resume_file: matches.get_str("resume"),
        to_file: matches.get_str("to"),
        save_file: matches.get_str("save"),
        journal_file: matches.get_str("journal"),
        is_synced: is_set(matches, "sync"),
        shows_progress: is_set(matches, "progress"),
    })
}

/// Returns whether `--explain` is given.
fn is_explained(matches: &ArgMatches<'_>) -> bool
    ensures { result ≡ is_set (first_of (codes "explain") (rows_of (found_of matches.now))) }
{
    is_set(matches, "explain")
}

/// Returns the `edit` call of these matches, or the options that do not go together.
fn edit_of<'a>(matches: &ArgMatches<'a>) -> Result<Call<'a>, Clash>
    ensures call { IfOk result (λ call. IsCallOf (codes "edit") call (rows_of (found_of matches.now))) }
    ensures clash { IfErr result (λ clash. clash_in (rows_of (found_of matches.now)) ≡ Some clash) }
{
    Ok(Call::Edit {
        files: session_files(matches)?,
        explain: is_explained(matches),
    })
}

/// Returns the `convert` call of these matches, or `None` if a file is missing.
fn convert_of<'a>(matches: &ArgMatches<'a>) -> Option<Call<'a>>
    ensures call { IfSome result (λ call. IsCallOf (codes "convert") call (rows_of (found_of matches.now))) }
    ensures none { result ≡ None → (first_of (codes "from") (rows_of (found_of matches.now)) ≡ None) ⊎ (first_of (codes "to") (rows_of (found_of matches.now)) ≡ None) }
{
    Some(Call::Convert {
        from_file: matches.get_str("from")?,
        to_file: matches.get_str("to")?,
        explain: is_explained(matches),
    })
}

/// Returns the `check` call of these matches, or `None` if the files are missing.
fn check_of<'a>(alloc: Global, matches: &ArgMatches<'a>) -> Result<Option<Call<'a>>, AllocError>
    ensures call { IfOk result (λ found. IfSome found (λ call. IsCallOf (codes "check") call (rows_of (found_of matches.now)))) }
    ensures none { IfOk result (λ found. found ≡ None → all_of (codes "file") (rows_of (found_of matches.now)) ≡ None) }
{
    let Some(files) = matches.get_strs("file") else {
        return Ok(None);
    };
    Ok(Some(Call::Check {
        files: Vec::from_slice(alloc, files)?,
        explain: is_explained(matches),
    }))
}

/// Returns the call of the parsed arguments, or why there is none.
fn call_of<'a>(alloc: Global, matches: &ArgMatches<'a>) -> Result<Call<'a>, NoCall>
    ensures call { IfOk result (λ call. IsCall call (subcommand_rows_of matches.now)) }
    ensures none { IfErr result (IsNoCallFor (subcommand_rows_of matches.now)) }
{
    let Some((name, values)) = matches.subcommand() else {
        return Err(NoCall::Incomplete);
    };
    match name {
        "edit" => edit_of(values).map_err(NoCall::Clash),
        "convert" => convert_of(values).ok_or(NoCall::Incomplete),
        "check" => match check_of(alloc, values) {
            Ok(found) => found.ok_or(NoCall::Incomplete),
            Err(AllocError) => Err(NoCall::Memory),
        },
        _ => Err(NoCall::Incomplete),
    }
}

impl From<AllocError> for Usage {
    ghost use Rattle.std.specs.Prelude.{◌≡◌};
    ghost use Rattle.xw_arguments.specs.declared.arguments.Usage.TheVariants.{Memory};

    ghost from_gives = { λ _ usage. usage ≡ Memory };

    fn from(_error: AllocError) -> Usage {
        Usage::Memory
    }
}

/// Returns what to print for an error of `clap` in these words, with this text.
fn explanation<S: AsStr>(alloc: Global, words: &[S], error: &Error, text: String) -> Usage
    ensures { IsTold (kind_of error.now) (map S.text words.now) text.bytes.items result }
{
    if error.kind() == ErrorKind::OutOfMemory {
        return Usage::Memory;
    }
    if !error.use_stderr() {
        return Usage::Help(text);
    }
    match with_tip(alloc, text, tip_due(error.kind(), words)) {
        Ok(told) => Usage::Wrong(told),
        Err(_) => Usage::Memory,
    }
}
