//! The task that the program's arguments ask for.

ghost use Rattle.std.specs.Prelude.{◌≡◌, ◌≤◌, true, false, Some, IfOk, IfErr, codes, length, map, option_map};
ghost use Rattle.clap.specs.Words.{FailsBy, app_of, fault_of, first_of, found_of, kind_of, rows_of, rule_of, subcommand_of, subcommand_rows_of, takes};
ghost use Rattle.clap.specs.declared.builder.command.Command.TheViews.{out-Command as fields_of};
ghost use Rattle.ob_shell.specs.Plan.{IsMistakeOrWant, Spells, about_of, check_about, check_app, examples_of, file_help, file_rule, named, input_rule, is_set, input_help, ntns, ntns_about, ntns_examples, ntns_version, picture_in, replay_about, replay_app, run_about, run_app, session_about, session_app, switch_rule, task_of, text_of, threads_about, threads_app, tree, tree_about, tree_app, version_of};

use clap::error::ErrorKind;
use clap::{Arg, ArgAction, ArgMatches, Command, Error};
use ob_script_tree::Picture;
use ob_tree::Style;
use std::alloc::{AllocError, Global};
use std::convert::AsStr;

/// A task of the program. (this profile)
#[derive(Clone, Copy, PartialEq, Eq, Debug)]
pub enum Task<'a> {
    /// Run the script on standard input.
    Script,
    /// Run the script in the file of this path.
    Run(&'a str),
    /// Run the script with workers in the file of this path, and print its journal.
    Threads(&'a str),
    /// Check the journal in the file of this path, and print the verdict.
    Replay(&'a str),
    /// Check the lines of the script in the file of this path, which may have workers, and print where each stops that is wrong.
    Check(&'a str),
    /// Run each line of standard input as it comes, and print its reply before the next one is read.
    Session,
    /// Run the script in a file or on standard input, and write the tree of the namespace that it leaves.
    Tree {
        /// The path of the file; none: standard input.
        file: Option<&'a str>,
        /// The form of the tree.
        picture: Picture,
    },
}

/// The task that the arguments ask for. The first argument is the program's name.
///
/// It is `Script` where no argument follows the program's name, or `--` alone, and `Run` where
/// these are `run` and a path, which is taken as it is, with `--` before or after it or without;
/// so it is `Threads` where they are `threads` and a path, `Replay` where they are `replay` and a path, `Check` where they are `check` and a path, and `Session` where they are `session` alone. It is `Tree` where they are `tree`, with `--ascii`, `--json` and a path or without. The task is what the parser
/// `clap` states for these arguments and the program as `ntns` describes it. The faults are clap's: of the kinds that clap states for the arguments, which are mistakes, or
/// the request for help or for the version; or out of memory, which alone can refuse arguments that name a task, as no
/// arguments after the program's name do. (this profile)
pub fn plan<'a, S: AsStr>(alloc: Global, arguments: &'a [S]) -> Result<Task<'a>, Error>
    ensures task { IfOk result (λ task.
        task_of (subcommand_of ntns (map S.text arguments.now)) ≡ Some (named task)) }
    ensures spelled { IfOk result (λ task. Spells (map S.text arguments.now) (named task)) }
    ensures kinds { FailsBy (fault_of ntns (map S.text arguments.now)) result }
    ensures memory { IfErr result (λ fault.
        takes ntns (map S.text arguments.now) ≡ true → kind_of fault ≡ ErrorKind.OutOfMemory) }
    ensures alone { length arguments.now ≤ 1 →
        IfErr result (λ fault. kind_of fault ≡ ErrorKind.OutOfMemory) }
{
    match program(alloc) {
        Ok(program) => match program.try_get_matches_from(arguments) {
            Ok(matches) => match task_in(&matches) {
                Some(task) => Ok(task),
                None => unreachable!(),
            },
            Err(fault) => Err(fault),
        },
        Err(want) => Err(Error::from(want)),
    }
}

// The task that the parser's matches name, where they name one.
fn task_in<'a>(matches: &ArgMatches<'a>) -> Option<Task<'a>>
    ensures { option_map named result ≡ task_of (subcommand_rows_of matches.now) }
{
    match matches.subcommand() {
        None => Some(Task::Script),
        Some((name, inside)) if name == "run" => match inside.get_str("FILE") {
            Some(file) => Some(Task::Run(file)),
            None => None,
        },
        Some((name, inside)) if name == "threads" => match inside.get_str("FILE") {
            Some(file) => Some(Task::Threads(file)),
            None => None,
        },
        Some((name, inside)) if name == "replay" => match inside.get_str("FILE") {
            Some(file) => Some(Task::Replay(file)),
            None => None,
        },
        Some((name, inside)) if name == "check" => match inside.get_str("FILE") {
            Some(file) => Some(Task::Check(file)),
            None => None,
        },
        Some((name, _)) if name == "session" => Some(Task::Session),
        Some((name, inside)) if name == "tree" => Some(tree_in(inside)),
        Some(_) => None,
    }
}

// The task that matches of the subcommand `tree` name.
fn tree_in<'a>(matches: &ArgMatches<'a>) -> Task<'a>
    ensures { named result ≡ tree (picture_in (rows_of (found_of matches.now)))
        (first_of (codes "FILE") (rows_of (found_of matches.now))) }
{
    Task::Tree {
        file: matches.get_str("FILE"),
        picture: picture_in(matches),
    }
}

// The form of the tree that matches of the subcommand `tree` ask for.
fn picture_in(matches: &ArgMatches<'_>) -> Picture
    ensures { result ≡ picture_in (rows_of (found_of matches.now)) }
{
    if is_set(matches, "json") {
        Picture::Json
    } else if is_set(matches, "ascii") {
        Picture::Lines(Style::Ascii)
    } else {
        Picture::Lines(Style::Boxes)
    }
}

// Whether a switch is set.
fn is_set(matches: &ArgMatches<'_>, id: &str) -> bool
    ensures { result ≡ is_set id.now (rows_of (found_of matches.now)) }
{
    match matches.get_str(id) {
        Some(value) => value == "true",
        None => false,
    }
}

/// The fault of arguments that are no text: a mistake, as the parser's own are, or out of memory.
/// (this profile)
pub fn unreadable(alloc: Global) -> Error
    ensures { IsMistakeOrWant (kind_of result) }
{
    let message = "invalid UTF-8 was detected in one or more arguments";
    let mut program = match program(alloc) {
        Ok(program) => program,
        Err(want) => return Error::from(want),
    };
    match program.error(ErrorKind::InvalidValue, message) {
        Ok(fault) => fault,
        Err(want) => Error::from(want),
    }
}

// The program as the parser sees it.
fn program<'a>(alloc: Global) -> Result<Command<'a>, AllocError>
    ensures app { IfOk result (λ command. app_of command ≡ ntns) }
    ensures about { IfOk result (λ command. about_of command ≡ Some ntns_about) }
    ensures examples { IfOk result (λ command. examples_of command ≡ Some ntns_examples) }
    ensures version { IfOk result (λ command. version_of command ≡ Some ntns_version) }
{
    let run = run_command(alloc)?;
    let threads = threads_command(alloc)?;
    let replay = replay_command(alloc)?;
    let check = check_command(alloc)?;
    let session = session_command(alloc);
    let tree = tree_command(alloc)?;
    let program = Command::new(alloc, "ntns")
        .subcommand(run)?
        .subcommand(threads)?
        .subcommand(replay)?
        .subcommand(check)?
        .subcommand(session)?
        .subcommand(tree)?;
    Ok(
        program
            .about(
                "Runs a script of namespace commands, by default from standard input, and prints one reply a line",
            )
            .version("1.0.0 (rattle-kit-13f logic dac8208d650f15bf)")
            .after_help(
                "Examples:
  ntns < script.ntns                       Runs the script on standard input
  ntns run script.ntns                     Runs the script in a file
  ntns threads workers.ntns > journal.txt  Runs a script with workers, and keeps its journal
  ntns replay journal.txt                  Checks that journal
  ntns check script.ntns                   Reports the lines that are wrong, and runs none
  ntns session                             Replies to each line as it is typed
  ntns tree script.ntns                    Shows the namespace that a script leaves",
            ),
    )
}

// The subcommand `run`.
fn run_command<'a>(alloc: Global) -> Result<Command<'a>, AllocError>
    ensures app { IfOk result (λ command. app_of command ≡ run_app) }
    ensures local { IfOk result (λ command. (fields_of command).has_globals ≡ false) }
    ensures about { IfOk result (λ command. about_of command ≡ Some run_about) }
{
    let run = Command::new(alloc, "run").arg(file_argument(alloc))?;
    Ok(run.about("Runs the script in FILE"))
}

// The subcommand `threads`.
fn threads_command<'a>(alloc: Global) -> Result<Command<'a>, AllocError>
    ensures app { IfOk result (λ command. app_of command ≡ threads_app) }
    ensures local { IfOk result (λ command. (fields_of command).has_globals ≡ false) }
    ensures about { IfOk result (λ command. about_of command ≡ Some threads_about) }
{
    let threads = Command::new(alloc, "threads").arg(file_argument(alloc))?;
    Ok(threads.about("Runs the script with workers in FILE, and prints its journal"))
}

// The subcommand `replay`.
fn replay_command<'a>(alloc: Global) -> Result<Command<'a>, AllocError>
    ensures app { IfOk result (λ command. app_of command ≡ replay_app) }
    ensures local { IfOk result (λ command. (fields_of command).has_globals ≡ false) }
    ensures about { IfOk result (λ command. about_of command ≡ Some replay_about) }
{
    let replay = Command::new(alloc, "replay").arg(file_argument(alloc))?;
    Ok(replay.about("Checks the journal in FILE, and prints the verdict"))
}

// The subcommand `check`.
fn check_command<'a>(alloc: Global) -> Result<Command<'a>, AllocError>
    ensures app { IfOk result (λ command. app_of command ≡ check_app) }
    ensures local { IfOk result (λ command. (fields_of command).has_globals ≡ false) }
    ensures about { IfOk result (λ command. about_of command ≡ Some check_about) }
{
    let check = Command::new(alloc, "check").arg(file_argument(alloc))?;
    Ok(check.about(
        "Reports each line of the script in FILE that is wrong, and its column, and runs none",
    ))
}

// The subcommand `session`.
fn session_command<'a>(alloc: Global) -> Command<'a>
    ensures app { app_of result ≡ session_app }
    ensures local { (fields_of result).has_globals ≡ false }
    ensures about { about_of result ≡ Some session_about }
{
    Command::new(alloc, "session").about(
        "Runs each line of standard input as it comes, and prints its reply before it reads the next one",
    )
}

// The subcommand `tree`.
fn tree_command<'a>(alloc: Global) -> Result<Command<'a>, AllocError>
    ensures app { IfOk result (λ command. app_of command ≡ tree_app) }
    ensures local { IfOk result (λ command. (fields_of command).has_globals ≡ false) }
    ensures about { IfOk result (λ command. about_of command ≡ Some tree_about) }
{
    let tree = Command::new(alloc, "tree")
        .arg(switch(alloc, "ascii", "Shows the nesting in characters of ASCII"))?
        .arg(switch(alloc, "json", "Writes one JSON value in place of lines"))?
        .arg(input_argument(alloc))?;
    Ok(tree.about(
        "Runs the script in FILE, and shows the namespace that it leaves in place of replies",
    ))
}

// A switch of a subcommand.
fn switch<'a>(alloc: Global, name: &'a str, help: &'a str) -> Arg<'a>
    ensures rule { rule_of result ≡ switch_rule name.now }
    ensures local { result.global ≡ false }
    ensures help { text_of result.help ≡ Some help.now }
{
    Arg::new(alloc, name)
        .long(name)
        .action(ArgAction::SetTrue)
        .help(help)
}

// The path that a subcommand may take.
fn input_argument<'a>(alloc: Global) -> Arg<'a>
    ensures rule { rule_of result ≡ input_rule }
    ensures local { result.global ≡ false }
    ensures help { text_of result.help ≡ Some input_help }
{
    Arg::new(alloc, "FILE").help("The path of the file, taken as it is; standard input without it")
}

// The path that a subcommand takes.
fn file_argument<'a>(alloc: Global) -> Arg<'a>
    ensures rule { rule_of result ≡ file_rule }
    ensures local { result.global ≡ false }
    ensures help { text_of result.help ≡ Some file_help }
{
    Arg::new(alloc, "FILE")
        .required(true)
        .help("The path of the file, taken as it is")
}
