//! The texts of help and of the version.
//!
//! clap lays them out. It takes more words than the program does, as `pipe --`, and to prove of each
//! order and form of `gen` that it takes them is dear; so the words are read in `reading`, exactly,
//! and clap has these texts alone.

use crate::asked::{Topic, Verb};
use cj_model::NoMemory;
use clap::{Arg, ArgAction, Command};
use std::alloc::Global;

const NAME: &str = "cjc";

const VERSION: &str = "0.1";

const PIPE: &str = "Serve one session of frames, from standard input to standard output";

const SCRIPT: &str = "Play the moves of standard input, and write what they give";

const LOG: &str = "List the recovery log";

const GEN: &str = "Run a workload drawn from a seed, and write its sums";

const PROGRAM_NOTES: &str = "cjc COMMAND --help tells more of a command.
CONF is the file of a configuration: docs/CONFIGURATION.md
Exit statuses: docs/OPERATIONS.md";

const PIPE_NOTES: &str = "Input:   requests as frames, up to a Quit or the end (docs/FORMATS.md)
Output:  a reply for each, in order
Log:     CONF.log, which each start goes on from
Example: cjc pipe example/c1.toml <requests >replies
Exit statuses: docs/OPERATIONS.md";

const SCRIPT_NOTES: &str = "Input:   a move a line (docs/SCRIPT.md)
Output:  what each move gave
Log:     CONF.log, which each start goes on from
Example: cjc script example/c1.toml <moves >results
Exit statuses: docs/OPERATIONS.md";

const LOG_NOTES: &str = "Input:   none
Output:  a line for each entry and marker (docs/FORMATS.md)
Log:     CONF.log, also while another program uses it
Example: cjc log example/c1.toml
Exit statuses: docs/OPERATIONS.md";

const SERVE: &str = "Serve connections at an address, with a console on standard input and output";

const SERVE_NOTES: &str = "Input:   commands of the console (docs/CONSOLE.md)
Output:  their answers
Log:     CONF.log, which each start goes on from; dumps are in CONF.dumps
Example: cjc serve example/c1.toml 127.0.0.1:7400
Exit statuses: docs/OPERATIONS.md";

const GEN_NOTES: &str = "Input:   none
Output:  a line for each sum, as `statements N`; the same N give the same lines
Log:     in memory; CONF.log is not touched
Example: cjc gen example/c1.toml --seed 1 --count 20000
Exit statuses: docs/OPERATIONS.md";

fn conf(alloc: Global) -> Arg<'static> {
    Arg::new(alloc, "CONF")
        .required(true)
        .help("The file of a configuration (docs/CONFIGURATION.md)")
}

fn number(alloc: Global, name: &'static str, text: &'static str) -> Arg<'static> {
    Arg::new(alloc, name)
        .long(name)
        .value_name("N")
        .required(true)
        .help(text)
}

/// clap's own flag has a short form too, which the words lack.
fn help_flag(alloc: Global) -> Arg<'static> {
    Arg::new(alloc, "help")
        .long("help")
        .action(ArgAction::Help)
        .help("Write this text")
}

fn version_flag(alloc: Global) -> Arg<'static> {
    Arg::new(alloc, "version")
        .long("version")
        .action(ArgAction::Version)
        .help("Write the version")
}

fn program_help(alloc: Global) -> Result<String, NoMemory> {
    let mut program = Command::new(alloc, NAME)
        .about("Several SQL databases as one")
        .override_usage("cjc COMMAND CONF")
        .after_help(PROGRAM_NOTES)
        .disable_help_flag(true)
        .disable_help_subcommand(true)
        .arg(help_flag(alloc))?
        .arg(version_flag(alloc))?
        .subcommand(Command::new(alloc, "pipe").about(PIPE))?
        .subcommand(Command::new(alloc, "script").about(SCRIPT))?
        .subcommand(Command::new(alloc, "log").about(LOG))?
        .subcommand(Command::new(alloc, "gen").about(GEN))?
        .subcommand(Command::new(alloc, "serve").about(SERVE))?;
    Ok(program.render_help()?)
}

/// The help of a command that takes CONF alone.
fn file_help(
    alloc: Global,
    name: &'static str,
    about: &'static str,
    notes: &'static str,
) -> Result<String, NoMemory> {
    let mut command = Command::new(alloc, name)
        .about(about)
        .after_help(notes)
        .disable_help_flag(true)
        .arg(conf(alloc))?
        .arg(help_flag(alloc))?;
    Ok(command.render_help()?)
}

fn gen_help(alloc: Global) -> Result<String, NoMemory> {
    let mut command = Command::new(alloc, "cjc gen")
        .about(GEN)
        .override_usage("cjc gen CONF --seed N --count N")
        .after_help(GEN_NOTES)
        .disable_help_flag(true)
        .arg(conf(alloc))?
        .arg(number(alloc, "seed", "What is drawn: 1 to 19 digits"))?
        .arg(number(alloc, "count", "How many statements: 1 to 200000"))?
        .arg(help_flag(alloc))?;
    Ok(command.render_help()?)
}

fn serve_help(alloc: Global) -> Result<String, NoMemory> {
    let address = Arg::new(alloc, "ADDR").required(true).help(
        "Where to listen: a host's name or number, a colon and a port's number",
    );
    let mut command = Command::new(alloc, "cjc serve")
        .about(SERVE)
        .after_help(SERVE_NOTES)
        .disable_help_flag(true)
        .arg(conf(alloc))?
        .arg(address)?
        .arg(help_flag(alloc))?;
    Ok(command.render_help()?)
}

/// Returns the text of help on a topic, with a line feed at its end. `NoMemory` is the only error.
pub fn help_text(alloc: Global, topic: Topic) -> Result<String, NoMemory> {
    match topic {
        Topic::Program => program_help(alloc),
        Topic::Command(Verb::Pipe) => file_help(alloc, "cjc pipe", PIPE, PIPE_NOTES),
        Topic::Command(Verb::Script) => file_help(alloc, "cjc script", SCRIPT, SCRIPT_NOTES),
        Topic::Command(Verb::Log) => file_help(alloc, "cjc log", LOG, LOG_NOTES),
        Topic::Command(Verb::Gen) => gen_help(alloc),
        Topic::Command(Verb::Serve) => serve_help(alloc),
    }
}

/// Returns the program's name and version, with a line feed at the end. `NoMemory` is the only
/// error.
pub fn version_text(alloc: Global) -> Result<String, NoMemory> {
    let program = Command::new(alloc, NAME).version(VERSION);
    Ok(program.render_version()?)
}
