//! What the words may ask for: a command over the streams alone, to serve a cluster, a text of help, the version.

use crate::conf::ConfPath;

/// A command by its name alone.
#[derive(Clone, Copy, PartialEq, Eq)]
pub enum Verb {
    Pipe,
    Script,
    Log,
    Gen,
    Serve,
}

/// What a help text is about.
#[derive(Clone, Copy, PartialEq, Eq)]
pub enum Topic {
    Program,
    Command(Verb),
}

/// What the program is to do.
#[derive(Drop)]
pub enum Command {
    /// Serve a session.
    Pipe {
        conf: ConfPath,
    },
    /// Play a script.
    Script {
        conf: ConfPath,
    },
    /// List the log.
    Log {
        conf: ConfPath,
    },
    /// Run a workload of `count` statements, drawn from the seed.
    Gen {
        conf: ConfPath,
        seed: u64,
        count: u64,
    },
}

/// What a user asks for.
#[derive(Drop)]
pub enum Asked {
    Command(Command),
    /// Serve connections at the address, and a console on the streams.
    Serve { conf: ConfPath, address: ConfPath },
    Help(Topic),
    Version,
}
