//! Laws of the definitions, each the contract of a function that does nothing.

ghost use Rattle.std.specs.Prelude.{◌≡◌, List, ℕ};
ghost use Rattle.cj_commands.specs.Commands.{CommandLine, NamesNoBackend};
ghost use Rattle.cj_commands.specs.declared.command.Command.{Command};

/// A line is at most one command, and none if it names no backend.
pub fn lines_ask_for_one_command()
    ensures one { (names : List (List ℕ)) → (line : List ℕ) → (command other : Command) → CommandLine names line command → CommandLine names line other → command ≡ other }
    ensures none { (names : List (List ℕ)) → (line : List ℕ) → (command : Command) → CommandLine names line command → NamesNoBackend names line → ⊥ }
{}
