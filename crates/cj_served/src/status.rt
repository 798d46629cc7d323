//! The exit status of serving.

ghost use Rattle.std.specs.Prelude.{◌≡◌};
ghost use Rattle.cj_served.specs.Servings as servings;

use cj_console::ConsoleEnd;
use cj_serve::ServeEnd;

fn status_of_console(end: ConsoleEnd) -> u8
    ensures { result ≡ servings.status_of_console end }
{
    match end {
        ConsoleEnd::Quit | ConsoleEnd::Eof => 0,
        ConsoleEnd::NoMemory => 1,
        ConsoleEnd::ReadFault => 5,
        ConsoleEnd::WriteFault => 6,
        ConsoleEnd::Spent => 11,
    }
}

/// Returns the exit status: 9 if the port failed, and else that of the console's end. Where that is 0 and memory ran
/// out for a connection, it is 1.
pub fn status_of_serving(accepting: ServeEnd, console: ConsoleEnd) -> u8
    ensures { result ≡ servings.status_of_serving accepting console }
{
    match (accepting, status_of_console(console)) {
        (ServeEnd::PortFault, _) => 9,
        (ServeEnd::NoMemory, 0) => 1,
        (_, status) => status,
    }
}
