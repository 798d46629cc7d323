//! The lines of a log, written one after another.

ghost use Rattle.std.specs.Prelude.{IsErrOf};
ghost use Rattle.cj_outside.specs.Causes.{CountsFault};
ghost use Rattle.cj_outside.specs.Streams.{WritesAll};
ghost use Rattle.cj_listing.specs.Listing.{item_line, listing};

use crate::line::make_line;
use cj_log::LogItem;
use cj_model::Names;
use cj_outside::{OutError, Sink, write_all};
use std::alloc::Global;

fn write_item<O: Sink>(
    alloc: Global,
    names: &Names,
    item: &LogItem,
    output: &mut O,
) -> Result<(), OutError>
    ensures bytes { WritesAll (O.held output.old) (O.held output.new) (item_line names.now item.now) result }
    ensures cause { CountsFault (IsErrOf result OutError.Failed) (O.faults output.old) (O.faults output.new) }
{
    match make_line(alloc, names, item) {
        Ok(line) => write_all(output, &line),
        Err(_) => Err(OutError::NoMemory),
    }
}

/// Writes the lines of the items, in order. It needs memory for one line at a time.
///
/// After an error the sink has a part of the lines, less than all of them. `Failed` is a fault that
/// the sink counted.
#[tactic(auto, using(crate::proofs::Sending::sent_line))]
pub fn write_listing<O: Sink>(
    alloc: Global,
    names: &Names,
    items: &[LogItem],
    output: &mut O,
) -> Result<(), OutError>
    ensures bytes { WritesAll (O.held output.old) (O.held output.new) (listing names.now items.now) result }
    ensures cause { CountsFault (IsErrOf result OutError.Failed) (O.faults output.old) (O.faults output.new) }
{
    for item in items {
        write_item(alloc, names, item, output)?;
    }
    Ok(())
}
