//! Parts that a dump has several times.

ghost use Rattle.cj_dump.specs.Layouts.{TakesOff, FieldLayout, listed};
ghost use Rattle.std.specs.Prelude.{List};

use crate::error::DumpError;
use cj_codec::Reader;
use cj_model::ListOf;
use std::alloc::Global;

/// A kind of part that a dump has several times, one after another. What the next one may be
/// depends on those before it.
pub trait Part {
    type Item: Drop;

    ghost layout: { Self → List Self.Item → FieldLayout Self.Item };

    /// Takes the next part off the reader, which is of no more use after an error.
    fn take(
        &self,
        before: &[Self::Item],
        reader: &mut Reader<'_>,
        alloc: Global,
    ) -> Result<Self::Item, DumpError>
        ensures { TakesOff (layout self.now before.now) reader.old reader.new result };
}

/// Takes `count` parts off the reader, which is of no more use after an error.
pub fn take_parts<P: Part>(
    part: &P,
    count: u64,
    reader: &mut Reader<'_>,
    alloc: Global,
) -> Result<ListOf<P::Item>, DumpError>
    ensures { TakesOff (listed (P.layout part.now) count) reader.old reader.new result }
{
    let mut items = ListOf::new(alloc);
    for _ in 0..count {
        let item = part.take(items.as_slice(), reader, alloc)?;
        items.push(item)?;
    }
    Ok(items)
}
