//! Laws of dumps, each the contract of a function that does nothing.

ghost use Rattle.cj_dump.specs.Dumps.{BytesHaveOneReading, WrittenReadsBack};

/// If the bytes of a dump are decoded, the result is that dump, unless memory ran out.
pub fn written_reads_back()
    ensures { WrittenReadsBack }
{}

/// Bytes are those of one dump, or stop at one offset for one reason, and never both.
pub fn bytes_have_one_reading()
    ensures { BytesHaveOneReading }
{}
