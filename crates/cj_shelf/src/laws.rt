//! A law of shelves, as the contract of a function that does nothing.

ghost use Rattle.cj_shelf.specs.Shelves.{BytesFixDumps};

/// The bytes of a shelf are those of one list of dumps. So a shelf that is opened again has the
/// dumps that it had.
pub fn bytes_fix_dumps()
    ensures { BytesFixDumps }
{}
