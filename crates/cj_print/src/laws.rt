//! Laws of canonical SQL, each the contract of a function that does nothing.

ghost use Rattle.cj_model.specs.Sql.Literals.{LiteralsReadBack};
ghost use Rattle.cj_print.specs.Canonical.{CanonicalReadsBack};
ghost use Rattle.cj_print.specs.Stored.{StorableIsWritten};

/// The law that the literal of a value reads as that value.
#[tactic(auto, using(crate::proofs::ReadBack::literals_read_back))]
pub fn literals_read_back()
    ensures { LiteralsReadBack }
{}

/// The law that a request which some text reads as is what its canonical text reads as.
#[tactic(auto, using(crate::proofs::CanonicalReads::canonical_reads_back))]
pub fn canonical_reads_back()
    ensures { CanonicalReadsBack }
{}

/// The law that a storable database can be written down. Some text reads as the CREATE of each table's
/// schema, and some as the INSERT of each row.
pub fn storable_is_written()
    ensures { StorableIsWritten }
{}
