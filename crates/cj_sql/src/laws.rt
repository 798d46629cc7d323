//! What follows for every text.

ghost use Rattle.std.specs.Prelude.{◌≡◌, List, ℕ};
ghost use Rattle.cj_model.specs.declared.request.Request.{Request};
ghost use Rattle.cj_model.specs.Sql.Grammar.{TextReadsAs};

/// The law that a text reads as at most one request.
pub fn texts_have_one_reading()
    ensures { (text : List ℕ) (r q : Request) → TextReadsAs text r → TextReadsAs text q → r ≡ q }
{}
