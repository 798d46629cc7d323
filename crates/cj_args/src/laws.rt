//! A law of the definitions, the contract of a function that does nothing.

ghost use Rattle.std.specs.Prelude.{◌≡◌, List, ℕ};
ghost use Rattle.cj_args.specs.Words.{AsksCommand};
ghost use Rattle.cj_args.specs.declared.asked.Asked.{Asked};

/// Words ask for at most one thing.
pub fn words_ask_for_one_thing()
    ensures { (words : List (List ℕ)) → (one other : Asked) → AsksCommand words one → AsksCommand words other → one ≡ other }
{}
