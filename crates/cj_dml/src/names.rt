//! Lists of names.

ghost use Rattle.std.specs.Prelude.{◌≡◌};
ghost use Rattle.std.specs.List.{list_any};
ghost use Rattle.std.specs.Str.{bytes_eq};
ghost use Rattle.cj_model.specs.Database.Tables as tables;

use cj_model::Name;

fn contains(names: &[Name], name: &Name) -> bool
    ensures { result ≡ list_any (bytes_eq name.now) names.now }
{
    names.iter().any(|other| name.is(other))
}

/// Whether no two names of the list are equal.
pub fn is_distinct(mut names: &[Name]) -> bool
    ensures { result ≡ tables.is_distinct names.entry.now }
{
    while let [name, rest @ ..] = names {
        if contains(rest, name) {
            return false;
        }
        names = rest;
    }
    true
}
