//! Laws of fresh answers, on which a result cache rests, each the contract of a function that does nothing.

ghost use Rattle.std.specs.Prelude.{◌≡◌, ℕ, ◌≤◌, Bool, true, false, List, [], ◌∷◌, ◌++◌, length};
ghost use Rattle.std.specs.List.{list_any};
ghost use Rattle.std.specs.Str.{bytes_eq};
ghost use Rattle.std.specs.declared.option.Option.TheVariants.{Some};
ghost use Rattle.cj_model.specs.declared.answer.Answer.{Answer};
ghost use Rattle.cj_model.specs.declared.answer.Asked.TheVariants.{Rows};
ghost use Rattle.cj_model.specs.declared.cached.Cached.{Cached};
ghost use Rattle.cj_model.specs.declared.request.Entry.{Entry};
ghost use Rattle.cj_model.specs.declared.select.Select.{Select};
ghost use Rattle.cj_model.specs.Cluster.Caching.{CacheState, after_keep, after_look, answer_kept, empty_cache, without_tables};
ghost use Rattle.cj_model.specs.Database.Queries.{ask};
ghost use Rattle.cj_model.specs.Database.Outcomes.{IsAnswer};
ghost use Rattle.cj_cluster.specs.History.Histories.{database_after};
ghost use Rattle.cj_cluster.specs.History.Transactions.{AreFit};
ghost use Rattle.cj_cluster.specs.History.Freshness.{IsAnswerAt, IsFreshAnswer, IsFreshCache, NoneTouches, touches_behind, touches_query, without_touched};

/// If no entry from one position to another touches a table that a query needs, the query has the same answer at
/// both, refusals too.
pub fn answers_stay()
    ensures { (entries : List Entry) (from to : ℕ) (s : Select) → AreFit entries → from ≤ to → to ≤ length entries → NoneTouches entries from to s → ask (database_after entries from) 0 s ≡ ask (database_after entries to) 0 s }
{}

/// A fresh answer is the one at the log's end, and so is each answer that a fresh cache gives.
pub fn fresh_answers_are_right()
    ensures answer { (entries : List Entry) (kept : Cached) → AreFit entries → IsFreshAnswer true entries kept → IsAnswerAt entries (length entries) kept.select (Rows kept.answer) }
    ensures cache { (entries : List Entry) (c : CacheState) (s : Select) (a : Answer) → AreFit entries → IsFreshCache true entries c → answer_kept s c ≡ Some a → IsAnswerAt entries (length entries) s (Rows a) }
{}

/// An empty cache is fresh. It stays fresh when an answer is looked up, and when a fresh one is kept.
/// An answer from the log's end is fresh. Over a further entry a cache stays fresh if what needs a table that the
/// entry touches is dropped; a set of exactly those tables serves for that.
pub fn caches_stay_fresh()
    ensures empty { (tells : Bool) (entries : List Entry) (capacity : ℕ) → IsFreshCache tells entries (empty_cache capacity) }
    ensures now { (tells : Bool) (entries : List Entry) (kept : Cached) → kept.at ≡ length entries → IsAnswer kept.answer → (tells ≡ true → IsAnswerAt entries kept.at kept.select (Rows kept.answer)) → IsFreshAnswer tells entries kept }
    ensures look { (tells : Bool) (entries : List Entry) (s : Select) (c : CacheState) → IsFreshCache tells entries c → IsFreshCache tells entries (after_look s c) }
    ensures keep { (tells : Bool) (entries : List Entry) (kept : Cached) (c : CacheState) → IsFreshAnswer tells entries kept → IsFreshCache tells entries c → IsFreshCache tells entries (after_keep kept c) }
    ensures answer { (tells : Bool) (entries : List Entry) (e : Entry) (kept : Cached) → IsFreshAnswer tells entries kept → touches_query (entries ++ e ∷ []) (length entries) kept.select ≡ false → IsFreshAnswer tells (entries ++ e ∷ []) kept }
    ensures next { (tells : Bool) (entries : List Entry) (e : Entry) (c : CacheState) → IsFreshCache tells entries c → IsFreshCache tells (entries ++ e ∷ []) (without_touched entries e c) }
    ensures by_tables { (entries : List Entry) (e : Entry) (set : List (List ℕ)) (c : CacheState) → ((table : List ℕ) → list_any (λ name. bytes_eq name table) set ≡ touches_behind entries e.tx e.act table) → without_tables set c ≡ without_touched entries e c }
{}
