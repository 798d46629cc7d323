//! The result cache of the controller: answers of queries, each dropped when a table that it needs changes.
//!
//! A look-up is `touch` and then `kept`, or `shared` where the rows are copied after a lock. `keep` adds an answer;
//! from a full cache the least recently used one goes. After a change of tables, `drop_needing` drops the answers
//! that need one of them. It takes no memory, and can't fail. Contracts promise the cache's state after each call,
//! by `specs/Cluster/Caching` of `cj_model`. That answers which are kept so stay right is proved in `cj_cluster`
//! (`specs/History/Freshness`). A change usually concerns `cache.rt`. `held.rt` has the LRU map, `by_table.rt` the
//! statements of each table. Proofs begin in `proofs/Maps` (a map as entries), `proofs/ByTable` and
//! `proofs/Needing`. `proofs/Examples` has a small cache worked out.
#![tactic(auto)]

mod by_table;
mod cache;
mod held;

pub use cache::Cache;
pub use held::SharedAnswer;
