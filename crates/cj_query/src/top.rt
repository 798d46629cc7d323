//! The first rows in the order of keys: not many more than LIMIT are kept.

ghost use Rattle.std.specs.Prelude.{◌≡◌, ◌≤◌, true, [], ◌∷◌, ◌++◌, None, Some, length, map, option_map, IfOk, OnOk};
ghost use Rattle.std.specs.Map.Iter.{deref};
ghost use Rattle.cj_model.specs.Database.Order.{at_most, sorted_by, sorts_before};
ghost use Rattle.cj_query.specs.Kept as kept_rows;
ghost use Rattle.cj_query.specs.Ranked as ranks;

use crate::ranked::{Ranked, Ranking, compare_ranked, rows_of, sort_ranked};
use cj_model::{NoMemory, Value};
use cj_search::Matching;
use std::alloc::Global;

/// The rows that may still be wanted.
#[derive(Drop)]
struct Kept<'a> {
    rows: Vec<Ranked<'a>>,
    /// The last of the first LIMIT rows in order. A later row that is not before the bar is not wanted.
    bar: Option<Ranked<'a>>,
}

/// Whether the rows should be cut: there are twice as many as are wanted.
pub fn is_crowded(count: usize, most: u64) -> bool
    ensures { result ≡ true → most ≤ count }
{
    0 < count && most <= (count / 2) as u64
}

/// Keeps the wanted rows, in order.
fn leave_wanted(rows: &mut Vec<Ranked>, ranking: &Ranking) -> Result<(), NoMemory>
    ensures { OnOk result (map ranks.seen rows.new.items ≡ ranks.wanted ranking.now (map ranks.seen rows.old.items)) }
{
    sort_ranked(rows, ranking)?;
    if let Some(most) = ranking.limit {
        rows.truncate(most as usize);
    }
    Ok(())
}

impl<'a> Kept<'a> {
    fn new(alloc: Global) -> Kept<'a>
        ensures rows { kept_rows.rows_kept result ≡ [] }
        ensures bar { result.bar ≡ None }
    {
        Kept {
            rows: Vec::new(alloc),
            bar: None,
        }
    }

    /// Whether there is a bar, and the row is not before it.
    fn bars(&self, row: &Ranked, ranking: &Ranking) -> bool
        ensures { result ≡ ranks.is_barred (ranks.ranks_before ranking.now) (option_map ranks.seen self.now.bar) (ranks.seen row.now) }
    {
        match &self.bar {
            Some(bar) => !compare_ranked(ranking, row, bar).is_lt(),
            None => false,
        }
    }

    /// Keeps the wanted rows, of which there are enough, and makes the last one the bar.
    fn cut(&mut self, ranking: &Ranking, most: u64) -> Result<(), NoMemory>
        requires limit { ranking.now.limit ≡ Some most }
        requires enough { most ≤ length self.old.rows.items }
        ensures stands { OnOk result (kept_rows.WantsAlike ranking.now self.new (kept_rows.rows_kept self.old)) }
        ensures barred { OnOk result (kept_rows.IsBarred ranking.now self.new) }
    {
        leave_wanted(&mut self.rows, ranking)?;
        self.bar = self.rows.last().copied();
        Ok(())
    }

    /// Drops unwanted rows once there are many more than are wanted.
    fn cut_crowd(&mut self, ranking: &Ranking) -> Result<(), NoMemory>
        requires { kept_rows.IsBarred ranking.now self.old }
        ensures stands { OnOk result (kept_rows.WantsAlike ranking.now self.new (kept_rows.rows_kept self.old)) }
        ensures barred { OnOk result (kept_rows.IsBarred ranking.now self.new) }
    {
        if let Some(most) = ranking.limit {
            if is_crowded(self.rows.len(), most) {
                return self.cut(ranking, most);
            }
        }
        Ok(())
    }

    /// Adds a row after the others, unless the bar shows that it is not wanted.
    fn add(&mut self, row: Ranked<'a>, ranking: &Ranking) -> Result<(), NoMemory>
        requires { kept_rows.IsBarred ranking.now self.old }
        ensures stands { OnOk result (kept_rows.WantsAlike ranking.now self.new (kept_rows.rows_kept self.old ++ ranks.seen row.entry ∷ [])) }
        ensures barred { OnOk result (kept_rows.IsBarred ranking.now self.new) }
    {
        if self.bars(&row, ranking) {
            return Ok(());
        }
        self.rows.push(row)?;
        self.cut_crowd(ranking)
    }
}

/// The wanted rows among the kept ones, in order.
fn finished<'a>(
    alloc: Global,
    kept: Kept<'a>,
    ranking: &Ranking,
) -> Result<Vec<&'a [Value]>, NoMemory>
    ensures { IfOk result (λ out. map deref out.items ≡ map (λ r. r.1) (ranks.wanted ranking.now (kept_rows.rows_kept kept.entry))) }
{
    let Kept { mut rows, .. } = kept;
    leave_wanted(&mut rows, ranking)?;
    rows_of(alloc, &rows)
}

/// The first of the rows in the order of the keys, at most as many as the ranking wants. Not many more are
/// held at any time. Fails only with `NoMemory`.
pub fn first_matching_ranked<'a>(
    alloc: Global,
    rows: Matching<'_, 'a>,
    ranking: &Ranking,
) -> Result<Vec<&'a [Value]>, NoMemory>
    ensures { IfOk result (λ out. map deref out.items ≡ at_most ranking.now.limit (sorted_by (sorts_before (ranks.keys_of ranking.now)) rows.entry)) }
{
    let mut kept = Kept::new(alloc);
    for row in rows {
        kept.add(Ranked::of(row, ranking), ranking)?;
    }
    finished(alloc, kept, ranking)
}
