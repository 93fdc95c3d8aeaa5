//! Ranges of numbers that are apart from one another.
ghost use Rattle.std.specs.Prelude.{◌≡◌, ◌≤◌, ◌||◌, ◌++◌, ◌∷◌, [], ℕ, List, map, IfOk};
ghost use Rattle.std.specs.List.{AllByRecursion};
ghost use Rattle.net_index.specs.Ranges.{covers, is_within, wide, AreApart, BeginBefore};

use crate::range::{Range, Short, wide};
use std::alloc::{AllocError, Global};
use std::marker::Model;

/// Ranges in rising order, each of which ends before the next one begins.
#[derive(Debug, Drop)]
pub(crate) struct Ranges {
    items: Vec<Range>,
}

impl Model for Ranges {
    ghost use Rattle.std.specs.Prelude.{List};
    ghost use Rattle.net_index.specs.declared.range.Range.{Range};
    ghost use Rattle.net_index.specs.Ranges.{AreApart};

    ghost Value = { List Range };

    ghost view = { λ r. r.items.items };

    ghost invariant = { λ r. AreApart r.items.items };
}

/// Adds a range that begins where the last one begins, or after it, and gives the last one then. Where the two meet they
/// become one. The last one is not among the items yet.
fn join(items: &mut Vec<Range>, last: Range, range: Range) -> Result<Range, AllocError>
    requires apart { AreApart (items.old.items ++ last ∷ []) }
    requires rises { BeginBefore range.first (items.old.items ++ last ∷ []) }
    ensures apart { IfOk result (λ next. AreApart (items.new.items ++ next ∷ [])) }
    ensures rises { IfOk result (λ next. BeginBefore range.first (items.new.items ++ next ∷ [])) }
    ensures covers { IfOk result (λ next. (n : ℕ) → covers (items.new.items ++ next ∷ []) n
        ≡ (covers (items.old.items ++ last ∷ []) n || is_within n range)) }
{
    if range.first <= last.last {
        return Ok(Range {
            first: last.first,
            last: last.last.max(range.last),
        });
    }
    items.push(last)?;
    Ok(range)
}

/// The items and the last one.
fn ended(items: Vec<Range>, end: Range) -> Result<Ranges, AllocError>
    requires { AreApart (items.items ++ end ∷ []) }
    ensures { IfOk result (λ ranges. ranges ≡ items.items ++ end ∷ []) }
{
    let mut items = items;
    items.push(end)?;
    items.shrink_to_fit();
    Ok(Ranges { items })
}

impl Ranges {
    /// The numbers of some ranges, in any order.
    pub(crate) fn of(alloc: Global, ranges: Vec<Range>) -> Result<Ranges, AllocError>
        ensures { IfOk result (λ joined. (n : ℕ) → covers joined n ≡ covers ranges.items n) }
    {
        let mut ranges = ranges;
        ranges.sort_unstable_by_key(|range| range.first);
        let [first, rest @ ..] = ranges.as_slice() else {
            return Ok(Ranges {
                items: Vec::new(alloc),
            });
        };
        let mut items = Vec::with_capacity(alloc, ranges.len())?;
        let mut last = *first;
        for range in rest {
            last = join(&mut items, last, *range)?;
        }
        let joined = ended(items, last)?;
        Ok(joined)
    }

    /// The numbers of some ranges of 32 bits, in any order.
    pub(crate) fn of_short(alloc: Global, ranges: Vec<Short>) -> Result<Ranges, AllocError>
        ensures { IfOk result (λ all. (n : ℕ) → covers all n ≡ covers (map wide ranges.items) n) }
    {
        let mut ranges = ranges;
        ranges.sort_unstable_by_key(|range| range.first);
        let [first, rest @ ..] = ranges.as_slice() else {
            return Ok(Ranges {
                items: Vec::new(alloc),
            });
        };
        let mut items = Vec::with_capacity(alloc, ranges.len())?;
        let mut last = wide(*first);
        for range in rest {
            last = join(&mut items, last, wide(*range))?;
        }
        let joined = ended(items, last)?;
        Ok(joined)
    }

    /// The same ranges.
    pub(crate) fn duplicate(&self, alloc: Global) -> Result<Ranges, AllocError>
        ensures { IfOk result (λ copy. copy ≡ self.now) }
    {
        Ok(Ranges {
            items: self.items.to_vec(alloc)?,
        })
    }

    /// Whether some range has the number.
    pub(crate) fn covers(&self, number: u128) -> bool
        ensures { result ≡ covers self.now number }
    {
        let count = self.items.partition_point(|range| range.first <= number);
        count > 0 && number <= self.items[count - 1].last
    }
}
