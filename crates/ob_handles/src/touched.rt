//! Which objects were counted, when the counts go down to 0.

ghost use Rattle.std.specs.Prelude.{◌≡◌};
ghost use Rattle.ob_handles.specs.Counts.{count_of, CountsOneLess, is_listed, ListsTheSame, IsLastListed};

use crate::places::{Recent, place_of};
use indexmap::IndexMap;
use ob_base::ObjId;
use std::marker::Model;

/// Counts of objects that only go down. An object stays listed when its count is 0, so that in the end
/// it is known which objects there were. A call takes a time that doesn't grow with the objects that are
/// listed, except for `last_before`, whose time grows with their logarithm, and no memory. (this profile)
#[derive(Drop)]
pub struct Touched {
    pub(crate) numbers: IndexMap<u64, usize>,
    // The objects that are listed, in order.
    pub(crate) ids: Vec<u64>,
    // The places of the objects that were counted last.
    pub(crate) recent: Recent,
}

impl Model for Touched {
    ghost use Rattle.ob_handles.specs.Counts.{Numbers, AreListed};

    ghost Value = { Numbers };

    ghost view = { λ touched. touched.numbers.entries };

    ghost invariant = { λ touched. AreListed touched.numbers.entries touched.ids.items };
}

impl Touched {
    /// The count of an object: 0 where it isn't listed. Takes no memory.
    pub fn get(&self, object: ObjId) -> usize
        ensures { result ≡ count_of self.now object }
    {
        match self.numbers.get(&object.0) {
            Some(count) => *count,
            None => 0,
        }
    }

    /// Counts one less of an object, where there is one. The object stays listed. Takes no memory.
    pub fn lower(&mut self, object: ObjId)
        ensures counted { CountsOneLess object self.old self.new }
        ensures listed { ListsTheSame self.old self.new }
    {
        let Some(place) = place_of(&self.numbers, self.recent, object) else {
            return;
        };
        self.recent = self.recent.then(place);
        let Some(count) = self.numbers.get_index_mut(place) else {
            return;
        };
        *count = count.saturating_sub(1);
    }

    /// Whether an object is listed. Takes no memory.
    pub fn holds(&self, object: ObjId) -> bool
        ensures { result ≡ is_listed self.now object }
    {
        self.numbers.contains_key(&object.0)
    }

    /// The greatest object that is listed below this one; `None` exactly where no lesser one is. Takes
    /// no memory.
    pub fn last_before(&self, bound: ObjId) -> Option<ObjId>
        ensures { IsLastListed bound self.now result }
    {
        let bound = bound.0;
        let before = self.ids.partition_point(|id| *id < bound);
        let last = self.ids.get(before.checked_sub(1)?)?;
        Some(ObjId(*last))
    }
}
