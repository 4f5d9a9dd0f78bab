//! Walks through the objects of a store.

ghost use Rattle.std.specs.Prelude.{◌≡◌, Some, IfSome};
ghost use Rattle.std.specs.BTreeMap.{is_at};
ghost use Rattle.std.specs.Map.{lookup};
ghost use Rattle.std.specs.Ordering.{nat_cmp};

use crate::types::StoredType;
use ob_base::ObjId;
use std::collections::BTreeMap;
use std::collections::btree_map::Range;
use std::marker::Model;

// How many objects a walk passes by before it seeks one.
const NEAR: usize = 4;

/// A walk through the types of objects. Those shortly after the object that was asked for last are at
/// hand; any other is sought. Objects that were made one after another have ids one after another, so who
/// asks for the objects of a directory in the order of its entries mostly walks.
///
/// A contract sees a walk as the types, by the ids of their objects.
#[derive(Drop)]
pub(crate) struct Walk<'a, K> {
    types: &'a BTreeMap<u64, StoredType<K>>,
    ahead: Range<'a, u64, StoredType<K>>,
}

impl<'a, K> Model for Walk<'a, K> {
    ghost use Rattle.ob_objects.specs.Types.{Types, IsAhead};

    ghost Value = { Types K };

    ghost view = { λ walk. walk.types.now.entries };

    ghost invariant = { λ walk. IsAhead walk.types.now.entries walk.ahead };
}

impl<'a, K: Copy> Walk<'a, K> {
    /// A walk through these types, from that of the first object on. Takes no memory.
    pub(crate) fn through(types: &'a BTreeMap<u64, StoredType<K>>) -> Self
        ensures { result ≡ types.now.entries }
    {
        Walk {
            types,
            ahead: types.range(..),
        }
    }

    /// The type of the object of an id, and `None` exactly where there is none. Takes no memory.
    pub(crate) fn get(&mut self, id: ObjId) -> Option<StoredType<K>>
        ensures stored { result ≡ lookup (is_at (nat_cmp id)) self.old }
        ensures unchanged { self.new ≡ self.old }
    {
        let near = self.near(id);
        if near.is_some() {
            return near;
        }
        self.ahead = self.types.range(id.0..);
        let sought = self.next_with(id);
        if sought.is_some() {
            return sought;
        }
        self.types.get(&id.0).copied()
    }

    // The type shortly ahead, where it has this id.
    fn near(&mut self, id: ObjId) -> Option<StoredType<K>>
        ensures stored { IfSome result (λ next. lookup (is_at (nat_cmp id)) self.old ≡ Some next) }
        ensures unchanged { self.new ≡ self.old }
    {
        for _ in 0..NEAR {
            let next = self.next_with(id);
            if next.is_some() {
                return next;
            }
        }
        None
    }

    // The next type, where it has this id.
    fn next_with(&mut self, id: ObjId) -> Option<StoredType<K>>
        ensures stored { IfSome result (λ next. lookup (is_at (nat_cmp id)) self.old ≡ Some next) }
        ensures unchanged { self.new ≡ self.old }
    {
        let (next, of) = self.ahead.next()?;
        if *next != id.0 {
            return None;
        }
        Some(*of)
    }
}
