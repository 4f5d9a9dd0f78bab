//! The lookup by a cache of prefixes.

ghost use Rattle.std.specs.Prelude.{◌≡◌, ◌<◌, ℕ, IsSome, IfOk, IfErr, OnErr};
ghost use Rattle.ob_model.specs.State.{State};
ghost use Rattle.ob_model.specs.Looks as machine;
ghost use Rattle.ob_model.specs.Looks.{IsStop};
ghost use Rattle.ob_devmap.specs.View.{IsViewOf};
ghost use Rattle.ob_objects.specs.Store.{Shows, directory_at};
ghost use Rattle.ob_lookup.specs.Prefixes.{ArePaths};
ghost use Rattle.ob_lookup.specs.Closed.{IsClosed, IsRootThere, IsViewThere};
ghost use Rattle.ob_lookup.specs.Walk.{directory_of, place_of, text_of, stop_of, Meets};
ghost use Rattle.ob_lookup.specs.Look.{look_of, turn_of, IfAgain, LooksAgain, Goes, LooksUpIn, WalkMayWantMemory, NameMayWantMemory};

use crate::Look;
use crate::next::{Next, at_stop, with_own_bytes};
use crate::onward::onward;
use crate::start::{Beginning, Start, absolute, begin};
use crate::walk::{Stop, walk};
use ob_base::{ObjId, Status};
use ob_devmap::View;
use ob_model::Mode;
use ob_names::Name;
use ob_objects::Store;
use ob_prefixes::Cache;
use ob_types::TypeSet;
use std::alloc::{AllocError, Global};

/// Looks a name up as `look` does, with the same end, by a cache of prefixes: what it needs to be there, the refusals, and
/// when it may run out of memory are those of `look`.
///
/// The cache is asked for the prefix of each text that is walked, which is all its components except the last: that of
/// the name, and those of the texts that links make. Where it is there, the walk goes on at the directory to which it
/// led, with the last component alone. Where it isn't, and the walk comes through directories alone to the last
/// component, the prefix is put there; where a link or an object of the set comes before the last component, nothing is
/// put. A prefix of more than 64 bytes takes memory, and so does one that is put: where there is none, the cache stays
/// as it was, and the end is the same.
///
/// Each prefix of the cache must lead to its directory in the states that show the store, and does so afterwards.
///
/// Source: as for `look`; what the cache keeps is this profile.
pub fn look_cached<'a, T: TypeSet>(
    alloc: Global,
    cache: &mut Cache,
    store: &Store<T>,
    view: View,
    root: Option<ObjId>,
    name: Name<'a>,
    mode: Mode,
    budget: u32,
) -> Result<Look<'a>, AllocError>
    requires closed { IsClosed store.now }
    requires view { IsViewThere store.now view }
    requires root { IsRootThere store.now root }
    requires paths { ArePaths T.Kind T T.Face T.Inner store.now cache.old }
    ensures end { IfOk result (λ look.
        LooksUpIn T.procedures store.now view mode budget root name.entry (look_of look)) }
    ensures wants { OnErr result
        (NameMayWantMemory T.procedures store.now view mode root name.entry) }
    ensures paths { ArePaths T.Kind T T.Face T.Inner store.now cache.new }
{
    let start = match begin(store, &view, root, name, mode, budget) {
        Beginning::Walk(start) => start,
        Beginning::Over(look) => return Ok(look),
    };
    let mut left = budget;
    let mut next = look_from_cached(alloc, cache, store, &view, start, mode, left)?;
    loop {
        match next {
            Next::Over(look) => return Ok(look),
            Next::Again(text) => {
                left -= 1;
                let again = look_again_cached(
                    alloc,
                    cache,
                    store,
                    &view,
                    text.as_name(),
                    mode,
                    left,
                );
                drop(text);
                next = again?;
            }
        }
    }
}

/// Walks once, by the cache, and does what is to be done where the walk stops.
fn look_from_cached<'a, T: TypeSet>(
    alloc: Global,
    cache: &mut Cache,
    store: &Store<T>,
    view: &View,
    start: Start<'a>,
    mode: Mode,
    left: u32,
) -> Result<Next<'a>, AllocError>
    requires closed { IsClosed store.now }
    requires view { IsViewThere store.now view.now }
    requires directory { IsSome (directory_at store.now (directory_of view.now start.place)) }
    requires paths { ArePaths T.Kind T T.Face T.Inner store.now cache.old }
    ensures left { IfOk result (λ next. IfAgain next (0 < left)) }
    ensures goes { IfOk result (λ next.
        (s : State T.Kind T T.Face T.Inner) (p : ℕ) (end : machine.Look) → Shows s store.now
        → IsViewOf s p view.now
        → Goes T.procedures s p mode left (turn_of next) end
        → machine.Looks T.procedures s p mode left (place_of p start.entry)
        (text_of start.entry) end) }
    ensures again { IfOk result (λ next. IfAgain next
        (WalkMayWantMemory T.procedures store.now view.now mode start.entry)) }
    ensures wants { OnErr result
        (WalkMayWantMemory T.procedures store.now view.now mode start.entry) }
    ensures paths { ArePaths T.Kind T T.Face T.Inner store.now cache.new }
{
    at_stop(
        alloc,
        walk_cached(alloc, cache, store, view, start, mode.create, mode.fold),
        mode,
        left,
    )
}

/// Walks a text from a place, by the cache.
fn walk_cached<'a, 's, T: TypeSet>(
    alloc: Global,
    cache: &mut Cache,
    store: &'s Store<T>,
    view: &View,
    start: Start<'a>,
    create: bool,
    fold: bool,
) -> Stop<'a, 's>
    requires closed { IsClosed store.now }
    requires view { IsViewThere store.now view.now }
    requires directory { IsSome (directory_at store.now (directory_of view.now start.place)) }
    requires paths { ArePaths T.Kind T T.Face T.Inner store.now cache.old }
    ensures stop { (s : State T.Kind T T.Face T.Inner) (p : ℕ) → Shows s store.now
        → IsViewOf s p view.now
        → IsStop s (place_of p start.entry) (text_of start.entry) create fold (stop_of result) }
    ensures meets { (s : State T.Kind T T.Face T.Inner) → Shows s store.now
        → Meets T.procedures s result }
    ensures paths { ArePaths T.Kind T T.Face T.Inner store.now cache.new }
{
    let from = onward(alloc, cache, store, view, start, create, fold);
    walk(store, view, from, create, fold)
}

/// Looks up a text that a reparse made, by the cache. The rest of it then has bytes of its own.
fn look_again_cached<'a, T: TypeSet>(
    alloc: Global,
    cache: &mut Cache,
    store: &Store<T>,
    view: &View,
    text: Name<'_>,
    mode: Mode,
    left: u32,
) -> Result<Next<'a>, AllocError>
    requires closed { IsClosed store.now }
    requires view { IsViewThere store.now view.now }
    requires paths { ArePaths T.Kind T T.Face T.Inner store.now cache.old }
    ensures left { IfOk result (λ next. IfAgain next (0 < left)) }
    ensures goes { IfOk result (λ next.
        (s : State T.Kind T T.Face T.Inner) (p : ℕ) (end : machine.Look) → Shows s store.now
        → IsViewOf s p view.now
        → Goes T.procedures s p mode left (turn_of next) end
        → LooksAgain T.procedures s p mode left text.entry end) }
    ensures paths { ArePaths T.Kind T T.Face T.Inner store.now cache.new }
{
    match absolute(view, text, mode.create) {
        Some(start) => {
            let next = look_from_cached(alloc, cache, store, view, start, mode, left)?;
            with_own_bytes(alloc, next)
        }
        None => Ok(Next::Over(Look::Refused(Status::ObjectPathSyntaxBad))),
    }
}
