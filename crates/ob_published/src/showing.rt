//! The writer's half: publications are recorded, and then shown to viewers.

ghost use Rattle.std.specs.Prelude.{◌≡◌, ◌<◌, ◌^◌, ◌∷◌, ◌++◌, [], IfOk, IfErr, OnOk, OnErr, MatchBool, MatchResult, drop, length, map};
ghost use Rattle.ob_published.specs.Publications.{published_rows};
ghost use Rattle.ob_published.specs.Shown.{IsShown, after_steps};
ghost use Rattle.ob_published.specs.Ahead.{asked, rows_ahead};
ghost use Rattle.ob_published.specs.declared.shown.Op.TheVariants.{Change};

use crate::book::{Book, Naming, Opened};
use crate::rule::{Of, Sees};
use crate::{Op, Publication, Published, Reach, Shown};
use core::mem::replace_with;
use left_right::reader::Reader;
use left_right::writer::Writer;
use ob_rows::{RowChange, RowTable};
use std::alloc::{AllocError, Global};
use std::collections::VecDeque;
use std::marker::Model;
use std::sync::Wait;

/// The publications of a namespace, and the copy that viewers read. A contract sees a `Showing` as the publications that
/// are recorded, and those of them that are shown: all, or all but the last.
///
/// A publication is recorded in one step, and stays recorded. It is shown in another, which may find no memory: then
/// viewers see what they saw, and it may be tried again.
pub struct Showing<J: Naming, R: Wait + Drop> {
    book: Book<J>,
    start: Published<J>,
    last: Published<J>,
    // The changes of the last publication that the copy isn't asked for yet.
    left: VecDeque<RowChange>,
    // Whether the last publication is still to be shown.
    behind: bool,
    writer: Writer<Shown, Op, (), Of<J>>,
    rt: R,
}

impl<J: Naming, R: Wait + Drop> Model for Showing<J, R> {
    ghost use Rattle.std.specs.Prelude.{drop};
    ghost use Rattle.ob_published.specs.Showing.{Shows, IsShowing};

    ghost Value = { Shows };

    ghost view = { λ s. record { published = s.last; shown = s.writer.desk.shown.value.seen.log } };

    ghost invariant = { λ s. IsShowing J.book J.opening J.leads s.start s.last s.left.items s.behind
        s.writer.desk.shown.value (drop s.writer.behind s.writer.log.items) };
}

impl<J: Naming, R: Wait + Drop> Drop for Showing<J, R> {
    // By hand, since a writer waits for the readers that are left.
    fn drop(self) {
        let Showing {
            book: _book,
            start: _start,
            last: _last,
            left: _left,
            behind: _,
            writer,
            rt,
        } = self;
        writer.take(&rt);
    }
}

impl<J: Naming, R: Wait + Drop> Showing<J, R> {
    /// Shows the opening rows of a namespace to so many viewers, with no publication: both tables have these rows.
    ///
    /// The only error is out of memory.
    pub fn open(
        alloc: Global,
        rt: R,
        opened: Opened,
        copies: (RowTable, RowTable),
        viewers: usize,
    ) -> Result<Showing<J, R>, AllocError>
        requires book { opened.seen.book ≡ J.book }
        requires copies { (copies.0 ≡ J.opening) × (copies.1 ≡ J.opening) }
        requires leads { J.leads [] }
        requires viewers { (0 < viewers) × (viewers < 2 ^ 32) }
        ensures { IfOk result (λ s. (s.published ≡ []) × (s.shown ≡ [])) }
    {
        let (book, start) = opened.named::<J>();
        let (first, second) = copies;
        let first = shown_at(&start, first);
        let second = like(&first, second);
        let writer = Writer::new(alloc, first, second, viewers)?;
        Ok(Showing {
            last: start.again(),
            book,
            start,
            left: VecDeque::new(alloc),
            behind: false,
            writer,
            rt,
        })
    }

    /// The rows of the publications that are shown.
    pub fn rows(&self) -> &RowTable
        ensures { result.now ≡ published_rows J.opening self.now.shown }
    {
        &self.writer.published().rows
    }

    /// Whether the last publication that is recorded is still to be shown.
    pub fn is_behind(&self) -> bool
        ensures { MatchBool result (length self.now.shown < length self.now.published)
            (self.now.shown ≡ self.now.published) }
    {
        self.behind
    }

    /// The publications that are recorded.
    pub fn published(&self) -> Published<J>
        ensures { result ≡ self.now.published }
    {
        self.last.again()
    }

    /// The seat of a viewer: a reader of the copy, with knowledge of no publication. It fails if as many readers as
    /// were asked for are in use, and if memory runs out.
    pub fn seat(&self) -> Result<(Reader<Shown, (), Of<J>>, Published<J>), AllocError>
        ensures { IfOk result (λ seat. seat.1 ≡ []) }
    {
        Ok((self.writer.factory().reader()?, self.start.again()))
    }

    /// Records a publication after all others. Nothing is shown yet. It takes no memory.
    ///
    /// It fails if the one before is still to be shown, and if numbers have run out: there are 2^62 publications, or
    /// 2^64 entries. Then it returns the publication, and nothing has changed.
    pub fn record(&mut self, publication: Publication) -> Result<(), Publication>
        requires leads { J.leads (self.old.published ++ publication ∷ []) }
        ensures recorded { OnOk result (self.new.published ≡ self.old.published ++ publication ∷ []) }
        ensures unshown { self.new.shown ≡ self.old.shown }
        ensures unchanged { OnErr result (self.new ≡ self.old) }
        ensures back { IfErr result (λ back. back ≡ publication) }
    {
        if self.behind || !self.last.add(&self.book, &publication) {
            return Err(publication);
        }
        self.behind = true;
        self.left = publication.changes;
        Ok(())
    }

    /// Shows viewers all publications that are recorded, and returns them. It waits for viewers that still read the
    /// copy from before the last time.
    ///
    /// The only error is out of memory; then viewers see what they saw, nothing is lost, and it may be tried again.
    pub fn show(&mut self) -> Result<Published<J>, AllocError>
        ensures returned { IfOk result (λ p. p ≡ self.old.published) }
        ensures recorded { self.new.published ≡ self.old.published }
        ensures shown { OnOk result (self.new.shown ≡ self.old.published) }
        ensures unshown { OnErr result (self.new.shown ≡ self.old.shown) }
    {
        if !self.behind {
            return Ok(self.last.again());
        }
        let reach = self.last.reach();
        show_left(&mut self.writer, &mut self.left, reach, &self.rt)?;
        self.behind = false;
        Ok(self.last.again())
    }
}

// The copy at the beginning.
fn shown_at<J: Naming>(start: &Published<J>, rows: RowTable) -> Shown
    requires start { start.now ≡ [] }
    requires leads { J.leads [] }
    requires rows { rows ≡ J.opening }
    ensures rule { IsShown J.book J.opening J.leads result }
    ensures rows { result.rows ≡ rows }
    ensures none { result.seen.log ≡ [] }
{
    let reach = start.reach();
    Shown {
        rows,
        publications: reach.publications,
        entries: reach.entries,
        seen: reach.seen,
    }
}

// The same with these rows, which are those that it has.
fn like(shown: &Shown, rows: RowTable) -> Shown
    requires { rows ≡ shown.now.rows }
    ensures { result ≡ shown.now }
{
    Shown {
        rows,
        publications: shown.publications,
        entries: shown.entries,
        seen: shown.seen.again(),
    }
}

// Asks the copy for changes, in turn; where memory runs out, those that it isn't asked for are left.
fn append_changes<J: Naming>(
    writer: &mut Writer<Shown, Op, (), Of<J>>,
    left: &mut VecDeque<RowChange>,
) -> Result<(), AllocError>
    ensures desk { writer.new.desk ≡ writer.old.desk }
    ensures asked { drop writer.new.behind writer.new.log.items ++ map Change left.new.items
        ≡ drop writer.old.behind writer.old.log.items ++ map Change left.old.items }
    ensures all { OnOk result (left.new.items ≡ []) }
{
    while let Some(change) = left.pop_front() {
        if let Err(Op::Change(back)) = writer.append(Op::Change(change)) {
            left.push_front_reserved(back);
            return Err(AllocError);
        }
    }
    Ok(())
}

// Hands the changes that are left, and the number that they reach, to the copy, and shows readers all of them. If memory
// runs out, readers see the same rows as before, and the steps handed over and the changes left still lead to the same
// rows.
fn show_left<J: Naming, R: Wait>(
    writer: &mut Writer<Shown, Op, (), Of<J>>,
    left: &mut VecDeque<RowChange>,
    reach: Reach,
    rt: &R,
) -> Result<(), AllocError>
    requires rule { IsShown J.book J.opening J.leads
        (after_steps writer.old.desk.shown.value
        (asked (drop writer.old.behind writer.old.log.items) left.old.items reach)) }
    ensures shown { OnOk result (writer.new.desk.shown.value
        ≡ after_steps writer.old.desk.shown.value
        (asked (drop writer.old.behind writer.old.log.items) left.old.items reach)) }
    ensures none { OnOk result ((left.new.items ≡ []) × (drop writer.new.behind writer.new.log.items ≡ [])) }
    ensures unshown { OnErr result (writer.new.desk.shown.value ≡ writer.old.desk.shown.value) }
    ensures rows { OnErr result (rows_ahead writer.new.desk.shown.value
        (drop writer.new.behind writer.new.log.items) left.new.items
        ≡ rows_ahead writer.old.desk.shown.value
        (drop writer.old.behind writer.old.log.items) left.old.items) }
{
    append_changes(writer, left)?;
    if writer.append(Op::Reached(reach)).is_err() {
        return Err(AllocError);
    }
    replace_with(writer, rt, publish::<J, R>)
}

// Shows readers what the copy was asked for.
fn publish<J: Naming, R: Wait>(
    writer: Writer<Shown, Op, (), Of<J>>,
    rt: &R,
) -> (Writer<Shown, Op, (), Of<J>>, Result<(), AllocError>)
    requires rule { IsShown J.book J.opening J.leads
        (after_steps writer.desk.shown.value (drop writer.behind writer.log.items)) }
    ensures values { MatchResult result.1
        (λ _. (result.0.desk.shown.value
        ≡ after_steps writer.desk.shown.value (drop writer.behind writer.log.items))
        × (drop result.0.behind result.0.log.items ≡ []))
        (λ _. (result.0.desk.shown.value ≡ writer.desk.shown.value)
        × (drop result.0.behind result.0.log.items ≡ drop writer.behind writer.log.items)) }
{
    writer.publish_as::<Sees<J>, R>(rt)
}
