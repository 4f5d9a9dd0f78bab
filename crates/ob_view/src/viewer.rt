//! A viewer.

ghost use Rattle.std.specs.Prelude.{◌≡◌, [], IfNone, IfSome};
ghost use mathlib.Core.List.{IsPrefix};
ghost use Rattle.ob_published.specs.Publications.{published_rows, total_entries};
ghost use Rattle.ob_published.specs.Shown.{IsShown};
ghost use Rattle.ob_view.specs.Answered.{Answers};
ghost use Rattle.ob_view.specs.Viewed.{object_among, IsResolved};

use crate::query::{Query, answer};
use left_right::reader::Reader;
use ob_base::ObjId;
use ob_published::{Naming, Of, Published, Sees, Shown};
use std::marker::Model;

/// A reader of the names of one namespace, as they were after some publication. A contract sees a `Viewer` as the
/// longest list of publications that it knows of: it was told of them, or saw them. It later sees lists that begin
/// with these.
///
/// A viewer sees a directory's own entries alone: it follows no link, no shadow and no device map.
#[derive(Drop)]
pub struct Viewer<J: Naming> {
    // It is away only while a lookup reads.
    reader: Option<Reader<Shown, (), Of<J>>>,
    known: Published<J>,
}

impl<J: Naming> Model for Viewer<J> {
    ghost use Rattle.std.specs.Prelude.{List};
    ghost use Rattle.ob_published.specs.declared.publication.Publication.{Publication};

    ghost Value = { List Publication };

    ghost view = { λ viewer. viewer.known };
}

impl<J: Naming> Viewer<J> {
    /// A viewer at a seat, which knows what came with the seat.
    pub fn new(seat: (Reader<Shown, (), Of<J>>, Published<J>)) -> Viewer<J>
        ensures { result ≡ seat.1 }
    {
        let (reader, known) = seat;
        Viewer {
            reader: Some(reader),
            known,
        }
    }

    /// The publications that the viewer knows of.
    pub fn known(&self) -> Published<J>
        ensures { result ≡ self.now }
    {
        self.known.again()
    }

    /// Tells the viewer of publications. From now on it sees no fewer.
    pub fn told(&mut self, published: &Published<J>)
        ensures kept { IsPrefix self.old self.new }
        ensures told { IsPrefix published.now self.new }
    {
        self.known = self.known.longer(published);
    }

    /// Looks a component up, of any length and with any bytes, in a directory as it was after the latest publication that is
    /// shown: returns the object of the entry with an equal name, with `fold` for equality without regard to case, and of several the
    /// one that was inserted first; and the number of the last entry of the journal that is published. It takes
    /// no lock and waits for nobody, and takes no memory.
    ///
    /// It is `None` where the copy that is shown is older than what the viewer knows of, or isn't shown any more; then
    /// the viewer stays as it was.
    ///
    /// Source: Windows Internals, Object Manager: object directories; OBJECT_ATTRIBUTES structure
    /// (Windows Driver Kit), OBJ_CASE_INSENSITIVE. Which of several matches is found is this profile.
    pub fn look_up(
        &mut self,
        directory: ObjId,
        component: &[u8],
        fold: bool,
    ) -> Option<(Option<ObjId>, u64)>
        ensures later { IsPrefix self.old self.new }
        ensures object { IfSome result (λ r. r.0
            ≡ object_among (published_rows J.opening self.new) directory component.now fold) }
        ensures number { IfSome result (λ r. r.1 ≡ total_entries self.new) }
        ensures none { IfNone result (self.new ≡ self.old) }

        // An invariant of all publications.
        ensures leads { J.leads self.new }
    {
        self.ask(&Query::Component {
            directory,
            component,
            fold,
        })
    }

    /// Resolves an absolute path, of any length and with any bytes, as it was after the latest publication that is shown: returns the
    /// object at its end, the root for `\`, and the number of the last entry of the journal that is published. Each component is
    /// looked up among the own entries of the directory before it, with `fold` for equality without regard to case: no link is followed,
    /// no shadow and no device map is searched, and `\??` is a name as any other. The object is `None` where a component finds nothing, and
    /// where the path isn't components that each follow a separator: where it begins with another byte, has an empty component, or ends
    /// in a separator, except for the root. It takes no lock and waits for nobody, and takes no memory.
    ///
    /// It is `None` where the copy that is shown is older than what the viewer knows of, or isn't shown any more; then
    /// the viewer stays as it was.
    ///
    /// Source: OBJECT_ATTRIBUTES structure (Windows Driver Kit), for names whose components are separated by `\` and for
    /// OBJ_CASE_INSENSITIVE; that own entries alone count is this profile.
    pub fn resolve(&mut self, path: &[u8], fold: bool) -> Option<(Option<ObjId>, u64)>
        ensures later { IsPrefix self.old self.new }
        ensures object { IfSome result (λ r.
            IsResolved (published_rows J.opening self.new) path.now fold (r.0)) }
        ensures number { IfSome result (λ r. r.1 ≡ total_entries self.new) }
        ensures none { IfNone result (self.new ≡ self.old) }

        // An invariant of all publications.
        ensures leads { J.leads self.new }
    {
        self.ask(&Query::Path { path, fold })
    }

    // Answers a query from the copy that is shown, unless none is, or it is older than the publications that are known.
    fn ask(&mut self, query: &Query<'_>) -> Option<(Option<ObjId>, u64)>
        ensures later { IsPrefix self.old self.new }
        ensures object { IfSome result (λ r.
            Answers (published_rows J.opening self.new) query.now (r.0)) }
        ensures number { IfSome result (λ r. r.1 ≡ total_entries self.new) }
        ensures none { IfNone result (self.new ≡ self.old) }
        ensures leads { J.leads self.new }
    {
        // (its contract has the invariant of the publications)
        let _ = self.known.number();
        let reader = self.reader.take()?;
        match reader.enter_as::<Sees<J>>() {
            Ok(reading) => {
                let seen = see(&mut self.known, reading.get(), query);
                self.reader = Some(reading.leave());
                seen
            }
            Err(reader) => {
                self.reader = Some(reader);
                None
            }
        }
    }
}

// Answers a query from the copy that is shown, unless it is older than the publications that are known.
fn see<J: Naming>(
    known: &mut Published<J>,
    shown: &Shown,
    query: &Query<'_>,
) -> Option<(Option<ObjId>, u64)>
    requires shown { IsShown J.book J.opening J.leads shown.now }
    ensures later { IsPrefix known.old known.new }
    ensures object { IfSome result (λ r.
        Answers (published_rows J.opening known.new) query.now (r.0)) }
    ensures number { IfSome result (λ r. r.1 ≡ total_entries known.new) }
    ensures none { IfNone result (known.new ≡ known.old) }
    ensures leads { J.leads known.new }
{
    let latest = Published::<J>::of_shown(shown);
    if !known.precedes(&latest) {
        let _ = known.number();
        return None;
    }
    let number = latest.number();
    *known = latest;
    Some((answer(&shown.rows, query), number))
}
