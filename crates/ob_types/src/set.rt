//! The procedures of a set of types.

ghost use Rattle.std.specs.Prelude.{◌≡◌, None, Some, true, IfOk, IfErr};
ghost use Rattle.ob_model.specs.Procedures as model;
ghost use Rattle.ob_types.specs.Parsing.{answer_of};
ghost use Rattle.ob_types.specs.Told.{IsTold};

use crate::{ParseAnswer, Reason, Refusal};
use std::alloc::{AllocError, Global};

/// A set of types: the kinds of its objects, and the procedures that the namespace calls for them
/// (Windows Internals, Object Manager: object types and their methods).
///
/// An object has a face, which never changes, and an inner value, which its open, close and delete
/// procedures change. Memory refused in `make` and `parse` aside, what a procedure gives depends on nothing but
/// what it is given: on the arguments, and where it has one on the set's own value. (this profile)
pub trait TypeSet: Sized + Drop + Send {
    /// The kinds of objects, one for each type.
    type Kind: Copy + Eq + Send + Sync;

    /// The part of an object that never changes.
    type Face: Drop + Send + Sync;

    /// The part of an object that the procedures change.
    type Inner: Drop + Send;

    /// The procedures' meanings, as functions.
    ghost procedures: { model.Procedures Self.Kind Self Self.Face Self.Inner };

    /// The inner value counts no open handle.
    ghost idle: { Self.Inner → Type 0 };

    /// The name of the kind's type.
    fn type_name(kind: Self::Kind) -> &'static str
        ensures { result.now ≡ procedures.type_name kind };

    /// The kind of an object with this face.
    fn kind_of(face: &Self::Face) -> Self::Kind
        ensures { result ≡ procedures.kind_of face.now };

    /// Whether objects of the kind have a parse procedure.
    fn parses(kind: Self::Kind) -> bool
        ensures { result ≡ procedures.parses kind };

    /// Whether two faces are those of one object: then they answer every rest alike.
    fn same(a: &Self::Face, b: &Self::Face) -> bool
        ensures { result ≡ procedures.same_face a.now b.now };

    /// A new object of the kind: its face and its inner value. It is refused with a number where
    /// the type refuses the arguments; else out of memory is the only error.
    fn make(
        alloc: Global,
        kind: Self::Kind,
        args: &[u8],
    ) -> Result<(Self::Face, Self::Inner), Refusal>
        ensures accepted { IfOk result (λ _. procedures.refuses_to_make kind args.now ≡ None) }
        ensures made { IfOk result (λ instance. instance ≡ procedures.made kind args.now) }
        ensures refused { IfErr result (λ refusal.
            IsTold refusal (procedures.refuses_to_make kind args.now)) };

    /// The answer of the parse procedure of an object with this face to the rest of a name that leads to
    /// the object. The only error is out of memory. It is called outside of every lock, and knows nothing of
    /// the set's value. A run asks only objects whose kind parses; what others answer is the set's choice.
    fn parse(
        alloc: Global,
        face: &Self::Face,
        rest: &[u8],
    ) -> Result<ParseAnswer<Self::Face, Self::Inner>, AllocError>
        ensures { IfOk result (λ answer. answer_of answer ≡ procedures.parsed face.now rest.now) };

    /// Called for a new handle to an object with this inner value. It may refuse the handle,
    /// with a number of its own; then the set and the inner value stay as they were.
    fn on_open(&mut self, inner: &mut Self::Inner, reason: Reason) -> Result<(), u16>
        ensures accepted { IfOk result (λ _. procedures.refuses_to_open self.old inner.old reason
            ≡ None) }
        ensures refused { IfErr result (λ code. procedures.refuses_to_open self.old inner.old reason
            ≡ Some code) }
        ensures left { (self.new, inner.new) ≡ procedures.opened self.old inner.old reason };

    /// Called for a handle that went, given the handles to the object that are left in its
    /// process and in the whole system.
    fn on_close(&mut self, inner: &mut Self::Inner, process_left: u32, system_left: u32)
        ensures { (self.new, inner.new)
            ≡ procedures.closed self.old inner.old process_left system_left };

    /// Called for an object that goes, with no handle open to it.
    fn on_delete(&mut self, inner: Self::Inner)
        requires { idle inner }
        ensures { self.new ≡ procedures.deleted self.old inner };

    /// An open that is refused leaves the set and the inner value as they were.
    ghost refused_open: { model.RefusedOpenKeeps procedures };

    /// A new object counts no open handle.
    ghost made_idle: { model.MadeIsIdle procedures idle };

    /// A close that leaves no handle in the system leaves an idle inner value.
    ghost closed_idle: { model.LastClosedIsIdle procedures idle };

    /// A parse procedure uses a front of the rest, at least a byte of one that isn't empty, and leaves what
    /// is after it only to an instance that parses.
    ghost front_is_used: { model.FrontIsUsed procedures };

    /// The object itself is answered only to the empty rest.
    ghost itself_at_end: { model.ItselfIsAtEnd procedures };

    /// An instance that a parse procedure makes is idle.
    ghost parsed_idle: { model.ParsedIsIdle procedures idle };

    /// A face is found the same as itself.
    ghost own_face: { model.OwnFaceIsSame procedures };

    /// Faces that are found the same answer every rest alike.
    ghost same_answers: { model.SameFacesAnswerAlike procedures };

    /// Kinds that are found the same are one kind.
    ghost one_kind: { model.SameKindIsOne procedures };

    /// A kind is found the same as itself.
    ghost own_kind: { model.OwnKindIsSame procedures };

    /// `==` of kinds finds the same what the procedures find the same.
    ghost equal_kinds: { (a b : Self.Kind) → Self.Kind.PartialEq.eq a b
        ≡ procedures.same_kind a b };
}
