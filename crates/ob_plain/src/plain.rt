//! Events, mutants and sections.

ghost use Rattle.std.specs.Prelude.{◌≡◌, true, refl};
ghost use Rattle.std.proofs.Common.{ap, rules};
ghost use Rattle.ob_plain.specs.Plain.{plain_procedures, same_plain_kind, IsIdle, unless_told, one_more};
ghost use Rattle.ob_plain.specs.declared.plain.PlainKind.TheVariants.{Event, Mutant, Section};

use crate::{HandleCount, limit_of};
use ob_types::{ParseAnswer, Reason, Refusal, TypeSet};
use std::alloc::{AllocError, Global};

/// The kinds of plain objects (Windows Internals, Object Manager: object types).
#[derive(Clone, Copy, PartialEq, Eq, Debug)]
pub enum PlainKind {
    /// An event.
    Event,
    /// A mutant, which other interfaces call a mutex.
    Mutant,
    /// A section of memory.
    Section,
}

/// The part of a plain object that never changes.
#[derive(Debug, Drop)]
pub struct PlainFace {
    /// Its kind.
    pub kind: PlainKind,
}

/// The part of a plain object that the procedures change. (this profile)
#[derive(Debug, Drop)]
pub struct PlainInner {
    /// The handles that are open to it.
    pub handles: HandleCount,
    /// The greatest number of handles that may be open to it, 1 to 65,535, where there is one.
    pub limit: Option<u16>,
}

/// The set of the plain types. Its value holds nothing.
#[derive(Debug, Drop)]
pub struct Plain;

/// Arguments of a plain object are empty, for no limit, or its limit in decimal, from 1 to 65,535
/// without a leading zero; all others are refused with 1, so also any that are longer than 65,535
/// bytes or have a byte outside 0x20 to 0x7E. No plain object parses. An open is refused with 2 at the limit and else adds
/// one to the number of handles, which stops at the greatest u32. A close sets it to the handles
/// left in the system. (this profile)
impl TypeSet for Plain {
    type Kind = PlainKind;

    type Face = PlainFace;

    type Inner = PlainInner;

    ghost procedures = { plain_procedures };

    ghost idle = { IsIdle };

    fn type_name(kind: PlainKind) -> &'static str {
        match kind {
            PlainKind::Event => "Event",
            PlainKind::Mutant => "Mutant",
            PlainKind::Section => "Section",
        }
    }

    fn kind_of(face: &PlainFace) -> PlainKind {
        face.kind
    }

    fn parses(_kind: PlainKind) -> bool {
        false
    }

    fn same(a: &PlainFace, b: &PlainFace) -> bool {
        a.kind == b.kind
    }

    fn parse(
        _alloc: Global,
        _face: &PlainFace,
        _rest: &[u8],
    ) -> Result<ParseAnswer<PlainFace, PlainInner>, AllocError> {
        Ok(ParseAnswer::Refused(3))
    }

    fn make(
        _alloc: Global,
        kind: PlainKind,
        args: &[u8],
    ) -> Result<(PlainFace, PlainInner), Refusal> {
        let limit = limit_of(args);
        if limit.is_none() && !args.is_empty() {
            return Err(Refusal::Code(1));
        }
        let handles = HandleCount::new();
        Ok((PlainFace { kind }, PlainInner { handles, limit }))
    }

    fn on_open(&mut self, inner: &mut PlainInner, _reason: Reason) -> Result<(), u16> {
        if let Some(limit) = inner.limit {
            if inner.handles.number() >= limit as u32 {
                return Err(2);
            }
        }
        inner.handles.add_handle();
        Ok(())
    }

    fn on_close(&mut self, inner: &mut PlainInner, _process_left: u32, system_left: u32) {
        inner.handles.set_handles(system_left);
    }

    fn on_delete(&mut self, _inner: PlainInner) {}

    ghost refused_open = { λ set inner _ _ told.
        ap (λ refusal. (set, unless_told refusal inner (one_more inner))) told };

    ghost made_idle = { λ _ _ _. refl };

    ghost closed_idle = { λ _ _ _. refl };

    ghost front_is_used = { λ _ _ _ _ _ told. Prim.search rules };

    ghost itself_at_end = { λ _ _ told. Prim.search rules };

    ghost parsed_idle = { λ _ _ _ _ _ told. Prim.search rules };

    ghost own_face = { λ face. elim face.kind as (λ kind. same_plain_kind kind kind
        ≡ true) [ Event ↦ refl | Mutant ↦ refl | Section ↦ refl ] };

    ghost same_answers = { λ _ _ _ _. refl };

    ghost one_kind = { elim [
      | Event ↦ elim [
        | Event ↦ λ _. refl
        | Mutant ↦ λ e. Prim.search rules
        | Section ↦ λ e. Prim.search rules
      ]
      | Mutant ↦ elim [
        | Event ↦ λ e. Prim.search rules
        | Mutant ↦ λ _. refl
        | Section ↦ λ e. Prim.search rules
      ]
      | Section ↦ elim [
        | Event ↦ λ e.
            Prim.search rules
        | Mutant ↦ λ e. Prim.search rules
        | Section ↦ λ _. refl
      ]
    ] };

    ghost own_kind = { elim [ Event ↦ refl | Mutant ↦ refl | Section ↦ refl ] };

    ghost equal_kinds = { elim [
      | Event ↦ elim [ Event ↦ refl | Mutant ↦ refl | Section ↦ refl ]
      | Mutant ↦ elim [ Event ↦ refl | Mutant ↦ refl | Section ↦ refl ]
      | Section ↦ elim [ Event ↦ refl | Mutant ↦ refl | Section ↦ refl ]
    ] };
}
