//! A small set of types: doors, which one can be through at a time, and walls.

ghost use Rattle.std.specs.Prelude.{◌≡◌, true, false, List, [], ◌∷◌, None, Some, codes, refl, if◌then◌else◌};
ghost use Rattle.std.specs.Bool.{beq};
ghost use Rattle.std.proofs.Common.{rules};
ghost use Rattle.ob_model.specs.Procedures.{Refused};
ghost use Rattle.ob_core_tests.specs.declared.doors.Door.TheVariants.{Free, Through, Locked};

use ob_types::{ParseAnswer, Reason, Refusal, TypeSet};
use std::alloc::{AllocError, Global};

/// The part of a door that changes: whether somebody is through, and whether it is locked.
#[derive(Clone, Copy)]
pub(crate) enum Door {
    Free,
    Through,
    Locked,
}

/// Doors and walls.
#[derive(Drop)]
pub(crate) struct Doors;

/// A door is of the kind `true`; a wall, of the kind `false`, can't be made. A door that is made with
/// arguments is locked.
impl TypeSet for Doors {
    type Kind = bool;

    type Face = bool;

    type Inner = Door;

    ghost procedures = { record {
      type_name = λ _. codes "Door";
      kind_of = λ face. face;
      same_kind = beq;
      parses = λ _. false;
      same_face = beq;
      refuses_to_make = λ kind _. (if kind then None else Some 7);
      made = λ kind args. (kind, elim args [ [] ↦ Free | _ ∷ _ ↦ Locked ]);
      parsed = λ _ _. Refused 3;
      refuses_to_open = λ _ inner _. elim inner [ Free ↦ None | Through ↦ Some 9 | Locked ↦ Some 5 ];
      opened = λ set inner _. (set, elim inner [ Free ↦ Through | Through ↦ Through | Locked ↦ Locked ]);
      closed = λ set inner _ _. (set, elim inner [ Free ↦ Free | Through ↦ Free | Locked ↦ Locked ]);
      deleted = λ set _. set;
    } };

    ghost idle = { λ inner. elim inner [ Free ↦ false | Through ↦ true | Locked ↦ false ] ≡ false };

    fn type_name(_kind: bool) -> &'static str {
        "Door"
    }

    fn kind_of(face: &bool) -> bool {
        *face
    }

    fn parses(_kind: bool) -> bool {
        false
    }

    fn same(a: &bool, b: &bool) -> bool {
        *a == *b
    }

    fn parse(
        _alloc: Global,
        _face: &bool,
        _rest: &[u8],
    ) -> Result<ParseAnswer<bool, Door>, AllocError> {
        Ok(ParseAnswer::Refused(3))
    }

    fn make(_alloc: Global, kind: bool, args: &[u8]) -> Result<(bool, Door), Refusal> {
        if !kind {
            return Err(Refusal::Code(7));
        }
        if args.is_empty() {
            Ok((kind, Door::Free))
        } else {
            Ok((kind, Door::Locked))
        }
    }

    fn on_open(&mut self, inner: &mut Door, _reason: Reason) -> Result<(), u16> {
        match *inner {
            Door::Free => {
                *inner = Door::Through;
                Ok(())
            }
            Door::Through => Err(9),
            Door::Locked => Err(5),
        }
    }

    fn on_close(&mut self, inner: &mut Door, _process_left: u32, _system_left: u32) {
        if let Door::Through = *inner {
            *inner = Door::Free;
        }
    }

    fn on_delete(&mut self, _inner: Door) {}

    ghost refused_open = { λ _. elim [ Free ↦ λ _ _ e. Prim.search rules | Through ↦ λ _ _ _. refl | Locked ↦ λ _ _ _. refl ] };

    ghost made_idle = { λ _. elim [ [] ↦ λ _. refl | _ ∷ _ ↦ λ _. refl ] };

    ghost closed_idle = { λ _. elim [ Free ↦ λ _. refl | Through ↦ λ _. refl | Locked ↦ λ _. refl ] };

    ghost front_is_used = { λ _ _ _ _ _ told. Prim.search rules };

    ghost itself_at_end = { λ _ _ told. Prim.search rules };

    ghost parsed_idle = { λ _ _ _ _ _ told. Prim.search rules };

    ghost own_face = { Prim.search rules };

    ghost same_answers = { λ _ _ _ _. refl };

    ghost one_kind = { Prim.search rules };

    ghost own_kind = { Prim.search rules };

    ghost equal_kinds = { λ _ _. refl };
}
