//! The standard set.

ghost use Rattle.std.specs.Prelude.{◌≡◌, refl};
ghost use Rattle.ob_plain.specs.Counting.{opens_of, closes_of, deletes_of};
ghost use Rattle.either.specs.declared.Either.TheVariants.{Left, Right};
ghost use Rattle.ob_plain.specs.declared.plain.PlainKind.TheVariants.{Event, Mutant, Section};
ghost use Rattle.ob_device.specs.declared.device.DeviceKind.TheVariants.{Device, File};
ghost use Rattle.ob_key.specs.declared.key.KeyKind.TheVariants.{Key};
ghost use Rattle.ob_standard.specs.Standard.{IsFresh, StandardKind, standard};
ghost use Rattle.ob_standard.specs.Laws.{IsIdle, standard_refused_open, standard_made_idle, standard_closed_idle, standard_front, standard_itself};
ghost use Rattle.ob_standard.specs.Laws.{standard_parsed_idle, standard_own_face, standard_same_answers, standard_one_kind, standard_own_kind};

use either::Either;
use ob_device::{DeviceFace, DeviceKind, DeviceSet};
use ob_key::{KeyFace, KeyKind, KeySet};
use ob_plain::{Counting, HandleCount, Plain, PlainFace, PlainInner, PlainKind};
use ob_types::{Both, ParseAnswer, Reason, Refusal, TypeSet};
use std::alloc::{AllocError, Global};
use std::marker::Model;

/// The parts of the standard set, counted.
type Parts = Counting<Both<Plain, Both<DeviceSet, KeySet>>>;

/// The kinds of the standard set: those of each of its parts. (this profile)
pub type StandardKind = Either<PlainKind, Either<DeviceKind, KeyKind>>;

/// The part of an object of the standard set that never changes. (this profile)
pub type StandardFace = Either<PlainFace, Either<DeviceFace, KeyFace>>;

/// The part of an object of the standard set that the procedures change. (this profile)
pub type StandardInner = Either<PlainInner, Either<HandleCount, HandleCount>>;

/// The standard set: the plain types, devices with their files, and keys, counted. The names of its types
/// are `Event`, `Mutant`, `Section`, `Device`, `File` and `Key`; a namespace has two more of its own,
/// `Directory` and `SymbolicLink`. It is a type of its own, and no name for its parts, since each proof of a function that
/// names it rests on its laws as a whole then. (this profile)
#[derive(Debug, Drop)]
pub struct Standard {
    parts: Parts,
}

impl Model for Standard {
    ghost use Rattle.ob_standard.specs.Standard as definitions;

    ghost Value = { definitions.Standard };

    ghost view = { λ a. a.parts };
}

impl Standard {
    /// The standard set at first: nothing is counted. (this profile)
    pub fn new() -> Standard
        ensures { IsFresh result }
    {
        Standard {
            parts: Counting::new(Both::new(Plain, Both::new(DeviceSet, KeySet))),
        }
    }

    /// The opens that were accepted.
    pub fn opens(&self) -> u64
        ensures { result ≡ opens_of self.now }
    {
        self.parts.opens()
    }

    /// The closes.
    pub fn closes(&self) -> u64
        ensures { result ≡ closes_of self.now }
    {
        self.parts.closes()
    }

    /// The deletes.
    pub fn deletes(&self) -> u64
        ensures { result ≡ deletes_of self.now }
    {
        self.parts.deletes()
    }
}

/// Every call is handed to the parts. (this profile)
impl TypeSet for Standard {
    type Kind = StandardKind;

    type Face = StandardFace;

    type Inner = StandardInner;

    ghost procedures = { standard };

    ghost idle = { IsIdle };

    fn type_name(kind: StandardKind) -> &'static str {
        Parts::type_name(kind)
    }

    fn kind_of(face: &StandardFace) -> StandardKind {
        Parts::kind_of(face)
    }

    fn parses(kind: StandardKind) -> bool {
        Parts::parses(kind)
    }

    fn same(a: &StandardFace, b: &StandardFace) -> bool {
        Parts::same(a, b)
    }

    fn parse(
        alloc: Global,
        face: &StandardFace,
        rest: &[u8],
    ) -> Result<ParseAnswer<StandardFace, StandardInner>, AllocError> {
        Parts::parse(alloc, face, rest)
    }

    fn make(
        alloc: Global,
        kind: StandardKind,
        args: &[u8],
    ) -> Result<(StandardFace, StandardInner), Refusal> {
        Parts::make(alloc, kind, args)
    }

    fn on_open(&mut self, inner: &mut StandardInner, reason: Reason) -> Result<(), u16> {
        self.parts.on_open(inner, reason)
    }

    fn on_close(&mut self, inner: &mut StandardInner, process_left: u32, system_left: u32) {
        self.parts.on_close(inner, process_left, system_left);
    }

    fn on_delete(&mut self, inner: StandardInner) {
        self.parts.on_delete(inner);
    }

    ghost refused_open = { standard_refused_open };

    ghost made_idle = { standard_made_idle };

    ghost closed_idle = { standard_closed_idle };

    ghost front_is_used = { standard_front };

    ghost itself_at_end = { standard_itself };

    ghost parsed_idle = { standard_parsed_idle };

    ghost own_face = { standard_own_face };

    ghost same_answers = { standard_same_answers };

    ghost one_kind = { standard_one_kind };

    ghost own_kind = { standard_own_kind };

    ghost equal_kinds = { elim [
      | Left a ↦ elim [
        | Left b ↦ elim a as (λ x. ⟦<StandardKind as PartialEq>⟧.eq (Left x) (Left b)
            ≡ (standard).same_kind (Left x) (Left b)) [
              | Event ↦ elim b as (λ y. ⟦<StandardKind as PartialEq>⟧.eq (Left Event) (Left y)
                  ≡ (standard).same_kind (Left Event) (Left y)) [
                    | Event ↦ refl
                    | Mutant ↦ refl
                    | Section ↦ refl
                  ]
              | Mutant ↦ elim b as (λ y. ⟦<StandardKind as PartialEq>⟧.eq (Left Mutant) (Left y)
                  ≡ (standard).same_kind (Left Mutant) (Left y)) [
                    | Event ↦ refl
                    | Mutant ↦ refl
                    | Section ↦ refl
                  ]
              | Section ↦ elim b as (λ y. ⟦<StandardKind as PartialEq>⟧.eq (Left Section) (Left y)
                  ≡ (standard).same_kind (Left Section) (Left y)) [
                    | Event ↦ refl
                    | Mutant ↦ refl
                    | Section ↦ refl
                  ]
            ]
        | Right b ↦ refl
      ]
      | Right a ↦ elim a as (λ x. (b : StandardKind) → ⟦<StandardKind as PartialEq>⟧.eq (Right x) b
          ≡ (standard).same_kind (Right x) b) [
            | Left a ↦ elim [
              | Left b ↦ refl
              | Right b ↦ elim b as (λ y. ⟦<StandardKind as PartialEq>⟧.eq (Right (Left a)) (Right y)
                  ≡ (standard).same_kind (Right (Left a)) (Right y)) [
                    | Left b ↦ elim a as (λ x.
                        ⟦<StandardKind as PartialEq>⟧.eq (Right (Left x)) (Right (Left b))
                        ≡ (standard).same_kind (Right (Left x)) (Right (Left b))) [
                          | Device ↦ elim b as (λ y.
                              ⟦<StandardKind as PartialEq>⟧.eq (Right (Left Device)) (Right (Left y))
                              ≡ (standard).same_kind (Right (Left Device)) (Right (Left y))) [
                                | Device ↦ refl
                                | File ↦ refl
                              ]
                          | File ↦ elim b as (λ y.
                              ⟦<StandardKind as PartialEq>⟧.eq (Right (Left File)) (Right (Left y))
                              ≡ (standard).same_kind (Right (Left File)) (Right (Left y))) [ Device ↦ refl | File ↦ refl ]
                        ]
                    | Right b ↦ refl
                  ]
            ]
            | Right a ↦ elim [
              | Left b ↦ refl
              | Right b ↦ elim b as (λ y. ⟦<StandardKind as PartialEq>⟧.eq (Right (Right a)) (Right y)
                  ≡ (standard).same_kind (Right (Right a)) (Right y)) [
                    | Left b ↦ refl
                    | Right b ↦ elim a as (λ x.
                        ⟦<StandardKind as PartialEq>⟧.eq (Right (Right x)) (Right (Right b))
                        ≡ (standard).same_kind (Right (Right x)) (Right (Right b))) [
                          | Key ↦ elim b as (λ y.
                              ⟦<StandardKind as PartialEq>⟧.eq (Right (Right Key)) (Right (Right y))
                              ≡ (standard).same_kind (Right (Right Key)) (Right (Right y))) [ Key ↦ refl ]
                        ]
                  ]
            ]
          ]
    ] };
}
