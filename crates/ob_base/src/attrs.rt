//! The attribute flags of a request.

ghost use Rattle.std.specs.Prelude.{⊤, ◌≡◌, ◌↔◌, [], ◌∷◌, true, codes, IsOk, IfOk, IfErr};
ghost use Rattle.ob_base.specs.Attrs.{
  has_flag,
  are_lawful,
  inherit_flag,
  permanent_flag,
  exclusive_flag,
  case_insensitive_flag,
  open_if_flag,
  open_link_flag,
};

use crate::Status;
use bitflags::{Flag, Flags, bitflag_items};
use std::marker::Model;

// Any set of bits, lawful or not, with the operations of `bitflags`. `Attrs` holds one and is not
// itself a flags type: those operations can make sets that are not lawful, and a flags type has a
// constant slice of its own values, which a type with an `impl Model` cannot have.
#[derive(Clone, Copy, PartialEq, Eq, Debug)]
struct FlagSet(u32);

bitflag_items! {
    impl FlagSet: u32 {
        const INHERIT = Attrs::INHERIT;
        const PERMANENT = Attrs::PERMANENT;
        const EXCLUSIVE = Attrs::EXCLUSIVE;
        const CASE_INSENSITIVE = Attrs::CASE_INSENSITIVE;
        const OPENIF = Attrs::OPENIF;
        const OPENLINK = Attrs::OPENLINK;
    }
}

impl Flags for FlagSet {
    type Bits = u32;

    ghost exact = { ⊤ };

    ghost table = { (codes "INHERIT", inherit_flag) ∷ (codes "PERMANENT", permanent_flag)
        ∷ (codes "EXCLUSIVE", exclusive_flag) ∷ (codes "CASE_INSENSITIVE", case_insensitive_flag)
        ∷ (codes "OPENIF", open_if_flag) ∷ (codes "OPENLINK", open_link_flag) ∷ [] };

    ghost set_of = { λ set. set.0 };

    fn flags<'a>() -> &'a [Flag<FlagSet>] {
        FlagSet::FLAGS
    }

    fn bits(&self) -> u32 {
        self.0
    }

    fn from_bits_retain(bits: u32) -> FlagSet {
        FlagSet(bits)
    }
}

/// A lawful set of the attribute flags of a request. A contract sees it as the number of its bits.
///
/// The flags and their numbers are those of the Windows Driver Kit's "OBJECT_ATTRIBUTES structure";
/// which sets are lawful is this profile's. Only [`Attrs::check`] makes one.
#[derive(Clone, Copy, PartialEq, Eq, Debug)]
pub struct Attrs {
    set: FlagSet,
}

impl Model for Attrs {
    ghost use Rattle.std.specs.Prelude.{ℕ, ◌≡◌, true};
    ghost use Rattle.ob_base.specs.Attrs.{are_lawful};

    ghost Value = { ℕ };

    ghost view = { λ attrs. attrs.set.0 };

    ghost invariant = { λ attrs. are_lawful attrs.set.0 ≡ true };

    ghost inverse = { λ bits. record { set = record { 0 = bits } } };
}

impl Attrs {
    /// The bit of INHERIT: the new handle is handed on to child processes. (OBJ_INHERIT)
    pub const INHERIT: u32 = 0x2;

    /// The bit of PERMANENT: the new object keeps its name when its last handle is closed.
    /// (OBJ_PERMANENT)
    pub const PERMANENT: u32 = 0x10;

    /// The bit of EXCLUSIVE: only one process may hold handles to the object. (OBJ_EXCLUSIVE)
    pub const EXCLUSIVE: u32 = 0x20;

    /// The bit of CASE_INSENSITIVE: names are compared without regard to the case of letters.
    /// (OBJ_CASE_INSENSITIVE)
    pub const CASE_INSENSITIVE: u32 = 0x40;

    /// The bit of OPENIF: a create opens the object that has the name already. (OBJ_OPENIF)
    pub const OPENIF: u32 = 0x80;

    /// The bit of OPENLINK: an open takes a symbolic link itself, and not what it leads to.
    /// (OBJ_OPENLINK)
    pub const OPENLINK: u32 = 0x100;

    /// The set with these bits, where a request may carry them. `InvalidParameter`, and no other
    /// error, where a bit is none of the six flags' (outside 0x1F2), or INHERIT and EXCLUSIVE are
    /// both set. (this profile)
    #[tactic(auto, unfolding(bitflags::proofs::OnLiterals::bitflags_on_literals))]
    pub fn check(bits: u32) -> Result<Attrs, Status>
        ensures lawful { IsOk result ↔ (are_lawful bits ≡ true) }
        ensures value { IfOk result (λ attrs. attrs ≡ bits) }
        ensures refused { IfErr result (λ status. status ≡ Status.InvalidParameter) }
    {
        let Some(set) = FlagSet::from_bits(bits) else {
            return Err(Status::InvalidParameter);
        };
        if set.contains(FlagSet::INHERIT) && set.contains(FlagSet::EXCLUSIVE) {
            return Err(Status::InvalidParameter);
        }
        Ok(Attrs { set })
    }

    /// The bits of the set, a number from 0 to 0x1F2. They are lawful.
    pub fn bits(self) -> u32
        ensures value { result ≡ self }
        ensures lawful { are_lawful result ≡ true }
    {
        self.set.bits()
    }

    /// Whether INHERIT is set. (OBJ_INHERIT)
    pub fn is_inherit(self) -> bool
        ensures { result ≡ has_flag inherit_flag self }
    {
        self.set.contains(FlagSet::INHERIT)
    }

    /// Whether PERMANENT is set. (OBJ_PERMANENT)
    pub fn is_permanent(self) -> bool
        ensures { result ≡ has_flag permanent_flag self }
    {
        self.set.contains(FlagSet::PERMANENT)
    }

    /// Whether EXCLUSIVE is set. (OBJ_EXCLUSIVE)
    pub fn is_exclusive(self) -> bool
        ensures { result ≡ has_flag exclusive_flag self }
    {
        self.set.contains(FlagSet::EXCLUSIVE)
    }

    /// Whether CASE_INSENSITIVE is set. (OBJ_CASE_INSENSITIVE)
    pub fn is_case_insensitive(self) -> bool
        ensures { result ≡ has_flag case_insensitive_flag self }
    {
        self.set.contains(FlagSet::CASE_INSENSITIVE)
    }

    /// Whether OPENIF is set. (OBJ_OPENIF)
    pub fn is_open_if(self) -> bool
        ensures { result ≡ has_flag open_if_flag self }
    {
        self.set.contains(FlagSet::OPENIF)
    }

    /// Whether OPENLINK is set. (OBJ_OPENLINK)
    pub fn is_open_link(self) -> bool
        ensures { result ≡ has_flag open_link_flag self }
    {
        self.set.contains(FlagSet::OPENLINK)
    }
}
