//! The set of keys.

ghost use Rattle.std.specs.Prelude.{◌≡◌, true, refl, drop, if◌then◌else◌, IfOk};
ghost use Rattle.std.proofs.Common.{rules};
ghost use Rattle.ob_model.specs.Names.{begins_with_separator};
ghost use Rattle.ob_types.specs.Parsing.{answer_of};
ghost use Rattle.ob_plain.specs.Handles.{IsIdle};
ghost use Rattle.ob_key.specs.Key.{key_procedures, link_answer};
ghost use Rattle.ob_key.specs.KeyLaws.{key_front, key_itself, key_parsed_idle, key_own_face, key_same_answers};
ghost use Rattle.ob_key.specs.declared.key.KeyKind.TheVariants.{Key};

use crate::{KeyFace, KeyTable, KeyTarget};
use ob_base::Fault;
use ob_names::{Component, first, is_profile_text, substitute};
use ob_plain::{HandleCount, is_readable, without_separator};
use ob_types::{ParseAnswer, Reason, Refusal, TypeSet};
use std::alloc::{AllocError, Global};

/// The kinds of this set: there is one (Windows Internals, Object Manager: object types).
#[derive(Clone, Copy, PartialEq, Eq, Debug)]
pub enum KeyKind {
    /// A key.
    Key,
}

/// The set of keys. Its value holds nothing.
#[derive(Debug, Drop)]
pub struct KeySet;

/// A key is made, as the root of its table, from entries between semicolons; empty arguments are an empty table. An
/// entry is a path, or a path, `>` and a target; the first `>` counts. A path is components joined by single
/// backslashes, none of them empty. Refused with 1 are arguments with an empty path or component, an empty target, the
/// same path twice, or an entry whose path continues after the path of a link and a backslash, those that are
/// longer than 65,535 bytes, and those with a byte outside 0x20 to 0x7E.
///
/// Each key parses. The empty rest names the key itself. Another rest loses one leading backslash where it has
/// one, and begins with a component; where it doesn't it is refused with 3. Where the key's path and the component
/// are the path of a link, the name is looked up again, as the link's target and what follows the component;
/// that is refused with 3 where there is a byte outside 0x20 to 0x7E after the component, and with 4 where the new
/// name would be longer than 32,767 bytes. Where a key is there the rest leads to it, up to the component's end. All
/// else is refused with 3. Paths are compared byte by byte.
///
/// An open is never refused, and adds one to the number of handles, which stops at the greatest u32. A close
/// sets it to the handles left in the system. (this profile; parse methods: Windows Internals, Object Manager)
impl TypeSet for KeySet {
    type Kind = KeyKind;

    type Face = KeyFace;

    type Inner = HandleCount;

    ghost procedures = { key_procedures };

    ghost idle = { IsIdle };

    fn type_name(kind: KeyKind) -> &'static str {
        match kind {
            KeyKind::Key => "Key",
        }
    }

    fn kind_of(_face: &KeyFace) -> KeyKind {
        KeyKind::Key
    }

    fn parses(_kind: KeyKind) -> bool {
        true
    }

    fn same(a: &KeyFace, b: &KeyFace) -> bool {
        a.path() == b.path() && a.table() == b.table()
    }

    fn make(alloc: Global, _kind: KeyKind, args: &[u8]) -> Result<(KeyFace, HandleCount), Refusal> {
        if !is_readable(args) {
            return Err(Refusal::Code(1));
        }
        let table = KeyTable::read(alloc, args)?;
        if !table.is_fit() {
            return Err(Refusal::Code(1));
        }
        Ok((KeyFace::root(alloc, table)?, HandleCount::new()))
    }

    fn parse(
        alloc: Global,
        face: &KeyFace,
        rest: &[u8],
    ) -> Result<ParseAnswer<KeyFace, HandleCount>, AllocError> {
        if rest.is_empty() {
            return Ok(ParseAnswer::Itself);
        }
        let Component::One { name, rest: behind } = first(without_separator(rest)) else {
            return Ok(ParseAnswer::Refused(3));
        };
        let path = face.path_of(alloc, name)?;
        if let Some(target) = face.table().target_of(path.as_slice()) {
            return through_link(alloc, target, behind);
        }
        if !face.table().is_there(path.as_slice()) {
            return Ok(ParseAnswer::Refused(3));
        }
        Ok(ParseAnswer::Front {
            used: rest.len() - behind.len(),
            next: face.at(path)?,
            inner: HandleCount::new(),
        })
    }

    fn on_open(&mut self, handles: &mut HandleCount, _reason: Reason) -> Result<(), u16> {
        handles.add_handle();
        Ok(())
    }

    fn on_close(&mut self, handles: &mut HandleCount, _process_left: u32, system_left: u32) {
        handles.set_handles(system_left);
    }

    fn on_delete(&mut self, _handles: HandleCount) {}

    ghost refused_open = { λ set inner _ _ told. Prim.search rules };

    ghost made_idle = { λ _ _ _. refl };

    ghost closed_idle = { λ _ _ _. refl };

    ghost front_is_used = { key_front };

    ghost itself_at_end = { key_itself };

    ghost parsed_idle = { key_parsed_idle };

    ghost own_face = { key_own_face };

    ghost same_answers = { key_same_answers };

    ghost one_kind = { elim [ Key ↦ elim [ Key ↦ λ _. refl ] ] };

    ghost own_kind = { elim [ Key ↦ refl ] };

    ghost equal_kinds = { elim [ Key ↦ elim [ Key ↦ refl ] ] };
}

// A link's answer to the rest after it: the name that its target and the rest make together.
fn through_link(
    alloc: Global,
    target: &KeyTarget,
    rest: &[u8],
) -> Result<ParseAnswer<KeyFace, HandleCount>, AllocError>
    ensures { IfOk result (λ answer. answer_of answer ≡ link_answer target.now rest.now) }
{
    if !is_profile_text(rest) {
        return Ok(ParseAnswer::Refused(3));
    }
    match substitute(alloc, target.as_slice(), rest) {
        Ok(name) => Ok(ParseAnswer::Reparse(name)),
        Err(Fault::Refused(_)) => Ok(ParseAnswer::Refused(4)),
        Err(Fault::Memory) => Err(AllocError),
    }
}
