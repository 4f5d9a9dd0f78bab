//! The refusals of a command that come before its lookup, in their order.

ghost use Rattle.std.specs.Prelude.{◌≡◌, Some, None, MatchResult};
ghost use Rattle.ob_model.specs.Grants.{first_refusal};
ghost use Rattle.ob_model.specs.Refusals.{create_refusals, open_refusals};

use ob_base::{Attrs, Status};
use ob_model::Place;
use ob_names::Name;

/// The flags of a create, or its first refusal, for a process that is live or isn't, and for what is
/// made by parameters that are fit or aren't.
///
/// Refusals, in their order: `ProcessGone` for a process that isn't live, `InvalidParameter` for flags
/// that aren't lawful or for parameters that aren't fit, and of a name `ObjectNameInvalid` for a byte
/// that is no text of the profile and `NameTooLong` for more than 32,767 bytes.
///
/// Source: OBJECT_ATTRIBUTES structure (Windows Driver Kit); the order is this profile.
pub fn judge_create(live: bool, fit: bool, place: &Place, attrs: u32) -> Result<Attrs, Status>
    ensures { MatchResult result
        (λ lawful. (lawful ≡ attrs) × (first_refusal (create_refusals live fit place.now attrs)
        ≡ None))
        (λ status. first_refusal (create_refusals live fit place.now attrs) ≡ Some status) }
{
    if !live {
        return Err(Status::ProcessGone);
    }
    let lawful = Attrs::check(attrs)?;
    if !fit {
        return Err(Status::InvalidParameter);
    }
    if let Place::At { name, .. } = place {
        Name::read(name.as_slice())?;
    }
    Ok(lawful)
}

/// The flags of an open, or its first refusal, for a process that is live or isn't: as those of a
/// create, except for the parameters, of which an open has none.
///
/// Source: OBJECT_ATTRIBUTES structure (Windows Driver Kit); the order is this profile.
pub fn judge_open(live: bool, name: &[u8], attrs: u32) -> Result<Attrs, Status>
    ensures { MatchResult result
        (λ lawful. (lawful ≡ attrs) × (first_refusal (open_refusals live name.now attrs) ≡ None))
        (λ status. first_refusal (open_refusals live name.now attrs) ≡ Some status) }
{
    if !live {
        return Err(Status::ProcessGone);
    }
    let lawful = Attrs::check(attrs)?;
    Name::read(name)?;
    Ok(lawful)
}
