//! Creates.

ghost use Rattle.std.specs.Option.{option_map_or};
ghost use Rattle.std.specs.Prelude.{◌≡◌, ◌||◌, ℕ, Option, None, Some, true, false, IsOk, IfOk, IfErr, OnErr};
ghost use Rattle.ob_model.specs.declared.command.Place.TheVariants.{At, Unnamed};
ghost use Rattle.ob_model.specs.declared.reply.Answer.TheVariants.{Done};
ghost use Rattle.ob_model.specs.Creates as machine;
ghost use Rattle.ob_model.specs.Creates.{create_mode};
ghost use Rattle.ob_model.specs.Looks as looks;
ghost use Rattle.ob_model.specs.Grants.{is_table_full};
ghost use Rattle.ob_model.specs.State.{is_live, is_store_full};
ghost use Rattle.ob_model.specs.Settle.{IsSettled};
ghost use Rattle.ob_model.specs.Step.{CreatesAt, CreatesIn};
ghost use Rattle.ob_space.specs.Early.{is_create_refused, is_shadow_refused, lacks_root};
ghost use Rattle.ob_space.specs.Found.{is_create_refused_at, IsCreateRefused, IsNameRefused};
ghost use Rattle.ob_commands.specs.Making.{making_of};
ghost use Rattle.ob_space.specs.Orderly.{IsBetweenSteps, IsOrderly};

use crate::making::{Making, is_fit, make_named, make_unnamed, type_made};
use crate::shadows::shadow_object;
use ob_base::{Attrs, Handle, ObjId, Proc, Status};
use ob_handles::HandleTable;
use ob_lookup::Look;
use ob_model::{Mode, Place, Reply};
use ob_names::Name;
use ob_space::{Space, is_live, judge_create, look_up, open_at, root_object, status_alone};
use ob_types::TypeSet;
use std::alloc::AllocError;

/// Makes an object at a place, and opens a handle to it. At a name that is taken it opens, with OPENIF, what is there
/// already, where that has the type of what would be made: the status is then `ObjectNameExists`, and a directory keeps the
/// shadow that it has. A link that the last component of the name leads to isn't followed, and no parse is called. A
/// directory that is made has the object of the handle `shadow` as its shadow, where one is given.
///
/// Refusals, in their order: `ProcessGone` for a process that isn't live; `InvalidParameter` for flags that aren't
/// lawful, and for a link whose target hasn't 1 to 32,767 bytes of the profile; of a name `ObjectNameInvalid` for its
/// bytes, `NameTooLong` for its length, `InvalidHandle` where the process lacks the root handle; of a shadow `InvalidHandle` where the process lacks its
/// handle, `ObjectTypeMismatch` where that leads to no directory, and `InvalidParameter` where it leads to one that has a shadow
/// itself; of a name those of a lookup, and where it is taken `ObjectNameCollision`, or with OPENIF `ObjectTypeMismatch` and those of a grant. Past these,
/// `InsufficientResources` where no handle or no object more fits, or no number for one or for the name is left; and
/// `TypeRefused` with the set's number where the set refuses to make the object, or to open it.
///
/// A refusal changes nothing, except for the last: a new object that the set refuses to open is deleted, and its number
/// stays drawn. The only fault is out of memory, and then nothing has changed; what is refused before the lookup takes none, nor does
/// what is refused at what the name leads to, before the set is asked, where the lookup follows no link, or without a name
/// since no handle or object more fits.
///
/// It asks that the state is orderly, settled and sound, and leaves it orderly.
///
/// Source: ZwCreateDirectoryObject, ZwCreateSymbolicLinkObject, ZwCreateEvent and OBJECT_ATTRIBUTES structure (OBJ_OPENIF,
/// OBJ_PERMANENT; Windows Driver Kit); NtCreateDirectoryObjectEx (a shadow directory); Windows Internals, Object Manager (object types and their methods). The order of
/// refusals, and that a new object whose open is refused is deleted under its number, are this profile.
pub fn create<T: TypeSet, H: HandleTable>(
    space: &mut Space<T, H>,
    process: Proc,
    place: &Place,
    attrs: u32,
    shadow: Option<Handle>,
    making: Making<'_, T::Kind>,
) -> Result<Reply, AllocError>
    requires between { IsBetweenSteps T.idle space.old }
    ensures orderly { IsOrderly T.idle space.new }
    ensures step { IfOk result (λ reply.
        CreatesAt T.procedures space.old process place.now attrs shadow (making_of making.entry)
        (Done reply) space.new) }
    ensures early { is_create_refused space.old process place.now attrs
        (making_of making.entry None) ≡ true → IsOk result }
    ensures shadow { option_map_or (is_shadow_refused space.old process) shadow false ≡ true
        → IsOk result }
    ensures found { IsCreateRefused T.procedures space.old process place.now attrs
        (making_of making.entry None) → IsOk result }
    ensures err { OnErr result (space.new ≡ space.old) }
{
    let live = is_live(space, process);
    let attrs = match judge_create(live, is_fit(&making), place, attrs) {
        Ok(attrs) => attrs,
        Err(status) => return Ok(status_alone(status)),
    };
    match place {
        Place::At { root, name } => {
            let name = Name::new(name.as_slice());
            create_at_name(space, process, *root, name, attrs, shadow, making)
        }
        Place::Unnamed => create_unnamed(space, process, attrs, shadow, making),
    }
}

/// Makes an object at a name, or opens what is there already.
fn create_at_name<T: TypeSet, H: HandleTable>(
    space: &mut Space<T, H>,
    process: Proc,
    root: Option<Handle>,
    name: Name<'_>,
    attrs: Attrs,
    shadow: Option<Handle>,
    making: Making<'_, T::Kind>,
) -> Result<Reply, AllocError>
    requires between { IsBetweenSteps T.idle space.old }
    requires live { is_live space.old process ≡ true }
    requires fit { machine.is_fit (making_of making None) ≡ true }
    ensures orderly { IsOrderly T.idle space.new }
    ensures step { IfOk result (λ reply.
        CreatesIn T.procedures space.old process (At root name.entry) attrs shadow
        (making_of making.entry) (Done reply) space.new) }
    ensures early { lacks_root space.old process root ≡ true → IsOk result }
    ensures shadow { option_map_or (is_shadow_refused space.old process) shadow false ≡ true
        → IsOk result }
    ensures found { IsNameRefused T.procedures space.old process (create_mode attrs) root name.entry
        (is_create_refused_at T.procedures space.old process attrs (making_of making.entry None))
        → IsOk result }
    ensures err { OnErr result (space.new ≡ space.old) }
{
    let root = match root_object(space, process, root) {
        Ok(root) => root,
        Err(status) => return Ok(status_alone(status)),
    };
    let shadow = match shadow_object(space, process, shadow) {
        Ok(shadow) => shadow,
        Err(status) => return Ok(status_alone(status)),
    };
    match look_up(space, process, root, name, create_mode(attrs))? {
        Look::Refused(status) => Ok(status_alone(status)),
        Look::At(object) => open_there(space, process, object, attrs, making),
        Look::Vacant {
            directory,
            component,
        } => make_named(space, process, directory, component, attrs, shadow, making),
        Look::Parse { .. } => unreachable!(),
    }
}

/// Makes an object without a name.
fn create_unnamed<T: TypeSet, H: HandleTable>(
    space: &mut Space<T, H>,
    process: Proc,
    attrs: Attrs,
    shadow: Option<Handle>,
    making: Making<'_, T::Kind>,
) -> Result<Reply, AllocError>
    requires between { IsBetweenSteps T.idle space.old }
    requires live { is_live space.old process ≡ true }
    requires fit { machine.is_fit (making_of making None) ≡ true }
    ensures orderly { IsOrderly T.idle space.new }
    ensures step { IfOk result (λ reply.
        CreatesIn T.procedures space.old process Unnamed attrs shadow (making_of making.entry)
        (Done reply) space.new) }
    ensures shadow { option_map_or (is_shadow_refused space.old process) shadow false ≡ true
        → IsOk result }
    ensures full { (is_table_full space.old process || is_store_full space.old) ≡ true
        → IsOk result }
    ensures err { OnErr result (space.new ≡ space.old) }
{
    match shadow_object(space, process, shadow) {
        Ok(shadow) => make_unnamed(space, process, attrs, shadow, making),
        Err(status) => Ok(status_alone(status)),
    }
}

/// How the name of a create is looked up.
fn create_mode(attrs: Attrs) -> Mode
    ensures { result ≡ create_mode attrs }
{
    Mode {
        create: true,
        fold: attrs.is_case_insensitive(),
        follow: false,
    }
}

/// Ends a create at an object that is there already: with OPENIF it opens it.
fn open_there<T: TypeSet, H: HandleTable>(
    space: &mut Space<T, H>,
    process: Proc,
    object: ObjId,
    attrs: Attrs,
    making: Making<'_, T::Kind>,
) -> Result<Reply, AllocError>
    requires orderly { IsOrderly T.idle space.old }
    requires settled { IsSettled space.old }
    requires live { is_live space.old process ≡ true }
    ensures orderly { IsOrderly T.idle space.new }
    ensures step { IfOk result (λ reply. (shadow : Option ℕ)
        → machine.Creates T.procedures space.old process attrs (making_of making.entry shadow)
        (looks.At object) (Done reply) space.new) }
    ensures early { is_create_refused_at T.procedures space.old process attrs
        (making_of making.entry None) (looks.At object) ≡ true → IsOk result }
    ensures err { OnErr result (space.new ≡ space.old) }
{
    if !attrs.is_open_if() {
        return Ok(status_alone(Status::ObjectNameCollision));
    }
    let wanted = type_made(making);
    let status = Status::ObjectNameExists;
    open_at(space, process, object, attrs, wanted, status)
}
