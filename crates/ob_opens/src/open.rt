//! Opens by name.

ghost use Rattle.std.specs.Prelude.{◌≡◌, Some, None, true, IsTrue, IsOk, IfOk, IfErr, OnErr};
ghost use Rattle.ob_model.specs.Opens.{Opens, open_mode, type_wanted};
ghost use Rattle.ob_model.specs.Step.{OpensName};
ghost use Rattle.ob_model.specs.Looks as machine;
ghost use Rattle.ob_lookup.specs.Look.{look_of};
ghost use Rattle.ob_space.specs.Orderly.{IsBetweenSteps, IsOrderly};
ghost use Rattle.ob_space.specs.Early.{is_open_refused};
ghost use Rattle.ob_space.specs.Found.{IsOpenRefused};
ghost use Rattle.ob_opens.specs.Waiting.{answer_of, IfParsing, IsParseOf};

use crate::begin::begin;
use crate::pin::OpenRequest;
use crate::started::Started;
use ob_base::{Attrs, Handle, Proc, Status};
use ob_handles::HandleTable;
use ob_lookup::Look;
use ob_model::{Mode, Wanted};
use ob_names::Name;
use ob_space::{Space, is_live, judge_open, look_up, open_at, root_object, status_alone};
use ob_types::TypeSet;
use std::alloc::AllocError;

/// The type that an open of an object asks for: a kind, or any type at all where none is given. Source: this
/// profile.
pub fn type_wanted<K: Copy>(want: Option<K>) -> Wanted<K>
    ensures { result ≡ type_wanted want }
{
    match want {
        Some(kind) => Wanted::Kind(kind),
        None => Wanted::Anything,
    }
}

/// Opens an object by name, of the type that is asked for, and gives a handle to it; or begins to: where the name
/// reaches an object whose kind parses, the open waits for its parse, which its caller is to run. A link that the
/// last component names is followed, unless a link is asked for or OPENLINK is set.
///
/// Refusals, in their order, which change nothing: `ProcessGone` for a process that isn't live, `InvalidParameter`
/// for flags that aren't lawful, `ObjectNameInvalid` and `NameTooLong` for the bytes and the length of the name,
/// `InvalidHandle` where the process lacks the root handle, those of a lookup, `ObjectTypeMismatch` where another type
/// is asked for, and those of a grant. One that would wait is refused with `InsufficientResources` where there
/// are 1,048,576 objects and pending opens, or no number is left. The only fault is out of memory, and then nothing
/// has changed; what is refused before the lookup takes none, nor does what is refused at its end, before the set is
/// asked, where the lookup follows no link.
///
/// It asks that the state is orderly, settled and sound, and leaves it orderly.
///
/// Source: ZwOpenDirectoryObject, ZwOpenSymbolicLinkObject, ZwOpenEvent and OBJECT_ATTRIBUTES structure (OBJ_OPENLINK;
/// Windows Driver Kit); Windows Internals, Object Manager (parse methods). The order of refusals is this profile.
pub fn open_name<T: TypeSet, H: HandleTable>(
    space: &mut Space<T, H>,
    process: Proc,
    root: Option<Handle>,
    name: &[u8],
    attrs: u32,
    wanted: Wanted<T::Kind>,
) -> Result<Started<T>, AllocError>
    requires between { IsBetweenSteps T.idle space.old }
    ensures orderly { IsOrderly T.idle space.new }
    ensures step { IfOk result (λ started.
        OpensName T.procedures space.old process root name.now attrs wanted
        (answer_of started) space.new) }
    ensures parse { IfOk result (λ started. IfParsing started (IsParseOf space.new)) }
    ensures early { is_open_refused space.old process root name.now attrs ≡ true → IsOk result }
    ensures found { IsOpenRefused T.procedures space.old process root name.now attrs wanted
        → IsOk result }
    ensures err { OnErr result (space.new ≡ space.old) }
{
    let lawful = match judge_open(is_live(space, process), name, attrs) {
        Ok(lawful) => lawful,
        Err(status) => return Ok(Started::Done(status_alone(status))),
    };
    let root = match root_object(space, process, root) {
        Ok(root) => root,
        Err(status) => return Ok(Started::Done(status_alone(status))),
    };
    let mode = open_mode(wanted, lawful);
    match look_up(space, process, root, Name::new(name), mode)? {
        Look::Refused(status) => Ok(Started::Done(status_alone(status))),
        Look::At(object) => {
            let status = Status::Success;
            match open_at(space, process, object, lawful, wanted, status) {
                Ok(reply) => Ok(Started::Done(reply)),
                Err(fault) => Err(fault),
            }
        }
        Look::Vacant { .. } => unreachable!(),
        Look::Parse { object, rest, left } => {
            let request = OpenRequest {
                process,
                attrs,
                wanted,
            };
            begin(space, request, object, rest, left)
        }
    }
}

/// How the name of an open is looked up.
fn open_mode<K: Copy>(wanted: Wanted<K>, attrs: Attrs) -> Mode
    ensures { result ≡ open_mode wanted attrs }
{
    Mode {
        create: false,
        fold: attrs.is_case_insensitive(),
        follow: !matches!(wanted, Wanted::Link) && !attrs.is_open_link(),
    }
}
