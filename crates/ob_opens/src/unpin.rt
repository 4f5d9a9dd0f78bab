//! A pending open that ends with nothing to open.

ghost use Rattle.std.specs.Prelude.{◌≡◌, ◌==◌, IfSome, MatchOption};
ghost use Rattle.std.specs.List.{find};
ghost use Rattle.std.specs.Option.{is_some};
ghost use Rattle.ob_model.specs.Parses.{Resumes};
ghost use Rattle.ob_model.specs.PendingOpens.{pending_of, without_pending};
ghost use Rattle.ob_model.specs.declared.reply.Answer.TheVariants.{Done};
ghost use Rattle.ob_life.specs.Settling.{AreShadowsFit};
ghost use Rattle.ob_model.specs.Settle.{IsSettled, settle};
ghost use Rattle.ob_space.specs.Orderly.{IsOrderly};
ghost use Rattle.ob_opens.specs.Refused.{refusal_of, status_of};

use ob_base::Status;
use ob_handles::HandleTable;
use ob_life::settle_after_loss;
use ob_model::{Given, PendingOpen, Reply};
use ob_space::{Space, is_live};
use ob_types::TypeSet;

/// The open of a ticket is pending no longer, and opens nothing; it is given, or `None` where no open is
/// pending under this ticket, and then nothing changes. The object that it pinned goes if nothing else holds
/// it, and then the directory of its name. No memory is taken.
///
/// It asks that the state is orderly and settled and its shadows are fit, and leaves it so.
///
/// Source: Windows Internals, Object Manager (object retention); that an open is given up by its ticket is this
/// profile.
pub(crate) fn end_parse<T: TypeSet, H: HandleTable>(
    space: &mut Space<T, H>,
    ticket: u64,
) -> Option<PendingOpen<T::Kind>>
    requires orderly { IsOrderly T.idle space.old }
    requires shadows { AreShadowsFit space.old }
    requires settled { IsSettled space.old }
    ensures orderly { IsOrderly T.idle space.new }
    ensures there { result ≡ pending_of space.old ticket }
    ensures ended { space.new ≡ settle T.procedures (without_pending space.old ticket) }
{
    // The contract of the length gives the invariant of all pending opens.
    let _ = space.pending.len();
    let pending = space.pending.take(ticket)?;
    settle_after_loss(space, pending.object);
    Some(pending)
}

/// A pending open is resumed whose parse refused its name, with this number, or found no memory (`None`). The
/// open is pending no longer, and nothing is opened. The reply is `ProcessGone` where the process that asked
/// isn't live, and else `TypeRefused` with the number, or `NoMemory`. There is none where no open is pending
/// under this ticket, and then nothing changes. No memory is taken.
///
/// It asks that the state is orderly and settled and its shadows are fit, and leaves it so.
///
/// Source: Windows Internals, Object Manager (parse methods); that a parse is judged when it is brought is this
/// profile.
pub(crate) fn refuse_parse<T: TypeSet, H: HandleTable>(
    space: &mut Space<T, H>,
    ticket: u64,
    code: Option<u16>,
) -> Option<Reply>
    requires orderly { IsOrderly T.idle space.old }
    requires shadows { AreShadowsFit space.old }
    requires settled { IsSettled space.old }
    ensures orderly { IsOrderly T.idle space.new }
    ensures there { is_some result ≡ is_some (pending_of space.old ticket) }
    ensures refused { IfSome result (λ reply. MatchOption (pending_of space.old ticket) ⊥
        (λ x. Resumes T.procedures space.old x (refusal_of code) (Done reply) space.new)) }
    ensures stranger { result ≡ None → space.new ≡ space.old }
{
    let pending = end_parse(space, ticket)?;
    let status = refusal(is_live(space, pending.process), code);
    Some(Reply {
        status,
        given: Given::Nothing,
    })
}

/// The status for a process, live or not, whose parse ended so.
fn refusal(live: bool, code: Option<u16>) -> Status
    ensures { result ≡ status_of live code }
{
    match code {
        _ if !live => Status::ProcessGone,
        Some(code) => Status::TypeRefused(code),
        None => Status::NoMemory,
    }
}
