//! Laws of requests and variables.
//!
//! Each function has an empty body: its contract is a law about the definitions alone.

ghost use Rattle.ob_requests.specs.Alike.{RepliesLeaveAlikeVariables, RequestsAskAlike};

/// In two states that differ in the values of handles alone, a request spells commands that differ in such values
/// alone, where the variables of both lead to the same handles.
pub fn requests_ask_alike<T, F, I>()
    ensures { RequestsAskAlike T F I }
{}

/// Whatever steps the machine makes for those commands, the variables of both after their replies lead to the same handles
/// again, in the states that it leaves: new handles may get any values.
pub fn replies_leave_alike_variables<T, F, I>()
    ensures { RepliesLeaveAlikeVariables T F I }
{}
