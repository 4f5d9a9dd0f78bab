//! Sets whose owner takes from them between steps, and why the runs of a namespace know nothing of it.

ghost use Rattle.std.specs.Prelude.{◌≡◌, Option, IfSome, IfNone};
ghost use Rattle.ob_types.specs.Unnoticed.{ChangesLeaveRuns, ChangesLeaveSteps, IsUnnoticed};

use crate::set::TypeSet;

/// A set of types whose owner takes items from its value between the steps of a namespace, one after another, as a
/// list of what was deleted. No procedure of the set reads what a take changes, so the steps before and after
/// it are a run as if nothing had been taken. (this profile)
pub trait Drains: TypeSet {
    /// An item of the list.
    type Item: Drop + Send;

    /// The next item; none where nothing is left.
    ghost next: { Self → Option Self.Item };

    /// The value after that, where something is taken. It is a function of every value, for the law below.
    ghost behind: { Self → Self };

    /// Takes the next item; `None` where nothing is left, and then the set stays as it was. No memory is taken.
    fn take_next(&mut self) -> Option<Self::Item>
        ensures told { result ≡ next self.old }
        ensures taken { IfSome result (λ _. self.new ≡ behind self.old) }
        ensures none { IfNone result (self.new ≡ self.old) };

    /// No procedure notices what is taken.
    ghost unnoticed: { IsUnnoticed Self.procedures behind };
}

/// A change of the set's value that no procedure notices leaves each step as it is: what may be answered, and what is
/// left except for the set's value, which is changed after the step as it is before it.
pub fn unnoticed_changes_leave_steps<K, T, F, I>()
    ensures { ChangesLeaveSteps K T F I }
{}

/// Such a change leaves runs: the same entries lead from the changed first value to the same state except for the set's
/// value, which is changed.
pub fn unnoticed_changes_leave_runs<K, T, F, I>()
    ensures { ChangesLeaveRuns K T F I }
{}

/// The law of sets whose owner takes from them: no procedure notices what is taken.
pub fn what_is_taken_is_unnoticed<T: Drains>()
    ensures { IsUnnoticed T.procedures T.behind }
{}
