//! How publications lead through a run.

ghost use Rattle.ob_published.specs.Leads.{OneMoreLeads, LeadsIsRun, FirstLead};

/// The laws of publications that lead through a run of the machine. One publication more leads on, if it has the changes
/// of the entries that came; what publications lead through is a run, of as many entries as they stand for, after which
/// the rows are those that are published; and a prefix of the publications leads through a prefix of the run. Takes
/// nothing and does nothing.
pub fn publications_lead_through_runs<K, T, F, I>()
    ensures more { OneMoreLeads K T F I }
    ensures run { LeadsIsRun K T F I }
    ensures first { FirstLead K T F I }
{}
