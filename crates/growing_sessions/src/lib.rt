//! Sessions that grow while they run, as laws: each the contract of a function that does nothing.
#![tactic(auto)]

ghost use Rattle.growing_sessions.specs.Growing.{GrowthKeeps, GrowthsJoin, HistoryReadsSame, LineExtends, LineKeepsText, NewSessionUnanswered, ReportBegins, RoundStaysOpen, SessionExtends, SessionKeepsText, StepStaysOpen};

/// A history in which no line was given up, and which is not closed, is under way for all sessions
/// that its own may grow to.
pub fn growth_keeps()
    ensures { GrowthKeeps }
{}

/// Growths one behind the other are one growth.
pub fn growths_join()
    ensures { GrowthsJoin }
{}

/// A step gives no line up and closes nothing.
pub fn step_stays_open()
    ensures { StepStaysOpen }
{}

/// Nor do steps of each session.
pub fn round_stays_open()
    ensures { RoundStaysOpen }
{}

/// One more line of a session is such a growth.
pub fn line_extends()
    ensures { LineExtends }
{}

/// One more session is such a growth.
pub fn session_extends()
    ensures { SessionExtends }
{}

/// Sessions with one more line are still those of a text.
pub fn line_keeps_text()
    ensures { LineKeepsText }
{}

/// And so are those with one more session, whose label is a new one.
pub fn session_keeps_text()
    ensures { SessionKeepsText }
{}

/// None of a session's lines is answered before there is such a session.
pub fn new_session_unanswered()
    ensures { NewSessionUnanswered }
{}

/// What was written of a history stays what is to be written of it when the sessions have grown.
pub fn history_reads_same()
    ensures { HistoryReadsSame }
{}

/// What stands on the output is a beginning of the report of every way in which the run can go on.
pub fn report_begins()
    ensures { ReportBegins }
{}
