//! The laws of reports, each as the contract of a function that does nothing.

ghost use Rattle.report_laws.specs.Laws.{AnswersMayStand, EveryReportIsAccepted, ReportsTellTheSame};

/// The bytes of every report have the verdict yes.
pub fn every_report_is_accepted()
    ensures { EveryReportIsAccepted }
{}

/// Each answer that a line of a session may get may stand in a report.
pub fn answers_may_stand()
    ensures { AnswersMayStand }
{}

/// Reports of the same bytes tell the same: the same rows, and the same entries of the same labels.
pub fn reports_tell_the_same()
    ensures { ReportsTellTheSame }
{}
