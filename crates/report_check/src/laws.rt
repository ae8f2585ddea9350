//! The laws of verdicts, each as the contract of a function that does nothing.

ghost use Rattle.report_check.specs.Laws.{AccessesAreItems, FaultsStay, ServedIsAccepted, VerdictsAgree, YesIsSound};
ghost use Rattle.report_check.specs.Naming.{AccessesAreTold, NamesTheReply, NamesTheRow};

/// Bytes have one verdict.
pub fn verdicts_agree()
    ensures { VerdictsAgree }
{}

/// The accesses that the second pass runs are the items of the definitions, with the line that
/// tells of each.
pub fn accesses_are_items()
    ensures { AccessesAreItems }
{}

/// Where the verdict is yes, the bytes are those of a report with both tables in byte order, in
/// which each session's lines stand in order, each answered once, a line that waits by the same
/// text, and the aborts of the close stand last; in which no top-level transaction is live, and
/// each transaction without an aborted ancestor has committed, and its ancestors with it; and the
/// committed top-level transactions, in the order of their commits, are a serial run from the
/// opening rows to the final ones.
pub fn yes_is_sound()
    ensures { YesIsSound }
{}

/// A fault that the first pass finds in the first lines is there in every text that begins with
/// these lines: none of them is a report.
pub fn faults_stay()
    ensures { FaultsStay }
{}

/// Bytes that the first pass reads are accepted if their committed top-level transactions are a
/// serial run from the opening rows to the final ones: so a line that a later pass names tells that
/// they are not.
pub fn served_is_accepted()
    ensures { ServedIsAccepted }
{}

/// Each access that the second pass runs stands in the line of the entry that tells of it.
pub fn accesses_are_told()
    ensures { AccessesAreTold }
{}

/// Where the replies are not those of a serial run, the line that is named has a wrong reply, and
/// no line before it has one.
pub fn names_the_reply()
    ensures { NamesTheReply }
{}

/// Where the replies are those of a serial run, the line that is named is that of the first of the
/// final rows that is not the one that the run leaves there.
pub fn names_the_row()
    ensures { NamesTheRow }
{}
