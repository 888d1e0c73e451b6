//! The fault INVALID OPERATOR over admitted programs and in whole runs.

ghost use Rattle.b67_law.specs.RunFaults.{InvalidOperatorExactlyAtNvld, SessionsFaultExactlyAtNvld, RunsFaultExactlyAtNvld};
ghost use Rattle.b67_law.specs.Opened.{OpeningsMadeByLoader};
ghost use Rattle.b67_law.specs.RunMade.{RunsMakeTheirWords, SessionsKeepOrMakeTheirWords};
ghost use Rattle.b67_law.specs.Ended.{RunsEndExactlyAtNvld};

/// Over an admitted program an operator stands at the place of each live task, and the task's step
/// faults INVALID OPERATOR exactly if this is NVLD.
pub fn invalid_operator_exactly_at_nvld()
    ensures { InvalidOperatorExactlyAtNvld }
{}

/// In a session in order over admitted programs each live task, and the task that is chosen for the next step, faults with
/// INVALID OPERATOR exactly at NVLD.
pub fn sessions_fault_exactly_at_nvld()
    ensures { SessionsFaultExactlyAtNvld }
{}

/// In every state of the run of an admitted deck INVALID OPERATOR occurs exactly at NVLD.
pub fn runs_fault_exactly_at_nvld()
    ensures { RunsFaultExactlyAtNvld }
{}

/// Each word, mark and return of an opening state was made by the loader: the dictionary's words
/// are those of the program's segments and the originals of its data rows, and no other frame has
/// words.
pub fn openings_are_made_by_the_loader()
    ensures { OpeningsMadeByLoader }
{}

/// Each word, mark and return of a live frame in any state of a deck's run was made by an operator
/// of an earlier step of its job, but for the mark of the outer block, which the loader made.
pub fn runs_make_their_words()
    ensures { RunsMakeTheirWords }
{}

/// After any number of steps from any session, each word, mark and return of a live frame stood in its job before these
/// steps, unchanged, or was made by the operator of one of them.
pub fn sessions_keep_or_make_their_words()
    ensures { SessionsKeepOrMakeTheirWords }
{}

/// In any state of a deck's run a task has ended with INVALID OPERATOR exactly if one of its steps
/// was that of NVLD.
pub fn runs_end_exactly_at_nvld()
    ensures { RunsEndExactlyAtNvld }
{}
