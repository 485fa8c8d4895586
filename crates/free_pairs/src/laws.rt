//! What holds of two runs whose drivers give the same answers.

ghost use Rattle.free_pairs.specs.Alike.{AsksAreAskedAgainLaw, FreeAnswersSameRunLaw, FreeAsksAreAskedAgainLaw, FreeLinesSameStateLaw};
ghost use Rattle.free_pairs.specs.Alike.{SameAnswersSameRunLaw, SameLinesSameStateLaw};

/// The same answers, the same run: where what happened and what the drivers answered in one run stand at the front of what happened and
/// was answered in another, and the other goes beyond that, all that the one did and printed stands at the front of what the other did.
pub fn same_answers_same_run()
    ensures { SameAnswersSameRunLaw }
{}

/// After the same lines two runs are in one state but for the books.
pub fn same_lines_same_state()
    ensures { SameLinesSameStateLaw }
{}

/// What is asked is asked again: whom a run is to ask next, what, and for which device, is asked after the same lines in each run in
/// which the same happened and was answered so far, and which goes beyond that.
pub fn asks_are_asked_again()
    ensures { AsksAreAskedAgainLaw }
{}

/// The same answers make the same run also of runs whatever the drivers answer.
pub fn free_answers_same_run()
    ensures { FreeAnswersSameRunLaw }
{}

/// There too the same lines lead to one state but for the books.
pub fn free_lines_same_state()
    ensures { FreeLinesSameStateLaw }
{}

/// And there too what is asked is asked again.
pub fn free_asks_are_asked_again()
    ensures { FreeAsksAreAskedAgainLaw }
{}
