ghost use Rattle.pg_index.specs.Laws.{OutcomeIsDetermined};

/// Words and files that are told come to one outcome at most: one fault, or the rows of one index.
/// A law of the definitions: the call does nothing.
pub fn outcome_is_determined()
    ensures { OutcomeIsDetermined }
{}
