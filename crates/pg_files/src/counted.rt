ghost use Rattle.std.specs.Prelude.{◌≡◌, ◌≤◌, IfOk, IsErr, OnErr};
ghost use Rattle.pg_files.specs.Faults.{CountsFailure, raised};

use crate::files::Failed;

// An outcome as a caller gets it, with its failure counted. It may have a value of any type, so
// that no failure can be answered with one.
pub(crate) fn counted<T, E: Drop>(outcome: Result<T, E>, count: &mut u64) -> Result<T, Failed>
    ensures ok { IfOk outcome (λ value. result ≡ Ok value) }
    ensures err { IsErr outcome → IsErr result }
    ensures counts { CountsFailure result count.old count.new }
    ensures by_one { OnErr result (count.new ≡ raised count.old) }
    ensures later { count.old ≤ count.new }
{
    match outcome {
        Ok(value) => Ok(value),
        Err(_) => {
            *count = count.saturating_add(1);
            Err(Failed)
        }
    }
}
