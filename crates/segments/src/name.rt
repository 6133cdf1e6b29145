ghost use Rattle.std.specs.Prelude.{◌≡◌, IfOk, string_bytes};
ghost use Rattle.segments.specs.Names.{segment_name};

use std::alloc::{AllocError, Global};

/// The name of a relation's segment, counted from 0 (`_mdfd_segpath` of `md.c`). An error means
/// that no memory was left.
pub fn segment_name(alloc: Global, name: &str, number: u32) -> Result<String, AllocError>
    ensures { IfOk result (λ segment. string_bytes segment ≡ segment_name name.now number) }
{
    if number == 0 {
        String::from_str(alloc, name)
    } else {
        format!(in alloc; "{name}.{number}")
    }
}
