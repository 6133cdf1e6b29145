ghost use Rattle.std.specs.Prelude.{◌≡◌, [], ◌∷◌, ◌++◌, MatchResult};
ghost use Rattle.index_stmt.specs.declared.fault.Stop.TheVariants.{Memory};

use crate::fault::Stop;
use pg_bytes::Items;

/// A list with one item more.
pub fn pushed<T: Drop>(mut items: Items<T>, item: T) -> Result<Items<T>, Stop>
    ensures { MatchResult result (λ longer. longer ≡ items ++ item ∷ []) (λ stop. stop ≡ Memory) }
{
    match items.push(item) {
        Ok(()) => Ok(items),
        Err(_) => Err(Stop::Memory),
    }
}
