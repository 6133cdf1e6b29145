//! The records of workers' tapes in parts, which cuts of their keys make: each part becomes what an
//! index wants of it on a thread of its own, where one can be made. `tuplesort.c` merges on the
//! leader's process alone.

ghost use Rattle.std.specs.Prelude.{◌≡◌, ◌+◌, ◌-◌, ◌≤◌, ◌<◌, ◌∷◌, ◌++◌, [], IfErr, IfOk, OnOk, List, length};
ghost use denote.Param.Send.{IsSync};
ghost use Rattle.opclass.specs.declared.spec.SortPart.{SortPart};
ghost use Rattle.shared_tape.specs.declared.stored.Record.{Record};
ghost use Rattle.run_merge.specs.Cutting.{part_of};
ghost use Rattle.run_merge.specs.Sorted.{AllHaveOrder, all_records};
ghost use Rattle.build_leader.specs.declared.fault.LeadFault.{LeadFault};
ghost use Rattle.build_leader.specs.KeyParts.{AreMade, IsRefused};

use crate::fault::LeadFault;
use opclass::SortSpec;
use run_merge::Cuts;
use shared_tape::Tapes;
use std::alloc::{AllocError, Global};
use std::thread::{Threads, join};

/// What an index wants of the records of one part.
pub(crate) trait PartWork {
    /// What a part becomes.
    type Made;

    /// What the records of a part become in an order.
    ghost makes: { Self → List SortPart → List Record → Self.Made → Type 0 };

    /// Why they are refused.
    ghost refuses: { Self → List SortPart → List Record → LeadFault → Type 0 };

    /// The records of which it can be made.
    ghost takes: { Self → List SortPart → List Record → Type 0 };

    /// Makes of a part, counted from 0, what the index wants.
    fn make(
        &self,
        alloc: Global,
        tapes: &Tapes,
        cuts: &Cuts,
        part: u32,
        order: &SortSpec,
    ) -> Result<Self::Made, LeadFault>
        requires part { part ≤ length cuts.now }
        requires order { AllHaveOrder order.now tapes.now }
        requires records { takes self.now order.now (all_records tapes.now) }
        ensures made { IfOk result (makes self.now order.now
            (part_of order.now cuts.now part (all_records tapes.now))) }
        ensures refused { IfErr result (refuses self.now order.now
            (part_of order.now cuts.now part (all_records tapes.now))) };
}

/// Makes of each of the first parts what the index wants, in their order. Of parts that are refused
/// the first is told.
#[cycle(parts)]
pub(crate) fn make_parts<Rt: Threads + Sync, W: PartWork + Sync>(
    rt: &Rt,
    alloc: Global,
    work: &W,
    tapes: &Tapes,
    cuts: &Cuts,
    parts: u32,
    order: &SortSpec,
) -> Result<Vec<W::Made>, LeadFault>
where
    W::Made: Send + Drop,
    requires some { 1 ≤ parts }
    requires few { parts ≤ length cuts.now + 1 }
    requires order { AllHaveOrder order.now tapes.now }
    requires records { W.takes work.now order.now (all_records tapes.now) }
    ensures made { IfOk result (λ made. AreMade (W.makes work.now order.now) order.now cuts.now
        (all_records tapes.now) parts made.items) }
    ensures refused { IfErr result (IsRefused (W.makes work.now order.now)
        (W.refuses work.now order.now) order.now cuts.now (all_records tapes.now) parts) }
{
    let last = parts - 1;
    if last == 0 {
        let made = work.make(alloc, tapes, cuts, 0, order)?;
        return Ok(with_made(Vec::new(alloc), made)?);
    }
    let (made, before) = join(
        rt,
        move || -> Result<W::Made, LeadFault>
            requires { IsSync W.row × (last ≤ length cuts.now) × AllHaveOrder order.now tapes.now
                × W.takes work.now order.now (all_records tapes.now) }
            ensures made { IfOk result (W.makes work.entry.now order.entry.now
                (part_of order.entry.now cuts.entry.now last (all_records tapes.entry.now))) }
            ensures refused { IfErr result (W.refuses work.entry.now order.entry.now
                (part_of order.entry.now cuts.entry.now last (all_records tapes.entry.now))) }
        { work.make(alloc, tapes, cuts, last, order) },
        move || -> Result<Vec<W::Made>, LeadFault>
            requires { IsSync Rt.row × IsSync W.row × (1 ≤ last) × (last ≤ length cuts.now + 1)
                × AllHaveOrder order.now tapes.now
                × W.takes work.now order.now (all_records tapes.now) }
            ensures made { IfOk result (λ made. AreMade (W.makes work.entry.now order.entry.now)
                order.entry.now cuts.entry.now (all_records tapes.entry.now) last made.items) }
            ensures refused { IfErr result (IsRefused (W.makes work.entry.now order.entry.now)
                (W.refuses work.entry.now order.entry.now) order.entry.now cuts.entry.now
                (all_records tapes.entry.now) last) }
        { make_parts(rt, alloc, work, tapes, cuts, last, order) },
    );
    Ok(with_made(before?, made?)?)
}

// The parts with one more behind the others.
fn with_made<M: Drop>(mut made: Vec<M>, one: M) -> Result<Vec<M>, AllocError>
    ensures { IfOk result (λ more. more.items ≡ made.items ++ one ∷ []) }
{
    made.push(one)?;
    Ok(made)
}
