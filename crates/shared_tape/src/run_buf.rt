ghost use Rattle.std.specs.Prelude.{◌≡◌, ◌+◌, ◌≤◌, ◌<◌, [], ◌∷◌, ◌++◌, length, vec_capacity, All, IfErr, IfOk, OnErr, OnOk};
ghost use Rattle.std.specs.List.Sorted.{IsPermutation};
ghost use Rattle.opclass.specs.Pass.{IsInFront};
ghost use Rattle.shared_tape.specs.Pass.{AreLaid};
ghost use Rattle.shared_tape.specs.Places.{ArePlaces, HasRecordAt, IsSoundRun, place_in, records_at, space_of, starts_of};
ghost use Rattle.shared_tape.specs.Runs.{IsAscending, IsRun};
ghost use Rattle.shared_tape.specs.Stored.{IsStorable, stored};

use crate::laid::{Laid, lay, make_room};
use crate::place::{Place, cmp_places};
use crate::reader::stored_at;
use crate::run::Run;
use crate::stored::{Record, put_stored};
use opclass::SortSpec;
use pg_bytes::Items;
use std::alloc::{AllocError, Global};
use std::marker::Model;
use std::mem;

/// A run that isn't sorted yet, seen as its order and the list of the records put.
#[derive(Debug, Drop)]
pub struct RunBuf {
    order: SortSpec,
    /// The records' bytes as they were put.
    bytes: Vec<u8>,
    places: Vec<Place>,
    ready: Ready,
}

/// What the sorted run is made of, so that it takes no memory: from the first record on its order,
/// and room for all records.
#[derive(Debug, Drop)]
struct Ready {
    pub order: SortSpec,
    /// Empty until then.
    pub laid: Laid,
}

impl Ready {
    // Nothing is ready, which takes no memory.
    fn new(alloc: Global) -> Ready
        ensures bytes { result.laid.bytes.items ≡ [] }
        ensures starts { result.laid.starts.items ≡ [] }
    {
        Ready {
            order: Items::new(alloc),
            laid: Laid::new(alloc),
        }
    }
}

impl Model for RunBuf {
    ghost use Rattle.std.specs.Prelude.{◌≡◌, ◌≤◌, ◌<◌, [], length, vec_capacity};
    ghost use Rattle.shared_tape.specs.Runs.{RunView};
    ghost use Rattle.shared_tape.specs.Places.{ArePlaces, records_at, starts_of};

    ghost Value = { RunView };

    ghost view = { λ buf. record {
      order = buf.order;
      records = records_at buf.order buf.bytes.items (starts_of buf.places.items);
    } };

    ghost invariant = { λ buf. record {
      places : ArePlaces buf.order buf.bytes.items buf.places.items;
      ready : 0 < length buf.places.items → buf.ready.order ≡ buf.order;
      empty : (buf.ready.laid.bytes.items ≡ []) × (buf.ready.laid.starts.items ≡ []);
      room : length buf.bytes.items ≤ vec_capacity buf.ready.laid.bytes;
      slots : length buf.places.items ≤ vec_capacity buf.ready.laid.starts;
    } };
}

impl RunBuf {
    /// The run of this order without records.
    pub fn new(alloc: Global, order: &SortSpec) -> Result<RunBuf, AllocError>
        ensures { IfOk result (λ buf. buf ≡ record { order = order.now; records = [] }) }
    {
        let order = Items::from_vec(order.as_slice().to_vec(alloc)?);
        Ok(RunBuf::with_order(alloc, order))
    }

    /// The run of this order without records, which takes no memory.
    pub fn with_order(alloc: Global, order: SortSpec) -> RunBuf
        ensures { result ≡ record { order = order; records = [] } }
    {
        RunBuf {
            order,
            bytes: Vec::new(alloc),
            places: Vec::new(alloc),
            ready: Ready::new(alloc),
        }
    }

    /// How many records were put.
    pub fn len(&self) -> usize
        ensures { result ≡ length self.now.records }
    {
        self.places.len()
    }

    /// Puts a record behind those that are there. On want of memory it hands the record back and
    /// changes nothing.
    pub fn put(&mut self, row: Record) -> Result<(), Record>
        requires { IsStorable self.old.order row }
        ensures ok { OnOk result
            (self.new ≡ record self.old { records = self.old.records ++ row ∷ [] }) }
        ensures err { OnErr result (self.new ≡ self.old) }
        ensures handed_back { IfErr result (λ back. back ≡ row) }
    {
        match self.put_copy(&row) {
            Ok(()) => Ok(()),
            Err(_) => Err(row),
        }
    }

    /// Puts a copy of a record behind those that are there, so that its owner can fill it anew for
    /// the next one. An error means that no memory was left, and then nothing changed.
    pub fn put_copy(&mut self, row: &Record) -> Result<(), AllocError>
        requires { IsStorable self.old.order row.now }
        ensures ok { OnOk result
            (self.new ≡ record self.old { records = self.old.records ++ row.now ∷ [] }) }
        ensures err { OnErr result (self.new ≡ self.old) }
    {
        let start = self.bytes.len();
        let added = add(
            &self.order,
            &mut self.bytes,
            &mut self.places,
            &mut self.ready,
            row,
        );
        match added {
            Ok(()) => Ok(()),
            Err(failed) => {
                self.bytes.truncate(start);
                Err(failed)
            }
        }
    }

    /// The run of these records, which takes no memory.
    pub fn into_run(self) -> Run
        ensures order { result.order ≡ self.order }
        ensures records { IsPermutation self.records result.records }
        ensures run { IsRun result }
    {
        let RunBuf {
            order,
            bytes,
            mut places,
            ready,
        } = self;
        let Ready { order: _, mut laid } = ready;
        lay_sorted(&order, &bytes, &mut places, &mut laid);
        Run::of(order, laid)
    }

    /// The run of the records put, of which there is one at least. It takes no memory, and leaves
    /// the buffer empty with its room, so that the next run's records need little of their own.
    pub fn take_run(&mut self) -> Run
        requires some { 0 < length self.old.records }
        ensures order { result.order ≡ self.old.order }
        ensures records { IsPermutation self.old.records result.records }
        ensures run { IsRun result }
        ensures emptied { self.new ≡ record self.old { records = [] } }
    {
        let alloc = *self.bytes.allocator();
        let ready = mem::replace(&mut self.ready, Ready::new(alloc));
        let Ready { order, mut laid } = ready;
        lay_sorted(&self.order, &self.bytes, &mut self.places, &mut laid);
        self.bytes.clear();
        self.places.clear();
        Run::of(order, laid)
    }
}

// Writes a record and its place, and makes ready what the sorted run needs for it.
fn add(
    order: &SortSpec,
    bytes: &mut Vec<u8>,
    places: &mut Vec<Place>,
    ready: &mut Ready,
    row: &Record,
) -> Result<(), AllocError>
    requires storable { IsStorable order.now row.now }
    requires ready { 0 < length places.old.items → ready.old.order ≡ order.now }

    ensures bytes { OnOk result (bytes.new.items ≡ bytes.old.items ++ stored order.now row.now) }
    ensures places { OnOk result (places.new.items
        ≡ places.old.items ++ place_in bytes.new.items (length bytes.old.items) ∷ []) }
    ensures ready { OnOk result (ready.new.order ≡ order.now) }
    ensures room { OnOk result
        (length bytes.new.items ≤ vec_capacity ready.new.laid.bytes) }
    ensures slots { OnOk result
        (length places.new.items ≤ vec_capacity ready.new.laid.starts) }

    ensures front { OnErr result (IsInFront bytes.old.items bytes.new.items) }
    ensures same_places { OnErr result (places.new.items ≡ places.old.items) }
    ensures still_ready { OnErr result
        (0 < length places.old.items → ready.new.order ≡ order.now) }

    ensures ready_bytes { ready.new.laid.bytes.items ≡ ready.old.laid.bytes.items }
    ensures ready_starts { ready.new.laid.starts.items ≡ ready.old.laid.starts.items }
    ensures more_room { vec_capacity ready.old.laid.bytes ≤ vec_capacity ready.new.laid.bytes }
    ensures more_slots { vec_capacity ready.old.laid.starts ≤ vec_capacity ready.new.laid.starts }
{
    let start = bytes.len();
    put_stored(bytes, order, row)?;
    places.reserve(1)?;
    begin(order, places, ready)?;
    make_room(&mut ready.laid, bytes.capacity(), places.capacity())?;
    places.push_reserved(Place::at(bytes, start));
    Ok(())
}

// Copies the order for the run that its first record begins.
fn begin(order: &SortSpec, places: &Vec<Place>, ready: &mut Ready) -> Result<(), AllocError>
    requires { 0 < length places.now.items → ready.old.order ≡ order.now }
    ensures ok { OnOk result (ready.new.order ≡ order.now) }
    ensures err { OnErr result (ready.new.order ≡ ready.old.order) }
    ensures same_room { ready.new.laid ≡ ready.old.laid }
{
    if places.is_empty() {
        let alloc = *places.allocator();
        ready.order = Items::from_vec(order.as_slice().to_vec(alloc)?);
    }
    Ok(())
}

// Sorts places, and lays their records in that order.
fn lay_sorted(order: &SortSpec, bytes: &[u8], places: &mut Vec<Place>, laid: &mut Laid)
    requires places { ArePlaces order.now bytes.now places.old.items }
    requires empty { (laid.old.bytes.items ≡ []) × (laid.old.starts.items ≡ []) }
    requires room { length bytes.now ≤ vec_capacity laid.old.bytes }
    requires slots { length places.old.items ≤ vec_capacity laid.old.starts }
    ensures records { IsPermutation (records_at order.now bytes.now (starts_of places.old.items))
        (records_at order.now laid.new.bytes.items laid.new.starts.items) }
    ensures run { IsSoundRun order.now laid.new.bytes.items laid.new.starts.items 0 }
{
    sort(order, bytes, places);
    lay_all(order, bytes, places, laid);
}

// Brings places into the order of their records.
fn sort(order: &SortSpec, bytes: &[u8], places: &mut Vec<Place>)
    requires { ArePlaces order.now bytes.now places.old.items }
    ensures moved { IsPermutation places.old.items places.new.items }
    ensures ascending { IsAscending order.now
        (records_at order.now bytes.now (starts_of places.new.items)) }
{
    places.sort_unstable_by(|a, b| cmp_places(bytes, a, b));
}

// Lays the records at these places one behind the other.
fn lay_all(order: &SortSpec, bytes: &[u8], places: &[Place], ready: &mut Laid)
    requires each { All (HasRecordAt order.now bytes.now) (starts_of places.now) }
    requires empty { (ready.old.bytes.items ≡ []) × (ready.old.starts.items ≡ []) }
    requires room { space_of order.now (records_at order.now bytes.now (starts_of places.now))
        ≤ vec_capacity ready.old.bytes }
    requires slots { length places.now ≤ vec_capacity ready.old.starts }
    ensures { AreLaid order.now ready.new.bytes.items ready.new.starts.items
        (records_at order.now bytes.now (starts_of places.now)) }
{
    for place in places {
        lay(ready, stored_at(bytes, place.start));
    }
}
