//! Writing a workload.
ghost use Rattle.std.specs.Prelude.{◌≡◌, ◌<◌, ◌≤◌, ◌^◌, IfOk, OnOk, OnErr};
ghost use Rattle.rand_xoshiro.specs.SplitMix64.{mix_u64};
ghost use Rattle.lp_io.specs.Counts.{Counts};
ghost use Rattle.lp_io.specs.Told.{after_adding, IsCut};
ghost use Rattle.lp_events.specs.declared.item.Item.{Item as I};
ghost use Rattle.lp_events.specs.declared.item.Item.TheVariants as items;
ghost use Rattle.lp_events.specs.Script.{spelling, spellings};
ghost use Rattle.lp_workload.specs.Workload.{beginning, chosen, event_for as event_of, moment_after as moment_behind, mudlib, workload};
ghost use Rattle.lp_workload.specs.Writes.{Writes, is_failure, is_fault, is_zero};

use crate::event::{event_for, moment_after};
use crate::fault::WorkloadFault;
use lp_events::event::Event;
use lp_events::item::Item;
use lp_events::octets::Octets;
use lp_io::{PutFault, Sink};
use lp_script::write_item;
use lp_tree::path::FilePath;
use rand_core::SeedableRng;
use rand_core::utils::NextWord;
use rand_xoshiro::SplitMix64;
use std::alloc::{AllocError, Global};

/// The source of a box.
const BOX: &str = "\
int *v;
void create() { v = ({0, 0}); }
int *query() { return v; }
void share(object o) { if (random(2)) v = o->query(); }
void put(int x) { v[0] = x; v[1]++; }
int get() { return v[0] * 1000 + v[1]; }
";

/// The source of the master.
const MASTER: &str = "\
object *b;
object connect() { return this_object(); }
int logon() {
  int i;
  b = allocate(8);
  for (i = 0; i < 8; i++) b[i] = clone_object(\"/obj/box\");
  for (i = 0; i < 8; i++) b[i]->share(b[(i + 1) % 8]);
  enable_commands(); add_action(\"put\", \"put\"); add_action(\"get\", \"get\");
  return 1;
}
int put(string s) { b[random(8)]->put(random(1000)); return 1; }
int get(string s) { write(b[random(8)]->get() + \"\\n\"); return 1; }
";

// A file of the mudlib.
fn file(alloc: Global, path: &str, source: &str) -> Result<Item, AllocError>
    ensures { IfOk result (λ x. x ≡ items.File path.now source.now) }
{
    let path = FilePath::from_str(alloc, path)?;
    let bytes = Octets::from_slice(alloc, source.as_bytes())?;
    Ok(Item::File(path, bytes))
}

// Writes an item.
fn write_one<K: Sink>(out: &mut K, item: &Item) -> Result<(), WorkloadFault>
    ensures { Writes (record { written = K.written out.old; faults = K.faults out.old; zeros = K.zeros out.old })
        (record { written = K.written out.new; faults = K.faults out.new; zeros = K.zeros out.new })
        result (spelling item.now) }
{
    match write_item(out, item) {
        Ok(()) => Ok(()),
        Err(PutFault::Failed) => Err(WorkloadFault::Failed),
        Err(PutFault::ZeroTaken) => Err(WorkloadFault::ZeroTaken),
    }
}

// Writes an item, if there was memory for it.
fn write_made<K: Sink>(out: &mut K, item: Result<Item, AllocError>) -> Result<(), WorkloadFault>
    ensures { (x : I) → IfOk item (λ y. y ≡ x) → Writes (record { written = K.written out.old; faults = K.faults out.old; zeros = K.zeros out.old })
        (record { written = K.written out.new; faults = K.faults out.new; zeros = K.zeros out.new })
        result (spelling x) }
{
    match item {
        Ok(item) => write_one(out, &item),
        Err(_) => Err(WorkloadFault::NoMemory),
    }
}

// Writes the head and the two files.
fn write_mudlib<K: Sink>(alloc: Global, out: &mut K, seed: u64) -> Result<(), WorkloadFault>
    ensures { Writes (record { written = K.written out.old; faults = K.faults out.old; zeros = K.zeros out.old })
        (record { written = K.written out.new; faults = K.faults out.new; zeros = K.zeros out.new })
        result (spellings (mudlib seed)) }
{
    write_one(out, &Item::Head(seed, 0))?;
    write_made(out, file(alloc, "/obj/box.c", BOX))?;
    write_made(out, file(alloc, "/secure/master.c", MASTER))
}

// Writes the start and the one connection.
fn write_beginning<K: Sink>(out: &mut K) -> Result<(), WorkloadFault>
    ensures { Writes (record { written = K.written out.old; faults = K.faults out.old; zeros = K.zeros out.old })
        (record { written = K.written out.new; faults = K.faults out.new; zeros = K.zeros out.new })
        result (spellings beginning) }
{
    write_one(out, &Item::Start)?;
    write_one(out, &Item::Event(Event::Connect(1)))
}

// Writes the event that the next word of the generator chooses, and returns the moment after it.
fn write_next<K: Sink>(
    alloc: Global,
    out: &mut K,
    generator: &mut SplitMix64,
    moment: u64,
) -> Result<u64, WorkloadFault>
    requires { moment < 2 ^ 63 }
    ensures wrote { Writes (record { written = K.written out.old; faults = K.faults out.old; zeros = K.zeros out.old })
        (record { written = K.written out.new; faults = K.faults out.new; zeros = K.zeros out.new })
        result (spelling (items.Event (event_of moment (mix_u64 generator.old).0))) }
    ensures moment { IfOk result (λ after. after ≡ moment_behind moment (event_of moment (mix_u64 generator.old).0)) }
    ensures generator { generator.new ≡ (mix_u64 generator.old).1 }
{
    let event = event_for(alloc, moment, generator.next_word())?;
    let after = moment_after(moment, &event);
    write_one(out, &Item::Event(event))?;
    Ok(after)
}

// Writes the events that the generator chooses.
fn write_events<K: Sink>(
    alloc: Global,
    out: &mut K,
    count: u32,
    seed: u64,
) -> Result<(), WorkloadFault>
    ensures { Writes (record { written = K.written out.old; faults = K.faults out.old; zeros = K.zeros out.old })
        (record { written = K.written out.new; faults = K.faults out.new; zeros = K.zeros out.new })
        result (spellings (chosen count seed 0)) }
{
    let mut generator = SplitMix64::seed_from_u64(seed);
    let mut moment = 0;
    let mut left = count;
    while left > 0 {
        moment = write_next(alloc, out, &mut generator, moment)?;
        left -= 1;
    }
    Ok(())
}

fn write_all<K: Sink>(
    alloc: Global,
    out: &mut K,
    count: u32,
    seed: u64,
) -> Result<(), WorkloadFault>
    ensures { Writes (record { written = K.written out.old; faults = K.faults out.old; zeros = K.zeros out.old })
        (record { written = K.written out.new; faults = K.faults out.new; zeros = K.zeros out.new })
        result (spellings (workload count seed)) }
{
    write_mudlib(alloc, out, seed)?;
    write_beginning(out)?;
    write_events(alloc, out, count, seed)?;
    write_one(out, &Item::End)
}

/// Writes the script of a workload of so many events, which a generator with this seed chooses: one
/// item after another, each of which is let go before the next is made.
///
/// - `Failed`: a write failed, and the count of faults rose.
/// - `ZeroTaken`: a write took no byte of what was left, and the count of such writes rose.
/// - `NoMemory`: there was no memory for the next item.
///
/// After each of them a front of the script was written, and at least its last byte was not. No count
/// changes but the one that the answer names.
pub fn write_workload<K: Sink>(
    alloc: Global,
    out: &mut K,
    count: u32,
    seed: u64,
) -> Result<(), WorkloadFault>
    ensures whole { OnOk result (K.written out.new ≡ after_adding (K.written out.old) (spellings (workload count seed))) }
    ensures cut { OnErr result (IsCut (K.written out.old) (K.written out.new) (spellings (workload count seed))) }
    ensures faults { Counts (is_fault is_failure result) (K.faults out.old) (K.faults out.new) }
    ensures no_fall { K.faults out.old ≤ K.faults out.new }
    ensures zeros { Counts (is_fault is_zero result) (K.zeros out.old) (K.zeros out.new) }
    ensures zeros_no_fall { K.zeros out.old ≤ K.zeros out.new }
{
    write_all(alloc, out, count, seed)
}
