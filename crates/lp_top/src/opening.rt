//! What the driver starts with: the items of a script before `start`.
ghost use Rattle.std.specs.Prelude.{◌≡◌, ℕ, ◌≤◌, List, ◌∷◌, ◌++◌, [], Some, IfOk, IfErr, OnOk, length, None, false};
ghost use Rattle.lp_events.specs.declared.item.Item.{Item as I};
ghost use Rattle.lp_events.specs.declared.item.Item.TheVariants.{End as the_end};
ghost use Rattle.lp_events.specs.Script.{IsScript, longest_input};
ghost use Rattle.lp_files.specs.Store.{file_at};
ghost use Rattle.lp_script.specs.Reader.{fresh, GoesOn, GoneAtMost, HasGiven, Reads, IsAfter};
ghost use Rattle.lp_top.specs.Causes.{BlamesInput};
ghost use Rattle.lp_top.specs.Items.{has_started};
ghost use Rattle.lp_top.specs.Notes.{HasOneMore, Notes};
ghost use Rattle.lp_top.specs.Replay.{Ends, EndsReading, IsAtStart, IsReadingEnd, is_start as start_item};

use crate::items::{is_end, status_of};
use crate::status::Status;
use lp_events::item::Item;
use lp_files::store::Store;
use lp_io::Source;
use lp_script::Reader;
use std::alloc::{AllocError, Global};

/// What the driver starts with: files, the seed of its generator, and its first moment.
#[derive(Drop)]
pub struct Opening {
    pub store: Store,
    pub seed: u64,
    pub moment: u64,
}

/// The next item of a script, or the end that its fault is.
pub(crate) fn next_item<S: Source>(reader: &mut Reader, input: &mut S) -> Result<Item, Status>
    ensures given { (xs : List I) → GoesOn reader.old.phase → HasGiven reader.old xs → IfOk result (λ x. HasGiven reader.new (xs ++ x ∷ [])) }
    ensures place { GoesOn reader.old.phase → OnOk result (reader.new.at ≡ reader.old.cut) }
    ensures phase { IfOk result (λ x. IsAfter (Ok x) reader.new.phase) }
    ensures reads { (b : List ℕ) → Reads b reader.old (S.remaining input.old) → Reads b reader.new (S.remaining input.new) }
    ensures end { (b : List ℕ) (xs : List I) → GoesOn reader.old.phase → HasGiven reader.old xs → Reads b reader.old (S.remaining input.old)
        → IfOk result (λ x. x ≡ the_end → IsScript b (xs ++ x ∷ []) × (length b ≤ longest_input)) }
    ensures fault { (b : List ℕ) (xs : List I) → GoesOn reader.old.phase → HasGiven reader.old xs → Reads b reader.old (S.remaining input.old)
        → IfErr result (EndsReading b xs) }
    ensures kind { IfErr result IsReadingEnd }
    ensures cause { GoesOn reader.old.phase → IfErr result (λ s. BlamesInput s (S.faults input.old) (S.faults input.new)) }
    ensures no_fall { S.faults input.old ≤ S.faults input.new }
    ensures most { (b : List ℕ) → Reads b reader.old (S.remaining input.old) → GoneAtMost b (S.remaining input.new) }
{
    match reader.next(input) {
        Ok(item) => Ok(item),
        Err(fault) => Err(status_of(fault)),
    }
}

// Keeps a file. The first one of a path counts, and in a script there is no other.
fn keep(store: &mut Store, path: &str, bytes: &[u8]) -> Result<(), AllocError>
    ensures { OnOk result (HasOneMore store.old store.new path.now bytes.now) }
{
    match store.read(path) {
        Some(_) => Ok(()),
        None => store.write(path, bytes),
    }
}

// Notes what an item says.
fn note(opening: &mut Opening, item: Item) -> Result<(), AllocError>
    ensures { OnOk result (Notes opening.old item opening.new) }
{
    match item {
        Item::Head(seed, moment) => {
            opening.seed = seed;
            opening.moment = moment;
            Ok(())
        }
        Item::File(path, bytes) => keep(&mut opening.store, path.as_str(), bytes.as_slice()),
        Item::Start => Ok(()),
        Item::Event(_event) => Ok(()),
        Item::End => Ok(()),
    }
}

fn is_start(item: &Item) -> bool
    ensures { result ≡ start_item item.now }
{
    matches!(item, Item::Start)
}

// Nothing noted. Takes no memory.
fn no_opening(alloc: Global) -> Opening
    ensures files { (q : List ℕ) → file_at result.store q ≡ None }
    ensures seed { result.seed ≡ 0 }
    ensures moment { result.moment ≡ 0 }
{
    Opening {
        store: Store::new(alloc),
        seed: 0,
        moment: 0,
    }
}

/// Reads up to the item `start`, and gives what the driver starts with.
pub(crate) fn open<S: Source>(
    alloc: Global,
    reader: &mut Reader,
    input: &mut S,
) -> Result<Opening, Status>
    requires { reader.old ≡ fresh }
    ensures start { IfOk result (IsAtStart reader.new) }
    ensures reads { (b : List ℕ) → S.remaining input.old ≡ Some b → OnOk result (Reads b reader.new (S.remaining input.new)) }
    ensures end { (b : List ℕ) → S.remaining input.old ≡ Some b → IfErr result (λ s. (xs : List I) × (has_started xs ≡ false) × Ends b xs s) }
    ensures kind { IfErr result IsReadingEnd }
    ensures cause { IfErr result (λ s. BlamesInput s (S.faults input.old) (S.faults input.new)) }
    ensures no_fall { S.faults input.old ≤ S.faults input.new }
    ensures most { (b : List ℕ) → S.remaining input.old ≡ Some b → GoneAtMost b (S.remaining input.new) }
{
    let mut opening = no_opening(alloc);
    loop {
        let item = match next_item(reader, input) {
            Ok(item) => item,
            Err(status) => return Err(status),
        };
        if is_start(&item) {
            return Ok(opening);
        }
        if is_end(&item) {
            unreachable!();
        }
        match note(&mut opening, item) {
            Ok(()) => {}
            Err(_) => return Err(Status::NoMemory),
        }
    }
}
