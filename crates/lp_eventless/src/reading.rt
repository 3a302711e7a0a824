//! Reading a script without events.
ghost use Rattle.std.specs.Prelude.{◌≡◌, ℕ, ◌≤◌, ◌^◌, List, ◌∷◌, ◌++◌, [], Some, IfOk, IfErr, OnOk, length, false};
ghost use Rattle.lp_events.specs.declared.item.Item.{Item as I};
ghost use Rattle.lp_events.specs.declared.item.Item.TheVariants.{End as the_end, Start as the_start};
ghost use Rattle.lp_events.specs.Script.{IsScript, longest_input};
ghost use Rattle.lp_script.specs.Reader.{fresh, GoesOn, GoneAtMost, HasGiven, Reads, IsAfter};
ghost use Rattle.lp_eventless.specs.Eventless.{BlamesInput, EndsReading, Holds, IsAtStart, IsFaultOf, IsWhole, has_started, is_end as end_item, is_start as start_item, moment_of};

use lp_events::item::Item;
use lp_io::Source;
use lp_script::{Reader, ScriptFault};
use std::alloc::Global;

// The next item of a script.
fn next_item<S: Source>(reader: &mut Reader, input: &mut S) -> Result<Item, ScriptFault>
    ensures given { (xs : List I) → GoesOn reader.old.phase → HasGiven reader.old xs → IfOk result (λ x. HasGiven reader.new (xs ++ x ∷ [])) }
    ensures place { GoesOn reader.old.phase → OnOk result (reader.new.at ≡ reader.old.cut) }
    ensures phase { IfOk result (λ x. IsAfter (Ok x) reader.new.phase) }
    ensures reads { (b : List ℕ) → Reads b reader.old (S.remaining input.old) → Reads b reader.new (S.remaining input.new) }
    ensures end { (b : List ℕ) (xs : List I) → GoesOn reader.old.phase → HasGiven reader.old xs → Reads b reader.old (S.remaining input.old)
        → IfOk result (λ x. x ≡ the_end → IsScript b (xs ++ x ∷ []) × (length b ≤ longest_input)) }
    ensures fault { (b : List ℕ) (xs : List I) → GoesOn reader.old.phase → HasGiven reader.old xs → Reads b reader.old (S.remaining input.old)
        → IfErr result (EndsReading b xs) }
    ensures cause { GoesOn reader.old.phase → IfErr result (λ f. BlamesInput f (S.faults input.old) (S.faults input.new)) }
    ensures no_fall { S.faults input.old ≤ S.faults input.new }
    ensures most { (b : List ℕ) → Reads b reader.old (S.remaining input.old) → GoneAtMost b (S.remaining input.new) }
{
    match reader.next(input) {
        Ok(item) => Ok(item),
        Err(fault) => Err(fault),
    }
}

fn is_start(item: &Item) -> bool
    ensures { result ≡ start_item item.now }
{
    matches!(item, Item::Start)
}

fn is_end(item: &Item) -> bool
    ensures { result ≡ end_item item.now }
{
    matches!(item, Item::End)
}

/// Reads up to the item `start`, and gives the items before it.
///
/// # Errors
/// `BadScript`: at this offset stands no item that fits. `TooLarge`: the input goes on past 67108864 bytes, and where its items end within
/// them nothing is left, or an item is begun. `InputFault`: a read failed, and the source's count of faults rose. `NoMemory`.
pub fn read_start<S: Source>(
    alloc: Global,
    reader: &mut Reader,
    input: &mut S,
) -> Result<Vec<Item>, ScriptFault>
    requires { reader.old ≡ fresh }
    ensures start { IfOk result (λ v. IsAtStart reader.new v.items) }
    ensures held { (b : List ℕ) → S.remaining input.old ≡ Some b → IfOk result (λ v. Holds b (v.items ++ the_start ∷ [])) }
    // The moment is one at which the driver may start.
    ensures moment { IfOk result (λ v. moment_of v.items ≤ 10 ^ 12) }
    ensures reads { (b : List ℕ) → S.remaining input.old ≡ Some b → OnOk result (Reads b reader.new (S.remaining input.new)) }
    ensures end { (b : List ℕ) → S.remaining input.old ≡ Some b → IfErr result (λ f. (xs : List I) × (has_started xs ≡ false) × IsFaultOf b xs f) }
    ensures cause { IfErr result (λ f. BlamesInput f (S.faults input.old) (S.faults input.new)) }
    ensures no_fall { S.faults input.old ≤ S.faults input.new }
    ensures most { (b : List ℕ) → S.remaining input.old ≡ Some b → GoneAtMost b (S.remaining input.new) }
{
    let mut items = Vec::new(alloc);
    loop {
        let item = match next_item(reader, input) {
            Ok(item) => item,
            Err(fault) => return Err(fault),
        };
        if is_start(&item) {
            return Ok(items);
        }
        if is_end(&item) {
            unreachable!();
        }
        match items.push(item) {
            Ok(()) => {}
            Err(_) => return Err(ScriptFault::NoMemory),
        }
    }
}

/// Reads on behind the item `start`, to the end of the script.
///
/// # Errors
/// `BadScript`: at this offset stands an event, or no item that fits. The others as those of `read_start`.
pub fn read_end<S: Source>(reader: &mut Reader, input: &mut S) -> Result<(), ScriptFault>
    requires { (xs : List I) × IsAtStart reader.old xs }
    ensures whole { (b : List ℕ) (xs : List I) → IsAtStart reader.old xs → Reads b reader.old (S.remaining input.old)
        → OnOk result (IsWhole b (xs ++ the_start ∷ the_end ∷ []) × (S.remaining input.new ≡ Some [])) }
    ensures end { (b : List ℕ) (xs : List I) → IsAtStart reader.old xs → Reads b reader.old (S.remaining input.old) → IfErr result (λ f. (ys : List I) × IsFaultOf b ys f) }
    ensures cause { IfErr result (λ f. BlamesInput f (S.faults input.old) (S.faults input.new)) }
    ensures no_fall { S.faults input.old ≤ S.faults input.new }
    ensures most { (b : List ℕ) → Reads b reader.old (S.remaining input.old) → GoneAtMost b (S.remaining input.new) }
{
    match next_item(reader, input) {
        Ok(Item::End) => Ok(()),
        Ok(Item::Event(_event)) => Err(ScriptFault::BadScript { at: reader.at() }),
        Ok(Item::Head(_, _)) => unreachable!(),
        Ok(Item::File(_path, _bytes)) => unreachable!(),
        Ok(Item::Start) => unreachable!(),
        Err(fault) => Err(fault),
    }
}
