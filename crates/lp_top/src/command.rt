//! The call that carries out a command.
ghost use Rattle.std.specs.Prelude.{◌≡◌, ℕ, ◌≤◌, Bool, List, [], Option, None, ◌⊎◌, length, map, string_bytes};
ghost use Rattle.std.specs.Option.{option_copied};
ghost use Rattle.lp_io.specs.Counts.{Counts, Rose};
ghost use Rattle.lp_io.specs.Told.{IsPassedOn};
ghost use Rattle.lp_events.specs.declared.item.Item.{Item as I};
ghost use Rattle.lp_events.specs.Script.{IsScript, longest_input};
ghost use Rattle.lp_script.specs.Reader.{GoneAtMost};
ghost use Rattle.lp_host.specs.Causes.{NothingFailed};
ghost use Rattle.lp_host.specs.Hosting.{LeavesFiles};
ghost use Rattle.lp_top.specs.Causes.{BlamesFiles, BlamesInput, BlamesOutput, SwapTells, is_wire_fault};
ghost use Rattle.lp_top.specs.Check.{Checks};
ghost use Rattle.lp_top.specs.Make.{Makes};
ghost use Rattle.lp_swapfile.specs.Counts.{Rose as SwapRose};
ghost use Rattle.lp_top.specs.Items.{HasMaster};
ghost use Rattle.lp_top.specs.Replay.{Replays};
ghost use Rattle.lp_serve_words.specs.declared.words.Serving.{Serving};
ghost use Rattle.lp_top.specs.Serves.{IsServedInOrder, Serves};
ghost use Rattle.lp_top.specs.Words.{Name, NameMake, NameServe, command_in};

use crate::check::check;
use crate::make::make;
use crate::replay::replay;
use crate::serve::serve;
use crate::status::Status;
use crate::words::{Command, command_of};
use lp_asking::truth::Truthful;
use lp_folder::Files;
use lp_front_end::law_there_is_one;
use lp_io::{Sink, Source};
use lp_meaning::one_end_of_the_start;
use lp_script::one_spelling;
use lp_serve_words::WordsFault;
use lp_tree::path::FilePath;
use lp_wire::Wire;
use std::alloc::Global;

// The text of a path that may have been given. Takes no memory.
fn text_of(path: &Option<FilePath>) -> Option<&str>
    ensures { option_copied result ≡ path.now }
{
    match path {
        Some(path) => Some(path.as_str()),
        None => None,
    }
}

/// Carries out the command that the words name: `replay` reads a script from `input` and writes its
/// transcript to `out`, with what is put out in `swap`; `check` reads a script and tells what is wrong
/// with its files, running nothing; `make` writes a script and reads nothing; `serve` serves the players
/// of `wire` a game of the files of `files`, and writes its script or its log to `out`.
///
/// A replay starts the driver on the files of the script, with the seed and at the moment of its head,
/// and gives each event its turn. What it writes is the transcript of the run that the written meaning
/// gives these items, by each front end that there is.
///
/// `--swap-time N` tells after how many seconds without an entry an object or a program is idle, a number
/// up to 1000000000, by default 900; 0 means never. What is idle goes out after a tick, where the swap
/// file tells what it holds, and comes in again where it is wanted: the transcript is the same.
///
/// With `--report` the line `report A B C D` follows the transcript: how many objects are live, how many of
/// them are out, how many program versions are kept, and how many of them are out.
///
/// A check loads each file that ends in `.c`, by path and its parents first. It writes a line
/// `FILE line N: TEXT` for each fault, by the paths of the files and each file's faults once, and then
/// the line `F files, E faults`, where F counts the script's files that end in `.c`. A file has its
/// first fault of expansion, or else of grammar; or else all of its types; or else the first of its
/// tables. One whose parent is missing or faulty has at most that of expansion or grammar. A missing
/// parent has `no such file` in line 0, in its place by path. An `inherit` of a file whose load is
/// under way is the fault `inherits itself`.
///
/// With `--simul PATH` each file but that one and its parents sees, as simul efuns, the functions of
/// that file's version that every object may call. There are none where PATH is no file of the script
/// that ends in `.c`, or where it or a parent of it is missing or faulty.
///
/// `make N SEED` writes the script of a workload: a mudlib of eight boxes that hold numbers and share
/// some of them, one connection, and N events, from 1 to 200000, which the words of SplitMix64 from
/// SEED choose, a number below 2^64. Both are decimal digits without sign and without a leading zero.
/// It holds one item at a time.
///
/// `serve --lib DIR --port P --control P` loads all files, starts the driver on them at the wire's opening
/// moment, and gives each event that is heard of the wire its turn, until the operator says `stop`, a poll
/// fails, or the wire was polled as often as `--turns` says. The folder, the ports and the file that
/// `--record` names are opened by whoever calls this (`wants`). With `--record` the script of the run is
/// written, and else its log.
///
/// - `Done`: the input was read to its end and is a script, and the bytes written are its transcript, and
///   the line of the report where it was asked for; or the report of a check; or they are the script of the workload;
///   or the operator stopped a game that was served, and no changed file stays unwritten.
/// - `BadWords`: exactly where the words name no command, unless there is no memory to see it; nothing
///   was read or written.
/// - `BadScript`: at this offset stands no item that fits there. A replay has written the blocks of the
///   turns before, a check nothing. `serve` and `make`, which read no script, never answer it.
/// - `NoMaster`: no master is made of the files, for these faults; nothing was written. A check never
///   answers it.
/// - `TooLarge`: the input goes on past 67108864 bytes, and where its items end within them nothing
///   is left, or an item is begun.
/// - `InputFault`: a read failed, and the source's count of faults rose.
/// - `OutputFault`: a write or a flush failed, or a write took nothing, and one of the sink's counts
///   rose. A front of the transcript, of the report or of the workload was written.
/// - `SwapFault`: in a turn the swap file failed to give back what was put out, or gave bytes of another
///   digest. Its count of read faults rose exactly where a failed read is the end; one that is honest
///   and truthful never gives other bytes. A replay has written the blocks of the turns before; a check
///   and `make` leave the swap file as it was.
/// - `FilesFault`: the files could not be loaded, which has the path `/`, or the operator stopped the game
///   and this changed file could not be written at the last try. Only `serve` answers it, and the next two.
/// - `WireFault`: a poll of the wire failed.
/// - `TurnsSpent`: the wire was polled as often as it was to be, and nobody stopped the game.
/// - `NoMemory`: a replay has written the blocks of the turns before, a check nothing, and `make` a
///   front of the workload. It also comes where the swap file gave other bytes of the same digest.
///
/// `make` ends with `Done`, `OutputFault` or `NoMemory` alone.
///
/// At most 67108865 bytes of the input are taken, at every end. At `Done` all that was written was
/// passed on by a flush.
///
/// What was read and written is known of a source and a sink that tell it, such as those in memory.
pub fn run<S: Source, K: Sink, F: Files, W: Truthful, N: Wire>(
    alloc: Global,
    words: &[String],
    input: &mut S,
    out: &mut K,
    files: &mut F,
    swap: &mut W,
    wire: &mut N,
) -> Status
    ensures words { result ≡ Status.BadWords → command_in (map string_bytes words.now) ≡ None }
    ensures refused { command_in (map string_bytes words.now) ≡ None → (result ≡ Status.BadWords) ⊎ (result ≡ Status.NoMemory) }
    ensures untouched { command_in (map string_bytes words.now) ≡ None → (input.new ≡ input.old) × (out.new ≡ out.old) × (files.new ≡ files.old) × (swap.new ≡ swap.old) × (wire.new ≡ wire.old) }
    ensures replays { (swap_time : ℕ) (report : Bool) → Name words.now (Command.Replay swap_time report) → (b : List ℕ) → S.remaining input.old ≡ Some b → Replays swap_time report b result (K.written out.old) (K.written out.new) }
    ensures checks { (simul : Option (List ℕ)) → Name words.now (Command.Check simul) → (b : List ℕ) → S.remaining input.old ≡ Some b → Checks simul b result (K.written out.old) (K.written out.new) }
    ensures makes { (count seed : ℕ) → Name words.now (Command.Make count seed) → Makes count seed result (K.written out.old) (K.written out.new) }
    ensures serves { (serving : Serving) → Name words.now (Command.Serve serving) → Serves serving (F.held files.old) (N.first wire.old) (K.written out.old) (K.written out.new) (N.calls wire.old) (N.calls wire.new)
        (LeavesFiles (F.faults files.old) (F.held files.new) (F.faults files.new)) ((wire.new ≡ wire.old) × (out.new ≡ out.old)) result }
    ensures unread { NameMake words.now → input.new ≡ input.old }
    ensures unread_serving { NameServe words.now → input.new ≡ input.old }
    // Only a game that is served uses files and a wire.
    ensures unserved { (NameServe words.now → ⊥) → (files.new ≡ files.old) × (wire.new ≡ wire.old) }
    ensures whole { result ≡ Status.Done → (NameMake words.now → ⊥) → (NameServe words.now → ⊥) → (b : List ℕ) → S.remaining input.old ≡ Some b → S.remaining input.new ≡ Some [] }
    ensures most { (b : List ℕ) → S.remaining input.old ≡ Some b → GoneAtMost b (S.remaining input.new) }
    ensures passed { result ≡ Status.Done → IsPassedOn (K.passed out.new) }
    ensures input_fault { BlamesInput result (S.faults input.old) (S.faults input.new) }
    ensures output_fault { BlamesOutput result (K.faults out.old) (K.faults out.new) (K.zeros out.old) (K.zeros out.new) }
    ensures swap_fault { SwapTells result (W.content swap.new) (W.last swap.new) (W.read_faults swap.old) (W.read_faults swap.new)
        (W.is_truthful swap.old) (W.is_truthful swap.new) (W.is_honest swap.old) (W.is_honest swap.new) }
    ensures files_fault { BlamesFiles result (F.faults files.old) (F.faults files.new) }
    ensures wire_fault { Counts (is_wire_fault result) (N.faults wire.old) (N.faults wire.new) }
    // Only a replay and a game that is served use the swap file.
    ensures swapless { ((swap_time : ℕ) (report : Bool) → Name words.now (Command.Replay swap_time report) → ⊥) → (NameServe words.now → ⊥) → swap.new ≡ swap.old }
    // A script of whose files a master is made, over devices that do not fail and a swap file that is honest, is carried out to its end.
    ensures complete { (swap_time : ℕ) (report : Bool) (b : List ℕ) (xs : List I) → Name words.now (Command.Replay swap_time report) → S.remaining input.old ≡ Some b → length b ≤ longest_input → IsScript b xs → HasMaster xs
        → W.is_honest swap.new → W.is_truthful swap.new → (SwapRose (W.read_faults swap.old) (W.read_faults swap.new) → ⊥)
        → (Rose (S.faults input.old) (S.faults input.new) → ⊥) → (Rose (K.faults out.old) (K.faults out.new) → ⊥) → (Rose (K.zeros out.old) (K.zeros out.new) → ⊥)
        → (result ≡ Status.Done) ⊎ (result ≡ Status.NoMemory) }
    // Each script, over devices that do not fail, is checked to its end.
    ensures complete_check { (simul : Option (List ℕ)) (b : List ℕ) (xs : List I) → Name words.now (Command.Check simul) → S.remaining input.old ≡ Some b → length b ≤ longest_input → IsScript b xs
        → (Rose (S.faults input.old) (S.faults input.new) → ⊥) → (Rose (K.faults out.old) (K.faults out.new) → ⊥) → (Rose (K.zeros out.old) (K.zeros out.new) → ⊥)
        → (result ≡ Status.Done) ⊎ (result ≡ Status.NoMemory) }
    // Each workload is made to its end over a sink that does not fail.
    ensures complete_make { NameMake words.now → (Rose (K.faults out.old) (K.faults out.new) → ⊥) → (Rose (K.zeros out.old) (K.zeros out.new) → ⊥)
        → (result ≡ Status.Done) ⊎ (result ≡ Status.NoMemory) }
    // A game that is served over devices that do not fail and a swap file that is honest ends with none of their faults.
    ensures complete_serving { NameServe words.now → NothingFailed (K.faults out.old) (K.faults out.new) (K.zeros out.old) (K.zeros out.new) (F.faults files.old) (F.faults files.new) (N.faults wire.old) (N.faults wire.new)
        (W.read_faults swap.old) (W.read_faults swap.new) (W.is_truthful swap.new) (W.is_honest swap.new) → IsServedInOrder result }
{
    one_spelling();
    one_end_of_the_start();
    law_there_is_one();
    match command_of(alloc, words) {
        Ok(Command::Replay { swap_time, report }) => {
            replay(alloc, swap_time as u64, report, input, out, swap)
        }
        Ok(Command::Check { simul }) => check(alloc, text_of(&simul), input, out),
        Ok(Command::Make { count, seed }) => make(alloc, count, seed, out),
        Ok(Command::Serve(serving)) => serve(alloc, &serving, out, files, swap, wire),
        Err(WordsFault::BadWords) => Status::BadWords,
        Err(WordsFault::NoMemory) => Status::NoMemory,
    }
}
