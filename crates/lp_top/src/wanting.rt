//! Which devices the words of the command line want.
ghost use Rattle.std.specs.Prelude.{◌≡◌, Err, IfOk, None, map, string_bytes};
ghost use Rattle.lp_serve_words.specs.declared.words.WordsFault.TheVariants as fault;
ghost use Rattle.lp_top.specs.Wants.{control_of, lib_of, port_of, script_file_of, ws_of};
ghost use Rattle.lp_top.specs.Words.{Name, command_in};
ghost use Rattle.lp_top.specs.declared.words.Command.{Command as C};

use crate::devices;
use crate::words::command_of;
use lp_serve_words::WordsFault;
use std::alloc::Global;

/// Which devices the words want: the values of their options `--lib`, `--record`, `--port`, `--control` and `--ws`, and none or 0 where they
/// have no such option.
///
/// # Errors
/// `BadWords` exactly where the words name no command, as `run` answers it, or else `NoMemory`.
pub fn wants(alloc: Global, words: &[String]) -> Result<devices::Wants, WordsFault>
    ensures named { IfOk result (λ w. (command : C) × Name words.now command) }
    ensures refused { result ≡ Err fault.BadWords → command_in (map string_bytes words.now) ≡ None }
    ensures lib { IfOk result (λ w. (command : C) → Name words.now command → w.lib ≡ lib_of command) }
    ensures script_file { IfOk result (λ w. (command : C) → Name words.now command → w.script_file ≡ script_file_of command) }
    ensures port { IfOk result (λ w. (command : C) → Name words.now command → w.port ≡ port_of command) }
    ensures control { IfOk result (λ w. (command : C) → Name words.now command → w.control ≡ control_of command) }
    ensures ws { IfOk result (λ w. (command : C) → Name words.now command → w.ws ≡ ws_of command) }
{
    match command_of(alloc, words) {
        Ok(command) => Ok(devices::wanted_by(command)),
        Err(fault) => Err(fault),
    }
}
