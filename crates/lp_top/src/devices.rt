//! Which devices a command wants.
ghost use Rattle.std.specs.Prelude.{◌≡◌, None};
ghost use Rattle.lp_top.specs.Wants.{control_of, lib_of, port_of, script_file_of, ws_of};
ghost use Rattle.lp_top.specs.declared.words.Command.{Command as C};

use crate::words::Command;
use lp_serve_words::Serving;
use lp_tree::path::FilePath;

/// Which devices a command wants beside the input, the output and the swap file.
#[derive(Debug, Drop)]
pub struct Wants {
    /// The folder of the files, where players are served.
    pub lib: Option<FilePath>,
    /// The file that takes the script of the run in place of the output, if one is wanted.
    pub script_file: Option<FilePath>,
    /// The port of the players, from 1 to 65535, or 0 where nobody is served.
    pub port: u16,
    /// The port of the operator, or 0 where nobody is served.
    pub control: u16,
    /// The port of players in a browser, or 0 where there is none.
    pub ws: u16,
}

// What a game that is served wants. Takes no memory.
fn wanted_to_serve(serving: Serving) -> Wants
    ensures lib { result.lib ≡ lib_of (C.Serve serving) }
    ensures script_file { result.script_file ≡ script_file_of (C.Serve serving) }
    ensures port { result.port ≡ port_of (C.Serve serving) }
    ensures control { result.control ≡ control_of (C.Serve serving) }
    ensures ws { result.ws ≡ ws_of (C.Serve serving) }
{
    Wants {
        lib: Some(serving.lib),
        script_file: serving.record_file,
        port: serving.port,
        control: serving.control,
        ws: serving.ws,
    }
}

// What a command wants that serves nobody. Takes no memory.
fn no_wants() -> Wants
    ensures lib { result.lib ≡ None }
    ensures script_file { result.script_file ≡ None }
    ensures port { result.port ≡ 0 }
    ensures control { result.control ≡ 0 }
    ensures ws { result.ws ≡ 0 }
{
    Wants {
        lib: None,
        script_file: None,
        port: 0,
        control: 0,
        ws: 0,
    }
}

/// What a command wants. Takes no memory.
pub(crate) fn wanted_by(command: Command) -> Wants
    ensures lib { result.lib ≡ lib_of command }
    ensures script_file { result.script_file ≡ script_file_of command }
    ensures port { result.port ≡ port_of command }
    ensures control { result.control ≡ control_of command }
    ensures ws { result.ws ≡ ws_of command }
{
    match command {
        Command::Serve(serving) => wanted_to_serve(serving),
        Command::Replay { .. } => no_wants(),
        Command::Check { .. } => no_wants(),
        Command::Make { .. } => no_wants(),
    }
}
