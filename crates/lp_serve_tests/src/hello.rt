//! A driver on a master that greets its one connection.
ghost use Rattle.std.specs.Prelude.{⊤};

use lp_core::{Core, Stop};
use lp_events::event::Event;
use lp_events::out::{Out, Outs};
use lp_files::store::Store;
use lp_values::text::Text;
use std::alloc::{AllocError, Global};

/// The master's connection, how often it says `Hello` at once, and files. A line `save` changes a file.
#[derive(Drop)]
pub struct Hello {
    alloc: Global,
    who: Option<u32>,
    much: u32,
    store: Store,
}

impl Hello {
    /// Nobody is there. Takes no memory.
    pub fn new(alloc: Global, much: u32) -> Hello {
        Hello {
            alloc,
            who: None,
            much,
            store: Store::new(alloc),
        }
    }

    fn say(&self, outs: &mut Outs, k: u32, text: &str) -> Result<(), AllocError> {
        outs.push(Out::Text(k, Text::from_str(self.alloc, text)?))
    }

    fn greet(&mut self, outs: &mut Outs, k: u32) -> Result<(), AllocError> {
        if self.who.is_some() {
            return outs.push(Out::Close(k));
        }
        self.who = Some(k);
        for _ in 0..self.much {
            self.say(outs, k, "Hello\n")?;
        }
        Ok(())
    }

    fn answer(&mut self, outs: &mut Outs, k: u32, line: &[u8]) -> Result<(), AllocError> {
        if self.who != Some(k) {
            return Ok(());
        }
        if line == b"save".as_slice() {
            self.store.write("/a.txt", b"x")?;
        }
        self.say(outs, k, "What?\n")
    }

    fn hear(&mut self, outs: &mut Outs, event: &Event) -> Result<(), AllocError> {
        match event {
            Event::Connect(k) => self.greet(outs, *k),
            Event::Line(k, bytes) => self.answer(outs, *k, bytes.as_slice()),
            Event::Gone(k) => {
                if self.who == Some(*k) {
                    self.who = None;
                }
                Ok(())
            }
            Event::Tick(_) => Ok(()),
            Event::Reload(path, bytes) => {
                self.store.write(path.as_str(), bytes.as_slice())?;
                self.store.written(path.as_str());
                Ok(())
            }
            Event::Swap(_) => Ok(()),
        }
    }
}

impl Core<()> for Hello {
    ghost ran = { λ _ _ _ _. ⊤ };

    ghost goes = { λ _ _. ⊤ };

    ghost stored = { λ h. h.store };

    ghost quiet = { λ _ _. ⊤ };

    ghost blames = { λ _ _ _ _. ⊤ };

    fn turn(&mut self, _swap: &mut (), event: &Event) -> Result<Outs, Stop> {
        let mut outs = Outs::new(self.alloc);
        match self.hear(&mut outs, event) {
            Ok(()) => Ok(outs),
            Err(_) => Err(Stop::NoMemory),
        }
    }

    fn store(&self) -> &Store {
        &self.store
    }

    fn written(&mut self, path: &str) {
        self.store.written(path);
    }
}
