// What a session has to do with the host.
ghost use Rattle.std.specs.Prelude.{◌≡◌, false};

use crate::fault::Fault;
use refusals::Refusal;
use std::{fs, io, str};

#[derive(Drop)]
pub(crate) struct Console<'a> {
    pub(crate) rt: &'a HostRuntime,
    // no command so far was in error
    pub(crate) faultless: bool,
}

impl<'a> Console<'a> {
    // Prints that a setting was accepted, or its refusal.
    pub(crate) fn answer(&self, answer: Result<(), Refusal>) -> io::Result<()> {
        match answer {
            Ok(()) => self.rt.println("ok"),
            Err(refusal) => println!(self.rt; "refused {refusal}"),
        }
    }

    // Prints what is wrong with the line of a number.
    pub(crate) fn complain(&mut self, number: u64, fault: Fault) -> io::Result<()>
        ensures { self.new.faultless ≡ false }
    {
        self.faultless = false;
        println!(self.rt; "error: line {number}: {fault}")
    }

    // The text of a file, if there is one of that name.
    pub(crate) fn file_text(&self, name: &[u8]) -> Result<Vec<u8>, Fault> {
        let path = str::from_utf8(name).map_err(|_| Fault::File)?;
        fs::read(self.rt, path).map_err(|_| Fault::File)
    }
}
