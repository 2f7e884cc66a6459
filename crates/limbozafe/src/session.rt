// A whole script.
ghost use Rattle.std.specs.Prelude.{◌<◌, length, IfOk, OnSome};

use crate::command::{Command, Request, command_of};
use crate::console::Console;
use crate::fault::Fault;
use crate::kind::Kind;
use crate::script::Script;
use formats::Format;
use gaussian::Gaussian;
use integers::Integer;
use refusals::Refusal;
use residues::Residue;
use rings::Ring;
use rows::Row;
use sheets::Sheet;
use std::io;
use uses::{Divides, Division, NoDivision};
use words::Word;

// The rows that matter of those that a sheet is opened on: twelve areas of at most 4096.
const MOST_ROWS: u64 = 49152;

// What the next sheet is opened with.
#[derive(Drop)]
struct Settings {
    // the last that was accepted
    format: Option<Format>,
    kind: Kind,
}

impl Settings {
    // Takes a format, unless it was refused.
    fn take(&mut self, drafted: Result<Format, Refusal>) -> Result<(), Refusal> {
        self.format = Some(drafted?);
        Ok(())
    }
}

// A request, with the number of its line and the settings there.
#[derive(Clone, Copy)]
struct Asked<'a> {
    number: u64,
    format: Format,
    kind: Kind,
    request: Request<'a>,
}

#[derive(Drop)]
struct Session<'a> {
    console: Console<'a>,
    script: Script<'a>,
    settings: Settings,
}

impl<'a> Session<'a> {
    // Carries out the lines up to the next that is for a sheet.
    fn next_request(&mut self) -> io::Result<Option<Asked<'a>>>
        ensures { IfOk result (λ asked. OnSome asked (length self.new.script.rest.now < length self.old.script.rest.now)) }
    {
        while let Some(line) = self.script.next_line() {
            match command_of(line) {
                Ok(None) => {}
                Ok(Some(Command::Kind(kind))) => {
                    self.settings.kind = kind;
                    self.console.answer(Ok(()))?
                }
                Ok(Some(Command::Format(drafted))) => {
                    let answer = self.settings.take(drafted);
                    self.console.answer(answer)?
                }
                Ok(Some(Command::OnSheet(request))) => match self.settings.format {
                    Some(format) => {
                        return Ok(Some(Asked {
                            number: line.number,
                            format,
                            kind: self.settings.kind,
                            request,
                        }));
                    }
                    None => self.console.complain(line.number, Fault::NoFormat)?,
                },
                Err(fault) => self.console.complain(line.number, fault)?,
            }
        }
        Ok(None)
    }

    // What is wrong with a request that would open a sheet, if anything is: a line in error opens none, so its file is read
    // here, and again on the sheet.
    fn check(&self, asked: &Asked) -> Result<(), Fault> {
        match asked.request {
            Request::Divide(..) if asked.kind == Kind::Words => Err(Fault::NoDivision),
            Request::File(_, name) => self.console.file_text(name).map(|_| ()),
            _ => Ok(()),
        }
    }

    // Carries out the lines up to the first that opens a sheet: an `open`, or a call without one.
    fn before_sheet(&mut self) -> io::Result<Option<Asked<'a>>> {
        while let Some(asked) = self.next_request()? {
            match self.check(&asked) {
                Ok(()) => return Ok(Some(asked)),
                Err(fault) => self.console.complain(asked.number, fault)?,
            }
        }
        Ok(None)
    }

    // Opens a sheet of a kind on blank rows, and carries out the lines on it, up to one that opens another.
    fn on_sheet<K: Ring + Clone, D: Divides<K>>(
        &mut self,
        asked: Asked<'a>,
    ) -> io::Result<Option<Asked<'a>>>
        ensures { IfOk result (λ next. OnSome next (length self.new.script.rest.now < length self.old.script.rest.now)) }
    {
        // no more than `MOST_ROWS`, so `as` below: there is no `From` between the two types
        let rows = match asked.request {
            Request::Open(rows) => rows.min(MOST_ROWS),
            _ => MOST_ROWS,
        };
        let mut lent: Vec<Row<K>> = vec![in self.console.rt.alloc(); Row::blank(); rows as usize]?;
        let mut sheet = Sheet::open(lent.as_mut_slice(), asked.format);
        self.console
            .carry_out::<K, D>(&mut sheet, asked.number, asked.request)?;
        while let Some(next) = self.next_request()? {
            if let Request::Open(_) = next.request {
                return Ok(Some(next));
            }
            self.console
                .carry_out::<K, D>(&mut sheet, next.number, next.request)?;
        }
        Ok(None)
    }
}

// Carries out a script, and tells whether no command was in error.
pub(crate) fn run(rt: &HostRuntime, text: &[u8]) -> io::Result<bool> {
    let mut session = Session {
        console: Console {
            rt,
            faultless: true,
        },
        script: Script {
            rest: text,
            lines: 0,
        },
        settings: Settings {
            format: None,
            kind: Kind::Integers,
        },
    };
    let mut next = session.before_sheet()?;
    while let Some(asked) = next {
        next = match asked.kind {
            Kind::Integers => session.on_sheet::<Integer, Division>(asked)?,
            Kind::Residues => session.on_sheet::<Residue, Division>(asked)?,
            Kind::Pairs => session.on_sheet::<Gaussian, Division>(asked)?,
            Kind::Words => session.on_sheet::<Word, NoDivision>(asked)?,
        };
    }
    Ok(session.console.faultless)
}
