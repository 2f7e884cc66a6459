// Requests, carried out on a sheet.
ghost use Rattle.std.specs.Prelude.{◌≡◌, true, List, [], ◌∷◌, length};
ghost use Rattle.formats.specs.Drafts.{Sound};
ghost use Rattle.formats.specs.declared.variable.Variable.{Variable as VariableOf};
ghost use Rattle.arithmetic.specs.Dividing.{Over};
ghost use Rattle.sheets.specs.Desks.{Blank};
ghost use Rattle.sheets.specs.Sheets.{state, rows_lent};
ghost use Rattle.uses.specs.Performing.{call_of};
ghost use Rattle.uses.specs.Runs.{Onward};

use crate::answers::Printed;
use crate::command::{Plain, Request};
use crate::console::Console;
use crate::fault::Fault;
use rings::Ring;
use sheets::Sheet;
use std::io;
use std::io::Write;
use uses::{Answer, Call, Divides, Reply, perform};

// The bytes of an output that is enough for any place: no card has more than 213, and the last one at most 44.
const MOST_BYTES: u64 = 213 * 4096 + 44;

// Performs a call that is no division, as one of a list that may divide if the kind does.
fn perform_plain<K: Ring, D: Divides<K>>(
    sheet: &mut Sheet<'_, K>,
    call: Plain<'_>,
    output: &mut [u8],
) -> Answer<K>
    ensures blank { Blank sheet.old.desk → Blank sheet.new.desk }
    ensures long { rows_lent sheet.new ≡ rows_lent sheet.old }
    ensures promise { (over : Over K) (vs : List VariableOf) → D.divides_by over → Sound vs → (D.may ≡ true → K.whole ≡ true) → Onward K.kind over vs D.may (state sheet.old) (call_of (length output.old) call.entry ∷ []) (state sheet.new) }
{
    perform(sheet, &call.among::<D>(), output)
}

impl<'a> Console<'a> {
    // Prints what a call answered that writes nothing.
    fn tell<K: Ring>(&self, answer: Answer<K>) -> io::Result<()> {
        self.rt.println(Printed(answer))
    }

    // Writes a place, into an output of `room` bytes, or of enough for any place.
    fn write<K: Ring, D: Divides<K>>(
        &self,
        sheet: &mut Sheet<'_, K>,
        place: usize,
        room: Option<u64>,
    ) -> io::Result<()>
        ensures blank { Blank sheet.old.desk → Blank sheet.new.desk }
        ensures long { rows_lent sheet.new ≡ rows_lent sheet.old }
    {
        // no more than `MOST_BYTES`, so `as`: there is no `From` between the two types
        let room = room.unwrap_or(MOST_BYTES).min(MOST_BYTES) as usize;
        let mut output: Vec<u8> = vec![in self.rt.alloc(); 0; room]?;
        let answer = perform_plain::<K, D>(sheet, Call::Write(place), output.as_mut_slice());
        self.rt.println(Printed(answer))?;
        if let Ok(Reply::Bytes(count)) = answer {
            output.truncate(count);
            self.rt.stdout().write_all(output.as_slice())?;
        }
        Ok(())
    }

    // Carries out the request of a line, and leaves a sheet at rest that was. Where it opened the sheet, the rows of an area are told.
    pub(crate) fn carry_out<K: Ring, D: Divides<K>>(
        &mut self,
        sheet: &mut Sheet<'_, K>,
        number: u64,
        request: Request<'_>,
    ) -> io::Result<()>
        ensures blank { Blank sheet.old.desk → Blank sheet.new.desk }
        ensures long { rows_lent sheet.new ≡ rows_lent sheet.old }
    {
        match request {
            Request::Open(_) => {
                let room = sheet.room();
                println!(self.rt; "ok {room}")
            }
            Request::File(place, name) => match self.file_text(name) {
                Ok(text) => {
                    let call = Call::Read(place, text.as_slice());
                    self.tell(perform_plain::<K, D>(sheet, call, &mut []))
                }
                Err(fault) => self.complain(number, fault),
            },
            Request::Write(place, room) => self.write::<K, D>(sheet, place, room),
            Request::Divide(r, p, q) => match D::leave() {
                Some(leave) => self.tell(perform(sheet, &Call::Divide(r, p, q, leave), &mut [])),
                None => self.complain(number, Fault::NoDivision),
            },
            Request::Call(call) => self.tell(perform_plain::<K, D>(sheet, call, &mut [])),
        }
    }
}
