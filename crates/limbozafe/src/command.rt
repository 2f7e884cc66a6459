// A command of a script.
ghost use Rattle.std.specs.Prelude.{◌≤◌, length};

use crate::fault::Fault;
use crate::kind::Kind;
use crate::line_words::Words;
use crate::script::Line;
use formats::{Draft, Format};
use refusals::Refusal;
use uses::{Call, NoDivision};

// A call that is no division.
pub(crate) type Plain<'a> = Call<'a, NoDivision>;

#[derive(Drop)]
pub(crate) enum Command<'a> {
    Kind(Kind),
    // the format that was drafted, or why it was refused
    Format(Result<Format, Refusal>),
    OnSheet(Request<'a>),
}

// What a sheet is asked for.
#[derive(Clone, Copy)]
pub(crate) enum Request<'a> {
    // to be opened, on so many rows
    Open(u64),
    // a place, and the name of the file that is read into it
    File(usize, &'a [u8]),
    // a place, and the room of the output
    Write(usize, Option<u64>),
    // places: of the quotient, the dividend, the divisor
    Divide(usize, usize, usize),
    Call(Plain<'a>),
}

// The draft with the variable of a letter and a width.
fn with_variable(draft: Draft, word: &[u8], width: u32) -> Result<Draft, Refusal> {
    match word {
        [letter] => draft.add(*letter, width).map_err(|back| back.0),
        _ => Err(Refusal::Letter),
    }
}

// The format of the letters and widths that follow. A fault among them comes before every refusal.
fn format_of<'a>(words: &mut Words<'a>) -> Result<Command<'a>, Fault> {
    let mut drafted = Ok(Draft::new());
    while let Some(word) = words.next() {
        let width = words.read()?;
        drafted = drafted.and_then(|draft| with_variable(draft, word, width));
    }
    let format = drafted.and_then(|draft| draft.close().map_err(|back| back.0));
    Ok(Command::Format(format))
}

// A call on the next two numbers.
fn two<'a, F: FnOnce(usize, usize) -> Plain<'a>>(
    words: &mut Words,
    call: F,
) -> Result<Plain<'a>, Fault>
    requires { F.IsAlwaysCallable call }
{
    Ok(call(words.read()?, words.read()?))
}

// A call on the next three numbers.
fn three<'a, F: FnOnce(usize, usize, usize) -> Plain<'a>>(
    words: &mut Words,
    call: F,
) -> Result<Plain<'a>, Fault>
    requires { F.IsAlwaysCallable call }
{
    Ok(call(words.read()?, words.read()?, words.read()?))
}

// A call on the next five numbers.
fn multiply_truncate(words: &mut Words) -> Result<Plain<'static>, Fault> {
    Ok(Call::MultiplyTruncate(
        words.read()?,
        words.read()?,
        words.read()?,
        words.read()?,
        words.read()?,
    ))
}

// The call of a name.
fn call_of<'a>(name: &[u8], words: &mut Words) -> Result<Plain<'a>, Fault> {
    match name {
        b"constant" => Ok(Call::Constant(
            words.read()?,
            words.read()?,
            words.read_if_any()?.unwrap_or(0),
        )),
        b"variable" => two(words, Call::Variable),
        b"copy" => two(words, Call::Copied),
        b"negate" => two(words, Call::Negate),
        b"add" => three(words, Call::Add),
        b"subtract" => three(words, Call::Subtract),
        b"multiply" => three(words, Call::Multiply),
        b"differentiate" => three(words, Call::Differentiate),
        b"substitute" => Ok(Call::Substitute(
            words.read()?,
            words.read()?,
            words.read()?,
            words.read()?,
        )),
        b"truncate" => Ok(Call::Truncate(
            words.read()?,
            words.read()?,
            words.read()?,
            words.read()?,
        )),
        b"multiply-truncate" => multiply_truncate(words),
        b"equal" => two(words, Call::Equal),
        b"leading" => Ok(Call::Leading(words.read()?)),
        _ => Err(Fault::Command),
    }
}

// What the deck of a file, or of the cards that follow, is read into.
fn read<'a>(words: &mut Words<'a>, cards: &'a [u8]) -> Result<Request<'a>, Fault> {
    let place = words.read()?;
    Ok(match words.next() {
        Some(name) => Request::File(place, name),
        None => Request::Call(Call::Read(place, cards)),
    })
}

// The request of a name and the words and cards after it.
fn request_of<'a>(
    name: &[u8],
    words: &mut Words<'a>,
    cards: &'a [u8],
) -> Result<Request<'a>, Fault> {
    match name {
        b"open" => Ok(Request::Open(words.read()?)),
        b"read" => read(words, cards),
        b"write" => Ok(Request::Write(words.read()?, words.read_if_any()?)),
        b"divide" => Ok(Request::Divide(words.read()?, words.read()?, words.read()?)),
        _ => Ok(Request::Call(call_of(name, words)?)),
    }
}

// The command of a line, if it has one.
pub(crate) fn command_of(line: Line) -> Result<Option<Command>, Fault> {
    let Some(name) = line.name else {
        return Ok(None);
    };
    let mut words = line.words;
    let command = match name {
        [b'#', ..] => return Ok(None),
        b"kind" => Command::Kind(words.read()?),
        b"format" => format_of(&mut words)?,
        _ => Command::OnSheet(request_of(name, &mut words, line.cards)?),
    };
    words.end()?;
    Ok(Some(command))
}
