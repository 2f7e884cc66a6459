// The words of a line.
ghost use Rattle.std.specs.Prelude.{◌≡◌, ◌<◌, List, [], ◌∷◌, length, drop, Result, MatchResult, ℕ};
ghost use Rattle.std.specs.Option.{ok_or};
ghost use Rattle.std.specs.Iterator.{YieldsFirstRef, item_count};
ghost use Rattle.limbozafe.specs.declared.fault.Fault.{Fault as FaultOf};
ghost use Rattle.limbozafe.specs.declared.fault.Fault.TheVariants.{Number};
ghost use Rattle.limbozafe.specs.Numerals.{natural, number, figure};
ghost use Rattle.limbozafe.specs.Words.{words, blank, read_first, read_first_if_any};

use crate::fault::Fault;
use crate::numbers::{parse_figure, parse_natural};

// What is left of a line.
#[derive(Clone, Copy)]
pub(crate) struct Words<'a>(pub(crate) &'a [u8]);

fn is_blank(byte: &u8) -> bool
    ensures { result ≡ blank byte.now }
{
    matches!(*byte, b' ' | b'\t')
}

impl<'a> Iterator for Words<'a> {
    type Item = &'a [u8];

    ghost next_gives = { YieldsFirstRef (λ s. words s.0.now) };

    ghost remaining = { item_count (λ s. words s.0.now) };

    fn next(&mut self) -> Option<&'a [u8]> {
        let line = self.0;
        let start = line.iter().position(|byte| !is_blank(byte))?;
        let (_, line) = line.split_at(start);
        let end = line.iter().position(is_blank).unwrap_or(line.len());
        let (word, rest) = line.split_at(end);
        self.0 = rest;
        Some(word)
    }
}

// What a word can be read as.
pub(crate) trait FromWord: Sized {
    // what a word says, or what is wrong with it
    ghost says: { List ℕ → Result Self FaultOf };

    fn from_word(word: &[u8]) -> Result<Self, Fault>
        ensures { result ≡ says word.now };
}

impl FromWord for u64 {
    ghost says = { λ word. ok_or (natural word) Number };

    fn from_word(word: &[u8]) -> Result<u64, Fault> {
        parse_natural(word).ok_or(Fault::Number)
    }
}

impl FromWord for u32 {
    ghost says = { λ word. ok_or (number word) Number };

    fn from_word(word: &[u8]) -> Result<u32, Fault> {
        u32::try_from(u64::from_word(word)?).map_err(|_| Fault::Number)
    }
}

// A place, the number of a variable or a count of them: 32 bits, too. There is no `From` between the two types, so `as`.
impl FromWord for usize {
    ghost says = { λ word. ok_or (number word) Number };

    fn from_word(word: &[u8]) -> Result<usize, Fault> {
        Ok(u32::from_word(word)? as usize)
    }
}

// A figure.
impl FromWord for i64 {
    ghost says = { λ word. ok_or (figure word) Number };

    fn from_word(word: &[u8]) -> Result<i64, Fault> {
        parse_figure(word).ok_or(Fault::Number)
    }
}

impl<'a> Words<'a> {
    // The next word, which has to be there.
    pub(crate) fn word(&mut self) -> Result<&'a [u8], Fault>
        ensures word { MatchResult result (λ word. words self.old.0.now ≡ word.now ∷ words self.new.0.now) (λ fault. (fault ≡ Fault.Missing) × (words self.old.0.now ≡ [])) }
        ensures rest { words self.new.0.now ≡ drop 1 (words self.old.0.now) }
    {
        self.next().ok_or(Fault::Missing)
    }

    // What the next word is read as.
    pub(crate) fn read<T: FromWord>(&mut self) -> Result<T, Fault>
        ensures value { result ≡ read_first T.says (words self.old.0.now) }
        ensures rest { words self.new.0.now ≡ drop 1 (words self.old.0.now) }
    {
        T::from_word(self.word()?)
    }

    // What the next word is read as, if there is one.
    pub(crate) fn read_if_any<T: FromWord>(&mut self) -> Result<Option<T>, Fault>
        ensures value { result ≡ read_first_if_any T.says (words self.old.0.now) }
        ensures rest { words self.new.0.now ≡ drop 1 (words self.old.0.now) }
    {
        self.next().map(|word| T::from_word(word)).transpose()
    }

    // The line is at its end.
    pub(crate) fn end(&mut self) -> Result<(), Fault>
        ensures { MatchResult result (λ _. words self.old.0.now ≡ []) (λ fault. (fault ≡ Fault.TooMany) × (0 < length (words self.old.0.now))) }
    {
        match self.next() {
            Some(_) => Err(Fault::TooMany),
            None => Ok(()),
        }
    }
}
