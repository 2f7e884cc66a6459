// A script, line by line.
ghost use Rattle.std.specs.Prelude.{◌≡◌, ◌<◌, ◌≤◌, ◌↔◌, ◌+◌, ◌-◌, ◌^◌, min, length, IfSome, IsSome, OnSome, IsTrue};
ghost use Rattle.std.specs.Iterator.{YieldsFirstRef};
ghost use Rattle.limbozafe.specs.Lines.{line, after_line, content, IsPoint, IsCutAtPoint, IsCutAfter};
ghost use Rattle.limbozafe.specs.Words.{words as words_of, line_words, AsksForCards};

use crate::line_words::Words;

// What is left of a script.
#[derive(Clone, Copy)]
pub(crate) struct Script<'a> {
    pub(crate) rest: &'a [u8],
    // how many lines came before it
    pub(crate) lines: u64,
}

// A line of a script.
#[derive(Clone, Copy)]
pub(crate) struct Line<'a> {
    // counted from 1
    pub(crate) number: u64,
    // its first word, if it has one
    pub(crate) name: Option<&'a [u8]>,
    // those after it
    pub(crate) words: Words<'a>,
    // the cards on the lines that follow, if it is a `read` without a file name
    pub(crate) cards: &'a [u8],
}

// The first line of a text, with its byte 10, and the text after it.
fn first_line(text: &[u8]) -> (&[u8], &[u8])
    ensures first { result.0.now ≡ line text.now }
    ensures rest { result.1.now ≡ after_line text.now }
{
    match text.iter().position(|byte| *byte == b'\n') {
        Some(end) => text.split_at(end + 1),
        None => (text, &[]),
    }
}

// A line without its byte 10 and a byte 13 right before that.
fn without_end(line: &[u8]) -> &[u8]
    ensures { result.now ≡ content line.now }
{
    match line {
        [front @ .., b'\r', b'\n'] => front,
        [front @ .., b'\n'] => front,
        _ => line,
    }
}

// Whether a line is just a point.
fn is_point(line: &[u8]) -> bool
    ensures { IsTrue result ↔ IsPoint line.now }
{
    matches!(line, b"." | b".\n")
}

// Whether cards follow a line of a first word, if it has one, and those after it: it is a `read` without a file name, right or wrong.
fn has_cards(name: Option<&[u8]>, mut words: Words) -> bool
    ensures { IsTrue result ↔ AsksForCards (line_words name.entry (words_of words.entry.0.now)) }
{
    match name {
        Some(b"read") => words.nth(1).is_none(),
        _ => false,
    }
}

impl<'a> Script<'a> {
    // The next line, with its byte 10.
    fn take_line(&mut self) -> Option<&'a [u8]>
        ensures variant { IsSome result ↔ (0 < length self.old.rest.now) }
        ensures line { IfSome result (λ l. l.now ≡ line self.old.rest.now) }
        ensures rest { self.new.rest.now ≡ after_line self.old.rest.now }
        ensures count { OnSome result (self.new.lines ≡ min (self.old.lines + 1) (2 ^ 64 - 1)) }
    {
        if self.rest.is_empty() {
            return None;
        }
        let (line, rest) = first_line(self.rest);
        self.rest = rest;
        self.lines = self.lines.saturating_add(1);
        Some(line)
    }

    // The cards that follow: every byte up to a line that is just a point, or all that is left. That line is taken too.
    fn cards(&mut self) -> &'a [u8]
        ensures cards { IsCutAtPoint self.old.rest.now result.now self.new.rest.now }
        ensures onward { length self.new.rest.now ≤ length self.old.rest.now }
    {
        let text = self.rest;
        let mut length = 0;
        while let Some(line) = self.take_line() {
            if is_point(line) {
                return &text[..length];
            }
            length += line.len();
        }
        text
    }

    // The next line, with the cards that follow it.
    pub(crate) fn next_line(&mut self) -> Option<Line<'a>>
        ensures variant { IsSome result ↔ (0 < length self.old.rest.now) }
        ensures number { IfSome result (λ l. l.number ≡ min (self.old.lines + 1) (2 ^ 64 - 1)) }
        ensures words { IfSome result (λ l. YieldsFirstRef words_of (content (line self.old.rest.now)) l.name l.words.0.now) }
        ensures cards { IfSome result (λ l. IsCutAfter (words_of (content (line self.old.rest.now))) (after_line self.old.rest.now) l.cards.now self.new.rest.now) }
        ensures onward { OnSome result (length self.new.rest.now < length self.old.rest.now) }
    {
        let mut words = Words(without_end(self.take_line()?));
        let name = words.next();
        let number = self.lines;
        let cards = if has_cards(name, words) {
            self.cards()
        } else {
            &[]
        };
        Some(Line {
            number,
            name,
            words,
            cards,
        })
    }
}
