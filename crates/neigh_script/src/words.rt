//! The words of a line.
ghost use Rattle.std.specs.Prelude.{◌≡◌, ◌<◌, ◌≤◌, ◌==◌, ◌∷◌, [], length, take, drop, position, not, MatchOption, MatchResult, Some, bytes_eq};
ghost use Rattle.std.specs.List.{position_or_len};
ghost use Rattle.neigh_script.specs.Reading as of;
ghost use Rattle.text_codes.specs.Lines.{words_of};
ghost use Rattle.text_codes.specs.Lines as lines;
ghost use Rattle.text_codes.specs.Codes.{BeginsWithout};

use crate::why::ScriptWhy;
use std::marker::Model;

/// The words that are left of a line.
#[derive(Drop)]
pub(crate) struct Words<'a> {
    rest: &'a [u8],
}

impl<'a> Model for Words<'a> {
    ghost use Rattle.std.specs.Prelude.{List, ℕ};
    ghost use Rattle.text_codes.specs.Lines.{words_of};

    ghost Value = { List (List ℕ) };

    ghost view = { λ w. words_of w.rest.now };
}

impl<'a> Words<'a> {
    pub fn of_line(line: &'a [u8]) -> Words<'a>
        ensures { result ≡ words_of line.entry.now }
    {
        Words { rest: line }
    }

    /// The next word, where one is left.
    pub fn next(&mut self) -> Option<&'a [u8]>
        ensures { MatchOption result ((self.old ≡ []) × (self.new ≡ [])) (λ word. self.old ≡ word.now ∷ self.new) }
    {
        let text = skip_blanks(self.rest);
        if text.is_empty() {
            return None;
        }
        let (word, rest) = cut_word(text);
        self.rest = rest;
        Some(word)
    }
}

impl<'a> Words<'a> {
    /// Takes the next word; a missing one is unknown.
    pub fn field(&mut self) -> Result<&'a [u8], ScriptWhy>
        ensures { MatchResult result (λ word. self.old ≡ word.now ∷ self.new) (λ why. (self.old ≡ []) × (why ≡ ScriptWhy.UnknownWord)) }
    {
        self.next().ok_or(ScriptWhy::UnknownWord)
    }
}

impl Words<'_> {
    /// Takes the next word, which is to be this one.
    pub fn expect(&mut self, word: &[u8]) -> Result<(), ScriptWhy>
        ensures { of.word word.now self.old ≡ of.read_as (λ _. self.new) result }
    {
        if is_word(self.field()?, word) {
            Ok(())
        } else {
            Err(ScriptWhy::UnknownWord)
        }
    }

    /// Takes the next word where it is this one.
    pub fn take(&mut self, word: &[u8]) -> bool
        ensures { of.taken word.now self.old ≡ (result, self.new) }
    {
        let before = self.rest;
        match self.next() {
            Some(next) if is_word(next, word) => true,
            _ => {
                self.rest = before;
                false
            }
        }
    }

    /// That no word is left.
    pub fn end(&mut self) -> Result<(), ScriptWhy>
        ensures { result ≡ of.last (tt {0}) self.old }
    {
        match self.next() {
            None => Ok(()),
            Some(_) => Err(ScriptWhy::UnknownWord),
        }
    }
}

/// Whether the text is this word.
pub(crate) fn is_word(text: &[u8], word: &[u8]) -> bool
    ensures { result ≡ bytes_eq text.now word.now }
{
    text == word
}

fn is_blank(byte: u8) -> bool
    ensures { result ≡ lines.is_blank byte }
{
    byte == b' ' || byte == b'\t'
}

// The text from its first word on.
fn skip_blanks(text: &[u8]) -> &[u8]
    ensures words { words_of text.now ≡ words_of result.now }
    ensures begins { BeginsWithout lines.is_blank result.now }
    ensures empty { length result.now ≡ 0 → words_of text.now ≡ [] }
{
    &text[blank_len(text)..]
}

// The word that a text begins with, and the text behind it.
fn cut_word(text: &[u8]) -> (&[u8], &[u8])
    requires some { 0 < length text.now }
    requires begins { BeginsWithout lines.is_blank text.now }
    ensures { words_of text.now ≡ result.0.now ∷ words_of result.1.now }
{
    text.split_at(word_len(text))
}

// How many spaces and tabs stand in front.
fn blank_len(text: &[u8]) -> usize
    ensures value { result ≡ position_or_len (λ b. not (lines.is_blank b)) text.now }
    ensures within { result ≤ length text.now }
{
    find_word(text).unwrap_or(text.len())
}

fn find_word(text: &[u8]) -> Option<usize>
    ensures { result ≡ position (λ b. not (lines.is_blank b)) text.now }
{
    text.iter().position(|b| !is_blank(*b))
}

// How many bytes stand in front of the first space or tab.
fn word_len(text: &[u8]) -> usize
    ensures value { result ≡ position_or_len lines.is_blank text.now }
    ensures within { result ≤ length text.now }
{
    find_blank(text).unwrap_or(text.len())
}

fn find_blank(text: &[u8]) -> Option<usize>
    ensures { result ≡ position lines.is_blank text.now }
{
    text.iter().position(|b| is_blank(*b))
}
