//! The words of a text, one after the other, and the fields that they say.

ghost use Rattle.std.specs.Prelude.{◌≡◌, ◌==◌, ◌-◌, ◌^◌, ◌<◌, ◌≤◌, ℕ, List, [], ◌∷◌, MatchOption, MatchResult, IfOk, position};
ghost use Rattle.std.specs.List.{list_all};
ghost use Rattle.vd_model.specs.Fields.{is_name, is_name_byte, number_in, u64_field, u32_field, u16_field, length_field, name_field, hex_field, optional_hex_field, flag_field, dir_field, on_field, writable_field};
ghost use Rattle.vd_words.specs.Gives.{Gives, Takes, Ends};
ghost use Rattle.vd_model.specs.Forms.{cut_at};

use crate::error::LineError;
use std::marker::Model;
use vd_digits::{decode, number_of};
use vd_model::{Dir, QueueOrConfig, Text};

/// What is left of a text that is cut at each separator. Contracts see the words.
#[derive(Drop)]
pub struct Words<'a> {
    separator: u8,
    rest: Option<&'a [u8]>,
}

impl<'a> Model for Words<'a> {
    ghost use Rattle.std.specs.Prelude.{ℕ, List};

    ghost Value = { List (List ℕ) };

    ghost use Rattle.vd_words.specs.Rest.{words_left};

    ghost view = { λ w. words_left w.separator w.rest };
}

fn position_of(byte: u8, bytes: &[u8]) -> Option<usize>
    ensures { result ≡ position (λ b. b == byte) bytes.now }
{
    bytes.iter().position(|b| *b == byte)
}

fn is_name_byte(byte: u8) -> bool
    ensures { result ≡ is_name_byte byte }
{
    matches!(byte, b'a'..=b'z' | b'0'..=b'9' | b'_' | b'-')
}

fn has_name_bytes(word: &[u8]) -> bool
    ensures { result ≡ list_all is_name_byte word.now }
{
    word.iter().all(|byte| is_name_byte(*byte))
}

fn is_name(word: &[u8]) -> bool
    ensures { result ≡ is_name word.now }
{
    !word.is_empty() && word.len() <= 255 && has_name_bytes(word)
}

/// One byte or more, as two hexadecimal digits each, decoded into `scratch`.
fn hex_of<'a>(scratch: &'a mut Vec<u8>, word: &[u8]) -> Result<Text<'a>, LineError>
    ensures { Gives result (hex_field word.now) }
{
    if !decode(word, scratch)? {
        return Err(LineError::Bad);
    }
    Ok(Text::new(scratch.as_slice()))
}

#[tactic(auto, unfolding(vd_model::specs::Fields::number_in))]
fn u32_of(word: &[u8]) -> Result<u32, LineError>
    ensures { Gives result (u32_field word.now) }
{
    match number_of(word) {
        Some(number) if number <= u64::from(u32::MAX) => Ok(number as u32),
        _ => Err(LineError::Bad),
    }
}

impl<'a> Words<'a> {
    /// The words of a text that is cut at each separator.
    pub fn new(separator: u8, text: &'a [u8]) -> Self
        ensures { result ≡ cut_at separator text.now }
    {
        Words {
            separator,
            rest: Some(text),
        }
    }

    /// The next word, if one is left.
    pub fn next(&mut self) -> Option<&'a [u8]>
        ensures { MatchOption result ((self.old ≡ []) × (self.new ≡ []))
            (λ word. self.old ≡ word.now ∷ self.new) }
    {
        let rest = self.rest?;
        match position_of(self.separator, rest) {
            Some(i) => {
                self.rest = Some(&rest[i + 1..]);
                Some(&rest[..i])
            }
            None => {
                self.rest = None;
                Some(rest)
            }
        }
    }

    /// The next word. Without one the line isn't in the grammar.
    pub fn word(&mut self) -> Result<&'a [u8], LineError>
        ensures { MatchResult result (λ word. self.old ≡ word.now ∷ self.new)
            (λ e. (e ≡ LineError.Bad) × (self.old ≡ [])) }
    {
        self.next().ok_or(LineError::Bad)
    }

    /// A number from `low` to `high`.
    #[tactic(auto, unfolding(vd_model::specs::Fields::number_in))]
    pub fn number_in(&mut self, low: u64, high: u64) -> Result<u64, LineError>
        ensures takes { Takes (number_in low high) self.old result self.new }
        ensures range { IfOk result (λ n. (low ≤ n) × (n ≤ high)) }
    {
        match number_of(self.word()?) {
            Some(number) if low <= number && number <= high => Ok(number),
            _ => Err(LineError::Bad),
        }
    }

    /// A number of at most 64 bits.
    pub fn u64(&mut self) -> Result<u64, LineError>
        ensures { Takes u64_field self.old result self.new }
    {
        self.number_in(0, u64::MAX)
    }

    /// A number of at most 32 bits.
    pub fn u32(&mut self) -> Result<u32, LineError>
        ensures { Takes u32_field self.old result self.new }
    {
        let number = self.number_in(0, u64::from(u32::MAX))?;
        Ok(number as u32)
    }

    /// A number of at most 16 bits.
    pub fn u16(&mut self) -> Result<u16, LineError>
        ensures { Takes u16_field self.old result self.new }
    {
        let number = self.number_in(0, u64::from(u16::MAX))?;
        Ok(number as u16)
    }

    /// A status byte, 1 to 255.
    pub fn status(&mut self) -> Result<u8, LineError>
        ensures { Takes (number_in 1 255) self.old result self.new }
    {
        let number = self.number_in(1, 255)?;
        Ok(number as u8)
    }

    /// The length of a line that reads bytes, 1 to 32,768.
    pub fn length(&mut self) -> Result<u64, LineError>
        ensures { Takes length_field self.old result self.new }
    {
        self.number_in(1, 32768)
    }

    /// A device's name.
    pub fn name(&mut self) -> Result<Text<'a>, LineError>
        ensures { Takes name_field self.old result self.new }
    {
        let word = self.word()?;
        if !is_name(word) {
            return Err(LineError::Bad);
        }
        Ok(Text::new(word))
    }

    /// One byte or more, as two hexadecimal digits each.
    pub fn hex<'b>(&mut self, scratch: &'b mut Vec<u8>) -> Result<Text<'b>, LineError>
        ensures { Takes hex_field self.old result self.new }
    {
        hex_of(scratch, self.word()?)
    }

    /// The same, or `-` for no bytes.
    #[tactic(auto, unfolding(vd_model::specs::Fields::optional_hex_field))]
    pub fn optional_hex<'b>(&mut self, scratch: &'b mut Vec<u8>) -> Result<Text<'b>, LineError>
        ensures { Takes optional_hex_field self.old result self.new }
    {
        let word = self.word()?;
        if word == b"-".as_slice() {
            return Ok(Text::new(&[]));
        }
        hex_of(scratch, word)
    }

    /// `0` or `1`.
    #[tactic(auto, unfolding(vd_model::specs::Fields::flag_field))]
    pub fn flag(&mut self) -> Result<bool, LineError>
        ensures { Takes flag_field self.old result self.new }
    {
        let word = self.word()?;
        if word == b"0".as_slice() {
            Ok(false)
        } else if word == b"1".as_slice() {
            Ok(true)
        } else {
            Err(LineError::Bad)
        }
    }

    /// The direction of a mapping.
    #[tactic(auto, unfolding(vd_model::specs::Fields::dir_field))]
    pub fn dir(&mut self) -> Result<Dir, LineError>
        ensures { Takes dir_field self.old result self.new }
    {
        match self.word()? {
            b"to" => Ok(Dir::To),
            b"from" => Ok(Dir::From),
            b"both" => Ok(Dir::Both),
            _ => Err(LineError::Bad),
        }
    }

    /// A queue's number, or `config`.
    #[tactic(auto, unfolding(vd_model::specs::Fields::on_field))]
    pub fn on(&mut self) -> Result<QueueOrConfig, LineError>
        ensures { Takes on_field self.old result self.new }
    {
        let word = self.word()?;
        if word == b"config".as_slice() {
            return Ok(QueueOrConfig::Config);
        }
        let queue = u32_of(word)?;
        Ok(QueueOrConfig::Queue(queue))
    }

    /// Whether the device writes a part: `r` or `w`.
    #[tactic(auto, unfolding(vd_model::specs::Fields::writable_field))]
    pub fn writable(&mut self) -> Result<bool, LineError>
        ensures { Takes writable_field self.old result self.new }
    {
        match self.word()? {
            b"r" => Ok(false),
            b"w" => Ok(true),
            _ => Err(LineError::Bad),
        }
    }

    /// The step, where no word is left behind it.
    pub fn done<S: Drop>(&self, step: S) -> Result<S, LineError>
        ensures { Ends step self.now result }
    {
        match self.rest {
            None => Ok(step),
            Some(_) => Err(LineError::Bad),
        }
    }
}
