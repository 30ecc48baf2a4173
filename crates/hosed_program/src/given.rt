// Where the words come from that the program is run with: its contract.
ghost use Rattle.std.specs.Prelude.{◌≡◌, ◌≤◌, ℕ, List, Option, IfOk, IfSome, length, map};
ghost use Rattle.std.specs.String.{string_bytes};
ghost use Rattle.hosed_program.specs.steps.Given.{IsPut, IsWordAt};

use std::env::{Env, FillError};

/// The words after a program's name, one after another: those that the system hands it, or a list.
pub trait Given {
    /// The words, as bytes, where they are told.
    ghost words: { Self → Option (List (List ℕ)) };

    /// Puts the word of a place, counted from 0, at the front of `into`, and says how long it is.
    fn word(&self, place: usize, into: &mut [u8]) -> Result<usize, FillError>
        ensures room { IfOk result (λ count. count ≤ length into.new) }
        ensures told { IfSome (words self.now)
            (λ all. IsWordAt all place (length into.old) into.new result) };
}

/// The words that the system hands the program. It tells nothing of them.
#[derive(Clone, Copy)]
pub struct SystemWords<'e, E> {
    pub env: &'e E,
}

impl<'e, E: Env> Given for SystemWords<'e, E> {
    ghost use Rattle.hosed_program.specs.steps.Given.{untold_words};

    ghost words = { λ _. untold_words };

    fn word(&self, place: usize, into: &mut [u8]) -> Result<usize, FillError> {
        // The first one that the system has is the program's name.
        self.env.arg(place.saturating_add(1), into)
    }
}

/// Words of a list.
#[derive(Clone, Copy)]
pub struct ListedWords<'w> {
    pub words: &'w [String],
}

impl<'w> Given for ListedWords<'w> {
    ghost use Rattle.std.specs.Prelude.{Some, map};
    ghost use Rattle.std.specs.String.{string_bytes};

    ghost words = { λ listed. Some (map string_bytes listed.words.now) };

    fn word(&self, place: usize, into: &mut [u8]) -> Result<usize, FillError> {
        let words = self.words;
        put_word(words, place, into)
    }
}

// Puts the word of a place of a list at the front of `into`.
fn put_word(words: &[String], place: usize, into: &mut [u8]) -> Result<usize, FillError>
    ensures room { IfOk result (λ count. count ≤ length into.new) }
    ensures told { IsWordAt (map string_bytes words.now) place (length into.old) into.new result }
{
    if place >= words.len() {
        return Err(FillError::NotPresent);
    }
    put_bytes(words[place].as_bytes(), into)
}

// Puts bytes at the front of `into`, where there is room for them.
fn put_bytes(bytes: &[u8], into: &mut [u8]) -> Result<usize, FillError>
    ensures room { IfOk result (λ count. count ≤ length into.new) }
    ensures put { IsPut bytes.now (length into.old) into.new result }
{
    if bytes.len() > into.len() {
        return Err(FillError::TooLong);
    }
    into[..bytes.len()].copy_from_slice(bytes);
    Ok(bytes.len())
}
