// A made input as it is printed, piece by piece.
ghost use Rattle.std.specs.Prelude.{◌≡◌, ◌<◌, ◌∷◌, ◌++◌, [], IfOk, MatchOption, OnErr, string_bytes};
ghost use Rattle.mon_script.specs.Made as spec;
ghost use Rattle.mon_script.specs.MadePlaces.{IsNext, IsPlace, pieces_left, place_behind};

use crate::generator::{FILES, ROUNDS, made_round};
use crate::made_texts::{made_config, made_script};
use mon_value::{OutOfMemory, Text};
use std::alloc::Global;
use std::marker::Model;

/// How far an input was printed.
#[derive(Clone, Copy)]
pub(crate) enum Place {
    /// Nothing so far.
    Config,
    /// All in front of a file of points; behind the last one stands the script.
    File(u32),
    /// All in front of a round of a file.
    Round(u32, u32),
    /// All.
    End,
}

/// A piece of an input, the place behind it, and the number that the next point goes on from.
#[derive(Drop)]
pub(crate) struct Made {
    pub piece: Text,
    pub before: u64,
    pub place: Place,
}

/// The input that is made from a number: for each file a line with its name, and its text. Contracts see the pieces
/// that are left, of which each takes the memory of one round of points, and no more.
#[derive(Drop)]
pub struct MadeInput {
    number: u64,
    before: u64,
    place: Place,
}

impl Model for MadeInput {
    ghost use Rattle.std.specs.Prelude.{List, ℕ};

    ghost Value = { List (List ℕ) };

    ghost use Rattle.mon_script.specs.MadePlaces.{IsPlace, pieces_left};

    ghost view = { λ input. pieces_left input.number input.place };

    ghost invariant = { λ input. IsPlace input.number input.before input.place };
}

impl MadeInput {
    /// The input of a number.
    pub fn new(number: u64) -> MadeInput
        ensures whole { result ≡ spec.made_pieces number }
    {
        MadeInput {
            number,
            before: number,
            place: Place::Config,
        }
    }

    /// The next piece, or `None` where none is left.
    pub fn next(&mut self, alloc: Global) -> Result<Option<Text>, OutOfMemory>
        ensures piece { IfOk result (λ piece. MatchOption piece ((self.old ≡ []) × (self.new ≡ []))
            (λ text. self.old ≡ text ∷ self.new)) }
        ensures kept { OnErr result (self.new ≡ self.old) }
    {
        match made_at(alloc, self.number, self.before, self.place)? {
            Some(made) => {
                self.before = made.before;
                self.place = made.place;
                Ok(Some(made.piece))
            }
            None => Ok(None),
        }
    }
}

// The piece at a place.
fn made_at(
    alloc: Global,
    number: u64,
    before: u64,
    place: Place,
) -> Result<Option<Made>, OutOfMemory>
    requires is { IsPlace number before place }
    ensures made { IfOk result (λ made. MatchOption made (pieces_left number place ≡ []) (IsNext number place)) }
{
    match place {
        Place::Config => Ok(Some(made_first(alloc, number)?)),
        Place::File(file) if file < FILES => Ok(Some(made_name(alloc, number, before, file)?)),
        Place::File(file) => Ok(Some(made_last(alloc, number, before, file)?)),
        Place::Round(file, round) => Ok(Some(made_points(alloc, number, before, file, round)?)),
        Place::End => Ok(None),
    }
}

// The configuration, behind its name.
fn made_first(alloc: Global, number: u64) -> Result<Made, OutOfMemory>
    ensures next { IfOk result (λ made. IsNext number Place.Config made) }
{
    let config = made_config(alloc, number)?;
    Ok(Made {
        piece: named(alloc, "config.json", &config)?,
        before: number,
        place: Place::File(0),
    })
}

// The name of a file of points.
fn made_name(alloc: Global, _number: u64, before: u64, file: u32) -> Result<Made, OutOfMemory>
    requires among { file < 4 }
    requires is { IsPlace _number before (Place.File file) }
    ensures next { IfOk result (λ made. IsNext _number (Place.File file) made) }
{
    let name = points_name(alloc, file)?;
    Ok(Made {
        piece: Text::from_string(section_line(alloc, name.as_str())?)?,
        before,
        place: Place::Round(file, 0),
    })
}

// The script, behind its name.
fn made_last(alloc: Global, number: u64, before: u64, file: u32) -> Result<Made, OutOfMemory>
    requires behind { file ≡ 4 }
    ensures next { IfOk result (λ made. IsNext number (Place.File file) made) }
{
    let script = made_script(alloc, number)?;
    Ok(Made {
        piece: named(alloc, "script.txt", &script)?,
        before,
        place: Place::End,
    })
}

// A round of a file of points.
fn made_points(
    alloc: Global,
    _number: u64,
    before: u64,
    file: u32,
    round: u32,
) -> Result<Made, OutOfMemory>
    requires is { IsPlace _number before (Place.Round file round) }
    ensures next { IfOk result (λ made. IsNext _number (Place.Round file round) made) }
{
    let mut behind = before;
    let piece = made_round(alloc, &mut behind, file, round)?;
    Ok(Made {
        piece,
        before: behind,
        place: place_behind(file, round),
    })
}

// The place behind a round of a file.
fn place_behind(file: u32, round: u32) -> Place
    requires file { file < 4 }
    requires round { round < 100 }
    ensures place { result ≡ place_behind file round }
{
    if round + 1 < ROUNDS {
        Place::Round(file, round + 1)
    } else {
        Place::File(file + 1)
    }
}

// A text behind the line with its name.
fn named(alloc: Global, name: &str, text: &Text) -> Result<Text, OutOfMemory>
    ensures text { IfOk result (λ made. made ≡ spec.section_line name.now ++ text.now) }
{
    let mut made = section_line(alloc, name)?;
    made.push_str(text.as_str())?;
    Text::from_string(made)
}

// The name of a file of points.
fn points_name(alloc: Global, file: u32) -> Result<String, OutOfMemory>
    ensures name { IfOk result (λ name. string_bytes name ≡ spec.points_name file) }
{
    format!(in alloc; "p{file}.csv")
}

// The line in front of a file's text.
fn section_line(alloc: Global, name: &str) -> Result<String, OutOfMemory>
    ensures line { IfOk result (λ line. string_bytes line ≡ spec.section_line name.now) }
{
    format!(in alloc; "== {name} ==\n")
}
