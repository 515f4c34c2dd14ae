// The statements of the command language.
#![tactic(auto, unfolding(crate::specs::Statements::name_at, crate::specs::Statements::three_places, crate::specs::Statements::places, crate::specs::Statements::station, crate::specs::Statements::listed, crate::specs::Statements::profile, crate::specs::Statements::called))]

ghost use Rattle.std.specs.Prelude.{◌≡◌, Err, IsUtf8};
ghost use Rattle.statements.specs.Statements.{name as name_of, name_at, three_places, places, station, listed, profile, declaration, called, begun, statement};
ghost use Rattle.words.specs.declared.fault.Expected.TheVariants.{Text as NoText};

use crate::declaration::{Declaration, Name, Places};
use calls::{Call, read_call};
use std::str::from_utf8;
use words::cut::word_at;
use words::fault::{Expected, Fault, Keyword};
use words::line::Line;

/// A statement: something is declared of a station, or the station is called.
#[derive(Clone, Copy)]
pub enum Statement {
    Declares(Declaration),
    Calls { name: Name, call: Call },
}

// By name and not by `TryFrom`: its fault needs the place of the word, which the caller has.
/// The station that a word names.
fn station_name(word: &[u8]) -> Option<Name>
    ensures { result ≡ name_of word.now }
{
    match word {
        b"A" => Some(Name::A),
        b"B" => Some(Name::B),
        _ => None,
    }
}

/// The name that the first word of a call or the second word of a declaration has to be.
fn name_at(line: &Line<'_>, place: usize, expected: Expected) -> Result<Name, Fault>
    ensures { result ≡ name_at expected place line.now.octets.now }
{
    station_name(line.word(place)).ok_or(Fault { place, expected })
}

/// Three numbers of places, and the end of the line.
fn written_places(line: &Line<'_>) -> Result<Places, Fault>
    ensures { result ≡ three_places line.now.octets.now }
{
    let policies = line.number_up_to(13, 65536)?;
    let associations = line.number_up_to(14, 65536)?;
    let heard = line.number_up_to(15, 65536)?;
    line.end(16)?;
    Ok(Places {
        policies,
        associations,
        heard,
    })
}

/// The numbers of places that end a line, or those that stand where none is written.
fn places_in(line: &Line<'_>) -> Result<Places, Fault>
    ensures { result ≡ places line.now.octets.now }
{
    match line.word(12) {
        b"" => Ok(Places {
            policies: 64,
            associations: 256,
            heard: 4096,
        }),
        b"places" => written_places(line),
        _ => Err(Fault {
            place: 12,
            expected: Expected::PlacesOrEnd,
        }),
    }
}

/// `station NAME own N ne N back N ahead N fallback yes|no [places N N N]`.
fn station(line: &Line<'_>) -> Result<Declaration, Fault>
    ensures { result ≡ station line.now.octets.now }
{
    let name = name_at(line, 1, Expected::StationName)?;
    line.keyword(2, Keyword::Own)?;
    let own = line.number(3)?;
    let ne_id = line.field(4, Keyword::Ne)?;
    let back = line.field(6, Keyword::Back)?;
    let ahead = line.field(8, Keyword::Ahead)?;
    let fallback = line.switch(10, Keyword::Fallback)?;
    let places = places_in(line)?;
    Ok(Declaration::Station {
        name,
        own,
        ne_id,
        back,
        ahead,
        fallback,
        places,
    })
}

/// `listed NAME KIND CODE`.
fn listed(line: &Line<'_>) -> Result<Declaration, Fault>
    ensures { result ≡ listed line.now.octets.now }
{
    let name = name_at(line, 1, Expected::StationName)?;
    let kind = line.number(2)?;
    let code = line.number(3)?;
    line.end(4)?;
    Ok(Declaration::Listed { name, kind, code })
}

/// `profile NAME PPI CODE LEVEL`.
fn profile(line: &Line<'_>) -> Result<Declaration, Fault>
    ensures { result ≡ profile line.now.octets.now }
{
    let name = name_at(line, 1, Expected::StationName)?;
    let ppi = line.number(2)?;
    let code = line.number(3)?;
    let level = line.number(4)?;
    line.end(5)?;
    Ok(Declaration::Profile {
        name,
        ppi,
        code,
        level,
    })
}

/// The call of a line, at the station that its first word names.
fn called(line: &Line<'_>) -> Result<Statement, Fault>
    ensures { result ≡ called line.now.octets.now }
{
    let name = name_at(line, 0, Expected::Statement)?;
    let call = read_call(*line)?;
    Ok(Statement::Calls { name, call })
}

/// The declaration that the first word of a line begins; none, where it begins something else.
#[tactic(auto, unfolding(crate::specs::Statements::declaration))]
fn declaration(line: &Line<'_>) -> Option<Result<Declaration, Fault>>
    ensures { result ≡ declaration line.now.octets.now }
{
    match line.word(0) {
        b"station" => Some(station(line)),
        b"listed" => Some(listed(line)),
        b"profile" => Some(profile(line)),
        _ => None,
    }
}

/// The statement that the first word of a line begins.
#[tactic(auto, unfolding(crate::specs::Statements::declaration, crate::specs::Statements::begun))]
fn begun(line: &Line<'_>) -> Result<Statement, Fault>
    ensures { result ≡ begun line.now.octets.now }
{
    match declaration(line) {
        Some(declared) => declared.map(Statement::Declares),
        None => called(line),
    }
}

/// The statement of a line of text; none, where the line has no word.
#[tactic(auto, unfolding(crate::specs::Statements::statement))]
fn read_words(line: &[u8]) -> Result<Option<Statement>, Fault>
    ensures { result ≡ statement line.now }
{
    // Before its words are cut: a line of a comment or of blanks has none.
    if word_at(line, 0).is_empty() {
        return Ok(None);
    }
    begun(&Line::of(line)).map(Some)
}

/// The statement of a line; none, where the line has no word.
pub fn read_statement(line: &[u8]) -> Result<Option<Statement>, Fault>
    ensures text { IsUtf8 line.now → result ≡ statement line.now }
    ensures not_text { (IsUtf8 line.now → ⊥) → result ≡ Err (record { place = 0; expected = NoText }) }
{
    if from_utf8(line).is_err() {
        return Err(Fault {
            place: 0,
            expected: Expected::Text,
        });
    }
    read_words(line)
}
