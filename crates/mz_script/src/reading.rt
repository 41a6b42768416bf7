//! Lines are read.
ghost use Rattle.std.specs.Prelude.{◌≡◌, ◌==◌, Some, true, IfOk, codes, position};
ghost use Rattle.std.specs.Str.{is_utf8};
ghost use Rattle.mz_script.specs.Built.{IsHeard};
ghost use Rattle.mz_script.specs.Lines.{colon_says, is_skipped, line_says, named_numbered_says, named_says, numbered_says, one_says, saying, text_says, three_say, twice_numbered_says, two_say, without_return, words_line_says, words_say};
ghost use Rattle.mz_script.specs.Words.{is_script_name, words_of};

use crate::script_line::ScriptLine;
use crate::words::{
    after_spaces, has_space_at_end, is_script_name, next_word, number, place_of, time,
};
use mz_sql::ask;
use mz_time::Time;
use mz_value::{Name, Text};
use std::alloc::{AllocError, Global};

const LONGEST_LINE: usize = 65_536;

// What a word says that stands alone.
fn one(word: &[u8]) -> ScriptLine
    ensures { result ≡ one_says word.now }
{
    if word == b"begin".as_slice() {
        ScriptLine::BeginRound
    } else if word == b"finish".as_slice() {
        ScriptLine::FinishRound
    } else if word == b"commit".as_slice() {
        ScriptLine::CommitRound
    } else if word == b"settle".as_slice() {
        ScriptLine::Settle
    } else {
        ScriptLine::Unreadable
    }
}

// A replica of this name is added to the first cluster.
fn replica(alloc: Global, replica: Name) -> Result<ScriptLine, AllocError>
    ensures { IfOk result (λ says. says ≡ named_says (codes "replica") replica) }
{
    let cluster = Name::new(alloc, b"main")?;
    Ok(ScriptLine::AddReplica { replica, cluster })
}

// What a word says with a name behind it.
fn named(alloc: Global, word: &[u8], name: Name) -> Result<ScriptLine, AllocError>
    ensures { IfOk result (λ says. says ≡ named_says word.now name) }
{
    if word == b"replica".as_slice() {
        replica(alloc, name)
    } else if word == b"crash".as_slice() {
        Ok(ScriptLine::CrashReplica(name))
    } else if word == b"rejoin".as_slice() {
        Ok(ScriptLine::RejoinReplica(name))
    } else if word == b"feed".as_slice() {
        Ok(ScriptLine::MakeFeed {
            replica: name,
            upto: None,
        })
    } else if word == b"cancel".as_slice() {
        Ok(ScriptLine::CancelCall(name))
    } else if word == b"close".as_slice() {
        Ok(ScriptLine::CloseSession(name))
    } else {
        Ok(ScriptLine::Unreadable)
    }
}

// What a word says with a number behind it.
fn numbered(word: &[u8], time: Time) -> ScriptLine
    ensures { result ≡ numbered_says word.now time }
{
    if word == b"tick".as_slice() {
        ScriptLine::Tick(time)
    } else if word == b"take".as_slice() {
        ScriptLine::TakeFeed(time.number())
    } else if word == b"absorb".as_slice() {
        ScriptLine::AbsorbPacket(time.number())
    } else if word == b"release".as_slice() {
        ScriptLine::GiveBack(time.number())
    } else {
        ScriptLine::Unreadable
    }
}

// What a word says with a name and a number behind it.
fn named_numbered(word: &[u8], name: Name, time: Time) -> ScriptLine
    ensures { result ≡ named_numbered_says word.now name time }
{
    if word == b"feed".as_slice() {
        ScriptLine::MakeFeed {
            replica: name,
            upto: Some(time),
        }
    } else if word == b"hold".as_slice() {
        ScriptLine::TakeHold { name, time }
    } else {
        ScriptLine::Unreadable
    }
}

// What a word says with two numbers behind it.
fn twice_numbered(word: &[u8], hold: u64, time: Time) -> ScriptLine
    ensures { result ≡ twice_numbered_says word.now hold time }
{
    if word == b"downgrade".as_slice() {
        ScriptLine::MoveHold { hold, time }
    } else {
        ScriptLine::Unreadable
    }
}

// What a word says with another behind it.
#[tactic(auto, using(crate::proofs::TextLemmas::script_name_is_name))]
fn two(alloc: Global, word: &[u8], other: &[u8]) -> Result<ScriptLine, AllocError>
    ensures { IfOk result (λ says. says ≡ two_say word.now other.now) }
{
    if is_script_name(other) {
        return named(alloc, word, Name::new(alloc, other)?);
    }
    match time(other) {
        Some(time) => Ok(numbered(word, time)),
        None => Ok(ScriptLine::Unreadable),
    }
}

// What a word says with another and a number behind it.
#[tactic(auto, using(crate::proofs::TextLemmas::script_name_is_name))]
fn three(alloc: Global, word: &[u8], other: &[u8], last: Time) -> Result<ScriptLine, AllocError>
    ensures { IfOk result (λ says. says ≡ three_say word.now other.now last) }
{
    if is_script_name(other) {
        return Ok(named_numbered(word, Name::new(alloc, other)?, last));
    }
    match number(other) {
        Some(number) => Ok(twice_numbered(word, number, last)),
        None => Ok(ScriptLine::Unreadable),
    }
}

// What the words of a text say.
fn words(alloc: Global, text: &[u8]) -> Result<ScriptLine, AllocError>
    ensures { IfOk result (λ says. says ≡ words_say (words_of text.now)) }
{
    let Some((word, rest)) = next_word(text) else {
        return Ok(ScriptLine::Unreadable);
    };
    let Some((other, rest)) = next_word(rest) else {
        return Ok(one(word));
    };
    let Some((last, rest)) = next_word(rest) else {
        return two(alloc, word, other);
    };
    if next_word(rest).is_some() {
        return Ok(ScriptLine::Unreadable);
    }
    match time(last) {
        Some(last) => three(alloc, word, other, last),
        None => Ok(ScriptLine::Unreadable),
    }
}

// What a text says that is no session line.
fn words_line(alloc: Global, text: &[u8]) -> Result<ScriptLine, AllocError>
    ensures { IfOk result (λ says. says ≡ words_line_says text.now) }
{
    if has_space_at_end(text) {
        return Ok(ScriptLine::Unreadable);
    }
    words(alloc, text)
}

// The text of these bytes.
#[tactic(auto, using(crate::proofs::TextLemmas::is_no_text))]
fn text_of(alloc: Global, bytes: &[u8]) -> Result<Text, AllocError>
    requires { is_utf8 bytes.now ≡ true }
    ensures { IfOk result (λ text. text ≡ bytes.now) }
{
    match str::from_utf8(bytes) {
        Ok(text) => Ok(Text::from_string(String::from_str(alloc, text)?)),
        Err(_) => unreachable!(),
    }
}

// A session says a text.
#[tactic(auto, using(crate::proofs::TextLemmas::script_name_is_name))]
fn saying(alloc: Global, name: &[u8], text: Text) -> Result<ScriptLine, AllocError>
    requires { is_script_name name.now ≡ true }
    ensures { IfOk result (λ says. says ≡ saying name.now text) }
{
    let asked = ask(alloc, &text)?;
    let name = Name::new(alloc, name)?;
    Ok(ScriptLine::Says { name, text, asked })
}

// What a text says that has its first colon at this place.
#[tactic(auto, using(crate::proofs::WordLemmas::behind, crate::proofs::TextLemmas::colon_within, crate::proofs::TextLemmas::said_is_text))]
fn colon(alloc: Global, text: &[u8], colon: usize) -> Result<ScriptLine, AllocError>
    requires text { is_utf8 text.now ≡ true }
    requires at { position (λ byte. byte == 58) text.now ≡ Some colon }
    ensures { IfOk result (λ says. says ≡ colon_says text.now (Some colon)) }
{
    let name = &text[..colon];
    if !is_script_name(name) {
        return words_line(alloc, text);
    }
    let text = text_of(alloc, after_spaces(&text[colon + 1..]))?;
    saying(alloc, name, text)
}

// Whether the text is skipped.
fn is_skipped(text: &[u8]) -> bool
    ensures { result ≡ is_skipped text.now }
{
    text == b"".as_slice() || text.starts_with(b"--")
}

// What the text of a line says.
fn text(alloc: Global, text: &[u8]) -> Result<ScriptLine, AllocError>
    requires { is_utf8 text.now ≡ true }
    ensures { IfOk result (λ says. says ≡ text_says text.now) }
{
    if is_skipped(text) {
        return Ok(ScriptLine::Skipped);
    }
    match place_of(b':', text) {
        Some(place) => colon(alloc, text, place),
        None => words_line(alloc, text),
    }
}

// The line without the CR at its end, if it has one.
fn without_return(line: &[u8]) -> &[u8]
    ensures { result.now ≡ without_return line.now }
{
    line.strip_suffix(b"\r".as_slice()).unwrap_or(line)
}

// Whether the bytes are UTF-8.
#[tactic(auto, using(crate::proofs::TextLemmas::is_text, crate::proofs::TextLemmas::is_no_text))]
fn is_text(bytes: &[u8]) -> bool
    ensures { result ≡ is_utf8 bytes.now }
{
    match str::from_utf8(bytes) {
        Ok(_) => true,
        Err(_) => false,
    }
}

/// What a line says, its LF taken away. The time grows with the line. An `Err` leaves nothing.
pub fn read_line(alloc: Global, line: &[u8]) -> Result<ScriptLine, AllocError>
    ensures says { IfOk result (λ says. says ≡ line_says line.now) }

    // A session asks for what its text asks for.
    ensures heard { IfOk result IsHeard }
{
    let bytes = without_return(line);
    if line.len() > LONGEST_LINE || !is_text(bytes) {
        return Ok(ScriptLine::Unreadable);
    }
    text(alloc, bytes)
}
