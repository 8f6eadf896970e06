ghost use Rattle.std.specs.Prelude.{◌≡◌, ◌↔◌, ◌++◌, IsTrue, IfOk, codes};
ghost use Rattle.ecp_command.specs.Input.Cuts.{IsClear};
ghost use Rattle.ecp_command.specs.Input.Forms.{is_name_byte, IsName, IsBlockNamed, IsHex, IsRecipe, GiveBytes, AreBytesOf, IsFormOf};

use crate::generated::generate;
use crate::input::call::Call;
use crate::input::cuts::cut;
use crate::input::form::Form;
use crate::words::{number, wide_number};
use ecp_history::Text;
use ecp_shape::limits::{MAX_NAME, MAX_PUT_BYTES, MAX_SESSIONS};
use ecp_store::{Block, NoMemory};
use hex::FromHexError;
use std::alloc::Global;

// The first word of each form.
const SESSION: &[u8] = b"session";

const PUT: &[u8] = b"put";

const READ: &[u8] = b"read";

const SUM: &[u8] = b"sum";

const CAT: &[u8] = b"cat";

const LOSE: &[u8] = b"lose";

const JOIN: &[u8] = b"join";

const STAT: &[u8] = b"stat";

// The one form without a second word.
const BARRIER: &[u8] = b"barrier";

/// The form of a line, or None where it has none of them or puts more bytes than a put may have. Each form has its word
/// here.
pub(crate) fn form_of(alloc: Global, line: &[u8]) -> Result<Option<Form>, NoMemory>
    ensures { IfOk result (IsFormOf line.now) }
{
    let Some((word, rest)) = cut(line, b' ') else {
        return Ok(barrier(line));
    };
    if word == SESSION {
        Ok(session(rest))
    } else if word == PUT {
        put(alloc, rest)
    } else if word == READ {
        read(alloc, rest)
    } else if word == SUM {
        sum(alloc, rest)
    } else if word == CAT {
        cat(alloc, rest)
    } else if word == LOSE {
        Ok(lose(rest))
    } else if word == JOIN {
        Ok(join(rest))
    } else if word == STAT {
        stat(alloc, rest)
    } else {
        Ok(None)
    }
}

// `barrier`, of the lines without a space
fn barrier(line: &[u8]) -> Option<Form>
    requires { IsClear 32 line.now }
    ensures { IsFormOf line.now result }
{
    if line == BARRIER {
        Some(Form::Barrier)
    } else {
        None
    }
}

// `session C`
fn session(rest: &[u8]) -> Option<Form>
    ensures { IsFormOf (codes "session " ++ rest.now) result }
{
    let number = number(rest)?;
    if number < MAX_SESSIONS {
        Some(Form::Session(number))
    } else {
        None
    }
}

// `put NAME hex H` and `put NAME gen SEED LEN`
fn put(alloc: Global, rest: &[u8]) -> Result<Option<Form>, NoMemory>
    ensures { IfOk result (IsFormOf (codes "put " ++ rest.now)) }
{
    let Some((name, words)) = cut(rest, b' ') else {
        return Ok(None);
    };
    if !is_name(name) {
        return Ok(None);
    }
    let Some(bytes) = bytes_of(alloc, words)? else {
        return Ok(None);
    };
    let name = Text::new(Vec::from_slice(alloc, name)?);
    Ok(Some(Form::Call(Call::Put { name, bytes })))
}

// `read NAME I`
fn read(alloc: Global, rest: &[u8]) -> Result<Option<Form>, NoMemory>
    ensures { IfOk result (IsFormOf (codes "read " ++ rest.now)) }
{
    match block_named(alloc, rest)? {
        Some((name, index)) => Ok(Some(Form::Call(Call::Read { name, index }))),
        None => Ok(None),
    }
}

// `sum NAME I`
fn sum(alloc: Global, rest: &[u8]) -> Result<Option<Form>, NoMemory>
    ensures { IfOk result (IsFormOf (codes "sum " ++ rest.now)) }
{
    match block_named(alloc, rest)? {
        Some((name, index)) => Ok(Some(Form::Call(Call::Sum { name, index }))),
        None => Ok(None),
    }
}

// The file and the number of the block that the words `NAME I` name.
fn block_named(alloc: Global, words: &[u8]) -> Result<Option<(Text, u32)>, NoMemory>
    ensures { IfOk result (IsBlockNamed words.now) }
{
    let Some((name, index)) = cut(words, b' ') else {
        return Ok(None);
    };
    if !is_name(name) {
        return Ok(None);
    }
    let Some(index) = number(index) else {
        return Ok(None);
    };
    Ok(Some((Text::new(Vec::from_slice(alloc, name)?), index)))
}

// `cat NAME`
fn cat(alloc: Global, rest: &[u8]) -> Result<Option<Form>, NoMemory>
    ensures { IfOk result (IsFormOf (codes "cat " ++ rest.now)) }
{
    if !is_name(rest) {
        return Ok(None);
    }
    let file = Text::new(Vec::from_slice(alloc, rest)?);
    Ok(Some(Form::Call(Call::Cat { name: file })))
}

// `lose NODE`
fn lose(rest: &[u8]) -> Option<Form>
    ensures { IsFormOf (codes "lose " ++ rest.now) result }
{
    match number(rest) {
        Some(node) => Some(Form::Call(Call::Lose { node })),
        None => None,
    }
}

// `join NODE`
fn join(rest: &[u8]) -> Option<Form>
    ensures { IsFormOf (codes "join " ++ rest.now) result }
{
    match number(rest) {
        Some(node) => Some(Form::Call(Call::Join { node })),
        None => None,
    }
}

// `stat NAME`
fn stat(alloc: Global, rest: &[u8]) -> Result<Option<Form>, NoMemory>
    ensures { IfOk result (IsFormOf (codes "stat " ++ rest.now)) }
{
    if !is_name(rest) {
        return Ok(None);
    }
    let name = Text::new(Vec::from_slice(alloc, rest)?);
    Ok(Some(Form::Call(Call::Stat { name })))
}

// Whether the text can name a file.
fn is_name(text: &[u8]) -> bool
    ensures { IsTrue result ↔ IsName text.now }
{
    !text.is_empty() && text.len() <= MAX_NAME && text.iter().all(|b| is_name_byte(*b))
}

fn is_name_byte(b: u8) -> bool
    ensures { result ≡ is_name_byte b }
{
    matches!(b, b'a'..=b'z' | b'A'..=b'Z' | b'0'..=b'9' | b'.' | b'_' | b'-')
}

// The bytes that the words behind a name give.
fn bytes_of(alloc: Global, words: &[u8]) -> Result<Option<Block>, NoMemory>
    ensures { IfOk result (AreBytesOf (GiveBytes words.now)) }
{
    if let Some(digits) = words.strip_prefix(b"hex ") {
        decoded(alloc, digits)
    } else if let Some(recipe) = words.strip_prefix(b"gen ") {
        made(alloc, recipe)
    } else {
        Ok(None)
    }
}

// The bytes of the generator for a seed and a length. Where the length is more than a put may have none are made.
fn made(alloc: Global, recipe: &[u8]) -> Result<Option<Block>, NoMemory>
    ensures { IfOk result (AreBytesOf (IsRecipe recipe.now)) }
{
    let Some((seed, len)) = cut(recipe, b' ') else {
        return Ok(None);
    };
    let Some(seed) = wide_number(seed) else {
        return Ok(None);
    };
    let Some(len) = number(len) else {
        return Ok(None);
    };
    if u64::from(len) > MAX_PUT_BYTES {
        return Ok(None);
    }
    let bytes = generate(alloc, seed, len)?;
    Ok(Some(bytes))
}

// The bytes that the digits stand for, or None where they are no digits.
fn decoded(alloc: Global, digits: &[u8]) -> Result<Option<Block>, NoMemory>
    ensures { IfOk result (AreBytesOf (IsHex digits.now)) }
{
    if digits == b"-".as_slice() {
        return Ok(Some(Block::new(Vec::new(alloc))));
    }
    if digits.is_empty() {
        return Ok(None);
    }
    match hex::decode(alloc, digits) {
        Ok(bytes) => Ok(Some(Block::new(bytes))),
        Err(FromHexError::OutOfMemory) => Err(NoMemory),
        Err(
            FromHexError::InvalidHexCharacter { .. }
            | FromHexError::OddLength
            | FromHexError::InvalidStringLength,
        ) => Ok(None),
    }
}
