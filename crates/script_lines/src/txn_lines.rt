//! The lines of a script of transactions.
ghost use Rattle.std.specs.Prelude.{◌≡◌, ◌≤◌, ◌∷◌, length, IfOk, IfSome};
ghost use Rattle.onbar_grammar.specs.Script.{tokens_of, short_line_of, write_line_of, line_of_tokens, line_of};
ghost use Rattle.site_headers.specs.Views.{spaces_of};
ghost use Rattle.script_lines.specs.Tokens.{short_tokens, write_tokens};
ghost use Rattle.script_lines.specs.TxnLine.{line_of_txn, line_read, read_of, IsLineIn};

use crate::spaces::find_space;
use crate::tokens::{bytes_in, last_token, split_token, txn_in};
use log_record::Text64;
use onbar_grammar::{Why, is_name, number_in};
use site_headers::SpaceHead;

const PAYLOAD: usize = 4_080;

/// What a line of a script of transactions says.
#[derive(Clone, Debug, PartialEq, Eq, Drop)]
pub enum TxnLine {
    /// `begin N`
    Begin {
        txn: u32,
    },
    /// `write N SPACE PAGE OFFSET HEX`
    Write {
        txn: u32,
        /// The space's place among the spaces, from 0.
        space: u16,
        page: u32,
        offset: u16,
        bytes: Text64,
    },
    /// `commit N`
    Commit {
        txn: u32,
    },
    /// `abort N`
    Abort {
        txn: u32,
    },
}

/// What one line says, `None` where it is empty. The fault is the first in the order of `Why`.
pub fn read_txn_line(bytes: &[u8], spaces: &[SpaceHead]) -> Result<Option<TxnLine>, Why>
    requires { length spaces.now ≤ 16 }
    ensures exact { read_of result ≡ line_of (spaces_of spaces.now) bytes.now }
    ensures fits { IfOk result (λ line.
        IfSome line (λ line. IsLineIn (spaces_of spaces.now) (line_of_txn line))) }
{
    if bytes.is_empty() {
        return Ok(None);
    }
    let (keyword, rest) = split_token(bytes)?;
    let line = read_keyword(keyword, rest, spaces)?;
    Ok(Some(line))
}

fn read_keyword(keyword: &[u8], rest: &[u8], spaces: &[SpaceHead]) -> Result<TxnLine, Why>
    requires { length spaces.now ≤ 16 }
    ensures { line_read result
        ≡ line_of_tokens (spaces_of spaces.now) (keyword.now ∷ tokens_of rest.now) }
{
    if keyword == b"write".as_slice() {
        read_write(rest, spaces)
    } else {
        read_short(keyword, rest)
    }
}

/// A line of a keyword and a transaction.
fn read_short(keyword: &[u8], rest: &[u8]) -> Result<TxnLine, Why>
    ensures { line_read result ≡ short_tokens keyword.now (tokens_of rest.now) }
{
    let token = last_token(rest)?;
    short_line(keyword, token)
}

fn short_line(keyword: &[u8], token: &[u8]) -> Result<TxnLine, Why>
    ensures { line_read result ≡ short_line_of keyword.now token.now }
{
    let txn = txn_in(token).ok_or(Why::Words)?;
    if keyword == b"begin".as_slice() {
        Ok(TxnLine::Begin { txn })
    } else if keyword == b"commit".as_slice() {
        Ok(TxnLine::Commit { txn })
    } else if keyword == b"abort".as_slice() {
        Ok(TxnLine::Abort { txn })
    } else {
        Err(Why::Words)
    }
}

/// What follows `write`.
fn read_write(rest: &[u8], spaces: &[SpaceHead]) -> Result<TxnLine, Why>
    requires { length spaces.now ≤ 16 }
    ensures { line_read result ≡ write_tokens (spaces_of spaces.now) (tokens_of rest.now) }
{
    let (txn, rest) = split_token(rest)?;
    let (name, rest) = split_token(rest)?;
    let (page, rest) = split_token(rest)?;
    let (offset, rest) = split_token(rest)?;
    let hex = last_token(rest)?;
    write_line(spaces, txn, name, page, offset, hex)
}

#[tactic(auto, unfolding(onbar_grammar::specs::Script::write_line_of))]
fn write_line(
    spaces: &[SpaceHead],
    txn: &[u8],
    name: &[u8],
    page: &[u8],
    offset: &[u8],
    hex: &[u8],
) -> Result<TxnLine, Why>
    requires { length spaces.now ≤ 16 }
    ensures { line_read result
        ≡ write_line_of (spaces_of spaces.now) txn.now name.now page.now offset.now hex.now }
{
    let txn = txn_in(txn).ok_or(Why::Words)?;
    if !is_name(name) {
        return Err(Why::Words);
    }
    let page = number_in(page).ok_or(Why::Words)?;
    let offset = number_in(offset).ok_or(Why::Words)?;
    let bytes = bytes_in(hex).ok_or(Why::Words)?;
    let (space, pages) = find_space(name, spaces).ok_or(Why::NoSpace)?;
    if page >= pages {
        return Err(Why::NoPage);
    }
    if offset as usize + bytes.as_bytes().len() > PAYLOAD {
        return Err(Why::Range);
    }
    Ok(TxnLine::Write {
        txn,
        space,
        page,
        offset: offset as u16,
        bytes,
    })
}
