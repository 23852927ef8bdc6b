ghost use Rattle.std.specs.Prelude.{◌≡◌, ◌≢◌, IfOk, OnOk, string_bytes};
ghost use Rattle.ch_messages.specs.Query.{query_line};

use ch_cells::{Bytes, Memory};
use ch_sql::QueryError;
use std::alloc::Global;

fn query_text(alloc: Global, error: QueryError) -> Result<String, Memory>
    ensures text { IfOk result (λ text. string_bytes text ≡ query_line error) }
    ensures known { OnOk result (error ≢ QueryError.Memory) }
{
    match error {
        QueryError::TooLong { have } => {
            Ok(format!(in alloc; "input: query too long, {have} bytes\n")?)
        }
        QueryError::Byte { at } => Ok(format!(in alloc; "input: query byte {at}: not a token\n")?),
        QueryError::NumberRange { at } => {
            Ok(format!(in alloc; "input: query byte {at}: number out of range\n")?)
        }
        QueryError::Syntax { at } => {
            Ok(format!(in alloc; "input: query token {at}: not a query\n")?)
        }
        QueryError::TooDeep { at } => Ok(format!(in alloc; "input: query token {at}: too deep\n")?),
        QueryError::InTooLong { at } => {
            Ok(format!(in alloc; "input: query token {at}: list too long\n")?)
        }
        QueryError::BadLike { at } => {
            Ok(format!(in alloc; "input: query token {at}: bad pattern\n")?)
        }
        QueryError::Memory => Err(Memory),
    }
}

/// Why a text is no query. Want of memory has no line.
pub fn query_line(alloc: Global, error: QueryError) -> Result<Bytes, Memory>
    ensures line { IfOk result (λ said. said ≡ query_line error) }
    ensures known { OnOk result (error ≢ QueryError.Memory) }
{
    let said = query_text(alloc, error)?;
    Ok(Bytes::from_vec(said.into_bytes()))
}
