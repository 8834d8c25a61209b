// Whole texts in and out.
ghost use Rattle.std.specs.Prelude.{◌≡◌, ◌+◌, ◌^◌, ◌≤◌, length, IfOk, OnOk, OnErr, IsErrOf};
ghost use Rattle.std.specs.Io.KnownBytes.{Consumes, Appends, IsAtEnd};
ghost use Rattle.srs_text.specs.Ends.{HasCause, Rose, AppendsFront, TookUpTo, TookJust};

use crate::{Bytes, Failed, Sink, Source};
use std::alloc::Global;
use thiserror::Error;

// How many bytes are asked for at once.
const CHUNK: u64 = 4096;

/// Why a text was not read.
#[derive(Clone, Copy, Debug, PartialEq, Eq, Error)]
pub enum ReadErr {
    /// The source failed.
    #[error("the source failed")]
    Fault,
    /// The text is longer than the limit.
    #[error("the text is too long")]
    TooLong,
    /// Want of memory.
    #[error("out of memory")]
    NoMemory,
}

/// The bytes to the end, at most `limit` of them. What a refusal took from the source is lost:
/// `limit + 1` bytes at `TooLong`, at most `limit` at `Fault`, at most `limit + 1` at `NoMemory`.
pub fn read_all<S: Source>(alloc: Global, source: &mut S, limit: u64) -> Result<Bytes, ReadErr>
    requires { limit ≤ 2 ^ 31 }
    ensures taken { IfOk result (λ bytes. Consumes (S.left source.old) (S.left source.new) bytes) }
    ensures end { OnOk result (IsAtEnd (S.left source.new)) }
    ensures short { IfOk result (λ bytes. length bytes ≤ limit) }
    ensures long { IsErrOf result ReadErr.TooLong →
        TookJust (S.left source.old) (S.left source.new) (limit + 1) }
    ensures fault { IsErrOf result ReadErr.Fault →
        Rose (S.faults source.old) (S.faults source.new) }
    ensures cut { IsErrOf result ReadErr.Fault →
        TookUpTo (S.left source.old) (S.left source.new) limit }
    ensures want { IsErrOf result ReadErr.NoMemory →
        TookUpTo (S.left source.old) (S.left source.new) (limit + 1) }
    ensures later { S.faults source.old ≤ S.faults source.new }
{
    let mut chunk = [0u8; CHUNK as usize];
    let mut bytes = Bytes::new(alloc);
    while bytes.len() <= limit {
        let room = (limit + 1 - bytes.len()).min(CHUNK) as usize;
        match source.read(&mut chunk[..room]) {
            Err(_) => return Err(ReadErr::Fault),
            Ok(0) => return Ok(bytes),
            Ok(count) => {
                if bytes.extend(&chunk[..count]).is_err() {
                    return Err(ReadErr::NoMemory);
                }
            }
        }
    }
    Err(ReadErr::TooLong)
}

/// Writes all of the text in order. At `Failed` a front of it was taken. It takes no memory.
pub fn write_all<K: Sink>(sink: &mut K, text: &[u8]) -> Result<(), Failed>
    ensures all { OnOk result (Appends (K.got sink.old) (K.got sink.new) text.now) }
    ensures front { AppendsFront (K.got sink.old) (K.got sink.new) text.now }
    ensures cause { HasCause (K.faults sink.old) (K.faults sink.new) result }
{
    let mut rest = text;
    while !rest.is_empty() {
        let count = sink.write(rest)?;
        rest = &rest[count..];
    }
    Ok(())
}
