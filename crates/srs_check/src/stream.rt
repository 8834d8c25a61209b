// The check of a certificate that is read line by line.
ghost use Rattle.std.specs.Prelude.{◌≡◌, ◌≤◌, ◌^◌, IfOk, IfErr};
ghost use Rattle.srs_check.specs.Streams.{ChecksAll, Stops};

use crate::Checked;
use crate::line_check::LineCheck;
use srs_file::FileErr;
use srs_line::Slip;
use srs_num::NoMemory;
use srs_text::{Fed, LineFeed, ReadErr, Source};
use std::alloc::Global;

/// Why a check gave no answer.
#[derive(Clone, Copy, Debug, PartialEq, Eq)]
pub enum CheckErr {
    /// The source failed, or the text is longer than the limit: `Fault` or `TooLong`.
    Read(ReadErr),
    /// The line of the first slip, counted from 1, and the slip.
    At(u32, Slip),
    /// Want of memory.
    NoMemory,
}

impl From<ReadErr> for CheckErr {
    ghost use Rattle.srs_check.specs.Streams.{IsReadErr};

    ghost from_gives = { IsReadErr };

    fn from(error: ReadErr) -> CheckErr {
        match error {
            ReadErr::NoMemory => CheckErr::NoMemory,
            ReadErr::Fault | ReadErr::TooLong => CheckErr::Read(error),
        }
    }
}

impl From<FileErr> for CheckErr {
    ghost use Rattle.srs_check.specs.Streams.{IsFileErr};

    ghost from_gives = { IsFileErr };

    fn from(error: FileErr) -> CheckErr {
        match error {
            FileErr::At(line, slip) => CheckErr::At(line, slip),
            FileErr::NoMemory => CheckErr::NoMemory,
        }
    }
}

impl From<NoMemory> for CheckErr {
    ghost use Rattle.std.specs.Prelude.{◌≡◌};
    ghost use Rattle.srs_check.specs.declared.stream.CheckErr.TheVariants as stops;

    ghost from_gives = { λ _ e. e ≡ stops.NoMemory };

    fn from(_: NoMemory) -> CheckErr {
        CheckErr::NoMemory
    }
}

impl From<srs_text::NoMemory> for CheckErr {
    ghost use Rattle.std.specs.Prelude.{◌≡◌};
    ghost use Rattle.srs_check.specs.declared.stream.CheckErr.TheVariants as stops;

    ghost from_gives = { λ _ e. e ≡ stops.NoMemory };

    fn from(_: srs_text::NoMemory) -> CheckErr {
        CheckErr::NoMemory
    }
}

/// The check of the certificate that the source has, at most `limit` bytes of it. The answer is that of `read_cert` and
/// `check` on these bytes. They are read line by line, always to the end, and no node is kept that was tested. What an
/// `Err` took from the source is lost: `limit + 1` bytes at `TooLong`, at most `limit` at `Fault` and at `At`, at most
/// `limit + 1` at `NoMemory`.
pub fn check_from<S: Source>(alloc: Global, source: &mut S, limit: u64) -> Result<Checked, CheckErr>
    requires { limit ≤ 2 ^ 31 }
    ensures answered { IfOk result (ChecksAll (S.left source.old) (S.left source.new) limit) }
    ensures stopped { IfErr result (Stops (S.left source.old) (S.left source.new)
        (S.faults source.old) (S.faults source.new) limit) }
    ensures later { S.faults source.old ≤ S.faults source.new }
{
    let mut feed = LineFeed::new(alloc, limit)?;
    let mut check = LineCheck::new(alloc)?;
    loop {
        match feed.next(source)? {
            Fed::Line(line) => check.line(alloc, line)?,
            Fed::End(rest) => return Ok(check.end(rest)?),
        }
    }
}
