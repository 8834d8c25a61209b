// The command `make`.
ghost use Rattle.std.specs.Prelude.{[], IfOk};
ghost use Rattle.srs_tool.specs.declared.commands.Command.TheVariants.{Make};
ghost use Rattle.srs_tool.specs.Words.{IsSampleSize};
ghost use Rattle.srs_tool.specs.Output.{Owes};

use crate::output::Output;
use crate::status::Status;
use srs_num::NoMemory;
use std::alloc::Global;

/// The input of `live` that the seed gives. An `Err` is want of memory.
pub fn make(alloc: Global, s: u32, n: u32) -> Result<Output, NoMemory>
    requires { IsSampleSize s n }
    ensures { IfOk result (λ o. Owes (Make s n) [] o.status o.text) }
{
    let text = srs_gen::make(alloc, s, n)?;
    Ok(Output {
        status: Status::Done,
        text,
    })
}
