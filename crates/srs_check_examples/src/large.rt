// Texts of the greatest length, and lines longer than any buffer: the source makes their bytes as
// they are read.
ghost use Rattle.std.specs.Prelude.{◌≤◌, ◌^◌, None};

use srs_check::{CheckErr, check_from};
use srs_line::Slip;
use srs_text::{Failed, ReadErr, Source};
use std::test::Fail;

// The limit of the program.
const LIMIT: u64 = 1 << 27;

// So many bytes are still to come. What a read gives is a line, or else a part of the only one.
#[derive(Drop)]
struct Made {
    left: u64,
    with_ends: bool,
}

impl Source for Made {
    ghost left = { λ _. None };

    ghost faults = { λ _. 0 };

    fn read(&mut self, into: &mut [u8]) -> Result<usize, Failed> {
        let count = self.left.min(into.len() as u64);
        let piece = &mut into[..count as usize];
        piece.fill(b'x');
        if self.with_ends && count > 0 {
            piece[count as usize - 1] = b'\n';
        }
        self.left -= count;
        Ok(count as usize)
    }
}

#[test]
fn texts_of_the_greatest_length(rt: HostRuntime) -> Result<(), Fail> {
    let alloc = rt.alloc();
    let mut source = Made {
        left: LIMIT,
        with_ends: true,
    };
    assert_eq!(rt;
        check_from(alloc, &mut source, LIMIT),
        Err(CheckErr::At(1, Slip::Word))
    );
    assert_eq!(rt; source.left, 0);
    let mut source = Made {
        left: LIMIT + 1,
        with_ends: true,
    };
    assert_eq!(rt;
        check_from(alloc, &mut source, LIMIT),
        Err(CheckErr::Read(ReadErr::TooLong))
    );
    assert_eq!(rt; source.left, 0);
    Ok(())
}

#[test]
fn a_line_longer_than_any_buffer(rt: HostRuntime) -> Result<(), Fail> {
    let alloc = rt.alloc();
    let mut source = Made {
        left: 1 << 22,
        with_ends: false,
    };
    assert_eq!(rt;
        check_from(alloc, &mut source, LIMIT),
        Err(CheckErr::At(1, Slip::Missing))
    );
    Ok(())
}
