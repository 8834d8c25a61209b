// A text that is read line by line.
use srs_line::{FileErr, LineErr, LineMachine, Slip, read_lines};
use std::test::Fail;

// Takes so many lines, each of them not empty.
#[derive(Drop)]
struct Countdown {
    left: u64,
}

impl LineMachine for Countdown {
    ghost use Rattle.std.specs.Prelude.{◌≡◌, ◌+◌, []};
    ghost use Rattle.srs_line.specs.declared.slip.Slip.TheVariants.{Word};

    ghost steps = { λ s line t. t.left + 1 ≡ s.left };

    ghost slips = { λ s line slip back. (line ≡ []) × (slip ≡ Word) × (back ≡ 0) };

    ghost is_end = { λ s. s.left ≡ 0 };

    fn is_done(&self) -> bool {
        self.left == 0
    }

    fn take(&mut self, line: &[u8]) -> Result<(), LineErr> {
        if line.is_empty() {
            return Err(LineErr::Slip(Slip::Word, 0));
        }
        self.left -= 1;
        Ok(())
    }
}

// Texts that should be two lines, and the first slip.
const TEXTS: [(&[u8], Result<(), FileErr>); 5] = [
    (b"a\nb\n", Ok(())),
    (b"a\nb", Err(FileErr::At(2, Slip::Missing))),
    (b"a\n\n", Err(FileErr::At(2, Slip::Word))),
    (b"a\nb\nc", Err(FileErr::At(3, Slip::Tail))),
    (b"", Err(FileErr::At(1, Slip::Missing))),
];

fn first_other(rows: &[(&[u8], Result<(), FileErr>)]) -> Option<usize> {
    for (i, (text, wanted)) in rows.iter().enumerate() {
        if text.len() > 1000 || read_lines(&mut Countdown { left: 2 }, text) != *wanted {
            return Some(i);
        }
    }
    None
}

#[test]
fn two_lines(rt: HostRuntime) -> Result<(), Fail> {
    assert_eq!(rt; first_other(&TEXTS), None);
    Ok(())
}
