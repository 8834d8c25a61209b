// One line of a text.
ghost use Rattle.std.specs.Prelude.{◌≡◌, ◌++◌, [], ◌∷◌, OnOk, OnErr};
ghost use Rattle.std.specs.List.{flat_map};
ghost use Rattle.std.specs.Fmt.{signed_decimal};
ghost use Rattle.srs_line.specs.Fields.{line_of};
ghost use Rattle.srs_cert.specs.Texts.{ended, count_text};
ghost use Rattle.srs_print.specs.Fronts.{StopsIn};

use srs_text::{Bytes, NoMemory, put_number};

/// Appends the line of the word and the numbers. An `Err` is want of memory, and leaves a front of
/// the line behind what was there.
pub fn put_line(out: &mut Bytes, word: &[u8], numbers: &[i64]) -> Result<(), NoMemory>
    ensures ok { OnOk result (out.new ≡ out.old ++ ended (line_of word.now numbers.now)) }
    ensures err { OnErr result (StopsIn out.old (ended (line_of word.now numbers.now)) out.new) }
{
    put_words(out, word, numbers)?;
    out.extend(b"\n")
}

/// Appends the line of the word and the one number. An `Err` is want of memory, and leaves a front
/// of the line behind what was there.
pub fn put_count(out: &mut Bytes, word: &[u8], n: u64) -> Result<(), NoMemory>
    ensures ok { OnOk result (out.new ≡ out.old ++ count_text word.now n) }
    ensures err { OnErr result (StopsIn out.old (count_text word.now n) out.new) }
{
    out.extend(word)?;
    put_field(out, n as i128)?;
    out.extend(b"\n")
}

/// Appends the word and the numbers, each with a space before it, and no LF. An `Err` is want of
/// memory, and leaves a front of that behind what was there.
pub fn put_words(out: &mut Bytes, word: &[u8], numbers: &[i64]) -> Result<(), NoMemory>
    ensures ok { OnOk result (out.new ≡ out.old ++ line_of word.now numbers.now) }
    ensures err { OnErr result (StopsIn out.old (line_of word.now numbers.now) out.new) }
{
    out.extend(word)?;
    put_fields(out, numbers)
}

fn put_fields(out: &mut Bytes, numbers: &[i64]) -> Result<(), NoMemory>
    ensures ok { OnOk result
        (out.new ≡ out.old ++ flat_map (λ z. 32 ∷ signed_decimal z) numbers.now) }
    ensures err { OnErr result
        (StopsIn out.old (flat_map (λ z. 32 ∷ signed_decimal z) numbers.now) out.new) }
{
    for z in numbers {
        put_signed(out, *z)?;
    }
    Ok(())
}

// A space and the number, of 64 bits.
pub(crate) fn put_signed(out: &mut Bytes, z: i64) -> Result<(), NoMemory>
    ensures ok { OnOk result (out.new ≡ out.old ++ 32 ∷ signed_decimal z) }
    ensures err { OnErr result (StopsIn out.old (32 ∷ signed_decimal z) out.new) }
{
    put_field(out, z as i128)
}

// A space and the number.
pub(crate) fn put_field(out: &mut Bytes, z: i128) -> Result<(), NoMemory>
    ensures ok { OnOk result (out.new ≡ out.old ++ 32 ∷ signed_decimal z) }
    ensures err { OnErr result (StopsIn out.old (32 ∷ signed_decimal z) out.new) }
{
    out.extend(b" ")?;
    put_number(out, z)
}
