// A line as a word and any number of numbers.
ghost use Rattle.std.specs.Prelude.{◌≡◌, [], ◌∷◌, OnOk, IfOk, IfErr};
ghost use Rattle.srs_line.specs.Fields.{AreNumbers, Says};
ghost use Rattle.srs_line.specs.Many.{IsManySlip, IsNumbersSlip};
ghost use Rattle.srs_line.specs.Refusal.{IsSlip};

use crate::shape::is_word;
use crate::{LineErr, Slip, Tokens};
use srs_text::{Nums, number};

/// Reads the line as the word and at least one number: gives the first, and puts those behind it
/// into the empty list. A refusal may have filled it.
pub fn numbers_of(line: &[u8], word: &[u8], into: &mut Nums) -> Result<i64, LineErr>
    requires { into.old ≡ [] }
    ensures ok { IfOk result (λ n. Says word.now (n ∷ into.new) line.now) }
    ensures err { IfErr result (IsSlip (IsManySlip word.now line.now)) }
{
    let mut left = Tokens::new(line);
    let Some(first) = left.next() else {
        return Err(LineErr::Slip(Slip::Word, 0));
    };
    if !is_word(first, word) {
        return Err(LineErr::Slip(Slip::Word, 0));
    }
    let Some(token) = left.next() else {
        return Err(LineErr::Slip(Slip::Word, 0));
    };
    let Some(n) = number(token) else {
        return Err(LineErr::Slip(Slip::Number, 0));
    };
    push_numbers(&mut left, into)?;
    Ok(n)
}

// Puts the numbers of the tokens that are left into the empty list.
fn push_numbers(left: &mut Tokens, into: &mut Nums) -> Result<(), LineErr>
    requires { into.old ≡ [] }
    ensures ok { OnOk result (AreNumbers left.old into.new) }
    ensures err { IfErr result (IsSlip (IsNumbersSlip left.old)) }
{
    while let Some(token) = left.next() {
        let Some(n) = number(token) else {
            return Err(LineErr::Slip(Slip::Number, 0));
        };
        let Ok(()) = into.push(n) else {
            return Err(LineErr::NoMemory);
        };
    }
    Ok(())
}
