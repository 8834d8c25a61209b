// A line as a word and numbers.
ghost use Rattle.std.specs.Prelude.{◌≡◌, ◌↔◌, ◌+◌, ◌<◌, List, ℕ, ℤ, [], ◌∷◌, IsTrue, OnOk, IfOk};
ghost use Rattle.std.specs.Prelude.{IfErr, length, FitsSigned};
ghost use Rattle.std.specs.List.{All};
ghost use Rattle.std.specs.Int.{w64};
ghost use Rattle.srs_text.specs.Line.{HasNoLf};
ghost use Rattle.srs_line.specs.Fields.{tokens, AreNumbers, Says, HasWord, IsFieldSlip, SaysCount};
ghost use Rattle.srs_line.specs.Fields.{IsCountSlip, line_of};

use crate::{Slip, Tokens};
use srs_text::number;

/// Reads the line as the word and as many numbers as there is room for, separated by single spaces.
/// It takes no memory. A refusal may have changed the numbers.
pub fn fields(line: &[u8], word: &[u8], into: &mut [i64]) -> Result<(), Slip>
    ensures ok { OnOk result (Says word.now into.new line.now) }
    ensures err { IfErr result (IsFieldSlip word.now (length into.old) line.now) }
{
    let mut left = Tokens::new(line);
    let Some(first) = left.next() else {
        return Err(Slip::Word);
    };
    if !is_word(first, word) {
        return Err(Slip::Word);
    }
    let count = into.len();
    if numbers(&mut left, into) {
        return Ok(());
    }
    if !has_just(line, count) {
        return Err(Slip::Word);
    }
    Err(Slip::Number)
}

/// Whether the first token is the word.
pub fn has_word(line: &[u8], word: &[u8]) -> bool
    ensures { IsTrue result ↔ HasWord word.now line.now }
{
    match Tokens::new(line).next() {
        Some(first) => is_word(first, word),
        None => false,
    }
}

pub(crate) fn is_word(token: &[u8], word: &[u8]) -> bool
    ensures { IsTrue result ↔ (token.now ≡ word.now) }
{
    token == word
}

// Whether the line has a first token and just so many more.
fn has_just(line: &[u8], count: usize) -> bool
    ensures { IsTrue result ↔ (length (tokens line.now) ≡ count + 1) }
{
    let mut left = Tokens::new(line);
    for _i in 0..count {
        if left.next().is_none() {
            return false;
        }
    }
    left.next().is_some() && left.next().is_none()
}

// Whether the tokens that are left are just so many numbers, and which.
fn numbers(left: &mut Tokens, into: &mut [i64]) -> bool
    ensures yes { IsTrue result → AreNumbers left.old into.new }
    ensures no { ¬ (IsTrue result) → length left.old ≡ length into.old → (zs : List ℤ) → AreNumbers
        left.old zs → ⊥ }
{
    for i in 0..into.len() {
        let Some(token) = left.next() else {
            return false;
        };
        let Some(n) = number(token) else {
            return false;
        };
        into[i] = n;
    }
    left.next().is_none()
}

/// Reads the line as the word and one number. It takes no memory.
pub fn one(line: &[u8], word: &[u8]) -> Result<i64, Slip>
    ensures ok { IfOk result (λ z. Says word.now (z ∷ []) line.now) }
    ensures err { IfErr result (IsFieldSlip word.now 1 line.now) }
{
    let mut into = [0i64; 1];
    fields(line, word, &mut into)?;
    Ok(into[0])
}

/// Reads the line as the word and three numbers. It takes no memory.
pub fn three(line: &[u8], word: &[u8]) -> Result<(i64, i64, i64), Slip>
    ensures ok { IfOk result (λ r. Says word.now (r.0 ∷ r.1 ∷ r.2 ∷ []) line.now) }
    ensures err { IfErr result (IsFieldSlip word.now 3 line.now) }
{
    let mut into = [0i64; 3];
    fields(line, word, &mut into)?;
    Ok((into[0], into[1], into[2]))
}

/// Reads the line as the word and six numbers. It takes no memory.
pub fn six(line: &[u8], word: &[u8]) -> Result<(i64, i64, i64, i64, i64, i64), Slip>
    ensures ok { IfOk result
        (λ r. Says word.now (r.0 ∷ r.1 ∷ r.2 ∷ r.3 ∷ r.4 ∷ r.5 ∷ []) line.now) }
    ensures err { IfErr result (IsFieldSlip word.now 6 line.now) }
{
    let mut into = [0i64; 6];
    fields(line, word, &mut into)?;
    Ok((into[0], into[1], into[2], into[3], into[4], into[5]))
}

/// Reads the line as the word and a number from `low` to `high`; any other number is the slip
/// `outside`. It takes no memory.
pub fn count_of(line: &[u8], word: &[u8], low: u32, high: u32, outside: Slip) -> Result<u32, Slip>
    ensures ok { IfOk result (λ n. SaysCount word.now low high n line.now) }
    ensures err { IfErr result (IsCountSlip word.now low high outside line.now) }
{
    let n = one(line, word)?;
    if n < low as i64 || n > high as i64 {
        return Err(outside);
    }
    Ok(n as u32)
}

/// A word and numbers have one text: what says them is that text, and that text says them.
pub fn one_line()
    ensures read { (word : List ℕ) (zs : List ℤ) (line : List ℕ) → Says word zs line →
        (line ≡ line_of word zs) × All (FitsSigned w64) zs }
    ensures written { (word : List ℕ) (zs : List ℤ) → All (λ c. 32 < c) word →
        All (FitsSigned w64) zs → Says word zs (line_of word zs) }
    ensures plain { (word : List ℕ) (zs : List ℤ) → All (λ c. 32 < c) word →
        All (FitsSigned w64) zs → HasNoLf (line_of word zs) }
{}
