// The words of the command line.
ghost use Rattle.std.specs.Prelude.{◌≡◌, ◌↔◌, IsTrue, List, ℕ, [], ◌∷◌, map, pos, ◌<◌, ◌≤◌, ◌^◌};
ghost use Rattle.std.specs.Prelude.{string_bytes, IfSome, IfNone};
ghost use Rattle.srs_text.specs.Spelling.{IsNumber};
ghost use Rattle.srs_path.specs.Views.{Budget, IsBudget};
ghost use Rattle.srs_line.specs.Fields.{AreNumbers};
ghost use Rattle.srs_tool.specs.declared.commands.Command.{Command};
ghost use Rattle.srs_tool.specs.declared.commands.Command.TheVariants.{Certify, Live, Map};
ghost use Rattle.srs_tool.specs.Words.{limits_numbers, IsSide, IsCrew, SpellsCrew, SpellsSample};
ghost use Rattle.srs_tool.specs.Words.{AsksForSample, SpellsCommand, AsksPlain};

use crate::commands::Command;
use srs_path::Limits;
use srs_text::number;

/// The command without threads that the words ask for, where they are in the form of one.
pub fn plain_command(words: &[String]) -> Option<Command>
    ensures some { IfSome result (AsksPlain (map string_bytes words.now)) }
    ensures none { IfNone result ((command : Command) →
        AsksPlain (map string_bytes words.now) command → ⊥) }
{
    if is_alone(words, "check") {
        return Some(Command::Check);
    }
    if is_alone(words, "ask") {
        return Some(Command::Ask);
    }
    if let Some((columns, rows)) = map_size(words) {
        return Some(Command::Map(columns, rows));
    }
    if let Some((s, n)) = sample_size(words, "make") {
        return Some(Command::Make(s, n));
    }
    if let Some((s, n)) = sample_size(words, "bench") {
        return Some(Command::Bench(s, n));
    }
    match certify_limits(words) {
        Some(limits) => Some(Command::Certify(limits)),
        None => None,
    }
}

/// The limits and the number of workers of the `live` that the words ask for, where they do.
pub fn live_order(words: &[String]) -> Option<(Limits, u32)>
    ensures some { IfSome result (λ r. SpellsCommand (map string_bytes words.now) (Live r.0 r.1)) }
    ensures none { IfNone result ((b : Budget) (n : ℕ) →
        SpellsCommand (map string_bytes words.now) (Live b n) → ⊥) }
{
    let [name, depth, cells, wits, workers] = words else {
        return None;
    };
    if !is_word(name.as_str(), "live") {
        return None;
    }
    crew_of(
        depth.as_bytes(),
        cells.as_bytes(),
        wits.as_bytes(),
        workers.as_bytes(),
    )
}

// The limits and the number of workers that four words spell.
fn crew_of(depth: &[u8], cells: &[u8], wits: &[u8], workers: &[u8]) -> Option<(Limits, u32)>
    ensures some { IfSome result (λ r.
        SpellsCrew (depth.now ∷ cells.now ∷ wits.now ∷ workers.now ∷ []) r.0 r.1) }
    ensures none { IfNone result ((b : Budget) (n : ℕ) →
        SpellsCrew (depth.now ∷ cells.now ∷ wits.now ∷ workers.now ∷ []) b n → ⊥) }
{
    let limits = limits_of(depth, cells, wits)?;
    let crew = workers_of(workers)?;
    Some((limits, crew))
}

// A number from 1 to 16.
fn workers_of(text: &[u8]) -> Option<u32>
    ensures some { IfSome result (λ n. IsNumber text.now (pos n) × IsCrew n) }
    ensures none { IfNone result ((n : ℕ) → IsNumber text.now (pos n) → IsCrew n → ⊥) }
{
    let n = number(text)?;
    if n < 1 || n > 16 {
        return None;
    }
    Some(n as u32)
}

// Whether the one word is this one.
fn is_alone(words: &[String], name: &str) -> bool
    ensures { IsTrue result ↔ (map string_bytes words.now ≡ name.now ∷ []) }
{
    let [word] = words else {
        return false;
    };
    is_word(word.as_str(), name)
}

fn is_word(word: &str, name: &str) -> bool
    ensures { IsTrue result ↔ (word.now ≡ name.now) }
{
    word == name
}

// The numbers of columns and rows behind `map`.
fn map_size(words: &[String]) -> Option<(u32, u32)>
    ensures some { IfSome result (λ size. SpellsCommand (map string_bytes words.now) (Map size.0 size.1)) }
    ensures none { IfNone result ((w h : ℕ) → SpellsCommand (map string_bytes words.now) (Map w h) → ⊥) }
{
    let [name, columns, rows] = words else {
        return None;
    };
    if !is_word(name.as_str(), "map") {
        return None;
    }
    size_of(columns.as_bytes(), rows.as_bytes())
}

// The numbers of columns and rows that two words spell.
fn size_of(columns: &[u8], rows: &[u8]) -> Option<(u32, u32)>
    ensures some { IfSome result (λ size.
        AreNumbers (columns.now ∷ rows.now ∷ []) (pos size.0 ∷ pos size.1 ∷ [])
        × (IsSide size.0 × IsSide size.1)) }
    ensures none { IfNone result ((w h : ℕ) →
        AreNumbers (columns.now ∷ rows.now ∷ []) (pos w ∷ pos h ∷ []) → IsSide w × IsSide h → ⊥) }
{
    let width = side_of(columns)?;
    let height = side_of(rows)?;
    Some((width, height))
}

// A number from 1 to 200.
fn side_of(text: &[u8]) -> Option<u32>
    ensures some { IfSome result (λ n. IsNumber text.now (pos n) × IsSide n) }
    ensures none { IfNone result ((n : ℕ) → IsNumber text.now (pos n) → IsSide n → ⊥) }
{
    let n = number(text)?;
    if n < 1 || n > 200 {
        return None;
    }
    Some(n as u32)
}

// The seed and the number of points behind the name.
fn sample_size(words: &[String], name: &str) -> Option<(u32, u32)>
    ensures some { IfSome result (λ r.
        AsksForSample (map string_bytes words.now) name.now r.0 r.1) }
    ensures none { IfNone result ((s n : ℕ) →
        AsksForSample (map string_bytes words.now) name.now s n → ⊥) }
{
    let [first, seed, points] = words else {
        return None;
    };
    if !is_word(first.as_str(), name) {
        return None;
    }
    seed_and_points(seed.as_bytes(), points.as_bytes())
}

// The seed and the number of points that two words spell.
fn seed_and_points(seed: &[u8], points: &[u8]) -> Option<(u32, u32)>
    ensures some { IfSome result (λ r. SpellsSample (seed.now ∷ points.now ∷ []) r.0 r.1) }
    ensures none { IfNone result ((s n : ℕ) →
        SpellsSample (seed.now ∷ points.now ∷ []) s n → ⊥) }
{
    let s = small_number(seed, (1 << 31) - 1)?;
    let n = small_number(points, 10_000)?;
    Some((s, n))
}

// A number from 0 to the most.
fn small_number(text: &[u8], most: u32) -> Option<u32>
    ensures some { IfSome result (λ n. IsNumber text.now (pos n) × (n ≤ most)) }
    ensures none { IfNone result ((n : ℕ) → IsNumber text.now (pos n) → n ≤ most → ⊥) }
{
    let n = number(text)?;
    if n < 0 || n > most as i64 {
        return None;
    }
    Some(n as u32)
}

// The limits behind `certify`.
fn certify_limits(words: &[String]) -> Option<Limits>
    ensures some { IfSome result (λ b. SpellsCommand (map string_bytes words.now) (Certify b)) }
    ensures none { IfNone result ((b : Budget) →
        SpellsCommand (map string_bytes words.now) (Certify b) → ⊥) }
{
    let [name, depth, cells, wits] = words else {
        return None;
    };
    if !is_word(name.as_str(), "certify") {
        return None;
    }
    limits_of(depth.as_bytes(), cells.as_bytes(), wits.as_bytes())
}

// The limits that three words spell.
fn limits_of(depth: &[u8], cells: &[u8], wits: &[u8]) -> Option<Limits>
    ensures some { IfSome result (λ b.
        AreNumbers (depth.now ∷ cells.now ∷ wits.now ∷ []) (limits_numbers b) × IsBudget b) }
    ensures none { IfNone result ((b : Budget) →
        AreNumbers (depth.now ∷ cells.now ∷ wits.now ∷ []) (limits_numbers b) → IsBudget b → ⊥) }
{
    let most_depth = count_of(depth)?;
    let most_cells = count_of(cells)?;
    let most_wits = count_of(wits)?;
    Limits::new(most_depth, most_cells, most_wits)
}

// A number from 0 to 2^32 - 1.
fn count_of(text: &[u8]) -> Option<u32>
    ensures some { IfSome result (λ n. IsNumber text.now (pos n)) }
    ensures none { IfNone result ((n : ℕ) → n < 2 ^ 32 → IsNumber text.now (pos n) → ⊥) }
{
    small_number(text, u32::MAX)
}
