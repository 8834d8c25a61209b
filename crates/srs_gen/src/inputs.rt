// The text of an input of `live`.
ghost use Rattle.std.specs.Prelude.{◌≡◌, ◌≤◌, ◌<◌, ◌^◌, ◌++◌, IfOk, OnOk};
ghost use Rattle.std.specs.List.{flat_map};
ghost use Rattle.srs_file.specs.Grammar.{SpellsLive};
ghost use Rattle.srs_gen.specs.Samples.{made_vertices};
ghost use Rattle.srs_gen.specs.Inputs.{question_text, asking_text, input_text, made_script, made_text};

use crate::samples::made_sample;
use srs_num::{NoMemory, Pt};
use srs_plane::Vertex;
use srs_print::{put_count, put_line, put_ring};
use srs_text::Bytes;
use std::alloc::Global;

/// The input of `live` that the seed `s` gives: its triangle, and two sessions that ask at its
/// first `n` points, the first at round 0 about half of them, the second at round 3 about the
/// others. An `Err` is want of memory.
pub fn make(alloc: Global, s: u32, n: u32) -> Result<Bytes, NoMemory>
    requires seed { s < 2 ^ 31 }
    requires few { n ≤ 10000 }
    ensures text { IfOk result (λ text. text ≡ made_text s n) }
    ensures grammar { IfOk result
        (λ text. SpellsLive text (made_vertices s) (made_script s n)) }
{
    let sample = made_sample(alloc, s, n)?;
    let mut text = Bytes::new(alloc);
    match put_input(&mut text, &sample.vertices, sample.points.as_slice()) {
        Ok(()) => Ok(text),
        Err(_) => Err(NoMemory),
    }
}

// Appends the polygon, the two sessions, and `end`.
fn put_input(text: &mut Bytes, vertices: &[Vertex], points: &[Pt]) -> Result<(), srs_text::NoMemory>
    ensures { OnOk result (text.new ≡ text.old ++ input_text vertices.now points.now) }
{
    let (first, others) = points.split_at((points.len() + 1) / 2);
    put_ring(text, vertices)?;
    put_session(text, 0, first)?;
    put_session(text, 3, others)?;
    text.extend(b"end\n")
}

// Appends a session that asks at the points behind the round.
fn put_session(text: &mut Bytes, round: u64, points: &[Pt]) -> Result<(), srs_text::NoMemory>
    ensures { OnOk result (text.new ≡ text.old ++ asking_text round points.now) }
{
    text.extend(b"session\n")?;
    put_count(text, b"at", round)?;
    put_questions(text, points)
}

// Appends a question for each point.
fn put_questions(text: &mut Bytes, points: &[Pt]) -> Result<(), srs_text::NoMemory>
    ensures { OnOk result (text.new ≡ text.old ++ flat_map question_text points.now) }
{
    for r in points {
        put_question(text, r)?;
    }
    Ok(())
}

// Appends the question at the point.
fn put_question(text: &mut Bytes, r: &Pt) -> Result<(), srs_text::NoMemory>
    ensures { OnOk result (text.new ≡ text.old ++ question_text r.now) }
{
    let (p, q, d) = r.parts();
    put_line(text, b"point", &[p, q, d])
}
