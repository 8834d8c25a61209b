// The line of a vertex.
ghost use Rattle.std.specs.Prelude.{◌≡◌, [], ◌∷◌, IfOk, IfErr, IfSome, IfNone};
ghost use Rattle.srs_plane.specs.declared.halves.Kind.{Kind};
ghost use Rattle.srs_line.specs.Fields.{HasWord, Says, IsFieldSlip};
ghost use Rattle.srs_cert.specs.Texts.{kind_word};
ghost use Rattle.srs_file.specs.Ring.{SaysVertex, IsVertexSlip};

use srs_cert::word_of;
use srs_line::{Slip, has_word, three};
use srs_plane::{Kind, Vertex};

// Reads the line of a vertex. It takes no memory.
pub(crate) fn vertex(line: &[u8]) -> Result<Vertex, Slip>
    ensures ok { IfOk result (λ v. SaysVertex v line.now) }
    ensures err { IfErr result (IsVertexSlip line.now) }
{
    let Some(kind) = kind_of(line) else {
        return Err(Slip::Word);
    };
    let vertex = corner(line, kind)?;
    if !vertex.is_placed() {
        return Err(Slip::Range);
    }
    Ok(vertex)
}

// The kind whose word begins the line.
fn kind_of(line: &[u8]) -> Option<Kind>
    ensures some { IfSome result (λ kind. HasWord (kind_word kind) line.now) }
    ensures none { IfNone result ((kind : Kind) → HasWord (kind_word kind) line.now → ⊥) }
{
    if has_word(line, b"ge") {
        return Some(Kind::Ge);
    }
    if has_word(line, b"gt") {
        return Some(Kind::Gt);
    }
    None
}

// Reads the line as the kind's word and three numbers, in whatever range.
fn corner(line: &[u8], kind: Kind) -> Result<Vertex, Slip>
    ensures kind { IfOk result (λ v. v.kind ≡ kind) }
    ensures ok { IfOk result (λ v. Says (kind_word kind) (v.p ∷ v.q ∷ v.d ∷ []) line.now) }
    ensures err { IfErr result (IsFieldSlip (kind_word kind) 3 line.now) }
{
    let (p, q, d) = three(line, word_of(kind))?;
    Ok(Vertex { p, q, d, kind })
}
