// The words of texts.
ghost use Rattle.std.specs.Prelude.{◌≡◌};
ghost use Rattle.srs_cert.specs.Texts.{kind_word};

use srs_plane::Kind;

/// The word that begins the line of a vertex.
pub fn word_of(kind: Kind) -> &'static [u8]
    ensures { result.now ≡ kind_word kind }
{
    match kind {
        Kind::Ge => b"ge",
        Kind::Gt => b"gt",
    }
}
