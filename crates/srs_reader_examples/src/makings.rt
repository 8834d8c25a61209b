// Certificates that are made of what was read.
ghost use Rattle.std.specs.Prelude.{◌≡◌, IfOk};
ghost use Rattle.srs_cert.specs.Certificates.{IsCertificate};
ghost use Rattle.srs_file.specs.CertReading.{read_view};

use crate::lines::certificate_text;
use srs_file::{Cert, CertReader, word_of};
use srs_line::read_lines;
use srs_num::NoMemory;
use srs_plane::Kind;
use srs_print::put_cert;
use srs_text::Bytes;
use std::alloc::Global;
use std::test::Fail;

// The reader that has read the text.
pub fn has_read(alloc: Global, text: &str) -> Result<CertReader, Fail>
    ensures { IfOk result (λ reader. IsCertificate (read_view reader)) }
{
    if text.len() > 65536 {
        Err("it is short")?;
    }
    let mut reader = CertReader::new(alloc);
    match read_lines(&mut reader, text.as_bytes()) {
        Ok(()) => Ok(reader),
        Err(_) => Err("it is a certificate")?,
    }
}

// The certificate of what was read, made of its parts.
fn made(alloc: Global, reader: CertReader) -> Result<Cert, NoMemory>
    requires { IsCertificate (read_view reader) }
{
    let (vertices, _) = reader.outline.into_parts();
    let (limits, events) = reader.tree.into_parts();
    Cert::new(alloc, vertices.as_slice(), limits, events)
}

// Whether this is the text of the certificate.
fn is_text(alloc: Global, cert: &Cert, text: &str) -> Result<bool, Fail> {
    let mut out = Bytes::new(alloc);
    if put_cert(&mut out, cert).is_err() {
        Err("there is memory")?;
    }
    Ok(out.as_slice() == text.as_bytes())
}

#[test]
fn certificates_of_a_reader(rt: HostRuntime) -> Result<(), Fail> {
    let alloc = rt.alloc();
    let text = certificate_text(alloc)?;
    let cert = has_read(alloc, &text)?.into_cert(alloc)?;
    assert!(rt; is_text(alloc, &cert, &text)?);
    let cert = made(alloc, has_read(alloc, &text)?)?;
    assert!(rt; is_text(alloc, &cert, &text)?);
    Ok(())
}

#[test]
fn words_of_vertices(rt: HostRuntime) {
    assert_eq!(rt; word_of(Kind::Ge), b"ge".as_slice());
    assert_eq!(rt; word_of(Kind::Gt), b"gt".as_slice());
}
