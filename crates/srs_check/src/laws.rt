// The laws of certificates.
ghost use Rattle.srs_cert.specs.Certificates.{CertView};
ghost use Rattle.srs_check.specs.Certified.{IsCertified};
ghost use Rattle.srs_check.specs.Separated.{Separates};
ghost use Rattle.srs_check.specs.Whole.{WholeIsProved};

/// Each node of the certificate of a whole history within a budget proves itself.
pub fn whole_certificates()
    ensures { WholeIsProved }
{}

/// Of a certificate that `check` calls valid: no rational point of a leaf that is outside is
/// finite, and each one of a leaf that is inside is. So a curve through outside leaves separates
/// the finite points on its two sides.
pub fn separates()
    ensures { (c : CertView) → IsCertified c → Separates c }
{}
