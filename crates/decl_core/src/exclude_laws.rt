//! Laws of separation and of certificates, over paths, traces and objects alone.

ghost use Rattle.decl_core.specs.Laws.{MeetingOpenly, SeparatedNeverMeet};
ghost use Rattle.decl_core.specs.CertificateLaws.{CertifiedIsExclusive, OneFirstCertificate};

/// In a trace that satisfies a path, two running calls of operations that are separated in it have one
/// number, so they are one call.
pub fn separated_never_meet()
    ensures { SeparatedNeverMeet }
{}

/// Where each name stands once, two names meet openly in a tree exactly where both stand in it and no
/// burst in it holds both.
pub fn meeting_openly()
    ensures { MeetingOpenly }
{}

/// An object that has a certificate is exclusive.
pub fn certified_is_exclusive()
    ensures { CertifiedIsExclusive }
{}

/// Two certificates of an object, each entry with the first path and in it the first node that separates,
/// are the same.
pub fn one_first_certificate()
    ensures { OneFirstCertificate }
{}
