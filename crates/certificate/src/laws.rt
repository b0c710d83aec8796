// The laws of certificates.
ghost use Rattle.certificate.specs.CertificateLaws.{RoundTripLaw};
ghost use Rattle.certificate.specs.ClosedMaps.{ClosedMapLaw};
ghost use Rattle.certificate.specs.VerifiedMaps.{VerifiedLaw};

/// What is read of the text of an invariant map of at least one point is the map, where points and states fit each other (this project's
/// own). This call does nothing; its contract is the law.
#[tactic(auto, using(crate::proofs::RoundTrip::round_trip))]
pub fn round_trip_law()
    ensures { RoundTripLaw }
{}

/// An invariant map that is closed and safe is verified as such: as whole where it is free of faults besides, and else as agreed. And its
/// text is read as the map (this project's own). This call does nothing; its contract is the law.
#[tactic(auto, using(crate::proofs::ClosedMaps::closed_maps))]
pub fn closed_map_law()
    ensures { ClosedMapLaw }
{}

/// A map that is found whole shows that in every run with free inputs each access is served, with interrupts at any moment; one that is found
/// agreed shows it but for reads at D0 that no chip answers. And what is found whole or agreed by rules that follow no vector, and refuse each
/// chip that can interrupt where an interrupt may be taken, is found so with vectors (this project's own). This call does nothing; its
/// contract is the law.
#[tactic(auto, using(crate::proofs::VerifiedMaps::verified_maps))]
pub fn verified_map_law()
    ensures { VerifiedLaw }
{}
