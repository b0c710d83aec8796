// A cartridge with what a certificate claims of it, or with a list of entries of it.
use abs_step::Annotation;
use cart_data::Cart;
use case_step::CaseList;

/// A cartridge with what a certificate claims of it.
#[derive(Debug, Drop)]
pub struct Claim {
    /// The cartridge: the registers that the checker tracks, and the storage chips in the order of the description.
    pub cart: Cart,
    /// The invariant map of the certificate.
    pub notes: Annotation,
}

/// A cartridge with a list of entries of it.
#[derive(Debug, Drop)]
pub struct Confirming {
    /// The cartridge: the registers that the checker tracks, and the storage chips in the order of the description.
    pub cart: Cart,
    /// The entries.
    pub list: CaseList,
}
