//! What the program's commands want of their files (this project's own): the files are fetched one after another, each is read before the
//! next is asked for, and the first that is missing, too long or refused ends it.
#![tactic(auto)]

mod claims;
mod fetching;
mod games;
mod loading;
mod modules;
mod purposes;
mod readings;
mod refusals;
mod sources;

pub use claims::{Claim, Confirming};
pub use f8_spec::Memory;
pub use games::{Auditing, Debugging, Game};
pub use loading::{
    load_audit, load_bytes, load_cart, load_claim, load_confirming, load_debugging, load_game,
    load_image, load_table,
};
pub use modules::load_linked;
pub use purposes::Purpose;
pub use readings::migrated_text;
pub use refusals::{Refusal, Stop};
