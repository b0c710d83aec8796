// A file of the store, as a command asks for it.
ghost use Rattle.std.specs.Prelude.{◌≤◌, IfOk, length};
ghost use Rattle.loader.specs.Work.{ask};
ghost use Rattle.loader.specs.Works.{Works, RefusesFrom, order_of, outcome_as};

use super::purposes::Purpose;
use super::refusals::{Refusal, Stop};
use outside::{FetchFault, Store};
use std::alloc::Global;

/// The bytes of a file, at most `limit`.
#[tactic(auto, using(crate::proofs::WorkLaws::ask_ok, crate::proofs::WorkLaws::ask_failed, crate::proofs::WorkLaws::ask_long, crate::proofs::WorkLaws::ask_memory))]
pub fn fetch<S: Store>(
    alloc: Global,
    store: &mut S,
    purpose: Purpose,
    name: &str,
    limit: u32,
) -> Result<Vec<u8>, Stop>
    ensures works { Works (S.input store.old) (S.input store.new)
        (ask purpose name.now limit) (outcome_as (λ bytes. bytes.items) result) }
    ensures order { RefusesFrom (order_of purpose) result }
    ensures within { IfOk result (λ bytes. length bytes.items ≤ limit) }
{
    match store.fetch(alloc, name, limit) {
        Ok(bytes) => Ok(bytes),
        Err(FetchFault::Failed) => Err(Stop::Store(purpose)),
        Err(FetchFault::TooLong) => Err(Stop::Refused(Refusal::Long(purpose))),
        Err(FetchFault::Memory) => Err(Stop::Memory),
    }
}
