// Laws: what a verdict promises of runs, and what the program never ends with where nothing outside it fails.
ghost use Rattle.std.specs.Prelude.{◌≡◌, ◌≢◌, false, map, string_bytes, sum_by};
ghost use Rattle.command_line.specs.CommandLine.{command_of};
ghost use Rattle.outside.specs.MemorySinks.{sure_output_of};
ghost use Rattle.outside.specs.MemoryStores.{sure_input};
ghost use Rattle.channel_f.specs.Answers.{due_of};
ghost use Rattle.channel_f.specs.Commands.{around};
ghost use Rattle.channel_f.specs.Completeness.{IsSurelyComplete};
ghost use Rattle.channel_f.specs.CheckedCertificates.{CheckedCertificateLaw};
ghost use Rattle.channel_f.specs.ProvedCarts.{ProvedCartLaw};
ghost use Rattle.channel_f.specs.SafeRuns.{HasScriptBytes, SafeRunLaw};
ghost use Rattle.channel_f.specs.Statuses.{exit_code, HasStatus};
ghost use Rattle.pad_script.specs.Reading.{seen};

use super::status::Status;
use super::top::console;
use abs_step::{map_view_law, script_run_law, seated_view_law};
use certificate::closed_map_law;
use chip_face::Chip;
use f8_machine::Rack;
use outside::{Sink, Store, SureSink, SureStore};
use pad_script::Script;
use std::alloc::Global;

/// What the checker finds of the chips of a description is so of every run of a script on a rack that is fitted for them. This call does
/// nothing; its contract is the law.
#[tactic(auto, using(crate::proofs::SafeRuns::safe_runs))]
pub fn safe_run_law()
    ensures { SafeRunLaw }
{
    script_run_law();
    map_view_law();
    seated_view_law();
}

/// All that a script gives are bytes. This call changes nothing; its contract is the law.
pub fn script_law(script: &Script)
    ensures { HasScriptBytes (seen script.now) }
{
    let _power = script.power;
    let _events = script.events.as_slice();
}

/// What `check --cert` tells isn't longer than a file may be that `verify` reads, and is read by it; and it finds the same verdict on the
/// cartridge, with as many points. This call does nothing;
/// its contract is the law.
#[tactic(auto, using(crate::proofs::CheckedCertificates::checked_certificates))]
pub fn checked_certificate_law()
    ensures { CheckedCertificateLaw }
{
    closed_map_law();
}

/// What `prove --cases` tells isn't longer than a file may be that `confirm` reads, and is read by it; and it finds the same, with as many
/// entries. This call does nothing; its contract is the law.
#[tactic(auto, using(crate::proofs::ProvedCarts::proved_carts))]
pub fn proved_cart_law()
    ensures { ProvedCartLaw }
{}

/// Over a store and a sink that never fail, [`console`] doesn't end with the status of a failed store or of a failed sink. Where the store
/// was asked for none but its own files before, and has each one that is asked for now, what is due comes, with its status, unless memory is
/// wanting (clause `complete`). This call is that one; its contract is the law.
pub fn sure_console_law(
    alloc: Global,
    words: &[String],
    store: &mut SureStore,
    sink: &mut SureSink,
    rack: &mut Rack,
) -> u8
    ensures complete { store.old.strayed ≡ false →
        HasStatus result (λ ended. IsSurelyComplete
        (around (sure_output_of sink.old) (sure_input store.old) (map state rack.old.items)
        (sum_by queries rack.old.items))
        (around (sure_output_of sink.new) (sure_input store.new) (map state rack.new.items)
        (sum_by queries rack.new.items))
        ended store.old.files
        (due_of (map state rack.old.items) (command_of (map string_bytes words.now)))) }
    ensures store { result ≢ exit_code Status.Store }
    ensures sink { result ≢ exit_code Status.Sink }
{
    console(alloc, words, store, sink, rack)
}
