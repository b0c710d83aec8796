// The top call of the program.
ghost use Rattle.std.specs.Prelude.{◌≡◌, IsTrue, Some, map, string_bytes, sum_by};
ghost use Rattle.command_line.specs.CommandLine.{command_of, has_command};
ghost use Rattle.command_line.specs.Seen.{seen_command};
ghost use Rattle.channel_f.specs.Answers.{due_of};
ghost use Rattle.channel_f.specs.Commands.{around, Says};
ghost use Rattle.channel_f.specs.Completeness.{IsComplete};
ghost use Rattle.channel_f.specs.Statuses.{exit_code, HasStatus};

use super::commands::{
    answer_asm, answer_audit, answer_check, answer_confirm, answer_debug, answer_dis, answer_gen,
    answer_link, answer_migrate, answer_play, answer_prove, answer_ref, answer_verify,
};
use super::lines_out::put_lines;
use super::status::Status;
use chip_face::Chip;
use command_line::{Command, read_words};
use f8_machine::Rack;
use f8_spec::Memory;
use outside::{Sink, Store};
use std::alloc::Global;

/// Carries out a command.
#[tactic(auto, using(crate::proofs::Outcomes::says_play, crate::proofs::Outcomes::says_check, crate::proofs::Outcomes::says_verify, crate::proofs::Outcomes::says_prove, crate::proofs::Outcomes::says_confirm, crate::proofs::Outcomes::says_migrate, crate::proofs::Outcomes::says_ref, crate::proofs::Outcomes::says_debug, crate::proofs::Outcomes::says_audit, crate::proofs::Outcomes::says_asm, crate::proofs::Outcomes::says_link, crate::proofs::Outcomes::says_dis, crate::proofs::Outcomes::says_gen))]
fn answer_command<S: Store, K: Sink>(
    alloc: Global,
    command: Command,
    store: &mut S,
    sink: &mut K,
    rack: &mut Rack,
) -> Status
    ensures says { Says
        (around (K.output sink.old) (S.input store.old) (map state rack.old.items)
        (sum_by queries rack.old.items))
        (around (K.output sink.new) (S.input store.new) (map state rack.new.items)
        (sum_by queries rack.new.items))
        result (Some (seen_command command.entry)) }
{
    match command {
        Command::Play {
            cart,
            script,
            traced,
        } => answer_play(alloc, cart, script, traced, store, sink, rack),
        Command::Check { cart, certified } => answer_check(alloc, cart, certified, store, sink),
        Command::Verify { cart, cert } => answer_verify(alloc, cart, cert, store, sink),
        Command::Prove { cart, listed } => answer_prove(alloc, cart, listed, store, sink),
        Command::Confirm { cart, cases } => answer_confirm(alloc, cart, cases, store, sink),
        Command::Migrate { cart } => answer_migrate(alloc, cart, store, sink),
        Command::Ref { cart, script } => answer_ref(alloc, cart, script, store, sink),
        Command::Debug { cart, commands } => answer_debug(alloc, cart, commands, store, sink, rack),
        Command::Audit {
            cart,
            script,
            trace,
        } => answer_audit(alloc, cart, script, trace, store, sink, rack),
        Command::Asm { file } => answer_asm(alloc, file, store, sink),
        Command::Link { plan } => answer_link(alloc, plan, store, sink),
        Command::Dis { file } => answer_dis(alloc, file, store, sink),
        Command::Gen { seed } => answer_gen(alloc, seed, sink, rack),
    }
}

/// Answers the words of a command line.
#[tactic(auto, using(crate::proofs::Outcomes::says_words, crate::proofs::Outcomes::says_wanting, crate::proofs::Outcomes::command_named, crate::proofs::Outcomes::words_not_memory, crate::proofs::Games::answers_of))]
fn answer_words<S: Store, K: Sink>(
    alloc: Global,
    words: &[String],
    store: &mut S,
    sink: &mut K,
    rack: &mut Rack,
) -> Status
    ensures says { Says
        (around (K.output sink.old) (S.input store.old) (map state rack.old.items)
        (sum_by queries rack.old.items))
        (around (K.output sink.new) (S.input store.new) (map state rack.new.items)
        (sum_by queries rack.new.items))
        result (command_of (map string_bytes words.now)) }
    ensures memory { result ≡ Status.Memory → IsTrue (has_command (map string_bytes words.now)) }
{
    match read_words(alloc, words) {
        Ok(Some(command)) => answer_command(alloc, command, store, sink, rack),
        Ok(None) => put_lines(sink, [report::error_words()].as_slice(), Status::Words),
        Err(Memory) => Status::Memory,
    }
}

/// The program, but for the system: answers the words over a store of files, a sink of lines and a rack of chips, and gives the exit status.
///
/// The words are one of these. Names are those of files in the store.
///
/// - `play CART SCRIPT`: the rack is fitted for the chips that the description describes, powered and reset, and runs as the script has it. With
///   `--trace` every bus step is told.
/// - `check CART`: the verdict on the description: that no run of its chips can fail at a bus step, whatever the script, or that this can't be
///   shown. With `--cert` what shows it is told in place of the verdict, as a certificate.
/// - `verify CART CERT`: what is found of a certificate of the description, whoever made it.
/// - `prove CART`: whether a list of entries was found that shows the same as a check, by a search that keeps sets of values. With `--cases` the
///   list is told in place of the answer.
/// - `confirm CART CASES`: what is found of a list of entries of the description, whoever made it.
/// - `migrate CART`: a description in the newest format that says the same, as one document of many. Its sources aren't asked for.
/// - `ref CART SCRIPT`: the same bytes run on the flat instruction set alone, and the rack stays as it was.
/// - `debug CART COMMANDS`: the rack is fitted for the chips described, powered and reset, and carries out the debugger's commands.
/// - `audit CART SCRIPT TRACE`: whether the bus steps that the trace tells are the whole record of a run of the chips described, with the power
///   byte of the script and its key bytes of ports 0 and 1, and any key bytes of other ports and any pulses. The rack is fitted for the chips.
/// - `asm FILE`: the bytes that an assembly text makes, and its names.
/// - `link PLAN`: the bytes that the modules of a plan make together, each in its room, and the names that they export.
/// - `dis FILE`: the assembly text of a file of hexadecimal digits.
/// - `gen N`: the rack is fitted for a large cartridge that is generated from the number, and runs for 60 frames. Its run is summed up.
///
/// Each file is read before the next is asked for: the description, then the source of each chip that has one, then the script, the
/// debugger's commands, the certificate or the list of entries, and behind the script of an audit its trace; the plan, and then each of its
/// modules. `play`, `debug`, `gen` and `audit` look at the rack after all of them, and then its chips are fitted.
/// The first refusal ends the call with its one line. Each line is one put.
///
/// Where the store tells its files and has those that are asked for, neither count of faults rose, and memory wasn't wanting, what is
/// written is exactly what is due; with `play` and `gen` that is what the flat machine's run over the bytes of the fitted chips says, up to
/// the first bus step that isn't served by one chip at the flat machine's address (clause `says`, and by the files alone clause
/// `complete`). Before the run a line tells the verdict on the description; where that is `whole`, and no chip has other bytes in
/// its ROM than are described, the status is 0 for every script, unless the sink failed or memory was wanting. The status is
///
/// - 0 where all is done,
/// - 1 where the words are none of these,
/// - 2 where a file is refused, or the command is `play`, `debug`, `gen` or `audit` and the rack has more than 16 chips or too few sockets of a
///   kind,
/// - 3 where a bus step isn't served,
/// - 4 where the store failed, as one does that hasn't the file,
/// - 5 where the sink failed,
/// - 6 where memory was wanting, and then nothing was written; this comes only where the first word is that of a command,
/// - 7 where `check` can't show that the cartridge is safe, or `verify` finds that the certificate doesn't, or `prove` finds no list of entries
///   that does, or `confirm` that the list doesn't, or `audit` rejects the trace,
/// - 8 at a reserved opcode.
///
/// Where a run of `play` or `gen` began, each chip has heard its bus steps and has taken its key bytes and pulses, and nothing else.
/// Where the sink failed at a line of the run, that is so up to the end of the instruction, or of the reset, whose line it was. The
/// chips were put in all at most 512 questions for each, and the allowances of the bus steps that were tried (clause `says`). After a
/// session of `debug` they are as its commands left them, up to the one whose line failed. From each power-on on they were put as many
/// questions at most as in a run, and besides those of the commands themselves: `show chips` puts at most one to each chip, `mem` at
/// most one to each chip for each byte, and `run` one to each chip described behind each instruction, where counters that part are a
/// break. Where neither a run nor a session nor an audit began, they were put none. Each chip counts its questions up to the greatest
/// `u64`, and the clause goes by these counts. An audit accepts a trace exactly where its steps are the whole record of such a run on the
/// fitted chips (clause `says`).
#[tactic(auto, using(crate::proofs::Completeness::completed))]
pub fn console<S: Store, K: Sink>(
    alloc: Global,
    words: &[String],
    store: &mut S,
    sink: &mut K,
    rack: &mut Rack,
) -> u8
    ensures says { HasStatus result (λ ended. Says
        (around (K.output sink.old) (S.input store.old) (map state rack.old.items)
        (sum_by queries rack.old.items))
        (around (K.output sink.new) (S.input store.new) (map state rack.new.items)
        (sum_by queries rack.new.items))
        ended (command_of (map string_bytes words.now))) }
    ensures complete { HasStatus result (λ ended. IsComplete
        (around (K.output sink.old) (S.input store.old) (map state rack.old.items)
        (sum_by queries rack.old.items))
        (around (K.output sink.new) (S.input store.new) (map state rack.new.items)
        (sum_by queries rack.new.items))
        ended (due_of (map state rack.old.items) (command_of (map string_bytes words.now)))) }
    ensures memory { result ≡ exit_code Status.Memory →
        IsTrue (has_command (map string_bytes words.now)) }
{
    answer_words(alloc, words, store, sink, rack).code()
}
