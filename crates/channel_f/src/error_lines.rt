// Why a command did not get what it wants of its files, told by an `error` line.
ghost use Rattle.std.specs.Prelude.{◌≡◌, ◌≤◌, IsTrue, length};
ghost use Rattle.std.specs.List.{list_all};
ghost use Rattle.text_lines.specs.Printable.{is_printable};
ghost use Rattle.channel_f.specs.ErrorLines.{purpose_word as spelled_word, purpose_number as told_number};
ghost use Rattle.channel_f.specs.ErrorLines.{refusal_line as spelled_refusal, missing_line as spelled_missing};
ghost use Rattle.channel_f.specs.Reports.{Stops};

use super::audit_lines::error_trace;
use super::case_lines::error_cases;
use super::lines_out::put_lines;
use super::status::Status;
use loader::{Purpose, Refusal, Stop};
use outside::Sink;
use report::{
    Line, Reader, error_asm, error_cart, error_hex, error_link, error_long, error_module,
    error_reader, error_store, error_toml,
};

/// The word of what a file is for.
fn purpose_word(purpose: Purpose) -> &'static str
    ensures word { result.now ≡ spelled_word purpose }
    ensures short { length result.now ≤ 16 }
    ensures printable { IsTrue (list_all is_printable result.now) }
{
    match purpose {
        Purpose::Cart => "cart",
        Purpose::Script => "script",
        Purpose::Cert => "cert",
        Purpose::Cases => "cases",
        Purpose::Commands => "commands",
        Purpose::Trace => "trace",
        Purpose::File => "file",
        Purpose::Source(_) => "source",
        Purpose::Plan => "plan",
        Purpose::Module(_) => "module",
    }
}

/// The number behind that word.
fn purpose_number(purpose: Purpose) -> Option<u8>
    ensures { result ≡ told_number purpose }
{
    match purpose {
        Purpose::Source(number) | Purpose::Module(number) => Some(number),
        Purpose::Cart
        | Purpose::Script
        | Purpose::Cert
        | Purpose::Cases
        | Purpose::Commands
        | Purpose::Trace
        | Purpose::File
        | Purpose::Plan => None,
    }
}

/// The line of a file that is refused.
#[tactic(auto, using(crate::proofs::KeyWords::word_short, crate::proofs::KeyWords::word_printable))]
fn refusal_line(refusal: Refusal) -> Line
    ensures { result ≡ spelled_refusal refusal }
{
    match refusal {
        Refusal::Document => error_toml(),
        Refusal::Cart(fault) => error_cart(fault.chip, fault.key.word(), fault.cause.number()),
        Refusal::Assembly { source, fault } => error_asm(
            source,
            fault.line,
            fault.column,
            fault.cause.number(),
        ),
        Refusal::Script(fault) => error_reader(Reader::Script, fault.line, fault.cause.number()),
        Refusal::Cert(fault) => error_reader(Reader::Cert, fault.line, fault.cause.number()),
        Refusal::Cases(fault) => error_cases(fault),
        Refusal::Commands(fault) => error_reader(Reader::Debug, fault.line, fault.cause.number()),
        Refusal::Trace(fault) => error_trace(fault.line),
        Refusal::Plan(fault) => error_reader(Reader::Plan, fault.line, fault.cause.number()),
        Refusal::Module { number, fault } => error_module(
            number,
            fault.line,
            fault.column,
            fault.cause.number(),
        ),
        Refusal::Link(fault) => error_link(fault.module, fault.cause.number()),
        Refusal::Digits => error_hex(),
        Refusal::Long(purpose) => error_long(purpose_word(purpose), purpose_number(purpose)),
    }
}

/// The line of a file that the store didn't give.
fn missing_line(purpose: Purpose) -> Line
    ensures { result ≡ spelled_missing purpose }
{
    error_store(purpose_word(purpose), purpose_number(purpose))
}

/// Tells why files stopped a command. Where memory was wanting, nothing is written.
pub fn put_stop<K: Sink>(sink: &mut K, stop: Stop) -> Status
    ensures { Stops (K.output sink.old) (K.output sink.new) result stop }
{
    match stop {
        Stop::Refused(refusal) => {
            put_lines(sink, [refusal_line(refusal)].as_slice(), Status::Input)
        }
        Stop::Store(purpose) => put_lines(sink, [missing_line(purpose)].as_slice(), Status::Store),
        Stop::Memory => Status::Memory,
    }
}
