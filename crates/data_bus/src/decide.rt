// The bus rule: whether a step is served, by what the chips answered.
ghost use Rattle.std.specs.Prelude.{◌≡◌, ◌≤◌, ℕ, List, length};
ghost use Rattle.f8_spec.specs.BusCodes.{driver_of as driver_by_table};
ghost use Rattle.f8_spec.specs.BusArbitration.{byte_by, judged, one_party, port_read_ruling, port_write_ruling};
ghost use Rattle.f8_spec.specs.BusArbitration.{read_ruling, store_ruling, unless_bystander};
ghost use Rattle.data_bus.specs.Steps.{poll_answer, ruled, served_of};

use super::{BusFault, Cycle, Parties, Served};
use chip_face::MOST_CHIPS;
use f8_spec::{BusRule, Party};
use romc_table::{Driver, Romc, driver_of};

/// What the bus rule says of a step.
#[derive(Clone, Copy, Debug, PartialEq, Eq)]
pub(crate) enum Ruling {
    /// It is served, by the chip in this socket or by none.
    Served(Option<u8>),

    /// Several chips drive, or take.
    Conflict,

    /// No chip drives.
    Undriven,

    /// This chip isn't at the probe's address; or it holds that address, and does nothing.
    Astray(Party),
}

/// Served, unless a chip stands by at the probe's address.
#[inline(always)]
fn unless_bystander(socket: Option<u8>, bystander: Option<Party>) -> Ruling
    ensures { (reference : ℕ) (parties : List Party) →
        ruled reference parties result ≡ unless_bystander reference socket bystander }
{
    match bystander {
        None => Ruling::Served(socket),
        Some(party) => Ruling::Astray(party),
    }
}

/// One chip drives or takes: it has to be at the probe's address, and the only one there.
#[inline(always)]
fn one_party(reference: u16, party: Party, bystander: Option<Party>) -> Ruling
    ensures { (parties : List Party) →
        ruled reference parties result ≡ one_party reference party bystander }
{
    if party.at == reference {
        unless_bystander(Some(party.socket), bystander)
    } else {
        Ruling::Astray(party)
    }
}

/// A chip has to drive the byte.
#[inline(always)]
fn read(reference: u16, parties: &[Party], bystander: Option<Party>) -> Ruling
    ensures { ruled reference parties.now result ≡ read_ruling reference parties.now bystander }
{
    match parties {
        [] => Ruling::Undriven,
        [party] => one_party(reference, *party, bystander),
        [_, _, ..] => Ruling::Conflict,
    }
}

/// A chip may take the byte. One that none takes is lost.
#[inline(always)]
fn store(reference: u16, parties: &[Party], bystander: Option<Party>) -> Ruling
    ensures { ruled reference parties.now result ≡ store_ruling reference parties.now bystander }
{
    match parties {
        [] => unless_bystander(None, bystander),
        [party] => one_party(reference, *party, bystander),
        [_, _, ..] => Ruling::Conflict,
    }
}

/// A chip that has the port has to drive its byte.
#[inline(always)]
fn port_read(parties: &[Party]) -> Ruling
    ensures { (reference : ℕ) →
        ruled reference parties.now result ≡ port_read_ruling reference parties.now }
{
    match parties {
        [] => Ruling::Undriven,
        [party] => Ruling::Served(Some(party.socket)),
        [_, _, ..] => Ruling::Conflict,
    }
}

/// A chip that has the port may take the byte.
#[inline(always)]
fn port_write(parties: &[Party]) -> Ruling
    ensures { (reference : ℕ) → ruled reference parties.now result ≡ port_write_ruling parties.now }
{
    match parties {
        [] => Ruling::Served(None),
        [party] => Ruling::Served(Some(party.socket)),
        [_, _, ..] => Ruling::Conflict,
    }
}

/// What the rule says where these chips drive or take, and this one stands by. `first` is the socket of the chip whose interrupt is
/// acknowledged.
#[inline(always)]
fn judge(
    rule: BusRule,
    first: Option<u8>,
    reference: u16,
    parties: &[Party],
    bystander: Option<Party>,
) -> Ruling
    ensures { ruled reference parties.now result
        ≡ judged rule first reference parties.now bystander }
{
    match rule {
        BusRule::Read => read(reference, parties, bystander),
        BusRule::Store => store(reference, parties, bystander),
        BusRule::PortRead => port_read(parties),
        BusRule::PortWrite => port_write(parties),
        BusRule::Vector => Ruling::Served(first),
        BusRule::NoChip => Ruling::Served(None),
    }
}

/// The byte on the bus: the CPU's, 00 where nobody drives, and else the chip's.
#[inline(always)]
fn bus_byte(romc: Romc, cpu: u8, chip: u8) -> u8
    ensures { result ≡ byte_by (driver_by_table romc) cpu chip }
{
    match driver_of(romc) {
        Driver::Cpu => cpu,
        Driver::Nobody => 0,
        Driver::Memory | Driver::CounterByte | Driver::Vector | Driver::Port => chip,
    }
}

/// Decides a step by what the chips answered: those that drive or take, the byte of the only one of them, and the chip that stands by.
pub(crate) fn decide(
    rule: BusRule,
    cycle: &Cycle,
    reference: u16,
    parties: &[Party],
    byte: u8,
    bystander: Option<Party>,
) -> Result<Served, BusFault>
    requires { length parties.now ≤ MOST_CHIPS }
    ensures { result ≡ poll_answer rule cycle.now reference
        (record { parties = parties.now; byte = byte; bystander = bystander }) }
{
    let romc = cycle.romc;
    match judge(rule, cycle.first, reference, parties, bystander) {
        Ruling::Served(socket) => Ok(Served {
            byte: bus_byte(romc, cycle.byte, byte),
            socket,
        }),
        Ruling::Conflict => Err(BusFault::Conflict {
            romc,
            parties: Parties::of(parties),
        }),
        Ruling::Undriven => Err(BusFault::Undriven {
            romc,
            at: reference,
        }),
        Ruling::Astray(party) => Err(BusFault::Astray {
            romc,
            socket: party.socket,
            at: party.at,
            reference,
        }),
    }
}

/// The step as it is served, as [`decide`] says, where no chip stands by; and `None` where it isn't.
// Beside `decide`, since a step that is served has then no room for a fault with its list of chips.
#[inline(always)]
pub(crate) fn served(
    rule: BusRule,
    cycle: &Cycle,
    reference: u16,
    parties: &[Party],
    byte: u8,
) -> Option<Served>
    ensures { result ≡ served_of (poll_answer rule cycle.now reference
        (record { parties = parties.now; byte = byte; bystander = None })) }
{
    match judge(rule, cycle.first, reference, parties, None) {
        Ruling::Served(socket) => Some(Served {
            byte: bus_byte(cycle.romc, cycle.byte, byte),
            socket,
        }),
        Ruling::Conflict | Ruling::Undriven | Ruling::Astray(_) => None,
    }
}
