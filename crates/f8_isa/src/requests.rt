// What each chip described asks for, without a timer that runs.
ghost use Rattle.std.specs.Prelude.{◌≡◌, ◌+◌, map};
ghost use Rattle.f8_spec.specs.ShiftTimer.{clocks_to_expiry, timer_loaded};
ghost use Rattle.f8_isa.specs.Requests.{fixed_vector_of, expiries_up_to, expires_by, after_port_write};

use super::ports::Ports;
use chip_face::{ChipList, ChipSpec, SMI_FIRST_PORT};
use console_board::PortWrite;
use f8_timer::{CYCLE_PHI, Timer};
use std::alloc::{AllocError, Global};
use std::marker::Model;

/// The places of the control and of the timer among a chip's four ports (Mostek 3851, 3853 and 3861 data sheets).
const CONTROL_PLACE: u16 = 2;

const TIMER_PLACE: u16 = 3;

/// A port takes a write, and an interrupt is acknowledged, so many Φ before the instruction ends (this project's own).
const WRITE_PHI: u64 = 4;

/// The low two bits of control that let an expiry of the timer or a pulse ask (Mostek 3851 data sheet in outline).
const EXPIRIES: u8 = 3;

const PULSES: u8 = 1;

/// What is kept of a chip's requests: what it asks for by its control, since when, and whether that has come. Times are in Φ since power-on.
#[derive(Clone, Copy)]
pub struct ChipRequests {
    /// The first of its four ports, and 0 of a blank chip.
    first_port: u8,

    /// The chip can interrupt.
    wired: bool,

    /// The vector that is a part of the chip, and none where ports write it, as they do of a 3853.
    fixed_vector: Option<u16>,

    /// The byte last written to its control port.
    control: u8,

    /// The later of its last control write and its last acknowledgement.
    since: u64,

    /// The clocks from the last load of its timer to the first expiry, and none where it never expires.
    to_expiry: Option<u16>,

    /// The time of that load.
    load_time: u64,

    /// An earlier load expired since `since`.
    expired: bool,

    /// A pulse came since `since`.
    pulsed: bool,
}

impl ChipRequests {
    ghost use Rattle.std.specs.Prelude.{◌≡◌, ◌<◌};
    ghost use Rattle.f8_isa.specs.Requests.{first_requests, has_expired, asks_at, is_asking, chip_vector};
    ghost use Rattle.f8_isa.specs.Requests.{after_port_write, with_pulse, ended_at};

    /// A chip at power-on.
    fn of(chip: &ChipSpec) -> ChipRequests
        ensures { result ≡ first_requests chip.now }
    {
        ChipRequests {
            first_port: chip.first_port().unwrap_or(0),
            wired: chip.is_wired(),
            fixed_vector: fixed_vector(chip),
            control: 0,
            since: 0,
            to_expiry: None,
            load_time: 0,
            expired: false,
            pulsed: false,
        }
    }

    /// Its timer has expired by a time.
    fn has_expired(&self, until: u64) -> bool
        ensures { result ≡ has_expired until self.now }
    {
        self.expired || expires_by(self.to_expiry, self.load_time, self.since, until)
    }

    /// The chip has a request at a time, if nothing comes to it up to then.
    pub fn asks(&self, time: u64) -> bool
        ensures { result ≡ asks_at time self.now }
    {
        match self.control % 4 {
            EXPIRIES => self.has_expired(time),
            PULSES => self.pulsed,
            _ => false,
        }
    }

    /// The chip can interrupt, and asks at a time.
    pub fn is_asking(&self, time: u64) -> bool
        ensures { result ≡ is_asking time self.now }
    {
        self.wired && self.asks(time)
    }

    /// The vector that the chip gives: bit 7 of its low byte is clear for the timer and set for a pulse (Mostek 3851 data sheet).
    pub fn vector(&self, ports: &Ports) -> u16
        ensures is { result ≡ chip_vector ports.now.latches self.now }
        ensures range { result < 65536 }
    {
        let vector = match self.fixed_vector {
            Some(vector) => vector,
            None => ports.latch_word(SMI_FIRST_PORT),
        };
        let cause = if self.control % 4 == EXPIRIES { 0 } else { 128 };
        vector / 256 * 256 + cause + vector % 128
    }

    /// The chip after a write that its port, or another one, took.
    fn after_port_write(self, write: PortWrite) -> ChipRequests
        ensures { result ≡ after_port_write write self }
    {
        let port = u16::from(write.port);
        let first_port = u16::from(self.first_port);
        let time = write.phi.saturating_sub(WRITE_PHI);
        if port == first_port + CONTROL_PLACE {
            ChipRequests {
                control: write.byte,
                ..self.ended_at(time)
            }
        } else if port == first_port + TIMER_PLACE {
            ChipRequests {
                to_expiry: clocks_to_expiry(write.byte),
                load_time: time,
                expired: self.has_expired(time),
                ..self
            }
        } else {
            self
        }
    }

    /// What the chip asked for is ended at a time, as by an acknowledgement.
    fn ended_at(self, time: u64) -> ChipRequests
        ensures { result ≡ ended_at time self }
    {
        ChipRequests {
            since: time,
            expired: false,
            pulsed: false,
            ..self
        }
    }

    /// The chip after a pulse.
    fn with_pulse(self) -> ChipRequests
        ensures { result ≡ with_pulse self }
    {
        ChipRequests {
            pulsed: true,
            ..self
        }
    }
}

/// The vector that is a part of a chip, and none where ports write it.
fn fixed_vector(chip: &ChipSpec) -> Option<u16>
    ensures { result ≡ fixed_vector_of chip.now }
{
    match chip {
        ChipSpec::Psu { vector, .. } | ChipSpec::Pio { vector, .. } => Some(*vector),
        ChipSpec::Blank(_) | ChipSpec::Smi { .. } => None,
    }
}

/// The clocks from a load of the timer to its first expiry, and none where it never expires.
fn clocks_to_expiry(byte: u8) -> Option<u16>
    ensures { result ≡ clocks_to_expiry (timer_loaded byte) }
{
    let mut timer = Timer::idle();
    timer.load(byte);
    timer.until()
}

/// A timer expires after one time and up to another: more expiries lie up to the second.
#[tactic(auto, using(crate::proofs::Expiries::expires_counted))]
fn expires_by(to_expiry: Option<u16>, load_time: u64, since: u64, until: u64) -> bool
    ensures { result ≡ expires_by to_expiry load_time since until }
{
    match to_expiry {
        None => false,
        Some(clocks) => { expiries(clocks, load_time, since) < expiries(clocks, load_time, until) }
    }
}

/// How many expiries a load has up to a time.
fn expiries(clocks: u16, load_time: u64, time: u64) -> u64
    ensures { result ≡ expiries_up_to (load_time + clocks) time }
{
    let clocks = u64::from(clocks);
    if time < load_time || time - load_time < clocks {
        0
    } else {
        (time - load_time - clocks) / u64::from(CYCLE_PHI) + 1
    }
}

/// What is kept of the requests of the chips described, in the order of the description: 16 at most. Contracts see the list.
#[derive(Drop)]
pub struct Requests {
    chips: Vec<ChipRequests>,
}

impl Model for Requests {
    ghost use Rattle.std.specs.Prelude.{List, length, ◌≤◌};
    ghost use Rattle.f8_isa.specs.declared.requests.ChipRequests.{ChipRequests};

    ghost Value = { List ChipRequests };

    ghost view = { λ r. r.chips.items };

    ghost invariant = { λ r. length r.chips.items ≤ 16 };
}

impl Requests {
    ghost use Rattle.std.specs.Prelude.{◌≡◌, ◌<◌, ◌≤◌, length, map, IfOk};
    ghost use Rattle.console_spec.specs.InterruptRequests.{effect_time};
    ghost use Rattle.chip_face.specs.Fitting.{IsChipList};
    ghost use Rattle.f8_isa.specs.Requests.{first_requests, asking_place, place_vector};
    ghost use Rattle.f8_isa.specs.Requests.{all_after_write, pulse_at_place, acknowledged_at_place};

    /// The chips at power-on, or want of memory.
    pub fn new(alloc: Global, chips: &ChipList) -> Result<Requests, AllocError>
        ensures first { IfOk result (λ requests. requests ≡ map first_requests chips.now) }
        ensures limits { IsChipList chips.now }
    {
        let chips = chips
            .as_slice()
            .iter()
            .map(ChipRequests::of)
            .collect(alloc)?;
        Ok(Requests { chips })
    }

    /// The place of the first chip that asks at a time.
    pub fn first_asking(&self, time: u64) -> Option<usize>
        ensures { result ≡ asking_place time self.now }
    {
        self.chips.iter().position(|chip| chip.is_asking(time))
    }

    /// The vector of the chip in a place of the description, and 0 where there is no such chip.
    pub fn vector(&self, place: usize, ports: &Ports) -> u16
        ensures is { result ≡ place_vector place ports.now.latches self.now }
        ensures range { result < 65536 }
    {
        match self.chips.get(place) {
            Some(chip) => chip.vector(ports),
            None => 0,
        }
    }

    /// Keeps what a write that was taken does to each chip.
    #[inline]
    pub fn take(&mut self, wrote: Option<PortWrite>)
        ensures { self.new ≡ all_after_write wrote self.old }
    {
        if let Some(write) = wrote {
            write_all(&mut self.chips, write);
        }
    }

    /// The interrupt of the chip in a place of the description is acknowledged, at an instruction that ends at these clocks.
    pub fn acknowledge(&mut self, place: usize, phi: u64)
        ensures { self.new ≡ acknowledged_at_place (effect_time phi) place self.old }
    {
        if let Some(&requests) = self.chips.get(place) {
            self.chips[place] = requests.ended_at(phi.saturating_sub(WRITE_PHI));
        }
    }

    /// A pulse at the pin of the chip in a place of the description. Where there is no such chip nothing changes.
    pub fn pulse(&mut self, chip: u8)
        ensures { self.new ≡ pulse_at_place chip self.old }
    {
        let place = usize::from(chip);
        if let Some(&requests) = self.chips.get(place) {
            self.chips[place] = requests.with_pulse();
        }
    }
}

/// A write that was taken, at each chip.
fn write_all(chips: &mut [ChipRequests], write: PortWrite)
    ensures { chips.new ≡ map (after_port_write write) chips.old }
{
    for chip in chips.iter_mut() {
        *chip = chip.after_port_write(write);
    }
}
