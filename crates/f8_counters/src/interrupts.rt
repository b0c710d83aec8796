// Control, timer and request of a chip.
ghost use Rattle.std.specs.Prelude.{◌≡◌, ◌<◌, ◌+◌, ◌*◌, ◌/◌, ◌%◌, ◌==◌, ◌&&◌, ◌||◌, true, false, if◌then◌else◌};
ghost use Rattle.f8_spec.specs.ChipState.{admits_pulses, admits_expiries, vector_under};
ghost use Rattle.f8_spec.specs.ShiftTimer.{idle_timer, timer_loaded, timer_after, expires_within, step_period};

use f8_timer::Timer;

/// The low two bits of control that let pulses in, and those that let the timer's expiries in (Mostek 3851 data sheet in outline).
const PULSES: u8 = 1;

const EXPIRIES: u8 = 3;

/// Control, timer and request of a chip (Mostek 3851, 3853 and 3861 data sheets; the rules of requests are this project's own).
#[derive(Clone, Copy, Debug, PartialEq, Eq)]
pub struct Interrupts {
    /// The last byte written to the control port.
    control: u8,

    timer: Timer,

    /// The chip can interrupt.
    wired: bool,

    /// A request is latched.
    request: bool,
}

impl Interrupts {
    /// As at power-on: control 00, the timer at FF, and no request. `wired` says that the chip can interrupt.
    pub fn new(wired: bool) -> Interrupts
        ensures { result ≡ record {
          control = 0;
          timer = idle_timer;
          wired = wired;
          request = false;
        } }
    {
        Interrupts {
            control: 0,
            timer: Timer::idle(),
            wired,
            request: false,
        }
    }

    /// Power-on, which leaves the wiring.
    pub fn power(&mut self)
        ensures { self.new ≡ record {
          control = 0;
          timer = idle_timer;
          wired = self.old.wired;
          request = false;
        } }
    {
        *self = Interrupts::new(self.wired);
    }

    /// A byte for the control port, which also ends a latched request.
    #[inline]
    pub fn write_control(&mut self, byte: u8)
        ensures { self.new ≡ record self.old { control = byte; request = false } }
    {
        self.control = byte;
        self.request = false;
    }

    /// A byte for the timer's port: the timer's state is that byte, and its next step is a whole one away.
    #[inline]
    pub fn write_timer(&mut self, byte: u8)
        ensures { self.new ≡ record self.old { timer = timer_loaded byte } }
    {
        self.timer.load(byte);
    }

    /// Passes the timer some clocks in Φ, fewer than its step has. Where it expires in them and the low two bits of control are 3, a
    /// request is latched.
    #[inline]
    pub fn pass(&mut self, phi: u8)
        requires { phi < step_period }
        ensures { self.new ≡ record self.old {
          timer = timer_after phi self.old.timer;
          request = self.old.request ||
              (admits_expiries self.old.control && expires_within phi self.old.timer);
        } }
    {
        if self.timer.pass(phi) && self.control % 4 == EXPIRIES {
            self.request = true;
        }
    }

    /// An external pulse: a request is latched where the low two bits of control are 1, and else nothing changes.
    #[inline]
    pub fn pulse(&mut self)
        ensures { self.new ≡ (if admits_pulses self.old.control
            then record self.old { request = true } else self.old) }
    {
        if self.control % 4 == PULSES {
            self.request = true;
        }
    }

    /// Ends the request, which was acknowledged.
    #[inline]
    pub fn acknowledge(&mut self)
        ensures { self.new ≡ record self.old { request = false } }
    {
        self.request = false;
    }

    /// The chip can interrupt, and a request is latched.
    #[inline]
    pub fn asks(&self) -> bool
        ensures { result ≡ (self.now.wired && self.now.request) }
    {
        self.wired && self.request
    }

    /// The vector given for a request: bit 7 of its low byte is clear for the timer, and set for a pulse.
    #[inline]
    pub fn given_vector(&self, vector: u16) -> u16
        ensures { result ≡ vector_under self.now.control vector }
    {
        let source = if self.control % 4 == EXPIRIES { 0 } else { 128 };
        vector / 256 * 256 + source + vector % 128
    }
}
