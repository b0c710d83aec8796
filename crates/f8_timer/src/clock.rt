// A timer that counts down to its expiry.
ghost use Rattle.std.specs.Prelude.{ℕ, ◌≡◌, ◌<◌, Some};
ghost use Rattle.f8_spec.specs.ShiftTimer.{shifted_timer, expires_next, idle_timer, timer_loaded, timer_after};
ghost use Rattle.f8_spec.specs.ShiftTimer.{expires_within, clocks_to_expiry, ExpiresAsLoaded, KeepsExpiries};
ghost use Rattle.f8_spec.specs.ShiftTimer.{TellsNextExpiry};

use super::cycle::{place_of_state, state_at_place};
use std::marker::Model;

/// The clocks from one step of a timer to the next, in Φ (this project's own).
pub const STEP_PHI: u8 = 31;

/// The clocks from one expiry of a timer to the next, in Φ: the states but FF form a cycle of 255 (this project's own).
pub const CYCLE_PHI: u16 = 255 * 31;

/// The place of FE, the state after the expiry: a whole cycle before the next one.
const FIRST_PLACE: u8 = 255;

/// The timer of a chip (Mostek 3851 data sheet in outline; the step's rule and its period are this project's own). It counts the
/// steps down to its expiry, so that no step shifts. Contracts see its state and the clocks since its last step.
#[derive(Clone, Copy, Debug, PartialEq, Eq)]
pub struct Timer {
    /// The place of its state in the cycle: the steps to the next expiry, and 0 where the state is FF, which has none.
    place: u8,

    /// The clocks since its last step, in Φ.
    phase: u8,
}

impl Model for Timer {
    ghost use Rattle.std.specs.Prelude.{◌<◌};
    ghost use Rattle.std.proofs.Common.{ap};
    ghost use Rattle.f8_spec.specs.ShiftTimer.{TimerState, step_period};
    ghost use Rattle.f8_timer.specs.CyclePlace.{place_of, state_at, placed_back};

    ghost Value = { TimerState };

    ghost view = { λ t. record { state = state_at t.place; phase = t.phase } };

    ghost invariant = { λ t. (t.place < 256) × (t.phase < step_period) };

    ghost inverse = { λ s. record { place = place_of s.state; phase = s.phase } };

    ghost inverse_ok = { λ t inside. ap (λ place. record { place = place; phase = t.phase })
        (placed_back t.place inside.0) };
}

impl Timer {
    /// A timer at power-on: FF, which never expires.
    pub fn idle() -> Timer
        ensures state { result ≡ idle_timer }
        ensures expiries { (time : ℕ) → ExpiresAsLoaded 255 0 time result }
    {
        Timer { place: 0, phase: 0 }
    }

    /// Loads the timer: its state is the byte, and its next step is a whole one away.
    #[inline]
    pub fn load(&mut self, byte: u8)
        ensures state { self.new ≡ timer_loaded byte }
        ensures expiries { (time : ℕ) → ExpiresAsLoaded byte time time self.new }
    {
        self.place = place_of_state(byte);
        self.phase = 0;
    }

    /// Passes some clocks in Φ, fewer than a step has, and says whether the timer expired in them.
    #[inline]
    pub fn pass(&mut self, phi: u8) -> bool
        requires { phi < STEP_PHI }
        ensures state { self.new ≡ timer_after phi self.old }
        ensures expires { result ≡ expires_within phi self.old }

        // Whatever was loaded and whenever, it expired exactly where the closed form has an expiry in these clocks.
        ensures expiries { KeepsExpiries phi self.old self.new result }
    {
        let since = self.phase + phi;
        if since < STEP_PHI {
            self.phase = since;
            return false;
        }
        self.phase = since - STEP_PHI;
        self.step()
    }

    /// One step of the state, and whether it is the one from 7F to FE.
    #[inline]
    fn step(&mut self) -> bool
        ensures state { self.new ≡ record self.old { state = shifted_timer self.old.state } }
        ensures expires { result ≡ expires_next self.old.state }
    {
        match self.place {
            0 => false,
            1 => {
                self.place = FIRST_PLACE;
                true
            }
            more => {
                self.place = more - 1;
                false
            }
        }
    }

    /// The state.
    pub fn state(&self) -> u8
        ensures { result ≡ self.now.state }
    {
        state_at_place(self.place)
    }

    /// The clocks since the last step, in Φ, below 31.
    pub fn phase(&self) -> u8
        ensures value { result ≡ self.now.phase }
        ensures below { result < STEP_PHI }
    {
        self.phase
    }

    /// The clocks from now to the next expiry, in Φ, if nothing is loaded before it, and `None` exactly where the state is FF.
    pub fn until(&self) -> Option<u16>
        ensures value { result ≡ clocks_to_expiry self.now }

        // An expiry leaves the state FE, and from there it is a whole cycle.
        ensures cycle { self.now ≡ timer_loaded 0xFE → result ≡ Some CYCLE_PHI }

        // Whatever was loaded and whenever, that is when the closed form has the next expiry.
        ensures expiry { TellsNextExpiry self.now result }
    {
        if self.place == 0 {
            return None;
        }
        Some(u16::from(self.place) * u16::from(STEP_PHI) - u16::from(self.phase))
    }
}
