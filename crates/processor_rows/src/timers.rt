// Timers by values that were worked out by hand.
use f8_timer::{STEP_PHI, Timer};

// Passes 31 Φ, and says whether the timer expired in them.
fn pass_a_step(timer: &mut Timer) -> bool {
    let early = timer.pass(STEP_PHI - 1);
    timer.pass(1) || early
}

#[test]
fn goes_through_the_states_after_fe(rt: HostRuntime) {
    let mut timer = Timer::idle();
    timer.load(0xFE);
    for state in [0xFD, 0xFB, 0xF7, 0xEE, 0xDC, 0xB8] {
        assert!(rt; !pass_a_step(&mut timer));
        assert!(rt; timer.state() == state);
        assert!(rt; timer.phase() == 0);
    }
}

#[test]
fn expires_at_the_first_and_the_256th_step(rt: HostRuntime) {
    let mut timer = Timer::idle();
    assert!(rt; timer.until() == None);
    timer.load(0x7F);
    assert!(rt; timer.until() == Some(31));
    for step in 1..=256 {
        let expired = pass_a_step(&mut timer);
        assert!(rt; expired == (step == 1 || step == 256));
        if step == 1 {
            assert!(rt; timer.until() == Some(7905));
        }
    }
}

// Loaded at 56 Φ it expires at 87 Φ, which bus steps of 4 Φ reach in the one that ends at 88.
#[test]
fn expires_within_a_bus_step(rt: HostRuntime) {
    let mut timer = Timer::idle();
    timer.load(0x7F);
    for end in [60, 64, 68, 72, 76, 80, 84, 88] {
        let expired = timer.pass(4);
        assert!(rt; expired == (end == 88));
    }
    assert!(rt; timer.phase() == 1);
}
