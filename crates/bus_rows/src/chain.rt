// The chip of a chain that comes first, by hand.
use irq_chain::first_asking;

#[test]
fn chooses_the_first_that_asks(rt: HostRuntime) {
    assert!(rt; first_asking(&[false, true, false, true], true) == Some(1));
}
