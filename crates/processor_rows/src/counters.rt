// Counters and a request of a chip by worked steps.
use f8_counters::{Interrupts, Registers, low_byte};
use romc_table::{Counters, Romc};

// A call of 0123, of whose operand the first byte stands at 0005.
#[test]
fn follows_a_call(rt: HostRuntime) {
    let mut registers = Registers::at(0x0005);
    registers.hear(Romc::OPERAND, 0x01, true);
    registers.hear(Romc::SAVE_NEXT, 0x00, true);
    registers.hear(Romc::JUMP_LOW, 0x23, true);
    registers.hear(Romc::SET_PROGRAM_HIGH, 0x01, true);
    let Counters { pc0, pc1, dc0, dc1 } = registers.counters(true);
    assert!(rt; [pc0, pc1, dc0] == [0x0123, 0x0007, 0x0005]);
    assert!(rt; dc1 == Some(0x0005));
}

// Loaded with 7F the timer expires 31 Φ later. Under control 3 that asks, with bit 7 of the vector clear, and a load ends no request.
#[test]
fn requests_by_an_expiry(rt: HostRuntime) {
    let mut interrupts = Interrupts::new(true);
    interrupts.write_control(0x03);
    interrupts.write_timer(0x7F);
    for _ in 0..5 {
        interrupts.pass(6);
    }
    assert!(rt; !interrupts.asks());
    interrupts.pass(4);
    interrupts.write_timer(0xFF);
    assert!(rt; interrupts.asks());
    assert!(rt; low_byte(interrupts.given_vector(0x12B4)) == 0x34);
}
