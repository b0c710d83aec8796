// Names and numbers of codes.
ghost use Rattle.std.specs.Prelude.{◌≡◌};
ghost use Rattle.std.specs.List.{range_with_len};

use romc_table::{Counter, Driver, Romc, counter_of, driver_of};

/// The codes by their names, from 00 to 1F.
fn named() -> [Romc; 32]
    ensures { result ≡ range_with_len 0 32 }
{
    [
        Romc::FETCH,
        Romc::DISPLACEMENT,
        Romc::READ_DATA,
        Romc::OPERAND,
        Romc::RETURN,
        Romc::STORE_DATA,
        Romc::TELL_DATA_HIGH,
        Romc::TELL_STACK_HIGH,
        Romc::RESET,
        Romc::TELL_DATA_LOW,
        Romc::ADD_DATA,
        Romc::TELL_STACK_LOW,
        Romc::JUMP_LOW,
        Romc::SAVE_NEXT,
        Romc::LOAD_DATA_LOW,
        Romc::VECTOR_LOW,
        Romc::ACKNOWLEDGE,
        Romc::LOAD_DATA_HIGH,
        Romc::CALL_LOW,
        Romc::VECTOR_HIGH,
        Romc::SET_PROGRAM_HIGH,
        Romc::SET_STACK_HIGH,
        Romc::SET_DATA_HIGH,
        Romc::SET_PROGRAM_LOW,
        Romc::SET_STACK_LOW,
        Romc::SET_DATA_LOW,
        Romc::WRITE_PORT,
        Romc::READ_PORT,
        Romc::IDLE,
        Romc::EXCHANGE,
        Romc::TELL_PROGRAM_LOW,
        Romc::TELL_PROGRAM_HIGH,
    ]
}

#[test]
fn tells_codes_apart(rt: HostRuntime) {
    let names = named();
    assert!(rt; Romc::of(0x1D) == Some(names[0x1D]));
    assert!(rt; Romc::of(0x20) == None);
    assert!(rt; names[0x05].number() == 0x05);
    assert!(rt; driver_of(names[0x05]) == Driver::Cpu);
    assert!(rt; counter_of(names[0x05]) == Counter::Dc0);
}
