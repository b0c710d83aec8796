// States, values and points by hand.
use abs_domain::{Abs, Bit, Digit, Point, SCRATCHPAD_SIZE, Val, Word};

// What is known at reset: the status word and the data counters of the flat machine, which are 0.
const START: Abs = Abs {
    a: Val::Any,
    regs: [Val::Any; SCRATCHPAD_SIZE],
    hi: Digit::Any,
    lo: Digit::Any,
    w: [Bit::Known(false); 5],
    d0: Word::Known(0),
    d1: Word::Known(0),
    c: Word::Any,
    s0: false,
    s1: false,
    p0: false,
    p1: false,
};

#[test]
fn joins_the_start_with_a_loaded_counter(rt: HostRuntime) {
    let mut loaded = START;
    loaded.d0 = Word::Known(5);
    loaded.c = Word::Known(5);
    loaded.s0 = true;
    loaded.p0 = true;
    let joined = START.join(&loaded);
    let mut wanted = START;
    wanted.d0 = Word::Any;
    assert!(rt; joined == wanted);
    assert!(rt; START.below(&joined) && loaded.below(&joined));
    assert!(rt; !joined.below(&START) && !START.below(&loaded));
}

#[test]
fn joins_registers_and_digits(rt: HostRuntime) {
    let mut first = START;
    first.a = Val::Known(0x7F);
    first.regs[9] = Val::Known(1);
    first.regs[63] = Val::Known(2);
    first.hi = Digit::Known(7);
    first.lo = Digit::Known(3);
    let mut second = first;
    second.regs[63] = Val::Known(3);
    second.lo = Digit::Known(4);
    second.w[3] = Bit::Known(true);
    let joined = first.join(&second);
    let mut wanted = first;
    wanted.regs[63] = Val::Any;
    wanted.lo = Digit::Any;
    wanted.w[3] = Bit::Any;
    assert!(rt; joined == wanted);
    assert!(rt; second.below(&wanted) && !second.below(&first));
}

#[test]
fn knows_of_values_what_both_know(rt: HostRuntime) {
    assert!(rt; Val::Known(1).join(Val::Known(1)) == Val::Known(1));
    assert!(rt; Digit::Known(1).join(Digit::Known(2)) == Digit::Any);
    assert!(rt; Bit::Any.join(Bit::Known(true)) == Bit::Any);
    assert!(rt; Word::Known(1).join(Word::Any) == Word::Any);
    assert!(rt; Val::Known(1).below(Val::Any) && !Val::Any.below(Val::Known(1)));
    assert!(rt;
        Digit::Known(1).below(Digit::Known(1)) && !Bit::Known(true).below(Bit::Known(false))
    );
    assert!(rt; !Word::Known(1).below(Word::Known(2)));
}

#[test]
fn tells_values_as_options(rt: HostRuntime) {
    assert!(rt; Val::Known(1).known() == Some(1));
    assert!(rt; Digit::from(Some(7)).known() == Some(7));
    assert!(rt; Bit::from(None) == Bit::Any);
    assert!(rt; Word::Any.known() == None);
}

#[test]
fn orders_points_with_what_is_unset_first(rt: HostRuntime) {
    let unset = Point {
        at: 0x0100,
        ret: None,
        split: [None; 8],
    };
    let tracked = Point {
        split: [None, Some(0), None, None, None, None, None, None],
        ..unset
    };
    let called = Point {
        ret: Some(0),
        ..unset
    };
    let later = Point {
        at: 0x0101,
        ..unset
    };
    assert!(rt; unset < tracked && tracked < called && called < later);
}
