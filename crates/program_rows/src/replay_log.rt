// The replay log of rewind: two instructions and two events.
use console_spec::Event;
use rewind::{Entry, Log, forgetting_law};
use std::test::Fail;

const KEYS: Event = Event::Keys {
    port: 0x04,
    byte: 0x30,
};

const PULSE: Event = Event::Pulse { chip: 0 };

#[test]
fn plays_a_log_again(rt: HostRuntime) -> Result<(), Fail> {
    let mut log = Log::with_room(rt.alloc(), 2)?;
    assert!(rt; log.next_entry() == None);
    log.add_event(KEYS);
    log.add_instruction();
    log.add_event(PULSE);
    log.add_instruction();
    assert!(rt; (log.place(), log.length(), log.spare()) == (2, 2, 0));

    log.rewind();
    assert!(rt; (log.place(), log.length(), log.spare()) == (0, 2, 0));
    assert!(rt; log.next_entry() == Some(Entry::Happens(KEYS)));
    assert!(rt; log.play() == Some(Entry::Happens(KEYS)));
    assert!(rt; log.play() == Some(Entry::Instruction));
    assert!(rt; log.next_entry() == Some(Entry::Happens(PULSE)));

    log.cut();
    assert!(rt; (log.place(), log.length(), log.spare()) == (1, 1, 1));
    assert!(rt; log.play() == None);

    log.clear();
    assert!(rt; (log.place(), log.length(), log.spare()) == (0, 0, 2));
    forgetting_law();
    Ok(())
}
