// `play` over a store and a sink that never fail.
use super::calls::{File, LOOP_CART, LOOP_PLAY, LOOP_SCRIPT, files_of, status_of};
use f8_machine::Rack;
use outside::{SureSink, SureStore};
use psu3851::Psu;
use std::test::Fail;

static PLAY_FILES: [File; 2] = [("cart", LOOP_CART), ("script", LOOP_SCRIPT)];

static PLAY_WORDS: [&str; 3] = ["play", "cart", "script"];

#[test]
fn plays_over_what_never_fails(rt: HostRuntime) -> Result<(), Fail> {
    let mut rack: Rack = Vec::new(rt.alloc());
    rack.push(Box::new(rt.alloc(), Psu::blank())?)?;
    let mut store = SureStore::new(files_of(rt.alloc(), &PLAY_FILES, &[])?);
    let mut sink = SureSink::new(rt.alloc(), 4_096)?;
    let status = status_of(rt.alloc(), &PLAY_WORDS, &mut store, &mut sink, &mut rack)?;
    assert!(rt; status == 0);
    assert!(rt; sink.bytes() == LOOP_PLAY.as_bytes());
    Ok(())
}
