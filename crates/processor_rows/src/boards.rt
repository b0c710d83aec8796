// A pixel drawn through the board, and frames that fall.
use console_board::{Board, PortWrite};

// The strobe rises at the column and the row inverted, so that one pixel is drawn.
#[test]
fn one_pixel(rt: HostRuntime) {
    let mut board = Board::new();
    board.write(PortWrite {
        phi: 40,
        port: 4,
        byte: 0xFA,
    });
    board.write(PortWrite {
        phi: 60,
        port: 5,
        byte: 0x37,
    });
    assert!(rt; board.screen().pixel(5, 8) == 0);
    board.write(PortWrite {
        phi: 80,
        port: 0,
        byte: 0x20,
    });
    assert!(rt; board.screen().pixel(5, 8) == 3);
}

// Frame 1 falls at 29,830 Φ and frame 2 at 59,660 Φ, each in the first call that has reached it.
#[test]
fn frames_fall_once(rt: HostRuntime) {
    let mut board = Board::new();
    assert!(rt; board.frame_due(29_829) == None);
    assert!(rt; board.frame_due(29_830) == Some(1));
    assert!(rt; board.frame_due(29_830) == None);
    assert!(rt; board.frame_due(59_659) == None);
    assert!(rt; board.frame_due(59_680) == Some(2));
}
