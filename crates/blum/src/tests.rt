//! The Blum layer on small recordings.
use crate::layer::Blum;
use extractors::fault::ExtractorFault;
use extractors::interface::SymbolExtractor;
use extractors::pairs::Pairs;
use std::test::Fail;

#[test]
fn three_states(rt: HostRuntime) -> Result<(), Fail> {
    let pile = Blum { below: Pairs };
    let mut tray = [9; 22];
    let recording = [0, 2, 0, 1, 0, 1, 1, 0, 2, 0, 1];
    assert_eq!(rt; pile.extract(rt.alloc(), 3, &recording, &mut tray)?, 3);
    assert_eq!(rt;
        [tray[0], tray[1], tray[2], tray[3], tray[21]],
        [1, 0, 0, 9, 9]
    );
    Ok(())
}

#[test]
fn last_exits(rt: HostRuntime) -> Result<(), Fail> {
    let pile = Blum { below: Pairs };
    let mut tray = [9; 4];
    assert_eq!(rt; pile.extract(rt.alloc(), 2, &[0, 0, 1], &mut tray)?, 0);
    assert_eq!(rt; tray, [9, 9, 9, 9]);
    assert_eq!(rt; pile.extract(rt.alloc(), 2, &[0, 0, 1, 0], &mut tray)?, 1);
    assert_eq!(rt; tray, [0, 9, 9, 9]);
    assert_eq!(rt; pile.extract(rt.alloc(), 2, &[0, 1, 0, 0], &mut tray)?, 1);
    assert_eq!(rt; tray, [1, 9, 9, 9]);
    Ok(())
}

#[test]
fn without_exits(rt: HostRuntime) -> Result<(), Fail> {
    let pile = Blum { below: Pairs };
    let mut tray = [9; 8];
    assert_eq!(rt; pile.extract(rt.alloc(), 16, &[], &mut tray)?, 0);
    assert_eq!(rt; pile.extract(rt.alloc(), 16, &[15], &mut tray)?, 0);
    assert_eq!(rt; tray, [9; 8]);
    Ok(())
}

#[test]
fn a_state_visited_only_at_the_end(rt: HostRuntime) -> Result<(), Fail> {
    let pile = Blum { below: Pairs };
    let mut tray = [9; 16];
    assert_eq!(rt;
        pile.extract(rt.alloc(), 3, &[1, 0, 1, 1, 1, 2], &mut tray)?,
        1
    );
    assert_eq!(rt; [tray[0], tray[1]], [0, 9]);
    Ok(())
}

#[test]
fn two_layers(rt: HostRuntime) -> Result<(), Fail> {
    let pile = Blum {
        below: Blum { below: Pairs },
    };
    let mut tray = [9; 12];
    let recording = [0, 0, 0, 1, 0, 1, 0, 0, 1, 0, 1, 0];
    assert_eq!(rt; pile.extract(rt.alloc(), 2, &recording, &mut tray)?, 2);
    assert_eq!(rt; [tray[0], tray[1], tray[2]], [0, 1, 9]);
    Ok(())
}

#[test]
fn refused_as_judged(rt: HostRuntime) {
    let pile = Blum { below: Pairs };
    let mut tray = [9; 2];
    assert_eq!(rt;
        pile.extract(rt.alloc(), 2, &[0, 2], &mut tray),
        Err(ExtractorFault::Code(1))
    );
    assert_eq!(rt;
        pile.extract(rt.alloc(), 3, &[0, 2], &mut tray),
        Err(ExtractorFault::Tray(2))
    );
    assert_eq!(rt; tray, [9, 9]);
}
