//! Short runs of the well and its parts on figures worked out by hand.
use crate::fault::WellFault;
use crate::queue::{Queue, ROOM};
use crate::slip::{Returned, Slip};
use crate::store::Well;
use crate::tray::Wipe;
use extractors::fault::{ExtractorFault, Fault, Layer};
use extractors::pairs::Pairs;
use std::alloc::Global;
use std::test::Fail;

#[test]
fn first_bit_is_highest(rt: HostRuntime) -> Result<(), Fail> {
    let mut queue = Queue::new(rt.alloc())?;
    assert_eq!(rt; queue.len(), 0);
    let _lean = queue.append(&[0, 1, 1, 0, 0, 0, 1, 1]);
    assert!(rt; queue.len() == 8);
    assert_eq!(rt; queue.take_byte(), 0x63);
    Ok(())
}

#[test]
fn faults_show_their_figures(rt: HostRuntime) {
    let code = WellFault::Extractor(ExtractorFault::Code(7));
    assert_eq!(rt; code.number(), 3);
    assert_eq!(rt; code.layer(), Layer::Extractor);
    assert_eq!(rt; code.place(), 7);
    let full = WellFault::Full(9);
    assert_eq!(rt; full.number(), 21);
    assert_eq!(rt; full.layer(), Layer::Well);
    assert_eq!(rt; full.place(), 9);
}

#[test]
fn slip_keeps_its_numbers(rt: HostRuntime) {
    let slip = Slip::cut(5, 1, 256);
    let mark = slip.mark();
    let number = slip.number();
    let bits = slip.bits();
    let spent = slip.spend();
    assert_eq!(rt; mark, 5);
    assert_eq!(rt; number, 1);
    assert_eq!(rt; bits, 256);
    assert_eq!(rt; spent, 256);
}

#[test]
fn guard_wipes_the_tray(rt: HostRuntime) {
    let mut tray = [7u8; 5];
    {
        let _guard = Wipe { tray: &mut tray };
    }
    assert_eq!(rt; tray, [0; 5]);
}

#[test]
fn oldest_bits_come_first(rt: HostRuntime) -> Result<(), Fail> {
    let mut queue = Queue::new(rt.alloc())?;
    assert!(rt; queue.len() == 0);
    let lean = queue.append(&[0, 1, 1, 0, 0, 0, 1, 1, 1, 0]);
    assert_eq!(rt; lean, 0);
    let mut key = [0u8; 1];
    assert!(rt; queue.len() == 10);
    queue.take_front(&mut key);
    assert_eq!(rt; key, [0x63]);
    assert_eq!(rt; queue.len(), 2);
    Ok(())
}

#[test]
fn taken_bits_make_way(rt: HostRuntime) -> Result<(), Fail> {
    let mut queue = Queue::new(rt.alloc())?;
    let ones = vec![in rt.alloc(); 1u8; ROOM]?;
    let zeros = vec![in rt.alloc(); 0u8; ROOM / 2]?;
    assert!(rt; ones.len() + queue.len() <= ROOM);
    assert_eq!(rt; queue.append(ones.as_slice()), 16640);
    let mut key = [0u8; 1040];
    assert!(rt; 8 * key.len() <= queue.len());
    queue.take_front(&mut key);
    assert!(rt; zeros.len() + queue.len() <= ROOM);
    assert_eq!(rt; queue.append(zeros.as_slice()), -8320);
    assert_eq!(rt; queue.len(), ROOM);
    assert!(rt; 8 * key.len() <= queue.len());
    queue.take_front(&mut key);
    assert_eq!(rt; key[0], 0xff);
    assert!(rt; 8 * key.len() <= queue.len());
    queue.take_front(&mut key);
    assert_eq!(rt; key[1039], 0);
    Ok(())
}

// Loads a slip that must be taken.
fn settle(well: &mut Well, slip: Slip) -> Result<(), Fail> {
    match refused(well, slip) {
        None => Ok(()),
        Some(_) => Err(Fail::new("a slip was handed back")),
    }
}

// The fault by which a slip is handed back; None where it is taken.
fn refused(well: &mut Well, slip: Slip) -> Option<WellFault> {
    match well.load(slip) {
        Ok(()) => None,
        Err(Returned { slip, fault }) => {
            let _ = slip.spend();
            Some(fault)
        }
    }
}

#[test]
fn a_key_is_dealt_and_loaded(rt: HostRuntime) -> Result<(), Fail> {
    let mut well = Well::new(rt.alloc(), 1)?;
    let mut tray = [9; 20];
    // the pairs 01 10 10 01 01 01 10 10 give 01100011
    let recording = [0, 1, 1, 0, 1, 0, 0, 1, 0, 1, 0, 1, 1, 0, 1, 0, 0, 1, 1];
    assert_eq!(rt;
        well.feed(rt.alloc(), &Pairs, 2, &recording, &mut tray)?,
        (9, -1)
    );
    assert_eq!(rt; tray, [0; 20]);
    let mut key = [0; 1];
    let slip = well.draw(&mut key)?;
    let figures = (slip.mark(), slip.number(), slip.bits());
    settle(&mut well, slip)?;
    assert_eq!(rt; key, [0x63]);
    assert_eq!(rt; figures, (1, 1, 8));
    assert_eq!(rt; (well.poured(), well.loaded(), well.held()), (9, 8, 1));
    Ok(())
}

#[test]
fn a_refused_feed_leaves_the_well(rt: HostRuntime) -> Result<(), Fail> {
    let mut well = Well::new(rt.alloc(), 1)?;
    let mut tray = [9; 2];
    let stray = well.feed(rt.alloc(), &Pairs, 2, &[0, 2], &mut tray);
    assert_eq!(rt; stray, Err(WellFault::Extractor(ExtractorFault::Code(1))));
    assert_eq!(rt; tray, [0; 2]);
    assert_eq!(rt;
        well.feed(rt.alloc(), &Pairs, 2, &[0; 4097], &mut tray),
        Err(WellFault::Extractor(ExtractorFault::Length(4097)))
    );
    assert_eq!(rt;
        well.feed(rt.alloc(), &Pairs, 2, &[0, 1], &mut tray)?,
        (1, -1)
    );
    assert_eq!(rt; (well.poured(), well.held()), (1, 1));
    Ok(())
}

#[test]
fn a_refused_draw_leaves_the_key(rt: HostRuntime) -> Result<(), Fail> {
    let mut well = Well::new(rt.alloc(), 1)?;
    let mut key = [7; 1];
    assert_eq!(rt; drawn(&mut well, &mut []), Some(WellFault::KeyLength(0)));
    assert_eq!(rt;
        drawn(&mut well, &mut [7; 33]),
        Some(WellFault::KeyLength(33))
    );
    assert_eq!(rt; drawn(&mut well, &mut key), Some(WellFault::Short(0)));
    assert_eq!(rt; key, [7]);
    Ok(())
}

// The fault of a draw; None where a key is dealt.
fn drawn(well: &mut Well, key: &mut [u8]) -> Option<WellFault> {
    well.draw(key).map(Slip::spend).err()
}

#[test]
fn slips_of_other_wells_are_handed_back(rt: HostRuntime) -> Result<(), Fail> {
    let mut well = Well::new(rt.alloc(), 1)?;
    assert_eq!(rt;
        refused(&mut well, Slip::cut(2, 1, 8)),
        Some(WellFault::Mark(2))
    );
    assert_eq!(rt;
        refused(&mut well, Slip::cut(1, 1, 8)),
        Some(WellFault::Excess(8))
    );
    Ok(())
}

#[test]
fn the_queue_has_an_end(rt: HostRuntime) -> Result<(), Fail> {
    let heap = rt.alloc();
    let mut well = Well::new(heap, 1)?;
    let recording = alternating(heap, 4096)?;
    let mut tray = vec![in heap; 0u8; 4096]?;
    for _ in 0..8 {
        assert_eq!(rt;
            well.feed(heap, &Pairs, 2, &recording, &mut tray)?,
            (2048, -2048)
        );
    }
    assert_eq!(rt;
        well.feed(heap, &Pairs, 2, &recording, &mut tray),
        Err(WellFault::Full(2048))
    );
    assert_eq!(rt; well.held(), 16384);
    Ok(())
}

#[test]
fn pouring_has_an_end(rt: HostRuntime) -> Result<(), Fail> {
    let heap = rt.alloc();
    let mut well = Well::new(heap, 1)?;
    let recording = alternating(heap, 4096)?;
    let mut tray = vec![in heap; 0u8; 4096]?;
    for _ in 0..8192 {
        well.feed(heap, &Pairs, 2, &recording, &mut tray)?;
        empty(&mut well, &mut [0; 32])?;
    }
    assert_eq!(rt; well.poured(), 16_777_216);
    assert_eq!(rt;
        well.feed(heap, &Pairs, 2, &[0, 1], &mut tray),
        Err(WellFault::Poured(1))
    );
    Ok(())
}

// Deals and loads eight keys.
fn empty(well: &mut Well, key: &mut [u8]) -> Result<(), Fail> {
    for _ in 0..8 {
        let slip = well.draw(key)?;
        settle(well, slip)?;
    }
    Ok(())
}

// Coins 0 1 0 1 ..., each pair of which gives a 0.
fn alternating(heap: Global, n: usize) -> Result<Vec<u8>, Fail> {
    let mut coins = Vec::new(heap);
    for _ in 0..n / 2 {
        coins.push(0)?;
        coins.push(1)?;
    }
    Ok(coins)
}
