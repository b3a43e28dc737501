//! The Peres layer on small recordings, over none and over itself, and the refusal of its depth.
use crate::layer::Peres;
use extractors::fault::{ExtractorFault, Fault};
use extractors::interface::CoinExtractor;
use extractors::no_bits::NoBits;
use std::test::Fail;

#[test]
fn depth_two_over_none(rt: HostRuntime) -> Result<(), Fail> {
    let layer = Peres::new(NoBits, 2)?;
    let mut tray = [9; 8];
    assert_eq!(rt;
        layer.extract(rt.alloc(), &[0, 1, 1, 1, 0, 0, 1, 0], &mut tray)?,
        5
    );
    assert_eq!(rt; tray, [0, 1, 1, 0, 1, 9, 9, 9]);
    Ok(())
}

#[test]
fn depth_zero_over_none(rt: HostRuntime) -> Result<(), Fail> {
    let layer = Peres::new(NoBits, 0)?;
    let mut tray = [9; 4];
    assert_eq!(rt; layer.extract(rt.alloc(), &[0, 1, 1, 0], &mut tray)?, 0);
    assert_eq!(rt; tray, [9, 9, 9, 9]);
    Ok(())
}

#[test]
fn single_code_at_every_level(rt: HostRuntime) -> Result<(), Fail> {
    let layer = Peres::new(NoBits, 3)?;
    let mut tray = [9; 7];
    assert_eq!(rt;
        layer.extract(rt.alloc(), &[0, 1, 0, 0, 1, 0, 1], &mut tray)?,
        3
    );
    assert_eq!(rt; tray, [0, 1, 1, 9, 9, 9, 9]);
    Ok(())
}

#[test]
fn layer_over_a_layer(rt: HostRuntime) -> Result<(), Fail> {
    let layer = Peres::new(Peres::new(NoBits, 1)?, 1)?;
    let mut tray = [9; 8];
    assert_eq!(rt;
        layer.extract(rt.alloc(), &[0, 1, 1, 1, 0, 0, 1, 0], &mut tray)?,
        5
    );
    assert_eq!(rt; tray, [0, 1, 1, 0, 1, 9, 9, 9]);
    Ok(())
}

#[test]
fn depth_out_of_range(rt: HostRuntime) -> Result<(), Fail> {
    let Err(fault) = Peres::new(NoBits, 13) else {
        panic!(rt; "a layer of depth 13 was made");
    };
    assert_eq!(rt; fault, ExtractorFault::Parameter(13));
    assert_eq!(rt; fault.number(), 5);
    assert_eq!(rt; fault.place(), 13);
    let _deepest = Peres::new(NoBits, 12)?;
    Ok(())
}

#[test]
fn refusal_keeps_the_tray(rt: HostRuntime) -> Result<(), Fail> {
    let layer = Peres::new(NoBits, 2)?;
    let mut tray = [9; 2];
    assert_eq!(rt;
        layer.extract(rt.alloc(), &[0, 1, 2], &mut tray),
        Err(ExtractorFault::Code(2))
    );
    assert_eq!(rt;
        layer.extract(rt.alloc(), &[0, 1, 1], &mut tray),
        Err(ExtractorFault::Tray(2))
    );
    assert_eq!(rt; tray, [9, 9]);
    Ok(())
}
