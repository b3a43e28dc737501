//! Whole files cleaned, with the text that the rules give for them, and single lines.
use crate::text::EntryLine;
use crate::work::clean;
use std::alloc::Global;
use std::test::Fail;

/// The text of a whole file.
fn cleaned(heap: Global, bytes: &[u8]) -> Result<String, Fail> {
    Ok(clean(heap, Vec::from_slice(heap, bytes)?)?)
}

#[test]
fn refused_file_is_one_line(rt: HostRuntime) -> Result<(), Fail> {
    let text = cleaned(rt.alloc(), b"\x03")?;
    assert!(rt; text.as_str() == "refused 7 file 1\n");
    Ok(())
}

#[test]
fn lean_may_be_negative(rt: HostRuntime) -> Result<(), Fail> {
    let line = EntryLine {
        number: 2,
        kind: 'L',
        tower: 'v',
        symbols: 11,
        gain: 3,
        lean: -1,
    };
    let text = line.to_string(rt.alloc())?;
    assert!(rt; text.as_str() == "2 L v 11 3 -1\n");
    Ok(())
}

const THREE_ENTRIES: &[u8] = b"\x03\x01Cv\x00\x07LV\x00\x0bCp\x00\x08HTTHHHTacababbacabHTTTHHTH";

const THREE_CLEANED: &str =
    "1 C v 7 2 0\n2 L V 11 3 -1\n3 C p 8 5 1\nkey 63\npoured 10 loaded 8 held 2\n";

#[test]
fn three_entries_make_a_key(rt: HostRuntime) -> Result<(), Fail> {
    let text = cleaned(rt.alloc(), THREE_ENTRIES)?;
    assert!(rt; text.as_str() == THREE_CLEANED);
    Ok(())
}

const CAPITALS: &[u8] =
    b"\x0f\x02CV\x00\x14DV\x00\x12LV\x00\x18CE\x00\x16DE\x00\x14LE\x00\x1aCP\x00\x18DP\x00\x16LP\x00\x1cCQ\x00\x1aDQ\x00\x18LQ\x00\x1eCR\x00\x1cDR\x00\x1aLR\x00\x20THTTHHHHTHHHHTTHHHHH331635555156113115feficbeciaajebbbccibbbkbHHHHHHTHHHHHHHHHHHHTTH15416111341254513353bbbjfabbbaaajjbaeeeeiaffbaTHHHHTHHTTHTTHHHHHTHHTHH1121435556151511635113eelaaaafccobabehjeccibbbbbabHHHHTHHHHHTTHTTHHHHTHTHTHH131425211534116515333551nkdeemmagccccfhcccbbbabeaeccggHHHHTHHHHHHHHHHHHHHHHHHTHHTH51415614555316116624511415acgaaaabbddaaccfbafabfagaieeabcc";

const CAPITALS_CLEANED: &str =
    "1 C V 20 4 2\n2 D V 18 4 2\n3 L V 24 5 1\n4 C E 22 8 -4\nkey eb9c\n5 D E 20 8 -2\n6 L E 26 15 3\nkey 2433\n7 C P 24 11 -3\nkey e3c2\n8 D P 22 11 1\nkey 1cd9\n9 L P 28 12 -6\n10 C Q 26 11 -7\nkey 8160\n11 D Q 24 12 -4\nkey 6008\n12 L Q 30 8 0\n13 C R 28 9 1\nkey ccd1\n14 D R 26 16 2\nkey d79c\n15 L R 32 22 -6\nkey 9807\npoured 156 loaded 144 held 12\n";

#[test]
fn capitals_put_lanes_on_top(rt: HostRuntime) -> Result<(), Fail> {
    let text = cleaned(rt.alloc(), CAPITALS)?;
    assert!(rt; text.as_str() == CAPITALS_CLEANED);
    Ok(())
}
