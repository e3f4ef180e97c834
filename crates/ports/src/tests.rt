//! Answers and counts by tables worked out by hand.
use crate::known::{Abs, IsDigit, IsSpace, Labs};
use crate::port::Port;
use crate::table::TablePort;
use am_base::Width;
use am_lists::Items;
use code_form::PortSign;
use std::test::Fail;

#[test]
fn absolute_values(rt: HostRuntime) -> Result<(), Fail> {
    let alloc = rt.alloc();
    let mut abs = Abs::new(alloc)?;
    let words = [
        (0, 0),
        (1, 1),
        (0x7fff_ffff, 0x7fff_ffff),
        (0x8000_0000, 0x8000_0000),
        (0x8000_0001, 0x7fff_ffff),
        (0xffff_ffff, 1),
    ];
    for (word, answer) in words {
        assert!(rt; word < 1 << 32);
        assert!(rt; abs.asked() < 1 << 62);
        assert_eq!(rt; abs.ask(&[word]), Some(answer));
    }
    assert_eq!(rt; abs.asked(), 6);
    let mut labs = Labs::new(alloc)?;
    let words = [
        (0, 0),
        (0x7fff_ffff_ffff_ffff, 0x7fff_ffff_ffff_ffff),
        (0x8000_0000_0000_0000, 0x8000_0000_0000_0000),
        (0xffff_ffff_ffff_ffff, 1),
    ];
    for (word, answer) in words {
        assert!(rt; labs.asked() < 1 << 62);
        assert_eq!(rt; labs.ask(&[word]), Some(answer));
    }
    assert_eq!(rt; labs.sign().name.as_slice(), b"labs".as_slice());
    Ok(())
}

/// From -128 to 255.
#[test]
fn tests_of_characters(rt: HostRuntime) -> Result<(), Fail> {
    let alloc = rt.alloc();
    let mut digit = IsDigit::new(alloc)?;
    let mut space = IsSpace::new(alloc)?;
    for i in 0..384u64 {
        let word = if i < 128 { 0xffff_ff80 + i } else { i - 128 };
        assert!(rt; word < 1 << 32);
        assert!(rt; digit.asked() < 1 << 62);
        assert!(rt; space.asked() < 1 << 62);
        let is_digit = b"0123456789".iter().any(|b| u64::from(*b) == word);
        let is_space = [9, 10, 11, 12, 13, 32].iter().any(|b| *b == word);
        assert_eq!(rt; digit.ask(&[word]), Some(u64::from(is_digit)));
        assert_eq!(rt; space.ask(&[word]), Some(u64::from(is_space)));
    }
    Ok(())
}

#[test]
fn rows_of_a_table(rt: HostRuntime) -> Result<(), Fail> {
    let alloc = rt.alloc();
    let sign = PortSign {
        name: Items::from_slice(alloc, b"sum")?,
        params: Items::from_slice(alloc, &[Width::W8, Width::W64])?,
        result: Some(Width::W32),
    };
    let mut rows = Vec::new(alloc);
    for (a, b, answer) in [(1, 2, 30), (2, 1, 31), (1, 2, 32)] {
        rows.push((Vec::from_slice(alloc, &[a, b])?, answer))?;
    }
    let mut table = TablePort::new(sign, rows);
    assert_eq!(rt; table.ask(&[1, 2]), Some(30));
    assert_eq!(rt; table.ask(&[2, 1]), Some(31));
    assert_eq!(rt; table.ask(&[2, 2]), None);
    assert_eq!(rt; table.asked(), 3);
    Ok(())
}
