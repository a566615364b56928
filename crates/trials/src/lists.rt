// Plate lists, their sheets, and these read back.
use plate_lists::{Plate, lines, list_words, plate_of, sheet_of_lists, sheet_of_texts};
use std::test::Fail;

#[test]
fn the_lines_of_a_list_are_texts(rt: HostRuntime) -> Result<(), Fail> {
    let texts = lines(rt.alloc(), b"ab\n\nc")?;
    let sheet = sheet_of_texts(rt.alloc(), texts.as_slice())?;
    assert_eq!(rt;
        sheet.as_slice(),
        b"SL\x03\0\0\0TX\x02\0\0\0abTX\0\0\0\0TX\x01\0\0\0c".as_slice()
    );
    Ok(())
}

#[test]
fn a_list_is_read_back(rt: HostRuntime) -> Result<(), Fail> {
    let texts = lines(rt.alloc(), b"ab\n\nc")?;
    let sheet = sheet_of_texts(rt.alloc(), texts.as_slice())?;
    assert_eq!(rt;
        sheet.as_slice(),
        b"SL\x03\0\0\0TX\x02\0\0\0abTX\0\0\0\0TX\x01\0\0\0c".as_slice()
    );
    let words = list_words(rt.alloc(), sheet.as_slice())?;
    assert_eq!(rt; words.len(), 3);
    Ok(())
}

#[test]
fn a_line_is_a_plate(rt: HostRuntime) -> Result<(), Fail> {
    let Plate {
        number,
        cast,
        parts,
    } = plate_of(rt.alloc(), b"P1; C;a;;b")?;
    assert!(rt; number == b"P1".as_slice());
    assert!(rt; cast == b" C".as_slice());
    let mut lists = Vec::new(rt.alloc());
    lists.push(parts)?;
    let sheet = sheet_of_lists(rt.alloc(), lists.as_slice())?;
    assert_eq!(rt;
        sheet.as_slice(),
        b"SL\x01\0\0\0SL\x03\0\0\0TX\x01\0\0\0aTX\0\0\0\0TX\x01\0\0\0b".as_slice()
    );
    Ok(())
}
