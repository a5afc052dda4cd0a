use pr_codec::{Short, push_word, put_words, read_words};
use std::test::Fail;

// 0x0807060504030201 and then 0xff, least byte first.
const BYTES: [u8; 16] = [1, 2, 3, 4, 5, 6, 7, 8, 0xff, 0, 0, 0, 0, 0, 0, 0];

#[test]
fn adds_a_word_behind_others(rt: HostRuntime) -> Result<(), Fail> {
    let mut bytes = vec![in rt.alloc(); 9u8]?;
    push_word(&mut bytes, 0x0102_0304_0506_0708)?;
    push_word(&mut bytes, 0xff)?;
    let want = [9, 8, 7, 6, 5, 4, 3, 2, 1, 0xff, 0, 0, 0, 0, 0, 0, 0];
    assert_eq!(rt; bytes.as_slice(), want.as_slice());
    Ok(())
}

#[test]
fn writes_and_reads_words(rt: HostRuntime) {
    let mut words = [0; 2];
    read_words(&BYTES, &mut words);
    assert_eq!(rt; words, [0x0807_0605_0403_0201, 0xff]);
    let mut bytes = [0; 16];
    put_words(&mut bytes, &words);
    assert_eq!(rt; bytes, BYTES);
}

#[test]
fn says_where_it_is_short(rt: HostRuntime) -> Result<(), Fail> {
    let text = format!(in rt.alloc(); "{}", Short { at: 9 })?;
    assert_eq!(rt; text.as_str(), "no word of 8 bytes at byte 9");
    Ok(())
}
