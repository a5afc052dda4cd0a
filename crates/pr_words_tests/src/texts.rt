use pr_num::NoMemory;
use pr_text::*;
use std::alloc::Global;
use std::process::Abort;
use std::test::Fail;

// A line of so many dots.
fn dots(rt: &impl Abort, alloc: Global, count: usize) -> Result<Line, NoMemory> {
    let mut line = Line::new(alloc)?;
    for _ in 0..count {
        assert_eq!(rt; line.text(b"."), Ok(()));
    }
    Ok(line)
}

#[test]
fn ends_at_4096_bytes(rt: HostRuntime) -> Result<(), Fail> {
    let mut line = dots(&rt, rt.alloc(), 4095)?;
    assert_eq!(rt; line.text(b"ab"), Err(TooLong));
    assert_eq!(rt; line.text(b"a"), Ok(()));
    assert_eq!(rt; line.len(), 4096);
    assert_eq!(rt; line.text(b"a"), Err(TooLong));
    Ok(())
}

#[test]
fn writes_numbers(rt: HostRuntime) -> Result<(), Fail> {
    let mut line = Line::new(rt.alloc())?;
    for (number, dec, hex, hex8) in [
        (0, "0", "0x0", "0x00000000"),
        (1, "1", "0x1", "0x00000001"),
        (0xabc, "2748", "0xabc", "0x00000abc"),
        (0x1000_0000, "268435456", "0x10000000", "0x10000000"),
        (0xffff_ffff, "4294967295", "0xffffffff", "0xffffffff"),
        (0x1_0000_0000, "4294967296", "0x100000000", "0x100000000"),
        (
            u64::MAX,
            "18446744073709551615",
            "0xffffffffffffffff",
            "0xffffffffffffffff",
        ),
    ] {
        line.clear();
        assert_eq!(rt; line.dec(number), Ok(()));
        assert_eq!(rt; line.bytes(), dec.as_bytes(), "{number} in decimal");
        line.clear();
        assert_eq!(rt; line.hex(number), Ok(()));
        assert_eq!(rt; line.bytes(), hex.as_bytes(), "{number} in hex");
        line.clear();
        assert_eq!(rt; line.hex8(number), Ok(()));
        assert_eq!(rt; line.bytes(), hex8.as_bytes(), "{number} in eight digits");
    }
    Ok(())
}

#[test]
fn quotes_bytes(rt: HostRuntime) -> Result<(), Fail> {
    let long = [b'x'; 65];
    let xs = "xxxxxxxxxxxxxxxxxxxxxxxxxxxxxxxxxxxxxxxxxxxxxxxxxxxxxxxxxxxxxxxx";
    let mut line = Line::new(rt.alloc())?;
    let rows: [(&[u8], bool, &str); 6] = [
        (b"", false, "\"\""),
        (b"", true, "\"\".."),
        (b"a\"b\\c", false, r#""a\"b\\c""#),
        (
            b"\n \x1f~\x7f\x00\xff",
            false,
            r#""\x0a \x1f~\x7f\x00\xff""#,
        ),
        (b"hi", true, "\"hi\".."),
        (b"0,\t", false, r#""0,\x09""#),
    ];
    for (bytes, more, text) in rows {
        line.clear();
        assert_eq!(rt; line.quoted(bytes, more), Ok(()));
        assert_eq!(rt; line.bytes(), text.as_bytes(), "{bytes:?}");
    }
    for (len, more, dots) in [
        (64, false, ""),
        (64, true, ".."),
        (65, false, ".."),
        (65, true, ".."),
    ] {
        line.clear();
        assert_eq!(rt; line.quoted(&long[..len], more), Ok(()));
        let want = format!(in rt.alloc(); "\"{xs}\"{dots}")?;
        assert_eq!(rt; line.bytes(), want.as_bytes(), "{len} bytes");
    }
    Ok(())
}

// Each row is a line, and its words with a bar after each.
#[test]
fn finds_words(rt: HostRuntime) -> Result<(), Fail> {
    for (line, want) in [
        ("", ""),
        (" ,\t, ", ""),
        ("set r1, 0x10", "set|r1|0x10|"),
        ("\tstop,run ", "stop|run|"),
        ("text m \"hi, you\\n\"", "text|m|\"hi, you\\n\"|"),
        ("\"a\"b", "\"a\"|b|"),
        ("\"a\"\"b\"", "\"a\"|\"b\"|"),
        ("\"a\\\" b\" c", "\"a\\\" b\"|c|"),
        ("x\"y z\"", "x\"y|z\"|"),
        ("a \"b c", "a|\"b c|"),
        ("\"", "\"|"),
        ("a:\rb#c", "a:\rb#c|"),
    ] {
        let mut found = Vec::new(rt.alloc());
        for text in word_texts(rt.alloc(), line.as_bytes())? {
            found.extend_from_slice(text)?;
            found.push(b'|')?;
        }
        assert_eq!(rt; found.as_slice(), want.as_bytes(), "in {line:?}");
    }
    Ok(())
}

#[test]
fn says_where_words_stand(rt: HostRuntime) -> Result<(), Fail> {
    let spans = words(b" ab,\"c d\"").collect::<Vec<Word>>(rt.alloc())?;
    assert_eq!(rt;
        spans.as_slice(),
        [Word { start: 1, end: 3 }, Word { start: 4, end: 9 }].as_slice()
    );
    let text = format!(in rt.alloc(); "{TooLong}")?;
    assert_eq!(rt; text.as_str(), "a line passes 4,096 bytes");
    Ok(())
}
