//! What no clause says: messages as bytes written by hand, both ways, where they stand in no case; and bytes that are
//! no message, each with its fault, of which a case shows that the answer is EINVAL.
use hex::FromHexError;
use pr_msg::*;
use std::alloc::{AllocError, Global};
use std::test::Fail;

/// The registers of a test, each another one.
const REGS: [u64; 11] = [1, 2, 3, 4, 5, 6, 7, 8, 9, 10, u64::MAX];

/// A message, the bytes after its operands, and its encoding, a word a text.
const ENCODINGS: [(Message, &[u8], &[&str]); 13] = [
    (
        Message::Twstop { ms: 1_000_000_000 },
        b"",
        &["0400000000000000", "00ca9a3b00000000"],
    ),
    (
        Message::Run { flags: 31 },
        b"",
        &["0500000000000000", "1f00000000000000"],
    ),
    (
        Message::Unkill { signal: 39 },
        b"",
        &["0a00000000000000", "2700000000000000"],
    ),
    (
        Message::Shold {
            signals: 0x7f_ffff_ffff,
        },
        b"",
        &["0b00000000000000", "ffffffff7f000000"],
    ),
    (
        Message::Sentry { calls: 0x7fff_ffff },
        b"",
        &["0e00000000000000", "ffffff7f00000000"],
    ),
    (
        Message::Sexit { calls: 2 },
        b"",
        &["0f00000000000000", "0200000000000000"],
    ),
    (
        Message::Sreg { regs: REGS },
        b"",
        &[
            "1200000000000000",
            "0100000000000000",
            "0200000000000000",
            "0300000000000000",
            "0400000000000000",
            "0500000000000000",
            "0600000000000000",
            "0700000000000000",
            "0800000000000000",
            "0900000000000000",
            "0a00000000000000",
            "ffffffffffffffff",
        ],
    ),
    (
        Message::Svaddr {
            pc: 0x0102_0304_0506_0708,
        },
        b"",
        &["1300000000000000", "0807060504030201"],
    ),
    // An area that ends at 2^64.
    (
        Message::Watch {
            at: 0xffff_ffff_ffff_fff8,
            size: 8,
            flags: 9,
        },
        b"",
        &[
            "1400000000000000",
            "f8ffffffffffffff",
            "0800000000000000",
            "0900000000000000",
        ],
    ),
    (
        Message::Agent { regs: REGS },
        b"",
        &[
            "1500000000000000",
            "0100000000000000",
            "0200000000000000",
            "0300000000000000",
            "0400000000000000",
            "0500000000000000",
            "0600000000000000",
            "0700000000000000",
            "0800000000000000",
            "0900000000000000",
            "0a00000000000000",
            "ffffffffffffffff",
        ],
    ),
    (
        Message::Read {
            at: 0x20_0000,
            len: 4_096,
        },
        b"",
        &["1600000000000000", "0000200000000000", "0010000000000000"],
    ),
    (
        Message::Write {
            at: 0x10_0000,
            len: 3,
        },
        b"abc",
        &[
            "1700000000000000",
            "0000100000000000",
            "0300000000000000",
            "6162630000000000",
        ],
    ),
    (
        Message::Write { at: 8, len: 8 },
        b"abcdefgh",
        &[
            "1700000000000000",
            "0800000000000000",
            "0800000000000000",
            "6162636465666768",
        ],
    ),
];

/// Bytes that are no message, in parts, and why.
const FAULTS: [(&[&str], MsgFault); 24] = [
    (&[], MsgFault::Short),
    (&["00000000000000"], MsgFault::Short),
    (&["0000000000000000"], MsgFault::UnknownOp),
    (&["1800000000000000"], MsgFault::UnknownOp),
    (&["0200000000000001"], MsgFault::UnknownOp),
    (&["0500000000000000"], MsgFault::Short),
    // PCRUN 32, PCSET 16, PCTWSTOP 1,000,000,001, PCSSIG 40, PCKILL 0, PCUNKILL 9, PCSTRACE with bit 39
    (
        &["0500000000000000", "2000000000000000"],
        MsgFault::BadOperand { word: 1 },
    ),
    (
        &["1000000000000000", "1000000000000000"],
        MsgFault::BadOperand { word: 1 },
    ),
    (
        &["0400000000000000", "01ca9a3b00000000"],
        MsgFault::BadOperand { word: 1 },
    ),
    (
        &["0800000000000000", "2800000000000000"],
        MsgFault::BadOperand { word: 1 },
    ),
    (
        &["0900000000000000", "0000000000000000"],
        MsgFault::BadOperand { word: 1 },
    ),
    (
        &["0a00000000000000", "0900000000000000"],
        MsgFault::BadOperand { word: 1 },
    ),
    (
        &["0c00000000000000", "0000000080000000"],
        MsgFault::BadOperand { word: 1 },
    ),
    // PCWATCH of size 0 with flags 1, beyond 2^64, of size 0 with flags 16, with flags 8, with flags 16
    (
        &[
            "1400000000000000",
            "0000000000000000",
            "0000000000000000",
            "0100000000000000",
        ],
        MsgFault::BadOperand { word: 2 },
    ),
    (
        &[
            "1400000000000000",
            "f8ffffffffffffff",
            "1000000000000000",
            "0100000000000000",
        ],
        MsgFault::BadOperand { word: 2 },
    ),
    (
        &[
            "1400000000000000",
            "0000000000000000",
            "0000000000000000",
            "1000000000000000",
        ],
        MsgFault::BadOperand { word: 2 },
    ),
    (
        &[
            "1400000000000000",
            "0000000000000000",
            "0100000000000000",
            "0800000000000000",
        ],
        MsgFault::BadOperand { word: 3 },
    ),
    (
        &[
            "1400000000000000",
            "0000000000000000",
            "0100000000000000",
            "1000000000000000",
        ],
        MsgFault::BadOperand { word: 3 },
    ),
    // PCREAD of no byte and of 4,097, PCWRITE of no byte, without its byte, without its padding, with other padding
    (
        &["1600000000000000", "0000000000000000", "0000000000000000"],
        MsgFault::BadOperand { word: 2 },
    ),
    (
        &["1600000000000000", "0000000000000000", "0110000000000000"],
        MsgFault::BadOperand { word: 2 },
    ),
    (
        &["1700000000000000", "0000000000000000", "0000000000000000"],
        MsgFault::BadOperand { word: 2 },
    ),
    (
        &["1700000000000000", "0000000000000000", "0100000000000000"],
        MsgFault::Short,
    ),
    (
        &[
            "1700000000000000",
            "0000000000000000",
            "0100000000000000",
            "41000000000000",
        ],
        MsgFault::Short,
    ),
    (
        &[
            "1700000000000000",
            "0000000000000000",
            "0100000000000000",
            "4100000000000001",
        ],
        MsgFault::BadOperand { word: 3 },
    ),
];

/// The bytes of texts, one after another.
fn bytes_of(alloc: Global, texts: &[&str]) -> Result<Vec<u8>, FromHexError> {
    let mut bytes = Vec::new(alloc);
    for text in texts {
        bytes.extend_from_slice(&hex::decode(alloc, *text)?)?;
    }
    Ok(bytes)
}

#[test]
fn encodes_and_reads_messages(rt: HostRuntime) -> Result<(), Fail> {
    for (message, tail, texts) in ENCODINGS {
        let mut bytes = bytes_of(rt.alloc(), texts)?;
        assert!(rt; tail.len() as u64 == tail_length(&message));
        assert_eq!(rt;
            encode(rt.alloc(), &message, tail)?.as_slice(),
            bytes.as_slice()
        );
        let len = bytes.len();
        bytes.push(0xff)?;
        assert_eq!(rt; decode_one(&bytes), Ok((message, len)));
    }
    Ok(())
}

#[test]
fn refuses_what_is_no_message(rt: HostRuntime) -> Result<(), Fail> {
    for (texts, fault) in FAULTS {
        let bytes = bytes_of(rt.alloc(), texts)?;
        assert_eq!(rt; decode_one(&bytes), Err(fault));
    }
    Ok(())
}
