use pr_asm::*;
use pr_num::{Instruction, Name, Reg, Sysno};
use std::alloc::{AllocError, Global};
use std::process::Abort;
use std::test::Fail;

fn name(rt: &impl Abort, text: &[u8]) -> Name {
    match Name::from_slice(text) {
        Some(name) => name,
        None => panic!(rt; "no name"),
    }
}

fn read(rt: &(impl Abort + Alloc<A = Global>), text: &[u8]) -> Result<Program, AsmRefusal> {
    assert!(rt; text.len() < 65_536);
    read_program(rt.alloc(), name(rt, b"p"), text, 1)
}

fn program(rt: &(impl Abort + Alloc<A = Global>), text: &[u8]) -> Program {
    match read(rt, text) {
        Ok(program) => program,
        Err(refusal) => panic!(rt; "refused: {refusal:?}"),
    }
}

// Two instructions, with a label after them.
#[test]
fn has_its_instructions_as_its_text(rt: HostRuntime) -> Result<(), Fail> {
    let code = vec![in rt.alloc();
        Instruction::Set {
            to: Reg::R3,
            imm: 0x102
        },
        Instruction::Sys { call: Sysno::Fork },
    ]?;
    let data = vec![in rt.alloc(); 7u8]?;
    let labels = vec![in rt.alloc(); Label::new(name(&rt, b"end"), 2)]?;
    let program = Program::new(name(&rt, b"p"), code, data, labels);
    let text = program.text(rt.alloc())?;
    let mut want = [0; 32];
    want[..16].copy_from_slice(&[3, 3, 0, 0, 0, 0, 0, 0, 2, 1, 0, 0, 0, 0, 0, 0]);
    want[16..].copy_from_slice(&[19, 0, 0, 0, 0, 0, 0, 0, 2, 0, 0, 0, 0, 0, 0, 0]);
    assert_eq!(rt; text.as_slice(), want.as_slice());
    Ok(())
}

// Sees that a line is one instruction of these bytes.
fn sees_form(rt: &(impl Abort + Alloc<A = Global>), text: &[u8], head: [u8; 3], immediate: u64) {
    let program = program(rt, text);
    let mut want = [0; 16];
    want[..3].copy_from_slice(&head);
    want[8..].copy_from_slice(&immediate.to_le_bytes());
    assert_eq!(rt; program.code().len(), 1);
    assert_eq!(rt; program.encode(0), want);
}

// Each form once: operation code, two register bytes, immediate.
#[test]
fn reads_each_form(rt: HostRuntime) {
    let rows: [(&[u8], [u8; 3], u64); 20] = [
        (b"bpt", [1, 0, 0], 0),
        (b"nop", [2, 0, 0], 0),
        (b"set r1, 18446744073709551615", [3, 1, 0], u64::MAX),
        (b"mov r7,r0", [4, 7, 0], 0),
        (b"add r1 r2", [5, 1, 2], 0),
        (b"sub r1, r2", [6, 1, 2], 0),
        (b"mul r1, r2", [7, 1, 2], 0),
        (b"div\tr1 , r2", [8, 1, 2], 0),
        (b"ld r1, r2, 0x0010", [9, 1, 2], 16),
        (b"st r3, r2, 0", [10, 3, 2], 0),
        (b"ldb r1, r2, 0xfF", [11, 1, 2], 255),
        (b"stb r1, r2, 1", [12, 1, 2], 1),
        (b"jmp 0x10000", [13, 0, 0], 0x10000),
        (b"jz r4, 7", [14, 4, 0], 7),
        (b"jnz r5, 8", [15, 5, 0], 8),
        (b"jlt r1, r2, 9", [16, 1, 2], 9),
        (b"call 10", [17, 0, 0], 10),
        (b"ret", [18, 0, 0], 0),
        (b"sys exit", [19, 0, 0], 1),
        (b"sys lwp_create", [19, 0, 0], 25),
    ];
    for (text, head, immediate) in rows {
        sees_form(&rt, text, head, immediate);
    }
}

// Names before and after their place: labels at multiples of 16 from 0x10000, data at multiples of 8 from 0x80000.
#[test]
fn places_names(rt: HostRuntime) {
    let program = program(
        &rt,
        b"# a comment, \xff\n\n  ,\nset r1, b\nstart:\ntext a \"x\\n\\\\\\\"\\x4A\"\nspace b 3\nset r2, a\ntext c \"a,  b\"\nset r1, c\nr1:\njmp r1\njmp start",
    );
    let want: [u64; 5] = [0x80008, 0x80000, 0x80010, 0x10030, 0x10010];
    assert_eq!(rt; program.code().len(), 5);
    for (index, value) in want.iter().enumerate() {
        let bytes = program.encode(index);
        assert_eq!(rt; &bytes[8..16], value.to_le_bytes().as_slice());
    }
    assert_eq!(rt;
        program.data(),
        b"x\n\\\"J\0\0\0\0\0\0\0\0\0\0\0a,  b\0".as_slice()
    );
    assert_eq!(rt; program.labels().len(), 2);
}

// The limits: 65,536 bytes of data, where data begins at a multiple of 8, and 4,096 instructions.
#[test]
fn keeps_to_its_limits(rt: HostRuntime) -> Result<(), Fail> {
    assert_eq!(rt; program(&rt, b"space a 65536").data().len(), 65_536);
    assert_eq!(rt;
        program(&rt, b"space a 65528\nspace b 8").data().len(),
        65_536
    );
    let full = program(&rt, &full_text(rt.alloc())?);
    assert_eq!(rt; full.code().len(), 4096);
    assert_eq!(rt; &full.encode(0)[8..12], [0, 0, 2, 0].as_slice());
    Ok(())
}

// A program of 4,096 instructions, with a label after them: 4,097 lines.
fn full_text(alloc: Global) -> Result<Vec<u8>, AllocError> {
    let mut text = Vec::new(alloc);
    for _ in 0..4096 {
        text.extend_from_slice(b"jmp z\n")?;
    }
    text.extend_from_slice(b"z:\n")?;
    Ok(text)
}

// The last label at or below an address; of two at one address the later one.
#[test]
fn finds_symbols(rt: HostRuntime) {
    let program = program(&rt, b"nop\nb:\nnop\na:\nc:\nspace d 1\nnop");
    let rows: [(u64, Option<(&[u8], u64)>); 6] = [
        (0, None),
        (0x1000f, None),
        (0x10010, Some((b"b", 0))),
        (0x1001f, Some((b"b", 15))),
        (0x10020, Some((b"c", 0))),
        (u64::MAX, Some((b"c", u64::MAX - 0x10020))),
    ];
    for (pc, want) in rows {
        assert_eq!(rt; program.symbol_at(pc), want);
    }
}

#[test]
fn shows_refusals(rt: HostRuntime) -> Result<(), Fail> {
    let refusal = AsmRefusal::Fault(AsmFault {
        line: 3,
        kind: AsmKind::Double,
    });
    let text = format!(in rt.alloc(); "{refusal}")?;
    assert_eq!(rt; text.as_str(), "line 3: Double");
    Ok(())
}
