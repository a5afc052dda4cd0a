use pr_line::*;
use pr_num::{Bytes, Flt, Sig, Sysno};
use std::alloc::Global;
use std::process::Abort;
use std::test::Fail;

// The words of a line, a blank between two.
fn words(rt: &impl Alloc<A = Global>, line: &[u8]) -> Result<Vec<Bytes>, Fail> {
    let mut words = Vec::new(rt.alloc());
    for word in line.split(|b| *b == b' ') {
        words.push(Bytes::from_vec(Vec::from_slice(rt.alloc(), word)?))?;
    }
    Ok(words)
}

fn options(rt: &(impl Abort + Alloc<A = Global>), line: &[u8]) -> Result<Options, Fail> {
    let words = words(rt, line)?;
    assert!(rt; words.len() < 100);
    match read_options(rt.alloc(), &words) {
        Ok(options) => Ok(options),
        Err(fault) => panic!(rt; "refused: {fault:?}"),
    }
}

// Lists by names and numbers, excluded and replaced; all entries where there is no list.
#[test]
fn reads_options(rt: HostRuntime) -> Result<(), Fail> {
    let options = options(&rt, b"-f -t read -t !fork+3 -c -s SIGINT+2+HUP -p 1+0x20")?;
    assert!(rt; options.follow && options.count && !options.lwps);
    assert!(rt; options.calls.has(Sysno::Exit));
    assert!(rt; !options.calls.has(Sysno::Fork));
    assert!(rt; !options.calls.has(Sysno::Read));
    assert!(rt; options.signals.has(Sig::Int) && options.signals.has(Sig::Hup));
    assert!(rt; !options.signals.has(Sig::Term));
    assert!(rt; options.faults.has(Flt::Bpt));
    assert_eq!(rt; options.pids.as_slice(), [1, 32].as_slice());
    assert!(rt; options.program.is_none());
    Ok(())
}

// Of the word after -u the form is judged, and the functions are left to who knows the programs.
#[test]
fn leaves_functions_open(rt: HostRuntime) -> Result<(), Fail> {
    let options = options(&rt, b"-u p:go -l -u q-1:a+b+c+d+e+f+g+h+i+j+k+l+m+n+o+p p")?;
    assert!(rt; options.lwps && !options.follow && !options.count);
    assert!(rt; options.functions.is_empty());
    assert!(rt; options.program.is_some());
    Ok(())
}

// Words of truss(1), and the first of them at fault.
#[test]
fn names_the_word_at_fault(rt: HostRuntime) -> Result<(), Fail> {
    let rows: [(&[u8], OptFault); 19] = [
        (b"-z p", OptFault::BadOption { word: 0 }),
        (b"-f p q", OptFault::BadOption { word: 1 }),
        (b"-f -t", OptFault::BadOption { word: 1 }),
        (b"-p 1 p", OptFault::BadOption { word: 2 }),
        (b"-p x", OptFault::BadOption { word: 1 }),
        (b"-f -s !all p", OptFault::BadName { word: 2 }),
        (b"-t frob -z", OptFault::BadName { word: 1 }),
        (b"-u go p", OptFault::BadOption { word: 1 }),
        (b"-u p:go+ p", OptFault::BadOption { word: 1 }),
        (b"-u p:go+9 p", OptFault::BadOption { word: 1 }),
        (b"-u p:go:on p", OptFault::BadOption { word: 1 }),
        (b"-u :go p", OptFault::BadOption { word: 1 }),
        (
            b"-u p:a+b+c+d+e+f+g+h+i+j+k+l+m+n+o+p+q p",
            OptFault::BadOption { word: 1 },
        ),
        (b"-l -u", OptFault::BadOption { word: 1 }),
        (b"-u p:go -f p", OptFault::BadOption { word: 0 }),
        (b"-c -u p:go p", OptFault::BadOption { word: 1 }),
        (b"-u p:go -t frob -c p", OptFault::BadOption { word: 0 }),
        (b"-t frob -u p:go -c p", OptFault::BadName { word: 1 }),
        (b"-s -f -u p:go p", OptFault::BadName { word: 1 }),
    ];
    for (line, want) in rows {
        let words = words(&rt, line)?;
        assert!(rt; words.len() < 100);
        match read_options(rt.alloc(), &words) {
            Ok(_) => panic!(rt; "read {line:?}"),
            Err(fault) => assert_eq!(rt; fault, want, "at {line:?}"),
        }
    }
    Ok(())
}
