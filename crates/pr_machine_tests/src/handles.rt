use pr_open::OpenNo;
use std::test::Fail;

#[test]
fn a_refusal_has_a_text(rt: HostRuntime) -> Result<(), Fail> {
    for (refusal, text) in [
        (OpenNo::Busy, "the process is open for writing"),
        (OpenNo::Full, "too many open handles"),
        (OpenNo::BadHandle, "no such handle"),
    ] {
        assert_eq!(rt; format!(in rt.alloc(); "{refusal}")?.as_str(), text);
    }
    Ok(())
}
