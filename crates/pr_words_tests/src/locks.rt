use pr_lock::NewNo;
use pr_num::NoMemory;
use std::alloc::AllocError;
use std::test::Fail;

#[test]
fn a_refusal_has_a_text(rt: HostRuntime) -> Result<(), Fail> {
    for (refusal, text) in [
        (NewNo::from(NoMemory::from(AllocError)), "out of memory"),
        (NewNo::Taken { found: 3 }, "the new lock was taken: found 3"),
    ] {
        assert_eq!(rt; format!(in rt.alloc(); "{refusal}")?.as_str(), text);
    }
    Ok(())
}
